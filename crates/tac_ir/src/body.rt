//! What one instruction may name, and the kinds that it asks for.
ghost use Rattle.std.specs.Prelude.{◌≡◌, ◌&&◌, [], ◌∷◌, not, option_map, length, map, count_by, nat_lt, if◌then◌else◌};
ghost use Rattle.c_tree.specs.Layout.{bare};
ghost use Rattle.cheri_c_sem.specs.Types.{is_shift, scalar_of};
ghost use Rattle.tac_ir.specs.Effects.{kind_of, kind_at};
ghost use Rattle.tac_ir.specs.Bodies.{in_body, all_have_in, CallFits, HasCounted};
ghost use Rattle.tac_ir.specs.WellFormed.{kind_or_int, is_temp, has, has_int, has_capability, amount_fits, result_fits};
ghost use Rattle.tac_ir.specs.WellFormed.{second_is, second_is_address, second_is_capability, work_fits, service_fits};
ghost use Rattle.tac_ir.specs.WellFormed.{return_fits, is_local, constant_fits, is_unit, units_fit, instruction_fits};
ghost use Rattle.tac_ir.specs.WellFormed.{signature_of};

use crate::code::{Amount, CapWork, LibOp, TacInstr, TacKind};
use crate::kinds::{
    INT, POINTER, SIGNED_WORD, TRUTH, WORD, is_capability, is_int, kind_at, same_kind,
};
use crate::labels::has_label;
use crate::signatures::{Signature, kind_of_type, signature_at, signature_of_function};
use crate::slices::first_and_rest;
use c_tree::{FunDef, Typed, VarDef};
use ck_int::{IntOp, wrap};

/// A function of a program, with the kinds of its temps and its code.
#[derive(Clone, Copy)]
pub struct Body<'a> {
    pub program: &'a Typed,
    pub def: &'a FunDef,
    pub kinds: &'a [TacKind],
    pub code: &'a [TacInstr],
    /// How many of the function's variables are objects.
    pub objects: usize,
}

fn is_shift(op: IntOp) -> bool
    ensures { result ≡ is_shift op }
{
    matches!(op, IntOp::Shl | IntOp::Shr)
}

/// Whether a constant of an integer kind keeps a number of it. One of a capability's kind is an address.
fn constant_fits(kind: TacKind, value: u64) -> bool
    ensures { result ≡ constant_fits kind value }
{
    match kind {
        TacKind::Int(k) => wrap(k, i128::from(value)) == value,
        TacKind::Cap(_) => true,
    }
}

/// Whether one load or store moves so many bytes.
fn is_unit(n: u8) -> bool
    ensures { result ≡ is_unit n }
{
    n == 1 || n == 2 || n == 4 || n == 8 || n == 16
}

/// Whether so many bytes are whole units.
fn units_fit(bytes: u64, unit: u8) -> bool
    ensures { result ≡ units_fit bytes unit }
{
    is_unit(unit) && bytes % u64::from(unit) == 0
}

/// How many of the variables are objects.
pub fn objects(vars: &[VarDef]) -> usize
    ensures { result ≡ count_by (λ v. not v.simple) vars.now }
{
    vars.iter().filter(|v| !v.simple).count()
}

impl<'a> Body<'a> {
    fn is_temp(&self, t: u32) -> bool
        ensures { result ≡ in_body is_temp self.now t }
    {
        (t as usize) < self.kinds.len()
    }

    fn has(&self, t: u32, k: TacKind) -> bool
        ensures { result ≡ in_body has self.now t (kind_of k) }
    {
        self.is_temp(t) && same_kind(kind_at(self.kinds, t), k)
    }

    /// Whether two temps have one kind.
    fn has_kind_of(&self, t: u32, other: u32) -> bool
        ensures { result ≡ in_body has self.now t (kind_at self.now.kinds.now other) }
    {
        self.has(t, kind_at(self.kinds, other))
    }

    fn has_int(&self, t: u32) -> bool
        ensures { result ≡ in_body has_int self.now t }
    {
        self.is_temp(t) && is_int(kind_at(self.kinds, t))
    }

    fn has_capability(&self, t: u32) -> bool
        ensures { result ≡ in_body has_capability self.now t }
    {
        self.is_temp(t) && is_capability(kind_at(self.kinds, t))
    }

    fn amount_fits(&self, amount: Amount) -> bool
        ensures { result ≡ in_body amount_fits self.now amount }
    {
        match amount {
            Amount::Temp(t) => self.has_int(t),
            Amount::Number(_) => true,
        }
    }

    fn result_fits(&self, to: Option<u32>, gives: Option<TacKind>) -> bool
        ensures { result ≡ in_body result_fits self.now to (option_map kind_of gives) }
    {
        match (to, gives) {
            (None, _) => true,
            (Some(_), None) => false,
            (Some(t), Some(k)) => self.has(t, k),
        }
    }

    fn second_is(&self, b: Option<u32>, k: TacKind) -> bool
        ensures { result ≡ in_body second_is self.now b (kind_of k) }
    {
        match b {
            None => false,
            Some(t) => self.has(t, k),
        }
    }

    /// Whether the second operand has a 64-bit kind.
    fn second_is_address(&self, b: Option<u32>) -> bool
        ensures { result ≡ in_body second_is_address self.now b }
    {
        self.second_is(b, WORD) || self.second_is(b, SIGNED_WORD)
    }

    fn second_is_capability(&self, b: Option<u32>) -> bool
        ensures { result ≡ in_body second_is_capability self.now b }
    {
        match b {
            None => false,
            Some(t) => self.has_capability(t),
        }
    }

    fn work_fits(&self, op: CapWork, to: u32, a: u32, b: Option<u32>) -> bool
        ensures { result ≡ in_body work_fits self.now op to a b }
    {
        match op {
            CapWork::Base | CapWork::Offset | CapWork::Length | CapWork::Perms => {
                self.has(to, WORD) && self.has_capability(a) && b.is_none()
            }
            CapWork::Tag => self.has(to, TRUTH) && self.has_capability(a) && b.is_none(),
            CapWork::Clear => self.has_kind_of(to, a) && self.has_capability(a) && b.is_none(),
            CapWork::SetAddress => {
                self.has_kind_of(to, a) && self.has_capability(a) && self.second_is_address(b)
            }
            CapWork::AndPerms => {
                self.has_kind_of(to, a) && self.has_capability(a) && self.second_is(b, WORD)
            }
            CapWork::EqualExact => {
                self.has(to, TRUTH) && self.has_capability(a) && self.second_is_capability(b)
            }
            CapWork::Rounded | CapWork::Mask => {
                self.has(to, WORD) && self.has(a, WORD) && b.is_none()
            }
        }
    }

    /// Whether there are no arguments.
    fn has_none(&self, args: &[u32]) -> bool
        ensures { result ≡ all_have_in self.now args.now [] }
    {
        match first_and_rest(args) {
            None => true,
            Some(_) => false,
        }
    }

    /// Whether there is one argument, of this kind.
    fn has_one(&self, args: &[u32], k: TacKind) -> bool
        ensures { result ≡ all_have_in self.now args.now (kind_of k ∷ []) }
    {
        match first_and_rest(args) {
            None => false,
            Some((a, rest)) => self.has(*a, k) && self.has_none(rest),
        }
    }

    fn service_fits(&self, op: LibOp, to: Option<u32>, args: &[u32]) -> bool
        ensures { result ≡ in_body service_fits self.now op to args.now }
    {
        match op {
            LibOp::PutChar => self.has_one(args, INT) && self.result_fits(to, Some(INT)),
            LibOp::GetChar => self.has_none(args) && self.result_fits(to, Some(INT)),
            LibOp::Malloc => self.has_one(args, WORD) && self.result_fits(to, Some(POINTER)),
            LibOp::Exit => self.has_one(args, INT) && self.result_fits(to, None),
        }
    }

    /// Whether there are as many arguments as parameters, each of the kind of its parameter's type.
    fn args_fit(&self, args: &[u32], params: &[u32]) -> bool
        ensures { result ≡ all_have_in self.now args.now
            (map (λ q. kind_or_int (scalar_of (bare self.now.program.now.types q))) params.now) }
    {
        let types = self.program.types.as_slice();
        let mut left = args;
        let mut wanted = params;
        while let Some((arg, more)) = first_and_rest(left) {
            match first_and_rest(wanted) {
                None => return false,
                Some((of, rest)) => {
                    if !self.has(*arg, kind_of_type(types, *of)) {
                        return false;
                    }
                    left = more;
                    wanted = rest;
                }
            }
        }
        match first_and_rest(wanted) {
            None => true,
            Some(_) => false,
        }
    }

    fn call_fits(&self, of: Option<Signature>, to: Option<u32>, args: &[u32]) -> bool
        ensures { CallFits self.now of.entry to args.now result }
    {
        match of {
            None => false,
            Some(s) => self.args_fit(args, s.params) && self.result_fits(to, s.gives),
        }
    }

    fn return_fits(&self, v: Option<u32>) -> bool
        ensures { result ≡ in_body return_fits self.now (signature_of self.now.program.now self.now.def.now.of) v }
    {
        match signature_at(self.program, self.def.of) {
            None => false,
            Some(s) => match (s.gives, v) {
                (None, None) => true,
                (Some(k), Some(t)) => self.has(t, k),
                (None, Some(_)) | (Some(_), None) => false,
            },
        }
    }

    #[tactic(auto, using(crate::proofs::Objects::objects_counted))]
    fn is_local(&self, var: u32) -> bool
        requires { HasCounted self.now }
        ensures { result ≡ in_body is_local self.now var }
    {
        (var as usize) < self.objects
    }

    fn int_fits(&self, op: IntOp, k: TacKind, a: u32, b: u32) -> bool
        ensures { result ≡ (in_body has self.now a (kind_of k)
            && (if is_shift op then in_body has_int self.now b else in_body has self.now b (kind_of k))) }
    {
        self.has(a, k)
            && if is_shift(op) {
                self.has_int(b)
            } else {
                self.has(b, k)
            }
    }

    fn global_fits(&self, number: u32, literal: bool) -> bool
        ensures { result ≡ nat_lt number (if literal then length self.now.program.now.literals
            else length self.now.program.now.globals) }
    {
        let count = if literal {
            self.program.literals.as_slice().len()
        } else {
            self.program.globals.as_slice().len()
        };
        (number as usize) < count
    }

    /// Whether each temp, label, function, global, literal and local that an instruction names is there, the kinds
    /// agree, a constant keeps a number of its kind, and what is copied is whole units.
    pub fn instruction_fits(&self, i: &TacInstr) -> bool
        requires { HasCounted self.now }
        ensures { result ≡ in_body instruction_fits self.now i.now }
    {
        match i {
            TacInstr::Const { to, kind, value } => self.has(*to, *kind)
                && constant_fits(*kind, *value),
            TacInstr::Copy { to, from } => self.has_kind_of(*to, *from) && self.is_temp(*from),
            TacInstr::Int { op, kind, to, a, b } => {
                self.has(*to, TacKind::Int(*kind))
                    && self.int_fits(*op, TacKind::Int(*kind), *a, *b)
            }
            TacInstr::Cmp { kind, to, a, b, .. } => {
                self.has(*to, INT) && self.has(*a, *kind) && self.has(*b, *kind)
            }
            TacInstr::Convert { to, from, old, new } => self.has(*to, *new)
                && self.has(*from, *old),
            TacInstr::Cap { op, to, a, b } => self.work_fits(*op, *to, *a, *b),
            TacInstr::Offset { to, base, by } => self.moves_fit(*to, *base, *by),
            TacInstr::Narrow {
                to,
                base,
                length,
                ..
            } => self.moves_fit(*to, *base, *length),
            TacInstr::Load { to, from, kind, .. } => self.has(*to, *kind)
                && self.has_capability(*from),
            TacInstr::Store {
                at,
                value,
                kind,
                ..
            } => self.has_capability(*at) && self.has(*value, *kind),
            TacInstr::Local { to, var } => self.has(*to, POINTER) && self.is_local(*var),
            TacInstr::Global {
                to,
                number,
                literal,
            } => { self.has(*to, POINTER) && self.global_fits(*number, *literal) }
            TacInstr::Function { to, fun } => self.has(*to, POINTER) && self.is_function(*fun),
            TacInstr::Zero { var } => self.is_local(*var),
            TacInstr::CopyUnits {
                from,
                to,
                bytes,
                unit,
                ..
            } => {
                self.has_capability(*from) && self.has_capability(*to) && units_fit(*bytes, *unit)
            }
            TacInstr::Label(_) | TacInstr::Turn => true,
            TacInstr::Jump(label) => has_label(self.code, *label),
            TacInstr::Branch { on, label, .. } => self.is_temp(*on) && has_label(self.code, *label),
            TacInstr::Call { to, fun, args } => {
                self.call_fits(
                    signature_of_function(self.program, *fun),
                    *to,
                    args.as_slice(),
                )
            }
            TacInstr::CallValue {
                to,
                value,
                of,
                args,
                ..
            } => {
                self.has_capability(*value)
                    && self.call_fits(signature_at(self.program, *of), *to, args.as_slice())
            }
            TacInstr::Lib { op, to, args } => self.service_fits(*op, *to, args.as_slice()),
            TacInstr::Return(value) => self.return_fits(*value),
        }
    }

    /// Whether a capability of the base's kind, moved or narrowed by an amount, fits a temp.
    fn moves_fit(&self, to: u32, base: u32, amount: Amount) -> bool
        ensures { result ≡ (in_body has self.now to (kind_at self.now.kinds.now base)
            && in_body has_capability self.now base && in_body amount_fits self.now amount) }
    {
        self.has_kind_of(to, base) && self.has_capability(base) && self.amount_fits(amount)
    }

    fn is_function(&self, fun: u32) -> bool
        ensures { result ≡ nat_lt fun (length self.now.program.now.funs) }
    {
        (fun as usize) < self.program.funs.as_slice().len()
    }
}

//! Places that expressions designate (C11 6.3.2.1, 6.5.3.2), and what is read and written there.

ghost use Rattle.std.specs.Prelude.{◌≡◌, ◌∷◌, ◌+◌, ◌/◌, ◌<◌, ◌≤◌, ◌^◌, List, length, map, OnOk, option_map, slice_get};
ghost use Rattle.cap_ops.specs.Permissions.{const_permissions};
ghost use Rattle.c_tree.specs.Layout.{bare};
ghost use Rattle.c_tree.specs.declared.typed.Typed.{Typed};
ghost use Rattle.c_tree.specs.declared.typed.VarDef.{VarDef};
ghost use Rattle.ck_base.specs.Runs.{Goes};
ghost use Rattle.obj_mem.specs.Values.{value_of};
ghost use Rattle.cheri_c_sem.specs.Expressions.{assignment, type_of, permissions_of, expr_tree, variable};
ghost use Rattle.cheri_c_sem.specs.Meaning.{capability_of, further, position_of};
ghost use Rattle.cheri_c_sem.specs.Modes.{Store};
ghost use Rattle.cheri_c_sem.specs.Operations.{Operations};
ghost use Rattle.cheri_c_sem.specs.Tree.{Copy, Deref, Member, Object, Ex};
ghost use Rattle.cheri_c_sem.specs.Types.{is_record, unit_of};
ghost use Rattle.mean_types.specs.Facts.{AreTypesOf};
ghost use Rattle.mean_types.specs.Views.{kind_of};
ghost use Rattle.mean_steps.specs.Machine.{finish_place};
ghost use Rattle.mean_steps.specs.Parts.{Now, load, store, copy, copy_units, part_of_local};
ghost use Rattle.mean_operations.specs.Answers.{seen, IsAccess};
ghost use Rattle.mean_run.specs.Parts.{Gives, Did, Does, LeavesIt, UnitCopied, Unless_wanting};
ghost use Rattle.mean_run.specs.Placed.{Designates, Placed, PlaceFinishedBy, nowhere, taken_from, assigned_to};
ghost use Rattle.mean_run.specs.Sizes.{IsSmall};
ghost use Rattle.mean_run.specs.Sources.{IsFit, IsSource};
ghost use Rattle.mean_run.specs.Variables.{variable_at};
ghost use Rattle.mean_run.specs.Views.{now_of, moment_of, vars_at, funs_of};
ghost use Rattle.mean_work.specs.Places.{place_of};

use crate::locals::is_object;
use crate::state::{Source, State};
use crate::words::{live, word};
use c_tree::{Expr, ExprKind, Typed};
use ck_base::{NoMemory, Pos};
use mean_operations::Operations;
use mean_types::{Kind, TypeFacts, Types, bytes_of, read_as};
use mean_work::{NOWHERE, Place, Stop, Work, fault_end, unit_end};
use obj_mem::{Fault, Value};

/// The permissions of pointers to objects, and of those to objects that are not written.
pub const DATA: u16 = 125;

pub const CONST: u16 = 21;

/// The pointer so many bytes further on in what it points to.
pub fn further(v: Value, n: u64) -> Value
    ensures { value_of result ≡ further (value_of v) n }
{
    match v {
        Value::Live(object, low, high, offset, permissions) => {
            live(object, low, high, word(offset).wrapping_add(n), permissions)
        }
        Value::Int(_) | Value::Fun(_) | Value::Raw(_, _) => v,
    }
}

/// The permissions of pointers to a global.
pub fn global_permissions(p: &Typed, types: &Types, g: u32) -> u16
    requires { AreTypesOf p.now.types types.now }
    ensures { (vars : List VarDef) → result ≡ permissions_of p.now vars (slice_get p.now.globals g) }
{
    match p.globals.as_slice().get(g as usize) {
        None => DATA,
        Some(d) => if types.facts(p, d.of).constant {
            CONST
        } else {
            DATA
        },
    }
}

impl State {
    fn load_variable<B: Operations>(&self, m: &B, kind: Kind, x: u32) -> Result<Value, Fault>
        ensures { seen result ≡ variable_at (B.meaning m.now) (kind_of kind)
            (slice_get (map (option_map value_of) self.now.call.variables.items) x) }
    {
        match self.call.variables.get(x as usize) {
            None => m.unset(kind),
            Some(None) => m.unset(kind),
            Some(Some(v)) => Ok(*v),
        }
    }

    /// The value at a place.
    pub fn load<B: Operations>(&self, m: &B, kind: Kind, place: Place) -> Result<Value, Stop>
        ensures { Gives (load (B.meaning m.now) (kind_of kind) (place_of place) (now_of self.now (B.held m.now)))
            value_of (now_of self.now (B.held m.now)) result }
    {
        match place {
            Place::In(pos, x) => match self.load_variable(m, kind, x) {
                Err(f) => Err(Stop::Ended(fault_end(f, pos))),
                Ok(v) => Ok(v),
            },
            Place::At(pos, from) => match m.load(from, bytes_of(kind)) {
                Err(f) => Err(Stop::Ended(fault_end(f, pos))),
                Ok(v) => Ok(read_as(kind, v)),
            },
        }
    }

    /// A value goes to a place.
    pub fn store<B: Operations>(
        &mut self,
        m: &mut B,
        kind: Kind,
        place: Place,
        v: Value,
    ) -> Result<(), Stop>
        ensures same { B.meaning m.new ≡ B.meaning m.old }
        ensures did { (p : Typed) → Did (store (B.meaning m.old) (kind_of kind) (place_of place) (value_of v))
            (λ u. u) p self.old self.new (B.held m.old) (B.held m.new) result }
    {
        match place {
            Place::In(_, x) => {
                self.set_variable(x, Some(v));
                Ok(())
            }
            Place::At(pos, to) => match m.store(to, bytes_of(kind), v) {
                Err(f) => Err(Stop::Ended(fault_end(f, pos))),
                Ok(()) => Ok(()),
            },
        }
    }

    /// The place at an offset in an object of the current call.
    pub fn part_of_local<B: Operations>(
        &self,
        m: &B,
        pos: Pos,
        n: u64,
        offset: u64,
    ) -> Result<Place, Stop>
        ensures { n < 2 ^ 63 → Gives (part_of_local (B.meaning m.now) pos n offset (now_of self.now (B.held m.now)))
            place_of (now_of self.now (B.held m.now)) result }
    {
        let object = self.object(n);
        match m.offset(m.whole(object, DATA), offset) {
            Err(f) => Err(Stop::Ended(fault_end(f, pos))),
            Ok(v) => Ok(Place::At(pos, v)),
        }
    }

    /// The place that expression k designates goes on the places.
    pub fn place<B: Operations>(
        &mut self,
        m: &B,
        s: &Source<'_>,
        f: u32,
        k: u32,
    ) -> Result<(), NoMemory>
        requires { IsSource s.now }
        ensures { IsFit s.now.p.now → OnOk result (Designates (B.meaning m.now) (B.held m.now) s.now.p.now
            (expr_tree s.now.p.now (vars_at s.now.p.now f) k) self.old self.new) }
    {
        match s.p.exprs.as_slice().get(k as usize) {
            None => self.designate(NOWHERE),
            Some(e) => self.place_of(m, s, f, k, e),
        }
    }

    fn place_of<B: Operations>(
        &mut self,
        m: &B,
        s: &Source<'_>,
        f: u32,
        k: u32,
        e: &Expr,
    ) -> Result<(), NoMemory>
        requires { IsSource s.now }
        ensures { OnOk result (Placed (B.meaning m.now) (B.held m.now) s.now.p.now f k e.now.of e.now.pos e.now.kind
            self.old self.new) }
    {
        match &e.kind {
            ExprKind::Var(x) => self.variable_place(m, s, f, *x, e.pos),
            ExprKind::Global(g) => self.global_place(m, s, *g, e.pos),
            ExprKind::Literal(n) => self.literal_place(m, s, *n, e.pos),
            ExprKind::Fun(g) => self.designate(Place::At(e.pos, Value::Fun(*g))),
            ExprKind::Deref(a) => self.then(Work::Value(f, *a), Work::FinishPlace(f, k)),
            ExprKind::Member(a, _) => self.then(Work::Place(f, *a), Work::FinishPlace(f, k)),
            ExprKind::Conditional(c, _, _) => {
                self.then(Work::Value(f, *c), Work::ChoosePlace(f, k))
            }
            ExprKind::Comma(a, b) => self.both(Work::Value(f, *a), Work::Drop, Work::Place(f, *b)),
            ExprKind::Load(a) => self.taken_from(s, f, e.of, *a),
            ExprKind::Assign(a, b) => self.assigned_to(s, f, k, e.of, *a, *b),
            _ => self.designate(NOWHERE),
        }
    }

    fn global_place<B: Operations>(
        &mut self,
        m: &B,
        s: &Source<'_>,
        g: u32,
        pos: Pos,
    ) -> Result<(), NoMemory>
        requires { IsSource s.now }
        ensures { OnOk result ((vars : List VarDef) → Designates (B.meaning m.now) (B.held m.now) s.now.p.now
            (Object pos g (permissions_of s.now.p.now vars (slice_get s.now.p.now.globals g))) self.old self.new) }
    {
        let permissions = global_permissions(s.p, s.types, g);
        self.designate(Place::At(pos, m.whole(u64::from(g), permissions)))
    }

    fn literal_place<B: Operations>(
        &mut self,
        m: &B,
        s: &Source<'_>,
        n: u32,
        pos: Pos,
    ) -> Result<(), NoMemory>
        ensures { OnOk result (length s.now.p.now.globals < 2 ^ 32 → Designates (B.meaning m.now) (B.held m.now)
            s.now.p.now (Object pos (length s.now.p.now.globals + n) const_permissions) self.old self.new) }
    {
        let globals = s.p.globals.as_slice().len() as u64;
        self.designate(Place::At(pos, m.whole(globals.wrapping_add(u64::from(n)), CONST)))
    }

    /// A struct or union stands for the object that it is taken from.
    fn taken_from(&mut self, s: &Source<'_>, f: u32, of: u32, a: u32) -> Result<(), NoMemory>
        requires { IsSource s.now }
        ensures { OnOk result (self.new ≡ taken_from f a (is_record (bare s.now.p.now.types of)) self.old) }
    {
        if s.types.facts(s.p, of).record {
            self.push(Work::Place(f, a))
        } else {
            self.designate(NOWHERE)
        }
    }

    /// And an assigned one for the object that it is assigned to.
    fn assigned_to(
        &mut self,
        s: &Source<'_>,
        f: u32,
        k: u32,
        of: u32,
        a: u32,
        b: u32,
    ) -> Result<(), NoMemory>
        requires { IsSource s.now }
        ensures { OnOk result (self.new ≡ assigned_to f k a b (is_record (bare s.now.p.now.types of)) self.old) }
    {
        if s.types.facts(s.p, of).record {
            self.both(
                Work::Place(f, a),
                Work::Place(f, b),
                Work::FinishPlace(f, k),
            )
        } else {
            self.designate(NOWHERE)
        }
    }

    fn variable_place<B: Operations>(
        &mut self,
        m: &B,
        s: &Source<'_>,
        f: u32,
        x: u32,
        pos: Pos,
    ) -> Result<(), NoMemory>
        requires { IsSource s.now }
        ensures { OnOk result (Designates (B.meaning m.now) (B.held m.now) s.now.p.now
            (variable s.now.p.now (vars_at s.now.p.now f) pos x) self.old self.new) }
    {
        if is_object(s.p, f, x) {
            let object = self.object(s.locals.before(f, x));
            self.designate(Place::At(pos, m.whole(object, DATA)))
        } else {
            self.designate(Place::In(pos, x))
        }
    }

    /// The operation of expression k gives a place.
    pub fn finish_place<B: Operations>(
        &mut self,
        m: &mut B,
        s: &Source<'_>,
        f: u32,
        k: u32,
    ) -> Result<(), Stop>
        requires { IsSource s.now }
        ensures same { B.meaning m.new ≡ B.meaning m.old }
        ensures does { IsFit s.now.p.now → Does (finish_place (B.meaning m.old) (funs_of s.now.p.now)
            (expr_tree s.now.p.now (vars_at s.now.p.now f) k) (moment_of s.now.p.now self.old (B.held m.old)))
            (moment_of s.now.p.now self.new (B.held m.new)) result }
    {
        match s.p.exprs.as_slice().get(k as usize) {
            None => self.nowhere(),
            Some(e) => self.finish_place_of(m, s, f, e),
        }
    }

    fn nowhere(&mut self) -> Result<(), Stop>
        ensures { Unless_wanting result (self.new ≡ nowhere self.old) }
    {
        Ok(self.designate(NOWHERE)?)
    }

    fn finish_place_of<B: Operations>(
        &mut self,
        m: &mut B,
        s: &Source<'_>,
        f: u32,
        e: &Expr,
    ) -> Result<(), Stop>
        requires { IsSource s.now }
        ensures same { B.meaning m.new ≡ B.meaning m.old }
        ensures does { IsFit s.now.p.now → PlaceFinishedBy (B.meaning m.old) s.now.p.now f (B.held m.old) (B.held m.new)
            self.old self.new result e.now.of e.now.pos e.now.kind }
    {
        match &e.kind {
            ExprKind::Deref(_) => self.deref_place(e.pos),
            ExprKind::Member(a, member) => {
                self.member_place(m, e.pos, s.offsets.offset(type_of(s.p, *a), *member))
            }
            ExprKind::Assign(a, _) => self.assigned_place(m, s, *a, e),
            _ => self.nowhere(),
        }
    }

    fn deref_place(&mut self, pos: Pos) -> Result<(), Stop>
        ensures { (p : Typed) (ops : Operations Store) (held : Store) (x : Ex) → Does (finish_place ops (funs_of p)
            (Deref pos x) (moment_of p self.old held)) (moment_of p self.new held) result }
    {
        let v = self.take();
        Ok(self.designate(Place::At(pos, v))?)
    }

    fn member_place<B: Operations>(&mut self, m: &B, pos: Pos, offset: u64) -> Result<(), Stop>
        ensures { (p : Typed) (x : Ex) → Does (finish_place (B.meaning m.now) (funs_of p) (Member pos offset x)
            (moment_of p self.old (B.held m.now))) (moment_of p self.new (B.held m.now)) result }
    {
        let from = self.take_place();
        match m.offset(from.capability(), offset) {
            Err(f) => Err(Stop::Ended(fault_end(f, pos))),
            Ok(v) => Ok(self.designate(Place::At(pos, v))?),
        }
    }

    fn assigned_place<B: Operations>(
        &mut self,
        m: &mut B,
        s: &Source<'_>,
        a: u32,
        e: &Expr,
    ) -> Result<(), Stop>
        requires { IsSource s.now }
        ensures same { B.meaning m.new ≡ B.meaning m.old }
        ensures does { IsFit s.now.p.now → (vars : List VarDef) → IsSmall s.now.p.now e.now.of → (x y : Ex) →
            Does (finish_place (B.meaning m.old) (funs_of s.now.p.now)
            (assignment s.now.p.now vars e.now.pos e.now.of a x y)
            (moment_of s.now.p.now self.old (B.held m.old))) (moment_of s.now.p.now self.new (B.held m.new)) result }
    {
        let facts = s.types.facts(s.p, e.of);
        if facts.record {
            self.copy_place(m, e.pos, facts.size, unit(&facts))
        } else {
            self.nowhere()
        }
    }

    fn copy_place<B: Operations>(
        &mut self,
        m: &mut B,
        pos: Pos,
        bytes: u64,
        unit: u64,
    ) -> Result<(), Stop>
        requires { IsAccess unit }
        ensures same { B.meaning m.new ≡ B.meaning m.old }
        ensures does { (p : Typed) (x y : Ex) → Does (finish_place (B.meaning m.old) (funs_of p)
            (Copy pos bytes unit x y)
            (moment_of p self.old (B.held m.old))) (moment_of p self.new (B.held m.new)) result }
    {
        let from = self.take_place();
        let to = self.take_place();
        match copy(m, pos, bytes, unit, from, to) {
            Err(stop) => Err(stop),
            Ok(()) => self.designate_now(to),
        }
    }

    fn designate_now(&mut self, to: Place) -> Result<(), Stop>
        ensures { Unless_wanting result (self.new ≡ record self.old { places = to ∷ self.old.places }) }
    {
        Ok(self.designate(to)?)
    }
}

/// The bytes of a unit of a struct copy (C11 6.5.16.1): 1, 2, 4, 8 or 16, and at most the alignment.
pub fn unit(facts: &TypeFacts) -> u64
    ensures access { IsAccess result }
    ensures is { IsAccess (unit_of facts.now.align) → result ≡ unit_of facts.now.align }
{
    match facts.unit() {
        16 => 16,
        8..=15 => 8,
        4..=7 => 4,
        2 | 3 => 2,
        _ => 1,
    }
}

/// A size, where it is that of an object.
pub fn within_limit(size: u64) -> u64
    ensures few { result ≤ 67108864 }
    ensures is { size ≤ 67108864 → result ≡ size }
{
    size.min(67_108_864)
}

/// The number of an expression's type.
pub fn type_of(p: &Typed, k: u32) -> u32
    ensures { result ≡ type_of (slice_get p.now.exprs k) }
{
    match p.exprs.as_slice().get(k as usize) {
        None => 0,
        Some(e) => e.of,
    }
}

/// A struct or union is copied unit by unit, from the lowest address on.
pub fn copy<B: Operations>(
    m: &mut B,
    pos: Pos,
    bytes: u64,
    unit: u64,
    from: Place,
    to: Place,
) -> Result<(), Stop>
    requires { IsAccess unit }
    ensures same { B.meaning m.new ≡ B.meaning m.old }
    ensures did { (n : Now Store) → n.mem ≡ B.held m.old → LeavesIt (copy (B.meaning m.old) pos bytes unit
        (place_of from) (place_of to) n) (record n { mem = B.held m.new }) result }
{
    match m.overlap(from.capability(), to.capability(), bytes) {
        Err(f) => Err(Stop::Ended(fault_end(f, pos))),
        Ok(()) => copy_units(m, count_of(bytes, unit), unit, from, to),
    }
}

/// How many units so many bytes are.
fn count_of(bytes: u64, unit: u64) -> u64
    ensures { 0 < unit → result ≡ bytes / unit }
{
    if unit == 0 {
        return 0;
    }
    bytes / unit
}

/// So many units are copied, the first one first.
fn copy_units<B: Operations>(
    m: &mut B,
    units: u64,
    unit: u64,
    from: Place,
    to: Place,
) -> Result<(), Stop>
    requires { IsAccess unit }
    ensures same { B.meaning m.new ≡ B.meaning m.old }
    ensures did { (n : Now Store) → n.mem ≡ B.held m.old → LeavesIt (copy_units (B.meaning m.old) units unit 0
        (place_of from) (place_of to) n) (record n { mem = B.held m.new }) result }
{
    let mut at: u64 = 0;
    'units: for _ in 0..units {
        match copy_unit(m, at, unit, from, to) {
            Err(stop) => return Err(stop),
            Ok(()) => at = at.wrapping_add(unit),
        }
    }
    Ok(())
}

fn copy_unit<B: Operations>(
    m: &mut B,
    at: u64,
    unit: u64,
    from: Place,
    to: Place,
) -> Result<(), Stop>
    requires { IsAccess unit }
    ensures same { B.meaning m.new ≡ B.meaning m.old }
    ensures did { UnitCopied ((B.meaning m.old).copy_unit (B.held m.old) (further (capability_of (place_of from)) at)
        (further (capability_of (place_of to)) at) unit) (position_of (place_of from)) (position_of (place_of to))
        (B.held m.new) result }
{
    let read = further(from.capability(), at);
    let written = further(to.capability(), at);
    match m.copy_unit(read, written, unit as u8) {
        Ok(()) => Ok(()),
        Err(f) => Err(Stop::Ended(unit_end(f, from.position(), to.position()))),
    }
}

//! Which variables expressions write.

ghost use Rattle.std.specs.Prelude.{◌≡◌, List, IfOk};
ghost use Rattle.c_tree.specs.declared.typed.VarDef.{VarDef};
ghost use Rattle.c_tree.specs.declared.typed.Typed.{Typed};
ghost use Rattle.cheri_c_sem.specs.Expressions.{expr_tree};
ghost use Rattle.cheri_c_sem.specs.Order.{Ordered};
ghost use Rattle.tac_lower.specs.declared.writes.Written.TheVariants.{Nothing as nothing};
ghost use Rattle.tac_lower.specs.Writing.{both, written_on, target_in, writes_by};
ghost use Rattle.tac_lower.specs.Trees.{written_in, spares_of, AreBehind, AreCovered, SparesAll};

use c_tree::{Expr, ExprKind, Typed};
use ck_base::NoMemory;
use std::alloc::Global;

/// Which variables are written, by their numbers.
#[derive(Clone, Copy)]
pub enum Written {
    Nothing,
    One(u32),
    Any,
}

impl Written {
    /// A variable is not among them.
    pub fn spares(self, x: u32) -> bool
        ensures { result ≡ spares_of self x }
    {
        match self {
            Written::Nothing => true,
            Written::One(y) => x != y,
            Written::Any => false,
        }
    }

    /// Those of both.
    pub fn and(self, other: Written) -> Written
        ensures { result ≡ both self other }
    {
        match self {
            Written::Nothing => other,
            Written::Any => Written::Any,
            Written::One(x) => match other {
                Written::Nothing => self,
                Written::Any => Written::Any,
                Written::One(y) => { if x == y { self } else { Written::Any } }
            },
        }
    }
}

/// What an expression writes, by the table.
pub fn written_at(table: &[Written], k: u32) -> Written
    ensures { result ≡ written_in table.now k }
{
    match table.get(k as usize) {
        None => Written::Any,
        Some(w) => *w,
    }
}

/// What the expressions of a list write.
pub fn written_by(table: &[Written], ks: &[u32]) -> Written
    ensures is { result ≡ written_on (written_in table.now) nothing ks.now }
    ensures spares { SparesAll table.now result ks.now }
{
    let mut w = Written::Nothing;
    for k in ks {
        w = w.and(written_at(table, *k));
    }
    w
}

/// The variable of a place, if it is one. A conversion may leave a place as it is.
fn target(exprs: &[Expr], a: u32) -> Written
    ensures { (p : Typed) → p.exprs ≡ exprs.now → result ≡ target_in p a }
{
    match exprs.get(a as usize) {
        None => Written::Any,
        Some(e) => match e.kind {
            ExprKind::Var(x) => Written::One(x),
            ExprKind::Convert(_) => Written::Any,
            _ => Written::Nothing,
        },
    }
}

/// What an expression writes, by those of its operands.
fn written_of(exprs: &[Expr], table: &[Written], kind: &ExprKind) -> Written
    ensures { (p : Typed) → p.exprs ≡ exprs.now →
        result ≡ writes_by (written_in table.now) (target_in p) kind.now }
{
    match kind {
        ExprKind::Constant(_)
        | ExprKind::Literal(_)
        | ExprKind::Var(_)
        | ExprKind::Global(_)
        | ExprKind::Fun(_) => Written::Nothing,
        ExprKind::Load(a)
        | ExprKind::Decay(a)
        | ExprKind::Deref(a)
        | ExprKind::Member(a, _)
        | ExprKind::Address(a)
        | ExprKind::Convert(a)
        | ExprKind::Unary(_, a) => written_at(table, *a),
        ExprKind::Int(_, a, b)
        | ExprKind::Capability(_, a, b, _)
        | ExprKind::Plus(a, b, _)
        | ExprKind::Difference(a, b)
        | ExprKind::Compare(_, a, b)
        | ExprKind::And(a, b)
        | ExprKind::Or(a, b)
        | ExprKind::Comma(a, b) => written_at(table, *a).and(written_at(table, *b)),
        ExprKind::Conditional(c, a, b) => written_at(table, *c)
            .and(written_at(table, *a))
            .and(written_at(table, *b)),
        ExprKind::Assign(a, b) | ExprKind::Compound(_, a, b, _) => target(exprs, *a)
            .and(written_at(table, *a))
            .and(written_at(table, *b)),
        ExprKind::Step(a, _, _) => target(exprs, *a).and(written_at(table, *a)),
        ExprKind::Call(f, args) => { written_at(table, *f).and(written_by(table, args.as_slice())) }
        ExprKind::Library(_, args) => written_by(table, args.as_slice()),
    }
}

/// What each expression of a program writes, in their order.
pub fn writes_table(alloc: Global, p: &Typed) -> Result<Vec<Written>, NoMemory>
    ensures { IfOk result (λ table. Ordered p.now → (vars : List VarDef) →
        AreCovered table.items (expr_tree p.now vars)) }
{
    let exprs = p.exprs.as_slice();
    let mut table = Vec::new(alloc);
    for e in exprs {
        let w = written_of(exprs, table.as_slice(), &e.kind);
        table.push(w)?;
    }
    Ok(table)
}

/// What is written behind each expression of a list, from the last on.
pub fn written_behind(
    alloc: Global,
    table: &[Written],
    ks: &[u32],
) -> Result<Vec<Written>, NoMemory>
    ensures { IfOk result (λ ws. AreBehind table.now ks.now ws.items) }
{
    let mut behind = Vec::new(alloc);
    let mut w = Written::Nothing;
    let mut left = ks.len();
    while left > 0 {
        left -= 1;
        behind.push(w)?;
        w = w.and(written_at(table, ks[left]));
    }
    Ok(behind)
}

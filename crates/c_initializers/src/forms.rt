//! How an address that is known before the program runs is made (C11 6.6p9).

ghost use Rattle.std.specs.Prelude.{◌≡◌, ℕ, ◌<◌, List, not};
ghost use Rattle.ck_base.specs.declared.positions.Pos.{Pos};
ghost use Rattle.c_tree.specs.Types.{Ty};
ghost use Rattle.c_tree.specs.Terms.{Term};
ghost use Rattle.c_tree.specs.Statics.{is_value_start};
ghost use Rattle.c_tree.specs.Views.{kind_term};
ghost use Rattle.c_expressions.specs.Nodes.{IsWhole, OperandsBefore, term_in, term_count};
ghost use Rattle.c_initializers.specs.Forms.{IsForm, IsFormOf, StandsBefore};

use c_expressions::Nodes;
use c_tree::{ExprKind, Target};
use ck_int::IntOp;

/// How an address is made. Numbers without another word are those of expressions.
#[derive(Clone, Copy)]
pub(crate) enum Form {
    /// An object or a literal.
    Whole(Target),
    /// A function, by its number.
    Entry(u32),
    /// A member, by its number, of a place.
    Member(u32, u32),
    /// A place as a pointer.
    Pointed(u32),
    /// The place to which a pointer points.
    Same(u32),
    /// A pointer or capability integer as another one.
    Converted(u32),
    /// A sum of a pointer and a number, which is taken from it where the truth value says so.
    Plus(u32, u32, bool),
    /// A sum or difference of capability integers: whether it is a difference, and whether it derives from the right
    /// one.
    Derived(u32, u32, bool, bool),
    /// No address.
    Other,
}

// The form of an expression of this kind.
fn form_from(kind: &ExprKind) -> Form
    ensures is { IsFormOf kind.now result }
    ensures before { (n : ℕ) → OperandsBefore n kind.now → StandsBefore result n }
{
    match kind {
        ExprKind::Literal(k) => Form::Whole(Target::Literal(*k)),
        ExprKind::Global(k) => Form::Whole(Target::Global(*k)),
        ExprKind::Fun(k) => Form::Entry(*k),
        ExprKind::Member(a, k) => Form::Member(*a, *k),
        ExprKind::Address(a) | ExprKind::Decay(a) => Form::Pointed(*a),
        ExprKind::Deref(a) => Form::Same(*a),
        ExprKind::Convert(a) => Form::Converted(*a),
        ExprKind::Plus(a, b, minus) => Form::Plus(*a, *b, *minus),
        ExprKind::Capability(IntOp::Add, a, b, right) => Form::Derived(*a, *b, false, *right),
        ExprKind::Capability(IntOp::Sub, a, b, right) => Form::Derived(*a, *b, true, *right),
        _ => Form::Other,
    }
}

/// The form of an expression.
pub(crate) fn form_of(nodes: &Nodes, node: u32) -> Form
    requires whole { IsWhole nodes.now }
    requires there { node < term_count nodes.now }
    ensures { IsForm nodes.now node result }
{
    form_from(&nodes.p.exprs.as_slice()[node as usize].kind)
}

// Whether an expression of this kind is a value that is read from a place.
fn is_load(kind: &ExprKind) -> bool
    ensures { (ts : List Ty) (t : Ty) (p : Pos) (go : ℕ → Term) →
        is_value_start (kind_term ts kind.now t p go) ≡ not result }
{
    match kind {
        ExprKind::Load(_) => true,
        _ => false,
    }
}

/// Whether an expression is a value that is read from a place, which is not known before the program runs.
pub(crate) fn reads(nodes: &Nodes, node: u32) -> bool
    requires whole { IsWhole nodes.now }
    requires there { node < term_count nodes.now }
    ensures { is_value_start (term_in nodes.now node) ≡ not result }
{
    is_load(&nodes.p.exprs.as_slice()[node as usize].kind)
}

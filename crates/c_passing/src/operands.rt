//! The operands of an expression, where there are few.

ghost use Rattle.c_passing.specs.Operands.{IsFew};

use c_tree::ExprKind;

/// The operands of an expression that has at most two.
#[derive(Clone, Copy)]
pub(crate) enum Few {
    Nothing,
    One(u32),
    Two(u32, u32),
    /// Those of a call or of `?:`, which may be more.
    More,
}

/// The operands of an expression, where there are few. It takes no memory.
pub(crate) fn few_operands(kind: &ExprKind) -> Few
    ensures { IsFew kind.now result }
{
    match kind {
        ExprKind::Constant(_)
        | ExprKind::Literal(_)
        | ExprKind::Var(_)
        | ExprKind::Global(_)
        | ExprKind::Fun(_) => Few::Nothing,
        ExprKind::Load(a) => Few::One(*a),
        ExprKind::Decay(a) => Few::One(*a),
        ExprKind::Deref(a) => Few::One(*a),
        ExprKind::Member(a, _) => Few::One(*a),
        ExprKind::Address(a) => Few::One(*a),
        ExprKind::Convert(a) => Few::One(*a),
        ExprKind::Unary(_, a) => Few::One(*a),
        ExprKind::Step(a, _, _) => Few::One(*a),
        ExprKind::Int(_, a, b) => Few::Two(*a, *b),
        ExprKind::Capability(_, a, b, _) => Few::Two(*a, *b),
        ExprKind::Plus(a, b, _) => Few::Two(*a, *b),
        ExprKind::Difference(a, b) => Few::Two(*a, *b),
        ExprKind::Compare(_, a, b) => Few::Two(*a, *b),
        ExprKind::And(a, b) => Few::Two(*a, *b),
        ExprKind::Or(a, b) => Few::Two(*a, *b),
        ExprKind::Comma(a, b) => Few::Two(*a, *b),
        ExprKind::Assign(a, b) => Few::Two(*a, *b),
        ExprKind::Compound(_, a, b, _) => Few::Two(*a, *b),
        ExprKind::Conditional(_, _, _) | ExprKind::Call(_, _) | ExprKind::Library(_, _) => {
            Few::More
        }
    }
}

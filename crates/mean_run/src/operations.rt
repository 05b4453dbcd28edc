//! The operation that an expression is, and the kinds in which it is computed.

ghost use Rattle.std.specs.Prelude.{◌≡◌, not, true, false, List, Option, Some, slice_get, if◌then◌else◌};
ghost use Rattle.c_tree.specs.Layout.{bare};
ghost use Rattle.c_tree.specs.declared.typed.Typed.{Typed};
ghost use Rattle.c_tree.specs.declared.typed.VarDef.{VarDef};
ghost use Rattle.cheri_c_sem.specs.Types.{is_shift, adds_or_takes, is_plain, is_pointer, kind_of as kind_of_type};
ghost use Rattle.cheri_c_sem.specs.Types.{derived, derives_right, is_signed_capability, pointee_of, takes_away};
ghost use Rattle.c_tree.specs.declared.typed.CType.{CType};
ghost use Rattle.cheri_c_sem.specs.Tree as tree;
ghost use Rattle.cheri_c_sem.specs.Expressions.{type_of, bare_type, element_size, from_plain, expr_tree, compound_by};
ghost use Rattle.cheri_c_sem.specs.Expressions.{step_operation, step_kind, kind_at};
ghost use Rattle.mean_types.specs.Facts.{AreFactsOf, AreOwn};
ghost use Rattle.mean_types.specs.Views.{kind_of};
ghost use Rattle.mean_operations.specs.Views.{operation_of};
ghost use Rattle.mean_run.specs.Choices.{is_capability_integer, operand_of, IsBinaryBy};
ghost use Rattle.mean_run.specs.Sizes.{IsSizedBy, IsSmall, PointsToSmall};
ghost use Rattle.mean_run.specs.Sources.{IsFit, IsSource};

use crate::choices::kind_at;
use crate::places::type_of;
use crate::state::Source;
use c_tree::{Expr, ExprKind, Typed};
use ck_int::{IntKind, IntOp};
use mean_operations::{Derived, Moved, Operation};
use mean_types::{Kind, POINTER, TypeFacts, Types, int_kind, promoted};

/// What a compound assignment or a step computes: its operation, the kind of the place, and the kind of the
/// computation.
#[derive(Clone, Copy)]
pub struct Change {
    pub operation: Operation,
    pub place: Kind,
    pub computed: Kind,
    /// The expression has the old value.
    pub old: bool,
}

fn is_shift(op: IntOp) -> bool
    ensures { result ≡ is_shift op }
{
    matches!(op, IntOp::Shl | IntOp::Shr)
}

/// The operation by which a step moves up or down.
fn step_of(adds: bool) -> IntOp
    ensures { result ≡ adds_or_takes adds }
{
    if adds { IntOp::Add } else { IntOp::Sub }
}

/// The facts of an expression's type.
fn facts_at(s: &Source<'_>, k: u32) -> TypeFacts
    requires { IsSource s.now }
    ensures { AreFactsOf s.now.p.now.types (type_of (slice_get s.now.p.now.exprs k)) result }
{
    s.types.facts(s.p, type_of(s.p, k))
}

/// The size of what a pointer points to.
fn element_size(s: &Source<'_>, k: u32) -> u64
    requires { IsSource s.now }
    ensures { (vars : List VarDef) → IsSmall s.now.p.now (pointee_of (bare_type s.now.p.now vars k)) →
        result ≡ element_size s.now.p.now vars k }
{
    s.types.facts(s.p, facts_at(s, k).target).size
}

#[tactic(auto, using(crate::proofs::Kept::plain_by))]
fn is_plain(s: &Source<'_>, k: u32) -> bool
    requires { IsSource s.now }
    ensures { (vars : List VarDef) → result ≡ is_plain (bare_type s.now.p.now vars k) }
{
    matches!(facts_at(s, k).kind, Some(Kind::Plain(_)))
}

#[tactic(auto, using(crate::proofs::Kept::capability_by))]
fn is_capability_integer(s: &Source<'_>, k: u32) -> bool
    requires { IsSource s.now }
    ensures { (vars : List VarDef) → result ≡ is_capability_integer (bare_type s.now.p.now vars k) }
{
    let facts = facts_at(s, k);
    !facts.pointer && matches!(facts.kind, Some(Kind::Capability(_)))
}

/// The operand of an expression that is a conversion.
fn operand_of(p: &Typed, k: u32) -> Option<u32>
    ensures { result ≡ operand_of (slice_get p.now.exprs k) }
{
    match p.exprs.as_slice().get(k as usize) {
        None => None,
        Some(e) => match &e.kind {
            ExprKind::Convert(a) => Some(*a),
            _ => None,
        },
    }
}

/// Whether expression k is a conversion that makes a capability integer from a plain one, perhaps through others.
pub fn from_plain(s: &Source<'_>, k: u32) -> bool
    requires { IsSource s.now }
    ensures { IsFit s.now.p.now → (vars : List VarDef) → result ≡ from_plain (expr_tree s.now.p.now vars k) }
{
    let mut at = k;
    'operands: for _ in 0..=k {
        match operand_of(s.p, at) {
            None => return false,
            Some(operand) => {
                if !is_capability_integer(s, at) {
                    return false;
                }
                if is_plain(s, operand) {
                    return true;
                }
                if !is_capability_integer(s, operand) {
                    return false;
                }
                at = operand;
            }
        }
    }
    false
}

/// Whether an operand is a plain integer, or was converted from one.
fn was_plain(s: &Source<'_>, k: u32) -> bool
    requires { IsSource s.now }
    ensures { IsFit s.now.p.now → (vars : List VarDef) → result ≡ (if is_plain (bare_type s.now.p.now vars k)
        then true else from_plain (expr_tree s.now.p.now vars k)) }
{
    if is_plain(s, k) {
        true
    } else {
        from_plain(s, k)
    }
}

fn derives_right(op: IntOp, left_plain: bool, right_plain: bool) -> bool
    ensures { result ≡ derives_right op left_plain right_plain }
{
    !is_shift(op) && left_plain && !right_plain
}

/// On capability integers the result derives from the operand that was not converted from a plain integer, and from the
/// left one where both were or neither was, or in a shift.
fn derived(op: IntOp, signed: bool, count: Kind, left_plain: bool, right_plain: bool) -> Operation
    ensures { operation_of result ≡ derived op signed (kind_of count) left_plain right_plain }
{
    let right = derives_right(op, left_plain, right_plain);
    Operation::Derived(Derived {
        op,
        signed,
        count,
        right,
        plain: if right { left_plain } else { right_plain },
    })
}

fn takes_away(op: IntOp) -> bool
    ensures { result ≡ takes_away op }
{
    matches!(op, IntOp::Sub)
}

/// The operation of a compound assignment, computed in a type.
fn compound(s: &Source<'_>, op: IntOp, a: u32, b: u32, computed: u32) -> Operation
    requires { IsSource s.now }
    ensures { IsFit s.now.p.now → (vars : List VarDef) → PointsToSmall s.now.p.now (bare s.now.p.now.types computed) →
        operation_of result ≡ compound_by s.now.p.now vars op (bare s.now.p.now.types computed) a b
        (expr_tree s.now.p.now vars b) }
{
    let facts = s.types.facts(s.p, computed);
    if facts.pointer {
        return Operation::Moved(Moved {
            size: s.types.facts(s.p, facts.target).size,
            minus: takes_away(op),
            left: false,
            index: kind_at(s, b),
        });
    }
    match facts.kind_or_int() {
        Kind::Capability(signed) => {
            derived(op, signed, kind_at(s, b), is_plain(s, a), was_plain(s, b))
        }
        Kind::Plain(k) => Operation::Whole(op, k, kind_at(s, b)),
    }
}

/// A place moved by one is computed in its promoted type (C11 6.5.2.4, 6.5.3.1).
fn step_operation(s: &Source<'_>, a: u32, adds: bool) -> Operation
    requires { IsSource s.now }
    ensures { (vars : List VarDef) → PointsToSmall s.now.p.now (bare_type s.now.p.now vars a) → operation_of result
        ≡ step_operation s.now.p.now vars adds (bare_type s.now.p.now vars a) }
{
    let facts = facts_at(s, a);
    let one = Kind::Plain(IntKind::I32);
    if facts.pointer {
        return Operation::Moved(Moved {
            size: s.types.facts(s.p, facts.target).size,
            minus: !adds,
            left: false,
            index: one,
        });
    }
    match facts.kind_or_int() {
        Kind::Capability(signed) => Operation::Derived(Derived {
            op: step_of(adds),
            signed,
            count: one,
            right: false,
            plain: true,
        }),
        Kind::Plain(k) => Operation::Whole(step_of(adds), promoted(k), one),
    }
}

fn step_kind(kind: Kind) -> Kind
    ensures { (p : Typed) (vars : List VarDef) → kind_of result ≡ step_kind p vars (kind_of kind) }
{
    match kind {
        Kind::Plain(k) => Kind::Plain(promoted(k)),
        Kind::Capability(signed) => Kind::Capability(signed),
    }
}

/// The sum of a pointer and an integer.
fn sum(s: &Source<'_>, a: u32, b: u32, minus: bool) -> Operation
    requires { IsSource s.now }
    ensures { (vars : List VarDef) → IsSmall s.now.p.now (pointee_of (if is_pointer (bare_type s.now.p.now vars a)
        then bare_type s.now.p.now vars a else bare_type s.now.p.now vars b)) → operation_of result
        ≡ (if is_pointer (bare_type s.now.p.now vars a)
        then tree.Moved (element_size s.now.p.now vars a) minus false (kind_at s.now.p.now vars b)
        else tree.Moved (element_size s.now.p.now vars b) minus true (kind_at s.now.p.now vars a)) }
{
    if facts_at(s, a).pointer {
        Operation::Moved(Moved {
            size: element_size(s, a),
            minus,
            left: false,
            index: kind_at(s, b),
        })
    } else {
        Operation::Moved(Moved {
            size: element_size(s, b),
            minus,
            left: true,
            index: kind_at(s, a),
        })
    }
}

#[tactic(auto, using(crate::proofs::Kept::signed_by))]
fn is_signed_capability(own: &TypeFacts) -> bool
    ensures { (o : Option CType) → AreOwn o own.now → result ≡ is_signed_capability o }
{
    !own.pointer && matches!(own.kind, Some(Kind::Capability(true)))
}

/// The operand from which the result on capability integers does not derive.
fn other_operand(right: bool, a: u32, b: u32) -> u32
    ensures { result ≡ (if right then a else b) }
{
    if right { a } else { b }
}

/// The binary operation that an expression is.
pub fn binary_operation(s: &Source<'_>, e: &Expr) -> Option<Operation>
    requires { IsSource s.now }
    ensures { IsFit s.now.p.now → (vars : List VarDef) → IsSizedBy s.now.p.now e.now.of e.now.kind →
        IsBinaryBy s.now.p.now vars e.now result }
{
    match &e.kind {
        ExprKind::Int(op, _, b) => {
            let own = s.types.facts(s.p, e.of).kind_or_int();
            Some(Operation::Whole(*op, int_kind(own), kind_at(s, *b)))
        }
        ExprKind::Capability(op, a, b, right) => {
            let own = s.types.facts(s.p, e.of);
            Some(Operation::Derived(Derived {
                op: *op,
                signed: is_signed_capability(&own),
                count: kind_at(s, *b),
                right: *right,
                plain: from_plain(s, other_operand(*right, *a, *b)),
            }))
        }
        ExprKind::Plus(a, b, minus) => Some(sum(s, *a, *b, *minus)),
        ExprKind::Difference(a, _) => Some(Operation::Apart(element_size(s, *a))),
        _ => None,
    }
}

/// What a compound assignment computes.
pub fn compound_change(s: &Source<'_>, op: IntOp, a: u32, b: u32, computed: u32) -> Change
    requires { IsSource s.now }
    ensures operation { IsFit s.now.p.now → (vars : List VarDef) →
        PointsToSmall s.now.p.now (bare s.now.p.now.types computed) → operation_of result.operation
        ≡ compound_by s.now.p.now vars op (bare s.now.p.now.types computed) a b (expr_tree s.now.p.now vars b) }
    ensures place { (vars : List VarDef) → kind_of result.place ≡ kind_at s.now.p.now vars a }
    ensures computed { kind_of result.computed ≡ kind_of_type (bare s.now.p.now.types computed) }
    ensures old { result.old ≡ false }
{
    Change {
        operation: compound(s, op, a, b, computed),
        place: kind_at(s, a),
        computed: s.types.facts(s.p, computed).kind_or_int(),
        old: false,
    }
}

/// What a step computes.
pub fn step_change(s: &Source<'_>, a: u32, adds: bool, front: bool) -> Change
    requires { IsSource s.now }
    ensures operation { (vars : List VarDef) → PointsToSmall s.now.p.now (bare_type s.now.p.now vars a) →
        operation_of result.operation
        ≡ step_operation s.now.p.now vars adds (bare_type s.now.p.now vars a) }
    ensures place { (vars : List VarDef) → kind_of result.place ≡ kind_at s.now.p.now vars a }
    ensures computed { (vars : List VarDef) → kind_of result.computed
        ≡ step_kind s.now.p.now vars (kind_at s.now.p.now vars a) }
    ensures old { result.old ≡ not front }
{
    Change {
        operation: step_operation(s, a, adds),
        place: kind_at(s, a),
        computed: step_kind(kind_at(s, a)),
        old: !front,
    }
}

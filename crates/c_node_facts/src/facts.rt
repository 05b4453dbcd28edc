//! What the rules ask of an expression beside its type and its place. It stands beside each node, so that no operand is
//! read again.

ghost use Rattle.std.specs.Prelude.{◌≡◌, ℕ, ◌∷◌, [], ◌&&◌, ◌||◌, true, not, ◌==◌, if◌then◌else◌, Some, None};
ghost use Rattle.ck_base.specs.declared.positions.Pos.{Pos as Place};
ghost use Rattle.c_tree.specs.Types.{Ty};
ghost use Rattle.c_tree.specs.Terms.{Term, Terms, term, leaf, step, join, join_three, type_of};
ghost use Rattle.c_tree.specs.Constants.{kind_of, is_zero, is_constant_shape, node_value, with_value, computed, truth};
ghost use Rattle.c_tree.specs.Constants.{divides, unary_value};
ghost use Rattle.c_tree.specs.Conversions.{is_place, is_member};
ghost use Rattle.c_tree.specs.Expressions.{from_plain};
ghost use Rattle.ck_int.specs.Kinds.{converted};
ghost use Rattle.ck_int.specs.Arithmetic.{compare_of};
ghost use Rattle.c_tree.specs.Terms as tree;
ghost use Rattle.c_node_facts.specs.Facts.{fact_of, evaluation_of, leaf_shape, step_shape, join_shape, IsConversion};

use c_tree::UnaryOp;
use ck_int::{CmpOp, IntKind, IntOp, binary, compare, convert, wrap};

/// What is known of an expression.
#[derive(Clone, Copy)]
pub struct Fact {
    /// It designates an object (C11 6.3.2.1p1).
    pub place: bool,
    /// It is a member of a struct or union.
    pub member: bool,
    /// It is a local of the function, with this number.
    pub local: Option<u32>,
    /// It is a capability integer that was converted from a plain integer.
    pub plain: bool,
    /// It has the form of a constant expression (C11 6.6).
    pub constant: bool,
    /// The value that its operands' values give, in the 64 bits of its extension.
    pub value: Option<u64>,
    /// It is a null pointer constant (C11 6.3.2.3p3).
    pub null: bool,
}

/// What a type is to constant expressions: the kind at which it is computed, and whether it is an integer type.
#[derive(Clone, Copy)]
pub struct Evaluation {
    pub kind: IntKind,
    pub integer: bool,
}

/// An expression without operands.
#[derive(Clone, Copy)]
pub enum Leaf {
    Constant(u64),
    Literal(u32),
    Var(u32),
    Global(u32),
    Fun(u32),
}

/// An expression with one operand that is no conversion.
#[derive(Clone, Copy)]
pub enum Step {
    Load,
    Decay,
    Deref,
    /// The number of the member.
    Member(u32),
    Address,
    Unary(UnaryOp),
    /// Whether it adds, and whether the operator stands in front.
    Move(bool, bool),
}

/// An expression with two operands.
#[derive(Clone, Copy)]
pub enum Join {
    Int(IntOp),
    /// Whether the result derives from the right operand.
    Capability(IntOp, bool),
    /// Whether the integer is taken from the pointer.
    Plus(bool),
    Difference,
    Compare(CmpOp),
    And,
    Or,
    Comma,
    Assign,
    /// The type in which the result is computed.
    Compound(IntOp, u32),
}

/// What is known of a conversion's two types.
#[derive(Clone, Copy)]
pub struct Conversion {
    pub to: Evaluation,
    pub from: Evaluation,
    /// It is to a capability integer.
    pub to_capability: bool,
    /// It is to a pointer to `void`.
    pub to_void_pointer: bool,
    /// It is from a plain integer.
    pub from_plain: bool,
    /// It is from a capability integer.
    pub from_capability: bool,
}

// ---- values

fn is_zero(value: Option<u64>) -> bool
    ensures { result ≡ is_zero value }
{
    match value {
        Some(v) => v == 0,
        None => false,
    }
}

// Whether a constant of an integer type is zero.
fn is_null(constant: bool, of: Evaluation, value: Option<u64>) -> bool
    ensures { result ≡ is_zero (if constant && of.integer then value else None) }
{
    if constant && of.integer {
        is_zero(value)
    } else {
        false
    }
}

fn divides(op: IntOp) -> bool
    ensures { result ≡ divides op }
{
    match op {
        IntOp::Div | IntOp::Rem => true,
        IntOp::Add
        | IntOp::Sub
        | IntOp::Mul
        | IntOp::And
        | IntOp::Or
        | IntOp::Xor
        | IntOp::Shl
        | IntOp::Shr => false,
    }
}

// There is no quotient by zero.
fn computed(op: IntOp, kind: IntKind, a: u64, b: u64) -> Option<u64>
    ensures { (t : Ty) → kind_of t ≡ kind → computed op t a b ≡ result }
{
    if divides(op) && b == 0 {
        None
    } else {
        Some(binary(op, kind, a, b))
    }
}

fn operation(op: IntOp, kind: IntKind, a: Option<u64>, b: Option<u64>) -> Option<u64>
    ensures { (t : Ty) → kind_of t ≡ kind → with_value a (λ v. with_value b (λ w. computed op t v w)) ≡ result }
{
    match a {
        None => None,
        Some(v) => match b {
            None => None,
            Some(w) => computed(op, kind, v, w),
        },
    }
}

fn comparison(op: CmpOp, kind: IntKind, a: Option<u64>, b: Option<u64>) -> Option<u64>
    ensures { (t : Ty) → kind_of t ≡ kind →
        with_value a (λ v. with_value b (λ w. Some (truth (compare_of op (kind_of t) v w)))) ≡ result }
{
    match a {
        None => None,
        Some(v) => match b {
            None => None,
            Some(w) => Some(truth(compare(op, kind, v, w))),
        },
    }
}

fn truth(b: bool) -> u64
    ensures { result ≡ truth b }
{
    if b { 1 } else { 0 }
}

fn truth_of(a: Option<u64>) -> Option<u64>
    ensures { with_value a (λ w. Some (truth (not (w == 0)))) ≡ result }
{
    match a {
        None => None,
        Some(w) => Some(truth(w != 0)),
    }
}

// The second operand is not evaluated where the first one decides.
fn conjunction(a: Option<u64>, b: Option<u64>) -> Option<u64>
    ensures { with_value a (λ v. (if v == 0 then Some 0 else with_value b (λ w. Some (truth (not (w == 0))))))
        ≡ result }
{
    match a {
        None => None,
        Some(v) => { if v == 0 { Some(0) } else { truth_of(b) } }
    }
}

fn disjunction(a: Option<u64>, b: Option<u64>) -> Option<u64>
    ensures { with_value a (λ v. (if v == 0 then with_value b (λ w. Some (truth (not (w == 0)))) else Some 1))
        ≡ result }
{
    match a {
        None => None,
        Some(v) => { if v == 0 { truth_of(b) } else { Some(1) } }
    }
}

fn choice(a: Option<u64>, b: Option<u64>, c: Option<u64>) -> Option<u64>
    ensures { with_value a (λ v. (if v == 0 then c else b)) ≡ result }
{
    match a {
        None => None,
        Some(v) => { if v == 0 { c } else { b } }
    }
}

fn unary(op: UnaryOp, kind: IntKind, a: u64) -> u64
    ensures { (t : Ty) → kind_of t ≡ kind → unary_value op t a ≡ result }
{
    match op {
        UnaryOp::Plus => a,
        UnaryOp::Minus => binary(IntOp::Sub, kind, 0, a),
        UnaryOp::Complement => binary(IntOp::Xor, kind, wrap(kind, -1), a),
        UnaryOp::LogicalNot => truth(a == 0),
    }
}

fn converted(from: IntKind, to: IntKind, a: Option<u64>) -> Option<u64>
    ensures { with_value a (λ v. Some (converted from to v)) ≡ result }
{
    match a {
        None => None,
        Some(v) => Some(convert(from, to, v)),
    }
}

// Whether a node is constant, by its shape and its operands.
fn is_constant_step(shape: bool, a: bool) -> bool
    ensures { (shape && (a && true)) ≡ result }
{
    shape && a
}

fn is_constant_join(shape: bool, a: bool, b: bool) -> bool
    ensures { (shape && (a && (b && true))) ≡ result }
{
    shape && a && b
}

// ---- what is known of a node, by what is known of its operands

/// What is known of an expression without operands, of a type that is evaluated so.
pub fn leaf_fact(leaf: Leaf, of: Evaluation) -> Fact
    ensures { (t : Ty) (p : Place) → evaluation_of t ≡ of → fact_of (tree.leaf (leaf_shape leaf) t p) ≡ result }
{
    let unknown = Fact {
        place: true,
        member: false,
        local: None,
        plain: false,
        constant: false,
        value: None,
        null: false,
    };
    match leaf {
        Leaf::Constant(n) => Fact {
            place: false,
            constant: true,
            value: Some(n),
            null: is_null(true, of, Some(n)),
            ..unknown
        },
        Leaf::Literal(_) => unknown,
        Leaf::Global(_) => unknown,
        Leaf::Var(k) => Fact {
            local: Some(k),
            ..unknown
        },
        Leaf::Fun(_) => Fact {
            place: false,
            ..unknown
        },
    }
}

impl Step {
    fn is_place(self, a: bool) -> bool
        ensures { (x : Term) (t : Ty) (p : Place) → is_place x ≡ a → is_place (step (step_shape self) x t p) ≡ result }
    {
        match self {
            Step::Deref => true,
            Step::Member(_) => a,
            Step::Load | Step::Decay | Step::Address | Step::Unary(_) | Step::Move(_, _) => false,
        }
    }

    fn is_member(self) -> bool
        ensures { (x : Term) (t : Ty) (p : Place) → is_member (step (step_shape self) x t p) ≡ result }
    {
        match self {
            Step::Member(_) => true,
            Step::Load
            | Step::Decay
            | Step::Deref
            | Step::Address
            | Step::Unary(_)
            | Step::Move(_, _) => false,
        }
    }

    fn is_constant(self) -> bool
        ensures { (t : Ty) → is_constant_shape (step_shape self) t ≡ result }
    {
        match self {
            Step::Unary(_) => true,
            Step::Load
            | Step::Decay
            | Step::Deref
            | Step::Member(_)
            | Step::Address
            | Step::Move(_, _) => false,
        }
    }

    fn value(self, kind: IntKind, a: Option<u64>) -> Option<u64>
        ensures { (t s : Ty) → kind_of t ≡ kind → node_value (step_shape self) t ((s, a) ∷ []) ≡ result }
    {
        match self {
            Step::Unary(op) => match a {
                None => None,
                Some(v) => Some(unary(op, kind, v)),
            },
            Step::Load
            | Step::Decay
            | Step::Deref
            | Step::Member(_)
            | Step::Address
            | Step::Move(_, _) => None,
        }
    }
}

/// What is known of an expression of one operand, other than a conversion, by what is known of the operand.
pub fn step_fact(kind: Step, of: Evaluation, a: Fact) -> Fact
    ensures { (x : Term) (t : Ty) (p : Place) → fact_of x ≡ a → evaluation_of t ≡ of →
        fact_of (step (step_shape kind) x t p) ≡ result }
{
    let constant = is_constant_step(kind.is_constant(), a.constant);
    let value = kind.value(of.kind, a.value);
    Fact {
        place: kind.is_place(a.place),
        member: kind.is_member(),
        local: None,
        plain: false,
        constant,
        value,
        null: is_null(constant, of, value),
    }
}

// Whether it is a capability integer that was converted from a plain integer, perhaps through capability integers.
fn is_plain(to_capability: bool, from_plain: bool, from_capability: bool, a: bool) -> bool
    ensures { (to_capability && (from_plain || (from_capability && a))) ≡ result }
{
    to_capability && (from_plain || (from_capability && a))
}

fn is_null_conversion(zero: bool, to_void_pointer: bool, of_zero: bool) -> bool
    ensures { (zero || (to_void_pointer && of_zero)) ≡ result }
{
    zero || (to_void_pointer && of_zero)
}

/// What is known of a conversion, by both types and what is known of its operand.
pub fn conversion_fact(types: Conversion, a: Fact) -> Fact
    ensures { (x : Term) (t : Ty) (p : Place) → fact_of x ≡ a → IsConversion types (type_of x) t →
        fact_of (step tree.Convert x t p) ≡ result }
{
    let constant = is_constant_step(types.to.integer, a.constant);
    let value = converted(types.from.kind, types.to.kind, a.value);
    let zero = is_null(constant, types.to, value);
    let of_zero = is_null(a.constant, types.from, a.value);
    Fact {
        place: false,
        member: false,
        local: None,
        plain: is_plain(
            types.to_capability,
            types.from_plain,
            types.from_capability,
            a.plain,
        ),
        constant,
        value,
        null: is_null_conversion(zero, types.to_void_pointer, of_zero),
    }
}

impl Join {
    fn is_constant(self) -> bool
        ensures { (go : ℕ → Ty) (t : Ty) → is_constant_shape (join_shape go self) t ≡ result }
    {
        match self {
            Join::Int(_) | Join::Capability(_, _) | Join::Compare(_) | Join::And | Join::Or => true,
            Join::Plus(_) | Join::Difference | Join::Comma | Join::Assign | Join::Compound(_, _) =>
                false,
        }
    }

    fn value(self, kind: IntKind, left: IntKind, a: Option<u64>, b: Option<u64>) -> Option<u64>
        ensures { (go : ℕ → Ty) (t s u : Ty) → kind_of t ≡ kind → kind_of s ≡ left →
            node_value (join_shape go self) t ((s, a) ∷ (u, b) ∷ []) ≡ result }
    {
        match self {
            Join::Int(op) => operation(op, kind, a, b),
            Join::Capability(op, _) => operation(op, kind, a, b),
            Join::Compare(op) => comparison(op, left, a, b),
            Join::And => conjunction(a, b),
            Join::Or => disjunction(a, b),
            Join::Plus(_) | Join::Difference | Join::Comma | Join::Assign | Join::Compound(_, _) =>
                None,
        }
    }
}

/// What is known of an expression of two operands, by what is known of them; a comparison is computed in the type of
/// the left one.
pub fn join_fact(kind: Join, of: Evaluation, left: Evaluation, a: Fact, b: Fact) -> Fact
    ensures { (go : ℕ → Ty) (x y : Term) (t : Ty) (p : Place) → fact_of x ≡ a → fact_of y ≡ b → evaluation_of t ≡ of →
        evaluation_of (type_of x) ≡ left → fact_of (join (join_shape go kind) x y t p) ≡ result }
{
    let constant = is_constant_join(kind.is_constant(), a.constant, b.constant);
    let value = kind.value(of.kind, left.kind, a.value, b.value);
    Fact {
        place: false,
        member: false,
        local: None,
        plain: false,
        constant,
        value,
        null: is_null(constant, of, value),
    }
}

/// What is known of a conditional expression (C11 6.5.15), by what is known of its three operands.
pub fn choice_fact(of: Evaluation, a: Fact, b: Fact, c: Fact) -> Fact
    ensures { (x y z : Term) (t : Ty) (p : Place) → fact_of x ≡ a → fact_of y ≡ b → fact_of z ≡ c →
        evaluation_of t ≡ of → fact_of (join_three tree.Conditional x y z t p) ≡ result }
{
    let constant = is_constant_join(a.constant, b.constant, c.constant);
    let value = choice(a.value, b.value, c.value);
    Fact {
        place: false,
        member: false,
        local: None,
        plain: false,
        constant,
        value,
        null: is_null(constant, of, value),
    }
}

/// What is known of a call.
pub fn call_fact() -> Fact
    ensures called { (xs : Terms) (t : Ty) (p : Place) → fact_of (term tree.Call xs t p) ≡ result }
    ensures library { (k : ℕ) (xs : Terms) (t : Ty) (p : Place) → fact_of (term (tree.Library k) xs t p) ≡ result }
{
    Fact {
        place: false,
        member: false,
        local: None,
        plain: false,
        constant: false,
        value: None,
        null: false,
    }
}

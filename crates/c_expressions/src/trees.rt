//! New expressions.

ghost use Rattle.std.specs.Prelude.{◌≡◌, ℕ, ◌<◌, List, EachIndex, slice_index, map, length, IfOk};
ghost use Rattle.ck_base.specs.declared.positions.Pos.{Pos as Place};
ghost use Rattle.c_tree.specs.Types.{Ty};
ghost use Rattle.c_tree.specs.Terms as tree;
ghost use Rattle.c_tree.specs.Terms.{Term, leaf, step, join, join_three, term, terms, with_term};
ghost use Rattle.c_tree.specs.Views.{kind_term, type_at};
ghost use Rattle.c_node_facts.specs.Facts.{leaf_shape, step_shape, join_shape};
ghost use Rattle.c_expressions.specs.Nodes.{IsWhole, HasTerm, KindIsTyped, JoinIsTyped, OperandsBefore, type_in};
ghost use Rattle.c_expressions.specs.Nodes.{term_in, type_count, term_count};

use crate::nodes::Nodes;
use c_node_facts::{
    Join, Leaf, Step, call_fact, choice_fact, conversion_fact, join_fact, leaf_fact, step_fact,
};
use c_tree::{Expr, ExprKind};
use ck_base::{NoMemory, Pos, Sequence};

fn leaf_kind(leaf: Leaf) -> ExprKind
    ensures is { (ts : List Ty) (t : Ty) (p : Place) (go : ℕ → Term) →
        kind_term ts result t p go ≡ tree.leaf (leaf_shape leaf) t p }
    ensures typed { (n : ℕ) → KindIsTyped n result }
    ensures before { (k : ℕ) → OperandsBefore k result }
{
    match leaf {
        Leaf::Constant(n) => ExprKind::Constant(n),
        Leaf::Literal(k) => ExprKind::Literal(k),
        Leaf::Var(k) => ExprKind::Var(k),
        Leaf::Global(k) => ExprKind::Global(k),
        Leaf::Fun(k) => ExprKind::Fun(k),
    }
}

fn step_kind(step: Step, a: u32) -> ExprKind
    ensures is { (ts : List Ty) (t : Ty) (p : Place) (go : ℕ → Term) →
        kind_term ts result t p go ≡ tree.step (step_shape step) (go a) t p }
    ensures typed { (n : ℕ) → KindIsTyped n result }
    ensures before { (k : ℕ) → a < k → OperandsBefore k result }
{
    match step {
        Step::Load => ExprKind::Load(a),
        Step::Decay => ExprKind::Decay(a),
        Step::Deref => ExprKind::Deref(a),
        Step::Member(k) => ExprKind::Member(a, k),
        Step::Address => ExprKind::Address(a),
        Step::Unary(op) => ExprKind::Unary(op, a),
        Step::Move(adds, in_front) => ExprKind::Step(a, adds, in_front),
    }
}

fn join_kind(join: Join, a: u32, b: u32) -> ExprKind
    ensures is { (ts : List Ty) (t : Ty) (p : Place) (go : ℕ → Term) →
        kind_term ts result t p go ≡ tree.join (join_shape (type_at ts) join) (go a) (go b) t p }
    ensures typed { (n : ℕ) → JoinIsTyped n join → KindIsTyped n result }
    ensures before { (k : ℕ) → a < k → b < k → OperandsBefore k result }
{
    match join {
        Join::Int(op) => ExprKind::Int(op, a, b),
        Join::Capability(op, from_right) => ExprKind::Capability(op, a, b, from_right),
        Join::Plus(minus) => ExprKind::Plus(a, b, minus),
        Join::Difference => ExprKind::Difference(a, b),
        Join::Compare(op) => ExprKind::Compare(op, a, b),
        Join::And => ExprKind::And(a, b),
        Join::Or => ExprKind::Or(a, b),
        Join::Comma => ExprKind::Comma(a, b),
        Join::Assign => ExprKind::Assign(a, b),
        Join::Compound(op, of) => ExprKind::Compound(op, a, b, of),
    }
}

impl Nodes<'_> {
    /// A new expression without operands. Gives its number; fails only for want of memory, as each of these.
    pub fn leaf(&mut self, kind: Leaf, of: u32, pos: Pos) -> Result<u32, NoMemory>
        requires whole { IsWhole self.old }
        requires of { of < type_count self.old }
        ensures { IfOk result (λ k. HasTerm self.old self.new k (leaf (leaf_shape kind) (type_in self.old of) pos)) }
    {
        let fact = leaf_fact(kind, self.evaluation(of));
        self.add(
            Expr {
                kind: leaf_kind(kind),
                of,
                pos,
            },
            fact,
        )
    }

    /// A new expression of one operand, other than a conversion.
    pub fn step(&mut self, kind: Step, a: u32, of: u32, pos: Pos) -> Result<u32, NoMemory>
        requires whole { IsWhole self.old }
        requires operand { a < term_count self.old }
        requires of { of < type_count self.old }
        ensures { IfOk result (λ k. HasTerm self.old self.new k
            (step (step_shape kind) (term_in self.old a) (type_in self.old of) pos)) }
    {
        let fact = step_fact(kind, self.evaluation(of), self.fact(a));
        self.add(
            Expr {
                kind: step_kind(kind, a),
                of,
                pos,
            },
            fact,
        )
    }

    /// A new conversion of an expression to a type (C11 6.3), also where it has that type already.
    pub fn convert(&mut self, a: u32, of: u32, pos: Pos) -> Result<u32, NoMemory>
        requires whole { IsWhole self.old }
        requires operand { a < term_count self.old }
        requires of { of < type_count self.old }
        ensures { IfOk result (λ k. HasTerm self.old self.new k
            (step tree.Convert (term_in self.old a) (type_in self.old of) pos)) }
    {
        let types = self.conversion(self.of(a), of);
        let fact = conversion_fact(types, self.fact(a));
        self.add(
            Expr {
                kind: ExprKind::Convert(a),
                of,
                pos,
            },
            fact,
        )
    }

    /// A new expression of two operands.
    pub fn join(&mut self, kind: Join, a: u32, b: u32, of: u32, pos: Pos) -> Result<u32, NoMemory>
        requires whole { IsWhole self.old }
        requires first { a < term_count self.old }
        requires second { b < term_count self.old }
        requires of { of < type_count self.old }
        requires kind { JoinIsTyped (type_count self.old) kind }
        ensures { IfOk result (λ k. HasTerm self.old self.new k
            (join (join_shape (type_in self.old) kind) (term_in self.old a) (term_in self.old b)
            (type_in self.old of) pos)) }
    {
        let left = self.evaluation(self.of(a));
        let fact = join_fact(kind, self.evaluation(of), left, self.fact(a), self.fact(b));
        self.add(
            Expr {
                kind: join_kind(kind, a, b),
                of,
                pos,
            },
            fact,
        )
    }

    /// A new conditional expression (C11 6.5.15): the condition, and what is evaluated where it is not 0 and where it
    /// is.
    pub fn choice(&mut self, a: u32, b: u32, c: u32, of: u32, pos: Pos) -> Result<u32, NoMemory>
        requires whole { IsWhole self.old }
        requires first { a < term_count self.old }
        requires second { b < term_count self.old }
        requires third { c < term_count self.old }
        requires of { of < type_count self.old }
        ensures { IfOk result (λ k. HasTerm self.old self.new k
            (join_three tree.Conditional (term_in self.old a) (term_in self.old b) (term_in self.old c)
            (type_in self.old of) pos)) }
    {
        let fact = choice_fact(
            self.evaluation(of),
            self.fact(a),
            self.fact(b),
            self.fact(c),
        );
        self.add(
            Expr {
                kind: ExprKind::Conditional(a, b, c),
                of,
                pos,
            },
            fact,
        )
    }

    /// A new call of a function (C11 6.5.2.2): what it calls, and its arguments.
    pub fn call_node(&mut self, f: u32, args: Vec<u32>, of: u32, pos: Pos) -> Result<u32, NoMemory>
        requires whole { IsWhole self.old }
        requires of { of < type_count self.old }
        ensures { IfOk result (λ k. HasTerm self.old self.new k
            (term tree.Call (with_term (term_in self.old f) (terms (map (term_in self.old) args.items)))
            (type_in self.old of) pos)) }
    {
        self.add(
            Expr {
                kind: ExprKind::Call(f, Sequence::from_vec(args)),
                of,
                pos,
            },
            call_fact(),
        )
    }

    /// A new call of a library function or an intrinsic, by its number.
    pub fn library_node(
        &mut self,
        service: u8,
        args: Vec<u32>,
        of: u32,
        pos: Pos,
    ) -> Result<u32, NoMemory>
        requires whole { IsWhole self.old }
        requires of { of < type_count self.old }
        ensures { IfOk result (λ k. HasTerm self.old self.new k
            (term (tree.Library service) (terms (map (term_in self.old) args.items)) (type_in self.old of) pos)) }
    {
        self.add(
            Expr {
                kind: ExprKind::Library(service, Sequence::from_vec(args)),
                of,
                pos,
            },
            call_fact(),
        )
    }
}

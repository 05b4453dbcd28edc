//! What an expression stands for where a value is wanted, and how values are converted (C11 6.3, 6.5.16.1).

ghost use Rattle.std.specs.Prelude.{◌≡◌, ◌<◌, ◌&&◌, ◌||◌, IfOk};
ghost use Rattle.c_tree.specs.Types.{Pointer, bare, is_void, is_integer, is_bool, is_pointer};
ghost use Rattle.c_tree.specs.Terms.{Decay, step, pos_of};
ghost use Rattle.c_tree.specs.Constants.{constant_of, is_null_constant};
ghost use Rattle.c_tree.specs.Conversions.{is_place, designates, value_term, converted_term, targets_agree, goes_to};
ghost use Rattle.c_tree.specs.Conversions.{assigned};
ghost use Rattle.c_tree.specs.Expressions.{promoted_term, condition, is_modifiable};
ghost use Rattle.c_expressions.specs.Answers.{Answers};
ghost use Rattle.c_expressions.specs.Values.{loaded};
ghost use Rattle.c_expressions.specs.Nodes.{IsWhole, HasTerm, IsTerm, Tells, operand_in, type_in, term_in, type_count};
ghost use Rattle.c_expressions.specs.Nodes.{term_count};

use crate::nodes::{Nodes, Operand};
use c_node_facts::{Class, Step};
use ck_base::{MISFIT, NoMemory, Refusal};

impl Nodes<'_> {
    /// Whether an expression denotes an object (an lvalue, C11 6.3.2.1p1). A function designator denotes none.
    pub fn is_place(&self, node: u32) -> bool
        requires whole { IsWhole self.now }
        requires there { node < term_count self.now }
        ensures { is_place (term_in self.now node) ≡ result }
    {
        self.fact(node).place
    }

    /// Whether a value is read from it when one is wanted.
    pub fn designates(&self, node: u32) -> bool
        requires whole { IsWhole self.now }
        requires there { node < term_count self.now }
        ensures { designates (term_in self.now node) ≡ result }
    {
        let fact = self.fact(node);
        fact.place || fact.member
    }

    /// The value of an integer constant expression (C11 6.6).
    #[tactic(auto, unfolding(c_tree::specs::Constants::constant_of))]
    pub fn constant_of(&self, node: u32) -> Option<u64>
        requires whole { IsWhole self.now }
        requires there { node < term_count self.now }
        ensures { constant_of (term_in self.now node) ≡ result }
    {
        let fact = self.fact(node);
        if fact.constant && self.is_integer(self.bare(self.of(node))) {
            fact.value
        } else {
            None
        }
    }

    /// Whether it is a null pointer constant (C11 6.3.2.3p3).
    pub fn is_null(&self, node: u32) -> bool
        requires whole { IsWhole self.now }
        requires there { node < term_count self.now }
        ensures { is_null_constant (term_in self.now node) ≡ result }
    {
        self.fact(node).null
    }

    /// Whether it is a place that may be written (C11 6.3.2.1p1).
    pub fn is_modifiable(&self, node: u32) -> bool
        requires whole { IsWhole self.now }
        requires there { node < term_count self.now }
        ensures { is_modifiable (term_in self.now node) ≡ result }
    {
        let of = self.of(node);
        self.is_place(node) && !self.is_const(of) && !self.is_array(of) && !self.is_function(of)
    }

    /// An array as the pointer to its first element, a function as the pointer to it, and a place as what stands there
    /// (C11 6.3.2.1p2 to p4).
    pub fn value_term(&mut self, node: u32) -> Result<u32, NoMemory>
        requires whole { IsWhole self.old }
        requires there { node < term_count self.old }
        ensures { IfOk result (λ k. HasTerm self.old self.new k (value_term (term_in self.old node))) }
    {
        let of = self.of(node);
        match self.class(of) {
            Class::Array(element, _) => self.decayed(node, element),
            Class::Function(_) => self.decayed(node, of),
            Class::Void
            | Class::Int(_, _)
            | Class::Cap(_)
            | Class::Pointer(_)
            | Class::Tagged(_)
            | Class::Const(_) => self.loaded(node),
        }
    }

    // The pointer that an array or a function becomes.
    fn decayed(&mut self, node: u32, to: u32) -> Result<u32, NoMemory>
        requires whole { IsWhole self.old }
        requires there { node < term_count self.old }
        requires to { to < type_count self.old }
        ensures { IfOk result (λ k. HasTerm self.old self.new k
            (step Decay (term_in self.old node) (Pointer (type_in self.old to)) (pos_of (term_in self.old node)))) }
    {
        let pos = self.pos(node);
        let of = self.pointer_to(to)?;
        self.step(Step::Decay, node, of, pos)
    }

    // What stands at a place that is no array and no function.
    fn loaded(&mut self, node: u32) -> Result<u32, NoMemory>
        requires whole { IsWhole self.old }
        requires there { node < term_count self.old }
        ensures { IfOk result (λ k. HasTerm self.old self.new k (loaded (term_in self.old node))) }
    {
        if !self.designates(node) {
            return Ok(node);
        }
        let of = self.bare(self.of(node));
        let pos = self.pos(node);
        self.step(Step::Load, node, of, pos)
    }

    /// The expression, converted to a type where its own is another.
    pub fn converted(&mut self, to: u32, node: u32) -> Result<u32, NoMemory>
        requires whole { IsWhole self.old }
        requires there { node < term_count self.old }
        requires to { to < type_count self.old }
        ensures { IfOk result (λ k. HasTerm self.old self.new k
            (converted_term (type_in self.old to) (term_in self.old node))) }
    {
        let of = self.of(node);
        if self.same(of, to)? {
            return Ok(node);
        }
        let pos = self.pos(node);
        self.convert(node, to, pos)
    }

    /// An expression that has an integer type, converted by the integer promotions (C11 6.3.1.1p2).
    pub fn promoted_term(&mut self, node: u32) -> Result<u32, NoMemory>
        requires whole { IsWhole self.old }
        requires there { node < term_count self.old }
        ensures { IfOk result (λ k. HasTerm self.old self.new k (promoted_term (term_in self.old node))) }
    {
        let of = self.of(node);
        let to = self.promoted(of)?;
        self.converted(to, node)
    }

    /// Whether it is `void`, which may be qualified.
    pub fn is_bare_void(&self, t: u32) -> bool
        requires whole { IsWhole self.now }
        requires there { t < type_count self.now }
        ensures { is_void (bare (type_in self.now t)) ≡ result }
    {
        self.is_void(self.bare(t))
    }

    /// Whether what two pointers point to agrees up to qualifiers, or one points to `void` (C11 6.5.16.1p1).
    pub fn targets_agree(&mut self, s: u32, t: u32) -> Result<bool, NoMemory>
        requires whole { IsWhole self.old }
        requires first { s < type_count self.old }
        requires second { t < type_count self.old }
        ensures { IfOk result (λ b. Tells self.old self.new
            (targets_agree (type_in self.old s) (type_in self.old t)) b) }
    {
        let void = self.is_bare_void(s) || self.is_bare_void(t);
        let compatible = self.compatible_bare(s, t)?;
        Ok(compatible || void)
    }

    /// Whether an expression with a type goes to another type by assignment.
    pub fn goes_to(&mut self, to: u32, of: u32, node: u32) -> Result<bool, NoMemory>
        requires whole { IsWhole self.old }
        requires to { to < type_count self.old }
        requires of { of < type_count self.old }
        requires there { node < term_count self.old }
        ensures { IfOk result (λ b. Tells self.old self.new
            (goes_to (type_in self.old to) (type_in self.old of) (term_in self.old node)) b) }
    {
        match self.class(to) {
            Class::Int(_, _) => Ok(self.goes_to_integer(to, of)),
            Class::Cap(_) => Ok(self.is_integer(of)),
            Class::Pointer(target) => self.goes_to_pointer(target, of, node),
            Class::Tagged(_) => self.same(to, of),
            Class::Void => Ok(false),
            Class::Array(_, _) => Ok(false),
            Class::Function(_) => Ok(false),
            Class::Const(_) => Ok(false),
        }
    }

    // An integer goes to an integer, and a pointer to `_Bool`.
    fn goes_to_integer(&self, to: u32, of: u32) -> bool
        requires whole { IsWhole self.now }
        requires to { to < type_count self.now }
        requires of { of < type_count self.now }
        ensures { (is_integer (type_in self.now of)
            || (is_bool (type_in self.now to) && is_pointer (type_in self.now of))) ≡ result }
    {
        self.is_integer(of) || (self.is_bool(to) && self.is_pointer(of))
    }

    fn is_null_integer(&self, of: u32, node: u32) -> bool
        requires whole { IsWhole self.now }
        requires of { of < type_count self.now }
        requires there { node < term_count self.now }
        ensures { (is_integer (type_in self.now of) && is_null_constant (term_in self.now node)) ≡ result }
    {
        self.is_integer(of) && self.is_null(node)
    }

    fn goes_to_pointer(&mut self, target: u32, of: u32, node: u32) -> Result<bool, NoMemory>
        requires whole { IsWhole self.old }
        requires target { target < type_count self.old }
        requires of { of < type_count self.old }
        requires there { node < term_count self.old }
        ensures { IfOk result (λ b. Tells self.old self.new
            (goes_to (Pointer (type_in self.old target)) (type_in self.old of) (term_in self.old node)) b) }
    {
        match self.target(of) {
            Some(other) => {
                let null = self.is_null(node);
                let agree = self.targets_agree(target, other)?;
                Ok(agree || null)
            }
            None => Ok(self.is_null_integer(of, node)),
        }
    }

    /// A value as by assignment to a type, which may be qualified (C11 6.5.16.1).
    pub fn assigned(&mut self, to: u32, x: Operand) -> Result<u32, Refusal>
        requires whole { IsWhole self.old }
        requires to { to < type_count self.old }
        requires operand { x.node < term_count self.old }
        ensures { Answers self.old self.new (assigned (type_in self.old to) (operand_in self.old x)) IsTerm result }
    {
        let target = self.bare(to);
        let of = self.of(x.node);
        if !self.goes_to(target, of, x.node)? {
            return Err(Refusal::Code(MISFIT, x.first));
        }
        Ok(self.converted(target, x.node)?)
    }

    /// A condition (C11 6.8.4.1p1).
    pub fn condition(&self, a: Operand) -> Result<u32, Refusal>
        requires whole { IsWhole self.now }
        requires operand { a.node < term_count self.now }
        ensures { Answers self.now self.now (condition (operand_in self.now a)) IsTerm result }
    {
        if !self.is_scalar(self.of(a.node)) {
            return Err(Refusal::Code(MISFIT, a.first));
        }
        Ok(a.node)
    }
}

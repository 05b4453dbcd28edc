//! The rules on operands that ask what is complete (C11 6.3.2.1, 6.5.6, 6.5.16.2, 6.5.3.1).

ghost use Rattle.c_tree.specs.Conversions.{value};
ghost use Rattle.c_tree.specs.Expressions.{sum, difference, int_join, infix_join, compound, stepped};
ghost use Rattle.c_expressions.specs.Nodes.{IsWhole};
ghost use Rattle.c_elaborator.specs.Answers.{Answers, quietly, OperandThere, IsOperand, operand_in};
ghost use Rattle.c_operators.specs.Rules.{infix_join_of};

use crate::work::Work;
use c_expressions::Operand;
use c_operand_rules::{
    is_compound_counted, is_counted, is_difference_counted, is_readable, is_sum_counted,
};
use c_operators::{compound_of, infix_join_of, stepped_of};
use c_tree::{InfixOperator, StepOperator};
use ck_base::{INCOMPLETE_TYPE, Pos, Refusal};
use ck_int::IntOp;

impl Work<'_> {
    // ---- values

    /// What an operand stands for where a value is wanted (C11 6.3.2.1).
    pub fn value(&mut self, x: Operand) -> Result<Operand, Refusal>
        requires whole { IsWhole self.old.nodes }
        requires operand { OperandThere self.old x }
        ensures { Answers quietly self.old self.new (value (operand_in self.old x)) OperandThere IsOperand result }
    {
        if !is_readable(&self.nodes, x.node) {
            return Err(Refusal::Code(INCOMPLETE_TYPE, x.first));
        }
        let node = self.nodes.value_term(x.node)?;
        Ok(Operand {
            node,
            first: x.first,
        })
    }

    // ---- two operands

    /// A sum (C11 6.5.6).
    pub fn sum(&mut self, a: Operand, b: Operand, pos: Pos) -> Result<Operand, Refusal>
        requires whole { IsWhole self.old.nodes }
        requires left { OperandThere self.old a }
        requires right { OperandThere self.old b }
        ensures { Answers quietly self.old self.new
            (sum (operand_in self.old a) (operand_in self.old b) pos) OperandThere IsOperand result }
    {
        let s = self.nodes.of(a.node);
        let t = self.nodes.of(b.node);
        if !is_sum_counted(&self.nodes, s, t) {
            return Err(Refusal::Code(INCOMPLETE_TYPE, a.first));
        }
        infix_join_of(&mut self.nodes, InfixOperator::Int(IntOp::Add), a, b, pos)
    }

    /// A difference (C11 6.5.6).
    pub fn difference(&mut self, a: Operand, b: Operand, pos: Pos) -> Result<Operand, Refusal>
        requires whole { IsWhole self.old.nodes }
        requires left { OperandThere self.old a }
        requires right { OperandThere self.old b }
        ensures { Answers quietly self.old self.new
            (difference (operand_in self.old a) (operand_in self.old b) pos) OperandThere IsOperand result }
    {
        let s = self.nodes.of(a.node);
        let t = self.nodes.of(b.node);
        if !is_difference_counted(&self.nodes, s, t) {
            return Err(Refusal::Code(INCOMPLETE_TYPE, a.first));
        }
        infix_join_of(&mut self.nodes, InfixOperator::Int(IntOp::Sub), a, b, pos)
    }

    // An operator on integers that moves no pointer.
    fn plain_join(
        &mut self,
        op: InfixOperator,
        a: Operand,
        b: Operand,
        pos: Pos,
    ) -> Result<Operand, Refusal>
        requires whole { IsWhole self.old.nodes }
        requires left { OperandThere self.old a }
        requires right { OperandThere self.old b }
        ensures { Answers quietly self.old self.new
            (infix_join_of op (operand_in self.old a) (operand_in self.old b) pos) OperandThere IsOperand result }
    {
        infix_join_of(&mut self.nodes, op, a, b, pos)
    }

    /// An arithmetic or bitwise operator between two operands (C11 6.5.5 to 6.5.7, 6.5.10 to 6.5.12).
    pub fn int_join(
        &mut self,
        op: IntOp,
        a: Operand,
        b: Operand,
        pos: Pos,
    ) -> Result<Operand, Refusal>
        requires whole { IsWhole self.old.nodes }
        requires left { OperandThere self.old a }
        requires right { OperandThere self.old b }
        ensures { Answers quietly self.old self.new
            (int_join op (operand_in self.old a) (operand_in self.old b) pos) OperandThere IsOperand result }
    {
        match op {
            IntOp::Add => self.sum(a, b, pos),
            IntOp::Sub => self.difference(a, b, pos),
            IntOp::Mul => self.plain_join(InfixOperator::Int(IntOp::Mul), a, b, pos),
            IntOp::Div => self.plain_join(InfixOperator::Int(IntOp::Div), a, b, pos),
            IntOp::Rem => self.plain_join(InfixOperator::Int(IntOp::Rem), a, b, pos),
            IntOp::And => self.plain_join(InfixOperator::Int(IntOp::And), a, b, pos),
            IntOp::Or => self.plain_join(InfixOperator::Int(IntOp::Or), a, b, pos),
            IntOp::Xor => self.plain_join(InfixOperator::Int(IntOp::Xor), a, b, pos),
            IntOp::Shl => self.plain_join(InfixOperator::Int(IntOp::Shl), a, b, pos),
            IntOp::Shr => self.plain_join(InfixOperator::Int(IntOp::Shr), a, b, pos),
        }
    }

    /// An operator between two operands (C11 6.5.5 to 6.5.14, 6.5.17).
    pub fn infix_join(
        &mut self,
        op: InfixOperator,
        a: Operand,
        b: Operand,
        pos: Pos,
    ) -> Result<Operand, Refusal>
        requires whole { IsWhole self.old.nodes }
        requires left { OperandThere self.old a }
        requires right { OperandThere self.old b }
        ensures { Answers quietly self.old self.new
            (infix_join op (operand_in self.old a) (operand_in self.old b) pos) OperandThere IsOperand result }
    {
        match op {
            InfixOperator::Int(op) => self.int_join(op, a, b, pos),
            InfixOperator::Compare(op) => self.plain_join(InfixOperator::Compare(op), a, b, pos),
            InfixOperator::And => self.plain_join(InfixOperator::And, a, b, pos),
            InfixOperator::Or => self.plain_join(InfixOperator::Or, a, b, pos),
            InfixOperator::Comma => self.plain_join(InfixOperator::Comma, a, b, pos),
        }
    }

    // ---- assignment that computes, and steps

    /// A compound assignment (C11 6.5.16.2).
    pub fn compound(
        &mut self,
        op: IntOp,
        a: Operand,
        b: Operand,
        pos: Pos,
    ) -> Result<Operand, Refusal>
        requires whole { IsWhole self.old.nodes }
        requires left { OperandThere self.old a }
        requires right { OperandThere self.old b }
        ensures { Answers quietly self.old self.new
            (compound op (operand_in self.old a) (operand_in self.old b) pos) OperandThere IsOperand result }
    {
        let s = self.nodes.bare(self.nodes.of(a.node));
        let t = self.nodes.of(b.node);
        if !is_compound_counted(&self.nodes, op, s, t) {
            return Err(Refusal::Code(INCOMPLETE_TYPE, a.first));
        }
        compound_of(&mut self.nodes, op, a, b, pos)
    }

    /// A step by one, up or down (C11 6.5.2.4, 6.5.3.1).
    pub fn stepped(
        &mut self,
        op: StepOperator,
        in_front: bool,
        a: Operand,
        pos: Pos,
        first: Pos,
    ) -> Result<Operand, Refusal>
        requires whole { IsWhole self.old.nodes }
        requires operand { OperandThere self.old a }
        ensures { Answers quietly self.old self.new
            (stepped op in_front (operand_in self.old a) pos first) OperandThere IsOperand result }
    {
        let t = self.nodes.bare(self.nodes.of(a.node));
        if !is_counted(&self.nodes, t) {
            return Err(Refusal::Code(INCOMPLETE_TYPE, first));
        }
        stepped_of(&mut self.nodes, op, in_front, a, pos, first)
    }
}

//! Addresses and places (C11 6.5.2.1, 6.5.3.2).

ghost use Rattle.std.specs.Prelude.{◌≡◌, ◌<◌, ◌++◌, ◌∷◌, [], Some, OnOk};
ghost use Rattle.c_tree.specs.Expressions.{dereference, index, address};
ghost use Rattle.c_expressions.specs.Nodes.{IsWhole, type_in, type_count};
ghost use Rattle.c_expressions.specs.Facts.{local_of};
ghost use Rattle.c_elaborator.specs.Answers.{Answers, quietly, OperandThere, IsOperand, operand_in};
ghost use Rattle.c_elaborator.specs.Rules.{dereferencing};

use crate::work::Work;
use c_expressions::{Operand, Step};
use c_operand_rules::is_sized;
use c_operators::{address_of, local_of};
use ck_base::{INCOMPLETE_TYPE, MISFIT, NoMemory, Pos, Refusal};

fn push_number(numbers: &mut Vec<u32>, k: u32) -> Result<(), NoMemory>
    ensures { OnOk result (numbers.new.items ≡ numbers.old.items ++ k ∷ []) }
{
    numbers.push(k)?;
    Ok(())
}

impl Work<'_> {
    // What a pointer to a type points to.
    fn dereferenced(
        &mut self,
        a: Operand,
        to: u32,
        pos: Pos,
        first: Pos,
    ) -> Result<Operand, Refusal>
        requires whole { IsWhole self.old.nodes }
        requires operand { OperandThere self.old a }
        requires to { to < type_count self.old.nodes }
        ensures { Answers quietly self.old self.new
            (dereferencing (type_in self.old.nodes to) (operand_in self.old a).is pos first) OperandThere IsOperand
            result }
    {
        if !is_sized(&self.nodes, to) {
            return Err(Refusal::Code(INCOMPLETE_TYPE, first));
        }
        let node = self.nodes.step(Step::Deref, a.node, to, pos)?;
        Ok(Operand { node, first })
    }

    /// What a pointer points to (C11 6.5.3.2p4).
    pub fn dereference(&mut self, a: Operand, pos: Pos, first: Pos) -> Result<Operand, Refusal>
        requires whole { IsWhole self.old.nodes }
        requires operand { OperandThere self.old a }
        ensures { Answers quietly self.old self.new
            (dereference (operand_in self.old a) pos first) OperandThere IsOperand result }
    {
        let of = self.nodes.of(a.node);
        match self.nodes.target(of) {
            None => Err(Refusal::Code(MISFIT, first)),
            Some(to) => self.dereferenced(a, to, pos, first),
        }
    }

    /// An element (C11 6.5.2.1p2).
    pub fn index(&mut self, a: Operand, b: Operand, pos: Pos) -> Result<Operand, Refusal>
        requires whole { IsWhole self.old.nodes }
        requires left { OperandThere self.old a }
        requires right { OperandThere self.old b }
        ensures { Answers quietly self.old self.new
            (index (operand_in self.old a) (operand_in self.old b) pos) OperandThere IsOperand result }
    {
        let x = self.sum(a, b, pos)?;
        self.dereference(x, pos, a.first)
    }

    /// An address (C11 6.5.3.2). That of a local is recorded.
    pub fn address(&mut self, a: Operand, pos: Pos) -> Result<Operand, Refusal>
        requires whole { IsWhole self.old.nodes }
        requires operand { OperandThere self.old a }
        ensures { Answers quietly self.old self.new
            (address (operand_in self.old a) pos) OperandThere IsOperand result }
    {
        match local_of(&self.nodes, a.node) {
            None => address_of(&mut self.nodes, a, pos),
            Some(k) => self.address_of_local(a, k, pos),
        }
    }

    fn address_of_local(&mut self, a: Operand, k: u32, pos: Pos) -> Result<Operand, Refusal>
        requires whole { IsWhole self.old.nodes }
        requires operand { OperandThere self.old a }
        requires local { local_of (operand_in self.old a).is ≡ Some k }
        ensures { Answers quietly self.old self.new
            (address (operand_in self.old a) pos) OperandThere IsOperand result }
    {
        match self.nodes.scopes.type_of_local(k) {
            None => address_of(&mut self.nodes, a, pos),
            Some(_) => {
                push_number(&mut self.addressed, k)?;
                address_of(&mut self.nodes, a, pos)
            }
        }
    }
}

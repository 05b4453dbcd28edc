//! Members of structs and unions (C11 6.5.2.3).

ghost use Rattle.std.specs.Prelude.{◌<◌};
ghost use Rattle.c_tree.specs.Terms.{Member as The_member, step};
ghost use Rattle.c_tree.specs.Conversions.{operand_type};
ghost use Rattle.c_tree.specs.Expressions.{gives, as_qualified, member, member_behind};
ghost use Rattle.c_expressions.specs.Nodes.{IsWhole, type_in, type_count};
ghost use Rattle.c_elaborator.specs.Answers.{Answers, quietly, OperandThere, IsOperand, operand_in};

use crate::work::Work;
use c_expressions::{Operand, Step};
use c_operand_rules::find_member;
use c_operators::as_qualified;
use ck_base::{Pos, Refusal};

impl Work<'_> {
    // A member by its number, and its type without the qualifiers of the whole.
    fn member_at(&mut self, a: Operand, k: u32, of: u32, pos: Pos) -> Result<Operand, Refusal>
        requires whole { IsWhole self.old.nodes }
        requires operand { OperandThere self.old a }
        requires of { of < type_count self.old.nodes }
        ensures { Answers quietly self.old self.new
            (gives (step (The_member k) (operand_in self.old a).is
            (as_qualified (operand_type (operand_in self.old a)) (type_in self.old.nodes of)) pos) a.first)
            OperandThere IsOperand result }
    {
        let whole = self.nodes.of(a.node);
        let qualified = as_qualified(&mut self.nodes, whole, of)?;
        let node = self.nodes.step(Step::Member(k), a.node, qualified, pos)?;
        Ok(Operand {
            node,
            first: a.first,
        })
    }

    /// A member (C11 6.5.2.3p3): 132 at an incomplete struct or union, 133 at what is none and where there is no such
    /// member.
    pub fn member(&mut self, a: Operand, name: &[u8], pos: Pos) -> Result<Operand, Refusal>
        requires whole { IsWhole self.old.nodes }
        requires operand { OperandThere self.old a }
        ensures { Answers quietly self.old self.new
            (member (operand_in self.old a) name.now pos) OperandThere IsOperand result }
    {
        let whole = self.nodes.of(a.node);
        let found = find_member(&self.nodes, whole, name, a.first)?;
        let of = self.there(found.of);
        self.member_at(a, found.number, of, pos)
    }

    /// A member of what a pointer points to (C11 6.5.2.3p4).
    pub fn member_behind(&mut self, a: Operand, name: &[u8], pos: Pos) -> Result<Operand, Refusal>
        requires whole { IsWhole self.old.nodes }
        requires operand { OperandThere self.old a }
        ensures { Answers quietly self.old self.new
            (member_behind (operand_in self.old a) name.now pos) OperandThere IsOperand result }
    {
        let x = self.dereference(a, pos, a.first)?;
        self.member(x, name, pos)
    }
}

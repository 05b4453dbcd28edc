//! The parts of the syntax, by their numbers, and the literals that are written there (C11 6.4.4).

ghost use Rattle.ck_base.specs.Lexes.{IsAccepted};
ghost use Rattle.c_tree.specs.Syntax.{Syn};
ghost use Rattle.c_types.specs.Stands.{text_at};
ghost use Rattle.c_expressions.specs.Nodes.{IsWhole};
ghost use Rattle.c_operators.specs.Rules.{number_at, character_at};
ghost use Rattle.c_elaborator.specs.Answers.{Answers, quietly, OperandThere, IsOperand};
ghost use Rattle.c_elaborator.specs.Nodes.{IsNode};
ghost use Rattle.c_elaborator.specs.Parts.{IsPart, HasPart};

use crate::work::{Name, Part, Work};
use c_expressions::Operand;
use ck_base::{Refusal, TokenKind};

impl<'a> Work<'a> {
    /// The node with a number.
    pub fn part(&self, k: u32) -> Part<'a>
        requires { HasPart self.now k }
        ensures { (x : Syn) → IsPart self.now k x → IsNode self.now result x }
    {
        let tree = self.tree;
        match tree.nodes.as_slice().get(k as usize) {
            None => unreachable!(),
            Some(node) => Part {
                kind: node.kind,
                name: Name {
                    span: node.text,
                    pos: node.pos,
                },
                first: node.first,
                kids: node.kids.as_slice(),
            },
        }
    }

    /// An integer constant (C11 6.4.4.1).
    pub fn number(&mut self, name: Name) -> Result<Operand, Refusal>
        requires whole { IsWhole self.old.nodes }
        requires accepted { IsAccepted TokenKind.Number (text_at self.old.file.now name.span) }
        ensures { Answers quietly self.old self.new
            (number_at (text_at self.old.file.now name.span) name.pos) OperandThere IsOperand result }
    {
        let text = self.text(name.span);
        c_operators::number(&mut self.nodes, text, name.pos)
    }

    /// A character constant (C11 6.4.4.4).
    pub fn character(&mut self, name: Name) -> Result<Operand, Refusal>
        requires whole { IsWhole self.old.nodes }
        requires accepted { IsAccepted TokenKind.Char (text_at self.old.file.now name.span) }
        ensures { Answers quietly self.old self.new
            (character_at (text_at self.old.file.now name.span) name.pos) OperandThere IsOperand result }
    {
        let text = self.text(name.span);
        c_operators::character(&mut self.nodes, text, name.pos)
    }
}

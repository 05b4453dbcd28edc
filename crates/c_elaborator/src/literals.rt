//! String literals (C11 6.4.5).

ghost use Rattle.std.specs.Prelude.{◌≡◌, ◌<◌, ◌++◌, ◌∷◌, [], OnOk, IfOk, length};
ghost use Rattle.ck_base.specs.Lexes.{IsAccepted};
ghost use Rattle.c_tree.specs.Types.{Array, char};
ghost use Rattle.c_tree.specs.Syntax.{Syn, Syns, own_token};
ghost use Rattle.c_tree.specs.Values.{characters_of};
ghost use Rattle.c_tree.specs.Expressions.{text, text_bytes, pieces};
ghost use Rattle.c_types.specs.Stands.{text_at};
ghost use Rattle.c_expressions.specs.Nodes.{IsWhole, HasType};
ghost use Rattle.c_elaborator.specs.Answers.{Answers, quietly, OperandThere, IsOperand};
ghost use Rattle.c_elaborator.specs.Parts.{IsPart, HasText, AreParts, HaveTexts, token_of};
ghost use Rattle.c_elaborator.specs.Rules.{writing};

use crate::work::{Name, Work};
use c_expressions::{Integer, Leaf, Nodes, Operand};
use c_operators::append_text;
use c_tree::{CType, Literal};
use ck_base::{NoMemory, Pos, Refusal, Sequence, TYPE_TOO_LARGE, TokenKind};
use ck_int::IntKind;
use std::alloc::Global;
use std::mem;

/// No object has more bytes.
const LIMIT: usize = 67_108_864;

fn push_literal(alloc: Global, list: &mut Sequence<Literal>, item: Literal) -> Result<(), NoMemory>
    ensures { OnOk result (list.new ≡ list.old ++ item ∷ []) }
{
    let mut items = mem::replace(list, Sequence::from_vec(Vec::new(alloc))).into_vec();
    let pushed = items.push(item);
    *list = Sequence::from_vec(items);
    pushed?;
    Ok(())
}

// The number of the next literal.
fn next_literal(list: &[Literal]) -> Result<u32, NoMemory>
    ensures { IfOk result (λ k. k ≡ length list.now) }
{
    u32::try_from(list.len()).map_err(|_| NoMemory)
}

fn count_of(bytes: &Vec<u8>) -> usize
    ensures { result ≡ length bytes.now.items }
{
    bytes.as_slice().len()
}

fn chars(nodes: &mut Nodes<'_>, count: u64) -> Result<u32, NoMemory>
    requires { IsWhole nodes.old }
    ensures { IfOk result (λ k. HasType nodes.old nodes.new k (Array char count)) }
{
    let of = nodes.integer(Integer::Int(IntKind::U8, 0))?;
    nodes.type_number(CType::Array(of, count))
}

impl Work<'_> {
    // The bytes that one of adjacent literals spells.
    fn append_piece(&self, k: u32, into: &mut Vec<u8>) -> Result<(), NoMemory>
        requires { HasText self.now k }
        ensures { OnOk result ((x : Syn) → IsPart self.now k x →
            into.new.items ≡ into.old.items ++ characters_of (own_token x).text) }
    {
        let part = self.part(k);
        append_text(self.text(part.name.span), into)
    }

    fn append_pieces(&self, kids: &[u32], into: &mut Vec<u8>) -> Result<(), NoMemory>
        requires { HaveTexts self.now kids.now }
        ensures { OnOk result ((xs : Syns) → AreParts self.now kids.now xs →
            into.new.items ≡ into.old.items ++ pieces xs) }
    {
        for k in kids {
            self.append_piece(*k, into)?;
        }
        Ok(())
    }

    /// The bytes of adjacent string literals, which are one, and the zero byte behind them (C11 6.4.5p5, p6).
    pub fn text_bytes(&self, name: Name, kids: &[u32]) -> Result<Vec<u8>, NoMemory>
        requires accepted { IsAccepted TokenKind.Text (text_at self.now.file.now name.span) }
        requires parts { HaveTexts self.now kids.now }
        ensures { IfOk result (λ v. (xs : Syns) → AreParts self.now kids.now xs →
            v.items ≡ text_bytes (token_of self.now name) xs) }
    {
        let mut bytes = Vec::new(self.nodes.alloc);
        append_text(self.text(name.span), &mut bytes)?;
        self.append_pieces(kids, &mut bytes)?;
        bytes.push(0)?;
        Ok(bytes)
    }

    // A literal with these bytes, the zero among them.
    fn written(&mut self, bytes: Vec<u8>, pos: Pos) -> Result<Operand, Refusal>
        requires { IsWhole self.old.nodes }
        ensures { Answers quietly self.old self.new (writing bytes.items pos) OperandThere IsOperand result }
    {
        let count = count_of(&bytes);
        if count > LIMIT {
            return Err(Refusal::Code(TYPE_TOO_LARGE, pos));
        }
        let of = chars(&mut self.nodes, count as u64)?;
        let k = next_literal(self.nodes.p.literals.as_slice())?;
        let literal = Literal {
            pos,
            bytes: Sequence::from_vec(bytes),
        };
        push_literal(self.nodes.alloc, &mut self.nodes.p.literals, literal)?;
        self.leaf(Leaf::Literal(k), of, pos)
    }

    /// A string literal, with those that stand behind it: 140 where it is over the limit (C11 6.4.5).
    pub fn literal(&mut self, name: Name, kids: &[u32]) -> Result<Operand, Refusal>
        requires whole { IsWhole self.old.nodes }
        requires accepted { IsAccepted TokenKind.Text (text_at self.old.file.now name.span) }
        requires parts { HaveTexts self.old kids.now }
        ensures { (xs : Syns) → AreParts self.old kids.now xs →
            Answers quietly self.old self.new (text (token_of self.old name) xs) OperandThere IsOperand result }
    {
        let bytes = self.text_bytes(name, kids)?;
        self.written(bytes, name.pos)
    }
}

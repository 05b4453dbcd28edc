//! Names (C11 6.5.1), and the text of the file.

ghost use Rattle.std.specs.Prelude.{◌≡◌, ◌<◌, ◌++◌, ◌∷◌, [], OnOk};
ghost use Rattle.ck_int.specs.Kinds.{kept_of};
ghost use Rattle.c_tree.specs.Types.{int};
ghost use Rattle.c_tree.specs.Terms.{Var, Constant};
ghost use Rattle.c_tree.specs.Scopes.{State, find_name};
ghost use Rattle.c_tree.specs.Expressions.{named, library_number};
ghost use Rattle.c_types.specs.Stands.{text_at};
ghost use Rattle.c_expressions.specs.Nodes.{IsWhole, type_in, type_count};
ghost use Rattle.c_expressions.specs.Facts.{leaf_shape};
ghost use Rattle.c_elaborator.specs.Work.{Shows};
ghost use Rattle.c_elaborator.specs.Answers.{Answers, quietly, OperandThere, IsOperand};
ghost use Rattle.c_elaborator.specs.Parts.{token_of};
ghost use Rattle.c_elaborator.specs.Rules.{giving_leaf, using_object, using_function, denoting};

use crate::work::{Name, Use, Used, Work};
use c_expressions::{Leaf, Operand};
use c_operators::int_constant;
use c_types::Entity;
use ck_base::{MISFIT, NoMemory, Pos, Refusal, Span, UNDEFINED_NAME};

// The 64 bits of an enumeration constant.
#[tactic(auto, using(crate::proofs::Kept::kept_is))]
fn kept(number: i32) -> u64
    ensures { result ≡ kept_of number }
{
    i64::from(number).cast_unsigned()
}

fn push_use(uses: &mut Vec<Use>, what: Used, pos: Pos) -> Result<(), NoMemory>
    ensures { OnOk result (uses.new.items ≡ uses.old.items ++ record { what = what; pos = pos } ∷ []) }
{
    uses.push(Use { what, pos })?;
    Ok(())
}

impl<'a> Work<'a> {
    /// The bytes at a span, as far as they stand in the file.
    pub fn text(&self, span: Span) -> &'a [u8]
        ensures { result.now ≡ text_at self.now.file.now span }
    {
        let end = (span.end as usize).min(self.file.len());
        let start = (span.start as usize).min(end);
        &self.file[start..end]
    }

    // An expression that is a name or a constant.
    pub(crate) fn leaf(&mut self, kind: Leaf, of: u32, pos: Pos) -> Result<Operand, Refusal>
        requires whole { IsWhole self.old.nodes }
        requires of { of < type_count self.old.nodes }
        ensures { Answers quietly self.old self.new
            (giving_leaf (leaf_shape kind) (type_in self.old.nodes of) pos) OperandThere IsOperand result }
    {
        let node = self.nodes.leaf(kind, of, pos)?;
        Ok(Operand { node, first: pos })
    }

    // A use of an object of static storage duration.
    fn object(&mut self, k: u32, pos: Pos) -> Result<Operand, Refusal>
        requires whole { IsWhole self.old.nodes }
        ensures { Answers quietly self.old self.new (using_object k pos) OperandThere IsOperand result }
    {
        match self.object_type(k) {
            None => self.leaf(Leaf::Global(k), self.nodes.void, pos),
            Some(of) => {
                push_use(&mut self.uses, Used::Object(k), pos)?;
                self.leaf(Leaf::Global(k), of, pos)
            }
        }
    }

    // A use of a function.
    fn function(&mut self, k: u32, pos: Pos) -> Result<Operand, Refusal>
        requires whole { IsWhole self.old.nodes }
        ensures { Answers quietly self.old self.new (using_function k pos) OperandThere IsOperand result }
    {
        match self.function_type(k) {
            None => self.leaf(Leaf::Fun(k), self.nodes.void, pos),
            Some(of) => {
                push_use(&mut self.uses, Used::Function(k), pos)?;
                self.leaf(Leaf::Fun(k), of, pos)
            }
        }
    }

    // A use of a parameter or another local.
    fn local(&mut self, k: u32, of: u32, pos: Pos) -> Result<Operand, Refusal>
        requires { IsWhole self.old.nodes }
        ensures { Answers quietly self.old self.new
            (giving_leaf (Var k) (type_in self.old.nodes of) pos) OperandThere IsOperand result }
    {
        let known = self.there(of);
        self.leaf(Leaf::Var(k), known, pos)
    }

    // A name that denotes this.
    fn denoted(&mut self, entity: Option<Entity>, pos: Pos) -> Result<Operand, Refusal>
        requires { IsWhole self.old.nodes }
        ensures { Answers quietly self.old self.new (denoting self.old.nodes entity pos) OperandThere IsOperand result }
    {
        match entity {
            None => Err(Refusal::Code(UNDEFINED_NAME, pos)),
            Some(Entity::Local(k, of)) => self.local(k, of, pos),
            Some(Entity::Static(k)) => self.object(k, pos),
            Some(Entity::Routine(k)) => self.function(k, pos),
            Some(Entity::Enumerator(value)) => self.constant(value, pos),
            Some(Entity::Alias(_)) => Err(Refusal::Code(MISFIT, pos)),
            Some(Entity::Library(_, _)) => Err(Refusal::Code(MISFIT, pos)),
        }
    }

    // An enumeration constant (C11 6.7.2.2p3).
    fn constant(&mut self, number: i32, pos: Pos) -> Result<Operand, Refusal>
        requires { IsWhole self.old.nodes }
        ensures { Answers quietly self.old self.new
            (giving_leaf (Constant (kept_of number)) int pos) OperandThere IsOperand result }
    {
        let bits = kept(number);
        int_constant(&mut self.nodes, bits, pos)
    }

    /// What a name denotes, as an expression (C11 6.5.1p2): 130 where it is not declared, 133 for a typedef name and
    /// for a library function, which stands in a direct call only.
    pub fn named(&mut self, name: Name) -> Result<Operand, Refusal>
        requires { IsWhole self.old.nodes }
        ensures { Answers quietly self.old self.new (named (token_of self.old name)) OperandThere IsOperand result }
    {
        let entity = self.nodes.scopes.look(self.text(name.span));
        self.denoted(entity, name.pos)
    }

    /// The number of the library function or intrinsic that a name denotes, if it denotes one.
    pub fn called_library(&self, name: Name) -> Option<u8>
        ensures { (s : State) → Shows self.now s →
            library_number (find_name s.scopes (token_of self.now name).text) ≡ result }
    {
        match self.nodes.scopes.look(self.text(name.span)) {
            Some(Entity::Library(k, _)) => Some(k),
            _ => None,
        }
    }
}

//! Names that stand for types (C11 6.7.8), and enumeration constants (6.7.2.2).

ghost use Rattle.std.specs.Prelude.{◌≡◌};
ghost use Rattle.c_tree.specs.Declarators.{typedef_name, enumerate};
ghost use Rattle.c_expressions.specs.Nodes.{IsWhole};
ghost use Rattle.c_elaborator.specs.Answers.{Answers, quietly, TypeThere, IsType};
ghost use Rattle.c_elaborator.specs.Parts.{token_of};
ghost use Rattle.c_declarators.specs.Parts.{NumberThere, IsNumber, in_any};
ghost use Rattle.c_declarators.specs.Naming.{IsAlias};

use crate::members::text_of;
use crate::parameters::is_new;
use c_elaborator::{Name, Work};
use c_plain_rules::{in_int, next_after};
use c_types::{Decl, DeclKind, Entity, Faults, Storage};
use ck_base::{DECLARED_TWICE, MISFIT, NO_CONSTANT, Pos, Refusal};

// The type that an entity stands for, if it is a typedef name.
fn alias_of(found: Option<Entity>) -> Option<u32>
    ensures { IsAlias found result }
{
    match found {
        Some(Entity::Alias(of)) => Some(of),
        None
        | Some(
            Entity::Local(_, _)
            | Entity::Static(_)
            | Entity::Routine(_)
            | Entity::Enumerator(_)
            | Entity::Library(_, _),
        ) => None,
    }
}

/// The type that a typedef name stands for: 133 at the name if it is none.
pub fn typedef_name(work: &Work<'_>, name: Name) -> Result<u32, Refusal>
    requires { IsWhole work.now.nodes }
    ensures { Answers quietly work.now work.now (typedef_name (token_of work.now name)) TypeThere IsType result }
{
    let found = work.nodes.scopes.look(text_of(work.file, name.span));
    match alias_of(found) {
        None => Err(Refusal::Code(MISFIT, name.pos)),
        Some(of) => Ok(work.there(of)),
    }
}

fn constant_of(name: Name, value: i32) -> Decl
    ensures name { result.name ≡ name.span }
    ensures pos { result.pos ≡ name.pos }
{
    Decl {
        name: name.span,
        pos: name.pos,
        of: 0,
        faults: Faults {
            lacks: false,
            misfits: false,
            too_large: false,
        },
        what: DeclKind::Constant(value),
        storage: Storage::Plain,
        defines: true,
    }
}

/// An enumeration constant has its value from here on: 131 for a second one of its name in the scope, and 134 at the
/// place for a value that is none of `int`. The answer is the value that the next one has without an expression.
pub fn enumerate(work: &mut Work<'_>, name: Name, number: i128, at: Pos) -> Result<i128, Refusal>
    requires { IsWhole work.old.nodes }
    ensures { Answers quietly work.old work.new (enumerate (token_of work.old name) number at) NumberThere
        (in_any IsNumber) result }
{
    if !is_new(work, name) {
        return Err(Refusal::Code(DECLARED_TWICE, name.pos));
    }
    match in_int(number) {
        None => Err(Refusal::Code(NO_CONSTANT, at)),
        Some(value) => {
            let d = constant_of(name, value);
            match work.nodes.scopes.declare_constant(d, value) {
                Err(refusal) => Err(refusal),
                Ok(_) => Ok(next_after(value)),
            }
        }
    }
}

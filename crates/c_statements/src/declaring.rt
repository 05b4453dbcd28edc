//! Names that are declared (C11 6.2.1, 6.2.2, 6.2.7, 6.7, 6.9.1).

ghost use Rattle.std.specs.Prelude.{◌≡◌, ◌<◌};
ghost use Rattle.c_types.specs.Calls.{Extends};
ghost use Rattle.c_expressions.specs.Nodes.{IsWhole, type_count};
ghost use Rattle.c_elaborator.specs.Answers.{Answers, freely};
ghost use Rattle.c_statements.specs.Declaring.{DeclaresIn, BeginsIn, declares, begins, EntryThere, IsEntry};
ghost use Rattle.c_statements.specs.Declaring.{FunctionThere, IsFunction};

use c_elaborator::Work;
use c_expressions::Nodes;
use c_types::{Decl, DeclKind, Entry};
use ck_base::Refusal;

// A declaration that the scopes and the program show.
fn declare_in(nodes: &mut Nodes<'_>, d: Decl) -> Result<Entry, Refusal>
    ensures answers { DeclaresIn nodes.old nodes.new d result }
    ensures extends { Extends nodes.old.p nodes.new.p }
    ensures file { nodes.new.scopes.file.now ≡ nodes.old.scopes.file.now }
    ensures others { nodes.new ≡ record nodes.old { p = nodes.new.p; scopes = nodes.new.scopes } }
{
    nodes.scopes.declare(&mut nodes.p, d)
}

// The same of the definition of a function.
fn define_in(nodes: &mut Nodes<'_>, d: Decl) -> Result<u32, Refusal>
    ensures answers { BeginsIn nodes.old nodes.new d result }
    ensures extends { Extends nodes.old.p nodes.new.p }
    ensures file { nodes.new.scopes.file.now ≡ nodes.old.scopes.file.now }
    ensures others { nodes.new ≡ record nodes.old { p = nodes.new.p; scopes = nodes.new.scopes } }
{
    nodes.scopes.declare_definition(&mut nodes.p, d)
}

/// The name of an object, of a function or of a type is declared in the innermost scope: 131 where it does not agree
/// with what it denotes there, then the rules on its type (132, 133, 140). The answer is what it denotes then.
pub fn declare_name(work: &mut Work<'_>, d: Decl) -> Result<Entry, Refusal>
    requires whole { IsWhole work.old.nodes }
    requires there { d.of < type_count work.old.nodes }
    requires what { d.what ≡ DeclKind.Object }
    ensures { Answers freely work.old work.new (declares work.old d) EntryThere IsEntry result }
{
    declare_in(&mut work.nodes, d)
}

/// The definition of a function is begun: 131 where it was begun before, or where its name denotes something else, then
/// the rules on its type. The function has no locals yet. The answer is its number.
pub fn declare_definition(work: &mut Work<'_>, d: Decl) -> Result<u32, Refusal>
    requires whole { IsWhole work.old.nodes }
    requires there { d.of < type_count work.old.nodes }
    ensures { Answers freely work.old work.new (begins work.old d) FunctionThere IsFunction result }
{
    let k = define_in(&mut work.nodes, d)?;
    work.addressed.clear();
    Ok(k)
}

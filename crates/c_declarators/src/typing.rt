//! Type names (C11 6.7.7), and the type that a declarator makes.

ghost use Rattle.std.specs.Prelude.{◌<◌, List, reverse, All};
ghost use Rattle.c_tree.specs.Readings.{Wrap as Meant};
ghost use Rattle.c_expressions.specs.Nodes.{IsWhole, type_in, type_count};
ghost use Rattle.c_elaborator.specs.Answers.{Answers, quietly, TypeThere, IsType};
ghost use Rattle.c_declarators.specs.Forming.{WrapIsThere};
ghost use Rattle.c_declarators.specs.Parts.{FormedThere, IsFormed, AreWraps, any_scope, in_any};
ghost use Rattle.c_declarators.specs.Steps.{forms, named_type};

use crate::forming::form;
use crate::judging::judge;
use crate::parts::{Formed, Wrap};
use c_elaborator::Work;
use ck_base::{Pos, Refusal};

/// The type that the parts of a declarator make of a type, the last of the list first, and the rules that it breaks.
pub fn formed(work: &mut Work<'_>, of: u32, wraps: &[Wrap<'_>]) -> Result<Formed, Refusal>
    requires whole { IsWhole work.old.nodes }
    requires there { of < type_count work.old.nodes }
    requires parts { All (WrapIsThere work.old.nodes) wraps.now }
    ensures { (ws : List Meant) → AreWraps any_scope work.old (reverse wraps.now) ws →
        Answers quietly work.old work.new (forms (type_in work.old.nodes of) ws) FormedThere
        (in_any IsFormed) result }
{
    Ok(form(&mut work.nodes, of, wraps)?)
}

/// The type that a type name is, whose first byte stands at the place.
pub fn named_type(
    work: &mut Work<'_>,
    of: u32,
    wraps: &[Wrap<'_>],
    pos: Pos,
) -> Result<u32, Refusal>
    requires whole { IsWhole work.old.nodes }
    requires there { of < type_count work.old.nodes }
    requires parts { All (WrapIsThere work.old.nodes) wraps.now }
    ensures { (ws : List Meant) → AreWraps any_scope work.old (reverse wraps.now) ws →
        Answers quietly work.old work.new (named_type (type_in work.old.nodes of) ws pos) TypeThere IsType result }
{
    let formed = form(&mut work.nodes, of, wraps)?;
    match judge(formed.faults, false, false, pos) {
        Err(refusal) => Err(refusal),
        Ok(()) => Ok(formed.of),
    }
}

//! Parameters (C11 6.7.6.3).

ghost use Rattle.std.specs.Prelude.{◌≡◌, ◌<◌, ◌&&◌};
ghost use Rattle.c_tree.specs.Types.{is_void};
ghost use Rattle.c_tree.specs.Scopes.{State};
ghost use Rattle.c_tree.specs.Readings.{Specified as MeantSpecified, Derived as MeantDerived};
ghost use Rattle.c_tree.specs.Declarators.{is_new, is_free, place_of, parameter_from};
ghost use Rattle.c_expressions.specs.Nodes.{IsWhole, type_in, type_count};
ghost use Rattle.c_elaborator.specs.declared.work.Work.{Work as Built};
ghost use Rattle.c_elaborator.specs.Work.{Shows};
ghost use Rattle.c_elaborator.specs.Answers.{Answers, quietly};
ghost use Rattle.c_elaborator.specs.Parts.{token_of};
ghost use Rattle.c_declarators.specs.Parts.{SpecifiedThere, IsSpecified, DerivedThere, IsDerived, any_scope};
ghost use Rattle.c_declarators.specs.Parts.{name_token, ParamThere, IsParam, in_any};
ghost use Rattle.c_declarators.specs.Steps.{has_no_parts};

use crate::forming::{adjusted, form};
use crate::judging::judge;
use crate::members::text_of;
use crate::parts::{Derived, Param, Specified};
use c_elaborator::{Name, Work};
use c_expressions::Nodes;
use ck_base::{DECLARED_TWICE, Refusal};

/// Whether the innermost scope does not have a name yet.
pub fn is_new(work: &Work<'_>, name: Name) -> bool
    ensures { (s : State) → Shows work.now s → result ≡ is_new s (token_of work.now name).text }
{
    work.nodes
        .scopes
        .look_here(text_of(work.file, name.span))
        .is_none()
}

fn is_free(work: &Work<'_>, name: Option<Name>) -> bool
    ensures { (s : State) → Shows work.now s → result ≡ is_free s (name_token work.now name) }
{
    match name {
        None => true,
        Some(name) => is_new(work, name),
    }
}

// Whether a declarator has no name and no parts.
fn has_no_parts(d: &Derived<'_>) -> bool
    ensures { result ≡ has_no_parts d.now }
{
    d.name.is_none() && d.wraps.is_empty()
}

// Whether a parameter is `void` alone.
fn is_nothing(nodes: &Nodes<'_>, only: bool, of: u32, d: &Derived<'_>) -> bool
    requires whole { IsWhole nodes.now }
    requires there { of < type_count nodes.now }
    ensures { result ≡ (only && (has_no_parts d.now && is_void (type_in nodes.now of))) }
{
    only && has_no_parts(d) && nodes.is_void(of)
}

// The token that gives a parameter its place.
fn place_of(name: Option<Name>, first: Name) -> Name
    ensures { (w : Built) → token_of w result ≡ place_of (name_token w name) (token_of w first) }
{
    match name {
        Some(name) => name,
        None => first,
    }
}

/// A parameter, which begins at this token: 131 for a second one of its name, and then the rules on its type (132, 133,
/// 140), which is adjusted. `only` says that it is the only one.
pub fn parameter_from(
    work: &mut Work<'_>,
    only: bool,
    s: Specified,
    first: Name,
    d: &Derived<'_>,
) -> Result<Param, Refusal>
    requires whole { IsWhole work.old.nodes }
    requires specified { SpecifiedThere work.old s }
    requires parts { DerivedThere work.old d.now }
    ensures { (x : MeantSpecified) (y : MeantDerived) → IsSpecified work.old s x →
        IsDerived any_scope work.old d.now y →
        Answers quietly work.old work.new (parameter_from only x (token_of work.old first) y) ParamThere
        (in_any IsParam) result }
{
    let at = place_of(d.name, first);
    if !is_free(work, d.name) {
        return Err(Refusal::Code(DECLARED_TWICE, at.pos));
    }
    let nothing = is_nothing(&work.nodes, only, s.of, d);
    let formed = form(&mut work.nodes, s.of, d.wraps.as_slice())?;
    let of = adjusted(&mut work.nodes, formed.of)?;
    match judge(formed.faults, false, false, at.pos) {
        Err(refusal) => Err(refusal),
        Ok(()) => Ok(Param {
            name: d.name,
            at,
            of,
            nothing,
        }),
    }
}

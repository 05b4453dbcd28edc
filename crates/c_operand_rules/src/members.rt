//! Members of structs and unions, by their names (C11 6.5.2.3).

ghost use Rattle.std.specs.Prelude.{◌≡◌, ◌<◌, false, MatchOption};
ghost use Rattle.c_tree.specs.Types.{Tagged, is_tagged};
ghost use Rattle.c_tree.specs.Scopes.{State};
ghost use Rattle.c_tree.specs.Views.{types_of};
ghost use Rattle.c_types.specs.Stands.{Stands};
ghost use Rattle.c_expressions.specs.Nodes.{IsWhole, type_in, type_count};
ghost use Rattle.c_operand_rules.specs.Members.{MembersAreSpelled, found_in, sought, IsSought, told, finding, Finds};

use c_expressions::{Class, Nodes};
use c_tree::Member;
use ck_base::{INCOMPLETE_TYPE, MISFIT, Pos, Refusal};

/// A member that has a name.
#[derive(Clone, Copy)]
pub struct Found {
    /// Its number among the members.
    pub number: u32,
    /// The number of its type.
    pub of: u32,
}

/// What is found of a member of a struct or union.
#[derive(Clone, Copy)]
enum Outcome {
    /// The struct or union is not complete.
    Incomplete,
    /// It has no such member.
    Missing,
    At(Found),
}

// A member by its number.
fn found_in(members: &[Member], number: Option<u32>) -> Outcome
    ensures { result ≡ found_in members.now number }
{
    match number {
        None => Outcome::Missing,
        Some(number) => match members.get(number as usize) {
            None => Outcome::Missing,
            Some(m) => Outcome::At(Found { number, of: m.of }),
        },
    }
}

// The member of a name, of a struct or union by the number of its tag: the first one.
fn seek(nodes: &Nodes<'_>, tag: u32, name: &[u8]) -> Outcome
    ensures { (s : State) → Stands nodes.now.scopes nodes.now.p s → MembersAreSpelled nodes.now.scopes.file.now s →
        IsSought (types_of nodes.now.p.types) result (sought s tag name.now) }
{
    match nodes.scopes.members(&nodes.p, tag) {
        None => Outcome::Incomplete,
        Some(members) => found_in(members, nodes.scopes.member(tag, name)),
    }
}

// The number of the tag of a struct or union.
fn tag_of(nodes: &Nodes<'_>, t: u32) -> Option<u32>
    requires whole { IsWhole nodes.now }
    requires there { t < type_count nodes.now }
    ensures { MatchOption result (is_tagged (type_in nodes.now t) ≡ false) (λ n. type_in nodes.now t ≡ Tagged n) }
{
    match nodes.class(t) {
        Class::Tagged(tag) => Some(tag),
        Class::Void
        | Class::Int(_, _)
        | Class::Cap(_)
        | Class::Pointer(_)
        | Class::Array(_, _)
        | Class::Function(_)
        | Class::Const(_) => None,
    }
}

// A member of a struct or union by the number of its tag.
fn member_of(nodes: &Nodes<'_>, tag: u32, name: &[u8], first: Pos) -> Result<Found, Refusal>
    ensures { (s : State) → Stands nodes.now.scopes nodes.now.p s → MembersAreSpelled nodes.now.scopes.file.now s →
        Finds nodes.now (told first (sought s tag name.now)) s result }
{
    match seek(nodes, tag, name) {
        Outcome::Incomplete => Err(Refusal::Code(INCOMPLETE_TYPE, first)),
        Outcome::Missing => Err(Refusal::Code(MISFIT, first)),
        Outcome::At(member) => Ok(member),
    }
}

/// The first member of a name, of the struct or union that is the type of an operand, qualified or not (C11 6.5.2.3p1).
/// Refuses at the operand's first token: with 132 one that is not complete, with 133 what is none and where there is no
/// such member.
pub fn find_member(nodes: &Nodes<'_>, of: u32, name: &[u8], first: Pos) -> Result<Found, Refusal>
    requires whole { IsWhole nodes.now }
    requires there { of < type_count nodes.now }
    ensures { (s : State) → Stands nodes.now.scopes nodes.now.p s → MembersAreSpelled nodes.now.scopes.file.now s →
        Finds nodes.now (finding (type_in nodes.now of) name.now first) s result }
{
    match tag_of(nodes, nodes.bare(of)) {
        None => Err(Refusal::Code(MISFIT, first)),
        Some(tag) => member_of(nodes, tag, name, first),
    }
}

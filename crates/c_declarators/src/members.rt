//! Members of structs and unions (C11 6.7.2.1).

ghost use Rattle.std.specs.Prelude.{◌≡◌, ℕ, ◌<◌, List, [], ◌∷◌, ◌++◌, false, not, ◌||◌, bytes_eq, reverse, All, IfOk};
ghost use Rattle.c_tree.specs.Types.{is_function};
ghost use Rattle.c_tree.specs.Scopes.{Part, State, is_complete};
ghost use Rattle.c_tree.specs.Readings.{Wrap as MeantWrap, Specified as MeantSpecified, Derived as MeantDerived};
ghost use Rattle.c_tree.specs.Declarators.{add_member};
ghost use Rattle.c_types.specs.Stands.{Stands, text_at};
ghost use Rattle.c_expressions.specs.Nodes.{IsWhole, type_in, type_count};
ghost use Rattle.c_elaborator.specs.Answers.{Answers, quietly};
ghost use Rattle.c_elaborator.specs.Parts.{token_of};
ghost use Rattle.c_declarators.specs.Forming.{WrapIsThere};
ghost use Rattle.c_declarators.specs.Parts.{SpecifiedThere, IsSpecified, DerivedThere, IsDerived, AreWraps, any_scope};
ghost use Rattle.c_declarators.specs.Parts.{AreMembers, AllMembersThere, AreAllMembers, has_name};
ghost use Rattle.c_declarators.specs.Steps.{named_member};

use crate::forming::{form, is_complete};
use crate::judging::judge;
use crate::parts::{Derived, Specified, Wrap};
use c_elaborator::{Name, Work};
use c_expressions::Nodes;
use c_tree::Member;
use c_types::either;
use ck_base::{DECLARED_TWICE, NO_TREE, NoMemory, Refusal, Span};
use indexmap::IndexMap;
use std::alloc::Global;
use text_keys::TextKey;

/// The members of a struct or union so far, and their names.
#[derive(Drop)]
pub struct Members<'a> {
    /// In the order of the file.
    pub all: Vec<Member>,
    pub(crate) names: IndexMap<TextKey<'a>, ()>,
}

impl<'a> Members<'a> {
    /// No members.
    pub fn new(alloc: Global) -> Self
        ensures all { result.all.items ≡ [] }
        ensures names { (text : List ℕ) → has_name result text ≡ false }
    {
        Members {
            all: Vec::new(alloc),
            names: IndexMap::new(alloc),
        }
    }

    // Whether a name is that of one of these members.
    fn has(&self, text: &[u8]) -> bool
        ensures { result ≡ has_name self.now text.now }
    {
        self.names.contains_key(&TextKey { bytes: text })
    }

    // These members and one more behind them, with its name.
    fn with(self, member: Member, text: &'a [u8]) -> Result<Members<'a>, NoMemory>
        ensures all { IfOk result (λ v. v.all.items ≡ self.entry.all.items ++ member ∷ []) }
        ensures names { IfOk result (λ v. (other : List ℕ) →
            has_name v other ≡ (bytes_eq text.entry.now other || has_name self.entry other)) }
    {
        let mut longer = self;
        longer.names.insert(TextKey { bytes: text }, ())?;
        longer.all.push(member)?;
        Ok(longer)
    }
}

/// The bytes at a span, as far as they stand in the file.
pub(crate) fn text_of<'a>(file: &'a [u8], span: Span) -> &'a [u8]
    ensures { result.now ≡ text_at file.now span }
{
    let end = (span.end as usize).min(file.len());
    let start = (span.start as usize).min(end);
    &file[start..end]
}

// Whether a member may not have this type since it is not complete.
fn lacks(nodes: &Nodes<'_>, t: u32) -> bool
    requires whole { IsWhole nodes.now }
    requires there { t < type_count nodes.now }
    ensures { (s : State) → Stands nodes.now.scopes nodes.now.p s →
        result ≡ not (is_function (type_in nodes.now t) || is_complete s (type_in nodes.now t)) }
{
    !either(nodes.is_function(t), is_complete(nodes, t))
}

// A member with a name, behind those that stand before it.
fn named_member<'a>(
    work: &mut Work<'a>,
    of: u32,
    name: Name,
    wraps: &[Wrap<'_>],
    members: Members<'a>,
) -> Result<Members<'a>, Refusal>
    requires whole { IsWhole work.old.nodes }
    requires there { of < type_count work.old.nodes }
    requires parts { All (WrapIsThere work.old.nodes) wraps.now }
    requires members { AllMembersThere work.old members }
    ensures { (ws : List MeantWrap) (ms : List Part) → AreWraps any_scope work.old (reverse wraps.now) ws →
        AreMembers work.old members.entry.all.items ms →
        Answers quietly work.old work.new (named_member (type_in work.old.nodes of) ws (token_of work.old name) ms)
        AllMembersThere AreAllMembers result }
{
    let text = text_of(work.file, name.span);
    if members.has(text) {
        return Err(Refusal::Code(DECLARED_TWICE, name.pos));
    }
    let formed = form(&mut work.nodes, of, wraps)?;
    let incomplete = lacks(&work.nodes, formed.of);
    let function = work.nodes.is_function(formed.of);
    match judge(formed.faults, incomplete, function, name.pos) {
        Err(refusal) => Err(refusal),
        Ok(()) => {
            let member = Member {
                name: name.span,
                of: formed.of,
            };
            let longer = members.with(member, text)?;
            Ok(longer)
        }
    }
}

/// A member behind those that stand before it: 131 for a second one of its name, and then the rules on its type, which
/// is complete and no function's (132, 133, 140).
pub fn add_member<'a>(
    work: &mut Work<'a>,
    s: Specified,
    d: &Derived<'_>,
    members: Members<'a>,
) -> Result<Members<'a>, Refusal>
    requires whole { IsWhole work.old.nodes }
    requires specified { SpecifiedThere work.old s }
    requires parts { DerivedThere work.old d.now }
    requires members { AllMembersThere work.old members }
    ensures { (x : MeantSpecified) (y : MeantDerived) (ms : List Part) → IsSpecified work.old s x →
        IsDerived any_scope work.old d.now y → AreMembers work.old members.entry.all.items ms →
        Answers quietly work.old work.new (add_member x x.stored y.name y.wraps ms) AllMembersThere AreAllMembers
        result }
{
    match d.name {
        None => Err(Refusal::Code(NO_TREE, s.first)),
        Some(name) => named_member(work, s.of, name, d.wraps.as_slice(), members),
    }
}

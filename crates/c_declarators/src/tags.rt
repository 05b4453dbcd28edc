//! Tags of structs, unions and enumerations (C11 6.7.2.1 to 6.7.2.3).

ghost use Rattle.std.specs.Prelude.{◌≡◌, ◌<◌, true, None, List, option_map, IfOk};
ghost use Rattle.c_tree.specs.Types.{Tagged};
ghost use Rattle.c_tree.specs.Scopes.{State, Part, find_in, innermost};
ghost use Rattle.c_tree.specs.Declarators.{kind_at, new_tag, declare_tag, named_tag, begin_tag, complete_tag};
ghost use Rattle.c_tree.specs.Views.{types_of};
ghost use Rattle.c_types.specs.Calls.{Answers as Declared, Does, HasParts, Completes, IsTag};
ghost use Rattle.c_types.specs.Declares.{declares_tag, name_of};
ghost use Rattle.c_types.specs.Looks.{tag_kind_of};
ghost use Rattle.c_types.specs.Naming.{IsTagOf};
ghost use Rattle.c_types.specs.Stands.{tagging_of};
ghost use Rattle.c_expressions.specs.Nodes.{IsWhole, type_in, type_count};
ghost use Rattle.c_elaborator.specs.Work.{Shows};
ghost use Rattle.c_elaborator.specs.Answers.{Answers, quietly, NothingThere, IsNothing};
ghost use Rattle.c_elaborator.specs.Shown.{AnswersFor};
ghost use Rattle.c_elaborator.specs.Parts.{token_of};
ghost use Rattle.c_declarators.specs.Calling.{IsDeclared};
ghost use Rattle.c_declarators.specs.Parts.{CountThere, IsRecord, MembersThere, AreMembers};
ghost use Rattle.c_declarators.specs.Steps.{tag_there, new_enumeration_of, named_enumeration_of};

use c_elaborator::{Name, Work};
use c_expressions::Nodes;
use c_tree::{Member, RecordKind};
use c_types::{Decl, DeclKind, Entry, Faults, Storage, TagKind, Tagging};
use ck_base::{INCOMPLETE_TYPE, MISFIT, NoMemory, Pos, Refusal};

// A new struct or union, in what is declared.
fn add_tag(nodes: &mut Nodes<'_>, kind: RecordKind) -> Result<u32, NoMemory>
    ensures declared { IsDeclared nodes.old nodes.new }
    ensures is { IfOk result (λ n. Does nodes.old.scopes nodes.old.p nodes.new.scopes nodes.new.p (new_tag kind)
        (λ s m. m ≡ n)) }
{
    nodes.scopes.new_tag(&mut nodes.p, kind)
}

// A tag is declared in the innermost scope.
fn bind_tag(nodes: &mut Nodes<'_>, kind: TagKind, d: Decl) -> Result<Entry, Refusal>
    ensures declared { IsDeclared nodes.old nodes.new }
    ensures is { Declared nodes.old.scopes nodes.old.p nodes.new.scopes nodes.new.p
        (declares_tag kind (name_of nodes.old.scopes.file.now d) d.defines) (IsTag nodes.new.p) result }
{
    nodes.scopes.declare_tag(&mut nodes.p, kind, d)
}

// A struct or union gets its members, in what is declared.
fn fill_tag(nodes: &mut Nodes<'_>, tag: u32, members: Vec<Member>, pos: Pos) -> Result<(), Refusal>
    ensures declared { IsDeclared nodes.old nodes.new }
    ensures is { (kind : RecordKind) (parts : List Part) → HasParts (types_of nodes.old.p.types) parts members.items →
        Completes nodes.old.scopes nodes.old.p nodes.new.scopes nodes.new.p kind tag parts pos result }
{
    nodes.scopes.complete_tag(&mut nodes.p, tag, members, pos)
}

/// A new struct or union without a tag, which is not complete. The answer is its number.
pub fn new_tag(work: &mut Work<'_>, kind: RecordKind) -> Result<u32, Refusal>
    requires { IsWhole work.old.nodes }
    ensures { Answers quietly work.old work.new (new_tag kind) CountThere (IsRecord kind) result }
{
    let tag = add_tag(&mut work.nodes, kind)?;
    Ok(tag)
}

// What a tag denotes, in this scope or in force.
fn found_tag(work: &Work<'_>, here: bool, name: Name) -> Option<Tagging>
    ensures { (s : State) → Shows work.now s →
        option_map tagging_of result ≡ tag_there here (token_of work.now name) s }
{
    let text = work.text(name.span);
    if here {
        work.nodes.scopes.look_tag_here(text)
    } else {
        work.nodes.scopes.look_tag(text)
    }
}

fn tag_kind(kind: RecordKind) -> TagKind
    ensures { result ≡ tag_kind_of kind }
{
    match kind {
        RecordKind::Struct => TagKind::Struct,
        RecordKind::Union => TagKind::Union,
    }
}

// The declaration of a tag, with braces or without.
fn tag_of(name: Name, kind: TagKind, defines: bool) -> Decl
    ensures name { result.name ≡ name.span }
    ensures pos { result.pos ≡ name.pos }
    ensures defines { result.defines ≡ defines }
{
    Decl {
        name: name.span,
        pos: name.pos,
        of: 0,
        faults: Faults {
            lacks: false,
            misfits: false,
            too_large: false,
        },
        what: DeclKind::Tag(kind),
        storage: Storage::Plain,
        defines,
    }
}

// A new struct or union with a tag that this scope does not have yet.
fn declare_tag(work: &mut Work<'_>, kind: RecordKind, name: Name) -> Result<u32, Refusal>
    requires whole { IsWhole work.old.nodes }
    requires new { (s : State) → Shows work.old s →
        find_in (innermost s.scopes).tags (token_of work.old name).text ≡ None }
    ensures { Answers quietly work.old work.new (declare_tag kind (token_of work.old name)) CountThere
        (IsRecord kind) result }
{
    let Ok(tag) = u32::try_from(work.nodes.scopes.tag_count()) else {
        return Err(Refusal::NoMemory);
    };
    let k = tag_kind(kind);
    let d = tag_of(name, k, false);
    match bind_tag(&mut work.nodes, k, d) {
        Err(refusal) => Err(refusal),
        Ok(_) => Ok(tag),
    }
}

/// The struct or union that a tag names, of this scope or in force; 133 at the name for a tag of another kind.
pub fn named_tag(
    work: &mut Work<'_>,
    here: bool,
    kind: RecordKind,
    name: Name,
) -> Result<u32, Refusal>
    requires { IsWhole work.old.nodes }
    ensures { Answers quietly work.old work.new (named_tag here kind (token_of work.old name)) CountThere
        (IsRecord kind) result }
{
    match found_tag(work, here, name) {
        None => declare_tag(work, kind, name),
        Some(Tagging::Enumerated) => Err(Refusal::Code(MISFIT, name.pos)),
        Some(Tagging::Recorded(tag)) => {
            if work.nodes.scopes.is_of_kind(tag, kind) {
                Ok(tag)
            } else {
                Err(Refusal::Code(MISFIT, name.pos))
            }
        }
    }
}

/// The braces of a struct or union are opened: 131 at the place where they were opened before.
pub fn begin_tag(work: &mut Work<'_>, tag: u32, pos: Pos) -> Result<(), Refusal>
    requires { IsWhole work.old.nodes }
    ensures { Answers quietly work.old work.new (begin_tag tag pos) NothingThere IsNothing result }
{
    work.nodes.scopes.begin_tag(tag, pos)
}

/// A struct or union of this kind gets its members: 140 at the place if it is over the limit.
pub fn complete_tag(
    work: &mut Work<'_>,
    kind: RecordKind,
    tag: u32,
    members: Vec<Member>,
    pos: Pos,
) -> Result<(), Refusal>
    requires whole { IsWhole work.old.nodes }
    requires members { MembersThere work.old members.items }
    ensures { (ms : List Part) → AreMembers work.old members.items ms →
        AnswersFor quietly work.old work.new (IsTagOf kind tag) (λ n. complete_tag kind n ms pos) NothingThere
        IsNothing result }
{
    fill_tag(&mut work.nodes, tag, members, pos)
}

/// The type of a struct or union, by its number.
pub fn tagged(work: &Work<'_>, tag: u32) -> u32
    requires { IsWhole work.now.nodes }
    ensures there { result < type_count work.now.nodes }
    ensures is { (s : State) (k : RecordKind) → Shows work.now s → kind_at s tag k ≡ true →
        type_in work.now.nodes result ≡ Tagged tag }
{
    work.there(work.nodes.scopes.type_of_tag(tag))
}

/// The tag of an enumeration with a list, which is new in its scope: otherwise 131, and 133 for the tag of a struct or
/// union.
pub fn new_enumeration(work: &mut Work<'_>, name: Name) -> Result<(), Refusal>
    requires { IsWhole work.old.nodes }
    ensures { Answers quietly work.old work.new
        (new_enumeration_of (token_of work.old name)) NothingThere IsNothing result }
{
    let d = tag_of(name, TagKind::Enum, true);
    match bind_tag(&mut work.nodes, TagKind::Enum, d) {
        Err(refusal) => Err(refusal),
        Ok(_) => Ok(()),
    }
}

/// The tag of an enumeration without a list, which is in force: otherwise 132, and 133 for the tag of a struct or
/// union.
pub fn named_enumeration(work: &Work<'_>, name: Name) -> Result<(), Refusal>
    requires { IsWhole work.now.nodes }
    ensures { Answers quietly work.now work.now
        (named_enumeration_of (token_of work.now name)) NothingThere IsNothing result }
{
    match found_tag(work, false, name) {
        None => Err(Refusal::Code(INCOMPLETE_TYPE, name.pos)),
        Some(Tagging::Enumerated) => Ok(()),
        Some(Tagging::Recorded(_)) => Err(Refusal::Code(MISFIT, name.pos)),
    }
}

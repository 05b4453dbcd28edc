//! Specifiers, type names, structs, unions and enumerations (C11 6.7.1 to 6.7.3, 6.7.7).
ghost use Rattle.std.specs.Prelude.{◌≡◌, [], List, pos};
ghost use Rattle.ck_base.specs.Tokens.{Lexeme};
ghost use Rattle.c_tree.specs.declared.syntax.NodeKind.TheVariants as kinds;
ghost use Rattle.c_tree.specs.Syntax.{Syn, Syns};
ghost use Rattle.c_tree.specs.Scopes.{Part};
ghost use Rattle.c_tree.specs.Readings.{Specified as MeantSpecified};
ghost use Rattle.c_tree.specs.Declarators.{constant, named_types, record_specifier, all_members, enum_specifier};
ghost use Rattle.c_tree.specs.Declarators.{enumerators, enumerator, type_name};
ghost use Rattle.c_tree.specs.Declarators.{member_declarators};
ghost use Rattle.c_tree.specs.Programs.{reading, readings, type_of_kind};
ghost use Rattle.c_types.specs.Naming.{IsTagOf};
ghost use Rattle.c_expressions.specs.Nodes.{IsWhole};
ghost use Rattle.c_elaborator.specs.Answers.{Answers, quietly, TypeThere, IsType};
ghost use Rattle.c_elaborator.specs.Answers.{NothingThere, IsNothing};
ghost use Rattle.c_elaborator.specs.Shown.{AnswersFor};
ghost use Rattle.c_elaborator.specs.Parts.{IsPart, AreParts, token_of, IsOf, AreOf, AreEnumerators};
ghost use Rattle.c_declarators.specs.Parts.{in_any, SpecifiedThere, IsSpecified};
ghost use Rattle.c_declarators.specs.Parts.{NumberThere, IsNumber, AreMembers, AllMembersThere, AreAllMembers};
ghost use Rattle.c_readings.specs.Kids.{IsNode};
ghost use Rattle.c_readings.specs.Within.{PartWithin, PartsWithin, PartThat, PartsThat, NodeWithin};
ghost use Rattle.c_readings.specs.Gathered.{type_of};
ghost use Rattle.c_readings.specs.Specifying.{MaybeTypeThere, IsMaybeType, TypesThere, AreTypes};
ghost use Rattle.c_readings.specs.Specifying.{maybe_type, unstored, filled, untagged};
ghost use Rattle.c_readings.specs.Specifying.{tagged_record, tagged_enumeration, listed, within};
ghost use Rattle.c_readings.specs.Specifying.{member_declarator};

use crate::declarators::{derived, within};
use crate::expressions::constant;
use crate::rules::{int_type, named_enum, named_record};
use crate::tree::{first_of, name_of, node_at, tag_of};
use c_declarators::{
    Members, Specified, add_member, begin_tag, complete_tag, enumerate, has_register, named_tag,
    named_type, new_enumeration, new_tag, tagged, typedef_name,
};
use c_elaborator::{Name, Work};
use c_plain_rules::{has_storage, is_lone, names_type, push_some};
use c_tree::{Node, NodeKind, RecordKind};
use ck_base::{MISFIT, NO_TREE, Pos, Refusal};

/// The declaration specifiers that a node is: 133 where they are no type, or name two storage classes (C11 6.7.1,
/// 6.7.2). `alone` says that no declarator follows.
#[cycle(parts)]
pub fn specified(work: &mut Work<'_>, k: u32, alone: bool, depth: u32) -> Result<Specified, Refusal>
    requires whole { IsWhole work.old.nodes }
    requires part { PartWithin work.old depth k }
    ensures { (x : Syn) → IsPart work.old k x →
        Answers quietly work.old work.new ((reading x).specified alone) SpecifiedThere (in_any IsSpecified) result }
{
    let node = node_at(work, k);
    let kids = node.kids.as_slice();
    let lone = is_lone(alone, kids);
    let named = named_types(work, kids, lone, depth - 1)?;
    c_declarators::specified(work, node.pos, kids, named.as_slice())
}

// The type that one of the specifiers names, unless it is a word.
#[cycle(parts)]
fn maybe_type(work: &mut Work<'_>, k: u32, alone: bool, depth: u32) -> Result<Option<u32>, Refusal>
    requires whole { IsWhole work.old.nodes }
    requires part { PartWithin work.old depth k }
    ensures { (x : Syn) → IsPart work.old k x →
        Answers quietly work.old work.new (maybe_type alone x) MaybeTypeThere IsMaybeType result }
{
    let node = node_at(work, k);
    if names_type(node.kind) {
        let of = type_of(work, k, alone, depth)?;
        Ok(Some(of))
    } else {
        Ok(None)
    }
}

// The types of the typedef names, structs, unions and enumerations among specifiers, in their order.
#[cycle(parts)]
fn named_types(
    work: &mut Work<'_>,
    kids: &[u32],
    alone: bool,
    depth: u32,
) -> Result<Vec<u32>, Refusal>
    requires whole { IsWhole work.old.nodes }
    requires parts { PartsWithin work.old depth kids.now }
    ensures { (xs : Syns) → AreParts work.old kids.now xs →
        Answers quietly work.old work.new (named_types alone xs (readings xs)) TypesThere AreTypes result }
{
    let mut types = Vec::new(work.nodes.alloc);
    let mut left = kids;
    while let Some(part) = first_of(left) {
        let of = maybe_type(work, part.first, alone, depth)?;
        push_some(&mut types, of)?;
        left = part.others;
    }
    Ok(types)
}

/// The type that a node names: a type name, or a specifier that names one (C11 6.7.2, 6.7.7). `alone` says that no
/// declarator follows.
#[cycle(parts)]
pub fn type_of(work: &mut Work<'_>, k: u32, alone: bool, depth: u32) -> Result<u32, Refusal>
    requires whole { IsWhole work.old.nodes }
    requires part { PartWithin work.old depth k }
    ensures { (x : Syn) → IsPart work.old k x →
        Answers quietly work.old work.new ((reading x).type alone) TypeThere IsType result }
{
    let node = node_at(work, k);
    type_of_node(work, node, alone, depth - 1)
}

// The type of a node, by its kind.
#[cycle(parts)]
fn type_of_node(work: &mut Work<'_>, node: &Node, alone: bool, depth: u32) -> Result<u32, Refusal>
    requires whole { IsWhole work.old.nodes }
    requires node { NodeWithin work.old depth node.now }
    ensures { (t : Lexeme) (xs : Syns) → IsNode work.old node.now t xs →
        Answers quietly work.old work.new (type_of_kind node.now.kind t xs (readings xs) alone) TypeThere IsType
        result }
{
    let kids = node.kids.as_slice();
    match node.kind {
        NodeKind::TypedefName => typedef_name(work, name_of(node)),
        NodeKind::Record(kind) => record_specifier(work, kind, alone, kids, node.pos, depth),
        NodeKind::Enum => enum_specifier(work, kids, depth),
        NodeKind::TypeName => type_name(work, kids, node.pos, depth),
        _ => Err(Refusal::Code(NO_TREE, node.pos)),
    }
}

// Specifiers without a storage class: 133 at the place. `register` says that this word stands among them.
#[cycle(parts)]
pub(crate) fn unstored(
    work: &mut Work<'_>,
    k: u32,
    register: bool,
    pos: Pos,
    depth: u32,
) -> Result<Specified, Refusal>
    requires whole { IsWhole work.old.nodes }
    requires part { PartWithin work.old depth k }
    ensures { (x : Syn) → IsPart work.old k x →
        Answers quietly work.old work.new (unstored (reading x) register pos) SpecifiedThere
        (in_any IsSpecified) result }
{
    let s = specified(work, k, false, depth)?;
    if has_storage(s.stored, register) {
        return Err(Refusal::Code(MISFIT, pos));
    }
    Ok(s)
}

#[cycle(parts)]
fn type_name(work: &mut Work<'_>, kids: &[u32], pos: Pos, depth: u32) -> Result<u32, Refusal>
    requires whole { IsWhole work.old.nodes }
    requires parts { PartsWithin work.old depth kids.now }
    ensures { (t : Lexeme) (xs : Syns) → t.pos ≡ pos → AreParts work.old kids.now xs →
        Answers quietly work.old work.new (type_name t xs (readings xs)) TypeThere IsType result }
{
    match first_of(kids) {
        None => Err(Refusal::Code(NO_TREE, pos)),
        Some(part) => {
            let register = has_register(work.tree, kids);
            let s = unstored(work, part.first, register, pos, depth)?;
            let d = within(work, part.others, depth)?;
            named_type(work, s.of, d.wraps.as_slice(), pos)
        }
    }
}

#[cycle(parts)]
fn record_specifier(
    work: &mut Work<'_>,
    kind: RecordKind,
    alone: bool,
    kids: &[u32],
    pos: Pos,
    depth: u32,
) -> Result<u32, Refusal>
    requires whole { IsWhole work.old.nodes }
    requires parts { PartsWithin work.old depth kids.now }
    ensures { (t : Lexeme) (xs : Syns) → t.pos ≡ pos → AreParts work.old kids.now xs →
        Answers quietly work.old work.new (record_specifier kind alone t xs (readings xs)) TypeThere IsType result }
{
    let found = tag_of(work, kids);
    match found {
        None => untagged(work, kind, kids, pos, depth),
        Some(tag) => tagged_record(work, kind, alone, tag.name, tag.others, pos, depth),
    }
}

// A struct or union with members and without a tag.
#[cycle(parts)]
fn untagged(
    work: &mut Work<'_>,
    kind: RecordKind,
    kids: &[u32],
    pos: Pos,
    depth: u32,
) -> Result<u32, Refusal>
    requires whole { IsWhole work.old.nodes }
    requires parts { PartsWithin work.old depth kids.now }
    ensures { (xs : Syns) → AreParts work.old kids.now xs →
        Answers quietly work.old work.new (untagged kind (readings xs) pos) TypeThere IsType result }
{
    let tag = new_tag(work, kind)?;
    filled(work, kind, tag, kids, pos, pos, depth)
}

// A struct or union with a tag, and with members if there are any behind it.
#[cycle(parts)]
fn tagged_record(
    work: &mut Work<'_>,
    kind: RecordKind,
    alone: bool,
    name: Name,
    members: &[u32],
    pos: Pos,
    depth: u32,
) -> Result<u32, Refusal>
    requires whole { IsWhole work.old.nodes }
    requires parts { PartsWithin work.old depth members.now }
    ensures { (xs : Syns) → AreParts work.old members.now xs →
        Answers quietly work.old work.new (tagged_record kind alone (token_of work.old name) (readings xs) pos)
        TypeThere IsType result }
{
    if members.is_empty() {
        return named_record(work, kind, alone, name);
    }
    let tag = named_tag(work, true, kind, name)?;
    filled(work, kind, tag, members, name.pos, pos, depth)
}

// A struct or union of this kind gets its members, from the braces on. Its rules stand at its tag and at its keyword.
#[cycle(parts)]
fn filled(
    work: &mut Work<'_>,
    kind: RecordKind,
    tag: u32,
    kids: &[u32],
    at: Pos,
    keyword: Pos,
    depth: u32,
) -> Result<u32, Refusal>
    requires whole { IsWhole work.old.nodes }
    requires parts { PartsWithin work.old depth kids.now }
    ensures { (xs : Syns) → AreParts work.old kids.now xs →
        AnswersFor quietly work.old work.new (IsTagOf kind tag) (λ n. filled kind n (readings xs) at keyword) TypeThere
        IsType result }
{
    begin_tag(work, tag, at)?;
    let members = all_members(work, kids, depth)?;
    complete_tag(work, kind, tag, members.all, keyword)?;
    Ok(tagged(work, tag))
}

#[cycle(parts)]
fn all_members<'a>(work: &mut Work<'a>, kids: &[u32], depth: u32) -> Result<Members<'a>, Refusal>
    requires whole { IsWhole work.old.nodes }
    requires parts { PartsWithin work.old depth kids.now }
    ensures { (xs : Syns) → AreParts work.old kids.now xs →
        Answers quietly work.old work.new (all_members (readings xs) []) AllMembersThere AreAllMembers result }
{
    let mut members = Members::new(work.nodes.alloc);
    let mut left = kids;
    while let Some(part) = first_of(left) {
        members = member(work, part.first, members, depth)?;
        left = part.others;
    }
    Ok(members)
}

// The members that a node declares, behind those before it.
#[cycle(parts)]
fn member<'a>(
    work: &mut Work<'a>,
    k: u32,
    members: Members<'a>,
    depth: u32,
) -> Result<Members<'a>, Refusal>
    requires whole { IsWhole work.old.nodes }
    requires part { PartWithin work.old depth k }
    requires members { AllMembersThere work.old members }
    ensures { (x : Syn) (ms : List Part) → IsPart work.old k x → AreMembers work.old members.entry.all.items ms →
        Answers quietly work.old work.new ((reading x).members ms) AllMembersThere AreAllMembers result }
{
    let node = node_at(work, k);
    let kids = node.kids.as_slice();
    match first_of(kids) {
        None => Err(Refusal::Code(NO_TREE, node.pos)),
        Some(part) => {
            let register = has_register(work.tree, kids);
            let s = unstored(work, part.first, register, node.pos, depth - 1)?;
            member_declarators(work, s, part.others, members, depth - 1)
        }
    }
}

#[cycle(parts)]
fn member_declarators<'a>(
    work: &mut Work<'a>,
    s: Specified,
    kids: &[u32],
    members: Members<'a>,
    depth: u32,
) -> Result<Members<'a>, Refusal>
    requires whole { IsWhole work.old.nodes }
    requires specified { SpecifiedThere work.old s }
    requires parts { PartsWithin work.old depth kids.now }
    requires members { AllMembersThere work.old members }
    ensures { (x : MeantSpecified) (xs : Syns) (ms : List Part) → IsSpecified work.old s x →
        AreParts work.old kids.now xs → AreMembers work.old members.entry.all.items ms →
        Answers quietly work.old work.new (member_declarators x (readings xs) ms) AllMembersThere AreAllMembers result }
{
    let mut all = members;
    let mut left = kids;
    while let Some(part) = first_of(left) {
        all = member_declarator(work, s, part.first, all, depth)?;
        left = part.others;
    }
    Ok(all)
}

#[cycle(parts)]
fn member_declarator<'a>(
    work: &mut Work<'a>,
    s: Specified,
    k: u32,
    members: Members<'a>,
    depth: u32,
) -> Result<Members<'a>, Refusal>
    requires whole { IsWhole work.old.nodes }
    requires specified { SpecifiedThere work.old s }
    requires part { PartWithin work.old depth k }
    requires members { AllMembersThere work.old members }
    ensures { (x : MeantSpecified) (y : Syn) (ms : List Part) → IsSpecified work.old s x → IsPart work.old k y →
        AreMembers work.old members.entry.all.items ms →
        Answers quietly work.old work.new (member_declarator x (reading y) ms) AllMembersThere AreAllMembers result }
{
    let d = derived(work, k, depth)?;
    add_member(work, s, &d, members)
}

#[cycle(parts)]
fn enum_specifier(work: &mut Work<'_>, kids: &[u32], depth: u32) -> Result<u32, Refusal>
    requires whole { IsWhole work.old.nodes }
    requires parts { PartsThat AreEnumerators work.old depth kids.now }
    ensures { (xs : Syns) → AreParts work.old kids.now xs →
        Answers quietly work.old work.new (enum_specifier xs (readings xs)) TypeThere IsType result }
{
    let found = tag_of(work, kids);
    match found {
        None => listed(work, kids, depth),
        Some(tag) => tagged_enumeration(work, tag.name, tag.others, depth),
    }
}

// An enumeration with a tag, and with a list if one stands behind it.
#[cycle(parts)]
fn tagged_enumeration(
    work: &mut Work<'_>,
    name: Name,
    list: &[u32],
    depth: u32,
) -> Result<u32, Refusal>
    requires whole { IsWhole work.old.nodes }
    requires parts { PartsThat (AreOf kinds.Enumerator) work.old depth list.now }
    ensures { (xs : Syns) → AreParts work.old list.now xs →
        Answers quietly work.old work.new (tagged_enumeration (token_of work.old name) (readings xs)) TypeThere IsType
        result }
{
    if list.is_empty() {
        return named_enum(work, name);
    }
    new_enumeration(work, name)?;
    listed(work, list, depth)
}

// The enumeration constants of a list. The type of an enumeration is `int`.
#[cycle(parts)]
fn listed(work: &mut Work<'_>, kids: &[u32], depth: u32) -> Result<u32, Refusal>
    requires whole { IsWhole work.old.nodes }
    requires parts { PartsThat (AreOf kinds.Enumerator) work.old depth kids.now }
    ensures { (xs : Syns) → AreParts work.old kids.now xs →
        Answers quietly work.old work.new (listed (readings xs)) TypeThere IsType result }
{
    enumerators(work, kids, depth)?;
    int_type(work)
}

#[cycle(parts)]
fn enumerators(work: &mut Work<'_>, kids: &[u32], depth: u32) -> Result<(), Refusal>
    requires whole { IsWhole work.old.nodes }
    requires parts { PartsThat (AreOf kinds.Enumerator) work.old depth kids.now }
    ensures { (xs : Syns) → AreParts work.old kids.now xs →
        Answers quietly work.old work.new (enumerators (readings xs) (pos 0)) NothingThere IsNothing result }
{
    let mut next: i128 = 0;
    let mut left = kids;
    while let Some(part) = first_of(left) {
        next = enumerator(work, part.first, next, depth)?;
        left = part.others;
    }
    Ok(())
}

// An enumeration constant, and the value that the next one has without an expression. `next` is its own without one.
#[cycle(parts)]
fn enumerator(work: &mut Work<'_>, k: u32, next: i128, depth: u32) -> Result<i128, Refusal>
    requires whole { IsWhole work.old.nodes }
    requires part { PartThat (IsOf kinds.Enumerator) work.old depth k }
    ensures { (x : Syn) → IsPart work.old k x →
        Answers quietly work.old work.new ((reading x).enumerator next) NumberThere (in_any IsNumber) result }
{
    let node = node_at(work, k);
    valued(work, name_of(node), node.kids.as_slice(), next, depth - 1)
}

#[cycle(parts)]
fn valued(
    work: &mut Work<'_>,
    name: Name,
    kids: &[u32],
    next: i128,
    depth: u32,
) -> Result<i128, Refusal>
    requires whole { IsWhole work.old.nodes }
    requires parts { PartsWithin work.old depth kids.now }
    ensures { (xs : Syns) → AreParts work.old kids.now xs →
        Answers quietly work.old work.new (enumerator (token_of work.old name) (readings xs) next) NumberThere
        (in_any IsNumber) result }
{
    match first_of(kids) {
        None => enumerate(work, name, next, name.pos),
        Some(part) => {
            let c = constant(work, part.first, depth)?;
            enumerate(work, name, c.number, c.first)
        }
    }
}

//! Declarations and their declarators (C11 6.7).

ghost use Rattle.std.specs.Prelude.{◌≡◌, ℕ, reverse};
ghost use Rattle.c_tree.specs.Syntax.{Syn, Syns};
ghost use Rattle.c_tree.specs.Readings as meant;
ghost use Rattle.c_tree.specs.Programs.{reading, readings};
ghost use Rattle.c_tree.specs.Declarations.{declaration, declare_all, declare_named};
ghost use Rattle.c_tree.specs.Declarations as declarations;
ghost use Rattle.c_expressions.specs.Nodes.{IsWhole};
ghost use Rattle.c_elaborator.specs.Answers.{Answers, freely};
ghost use Rattle.c_elaborator.specs.Parts.{IsPart, AreParts, HaveParts, token_of};
ghost use Rattle.c_readings.specs.Within.{PartWithin, PartsWithin};
ghost use Rattle.c_declarators.specs.Parts.{SpecifiedThere, IsSpecified, DerivedThere, IsDerived, AreWraps, any_scope};
ghost use Rattle.c_elaborator.specs.Items.{ItemsThere, IsItems};
ghost use Rattle.c_statements.specs.Declaring.{HasBehind, IsBehind, behind_in, WrapsThere, declares_with};
ghost use Rattle.c_statements.specs.Declaring.{declares_list};

use crate::declaring::declare_name;
use crate::filling::initialize;
use c_declarators::{Derived, Formed, Specified, Wrap, formed};
use c_elaborator::{Items, Name, Work, join, no_items};
use c_readings::{derived, first_of, node_at, specified};
use c_types::{Decl, DeclKind};
use ck_base::{NO_TREE, Pos, Refusal};

/// What stands behind a declarator.
#[derive(Clone, Copy)]
pub struct Behind {
    /// The node of the initialiser.
    pub node: u32,
    /// Its first byte.
    pub first: Pos,
}

// The initialiser that stands there, if one does.
fn behind_of(work: &Work<'_>, kids: &[u32]) -> Option<Behind>
    requires { HaveParts work.now kids.now }
    ensures there { (limit : ℕ) → PartsWithin work.now limit kids.now → HasBehind work.now limit result }
    ensures is { (xs : Syns) → AreParts work.now kids.now xs → IsBehind work.now result (behind_in xs) }
{
    match first_of(kids) {
        None => None,
        Some(x) => {
            let node = node_at(work, x.first);
            Some(Behind {
                node: x.first,
                first: node.first,
            })
        }
    }
}

// What is declared of an object.
fn declared_as(s: Specified, name: Name, f: Formed, defines: bool) -> Decl
    ensures { result ≡ record {
      name = name.span;
      pos = name.pos;
      of = f.of;
      faults = f.faults;
      what = DeclKind.Object;
      storage = s.storage;
      defines = defines;
    } }
{
    Decl {
        name: name.span,
        pos: name.pos,
        of: f.of,
        faults: f.faults,
        what: DeclKind::Object,
        storage: s.storage,
        defines,
    }
}

// A name is declared, of a type that its declarator makes, and then initialised.
fn declare_so(
    work: &mut Work<'_>,
    s: Specified,
    name: Name,
    wraps: &[Wrap<'_>],
    behind: Option<Behind>,
    depth: u32,
) -> Result<Items, Refusal>
    requires whole { IsWhole work.old.nodes }
    requires specified { SpecifiedThere work.old s }
    requires parts { WrapsThere work.old wraps.now }
    requires behind { HasBehind work.old depth behind }
    ensures { (y : meant.Specified) (e : meant.Derived) (b : declarations.Behind) → IsSpecified work.old s y →
        e.name ≡ Some (token_of work.old name) → AreWraps any_scope work.old (reverse wraps.now) e.wraps →
        IsBehind work.old behind b →
        Answers freely work.old work.new (declare_named y e e.name b) ItemsThere IsItems result }
{
    let f = formed(work, s.of, wraps)?;
    let entity = declare_name(work, declared_as(s, name, f, behind.is_some()))?;
    initialize(work, entity, name, f.of, behind, depth)
}

// The same of a declarator: 120 at the specifiers where there is no name.
fn declare_named(
    work: &mut Work<'_>,
    s: Specified,
    d: &Derived<'_>,
    behind: Option<Behind>,
    depth: u32,
) -> Result<Items, Refusal>
    requires whole { IsWhole work.old.nodes }
    requires specified { SpecifiedThere work.old s }
    requires derived { DerivedThere work.old d.now }
    requires behind { HasBehind work.old depth behind }
    ensures { (y : meant.Specified) (e : meant.Derived) (b : declarations.Behind) → IsSpecified work.old s y →
        IsDerived any_scope work.old d.now e → IsBehind work.old behind b →
        Answers freely work.old work.new (declare_named y e e.name b) ItemsThere IsItems result }
{
    match d.name {
        None => Err(Refusal::Code(NO_TREE, s.first)),
        Some(name) => declare_so(work, s, name, d.wraps.as_slice(), behind, depth),
    }
}

// A declarator, and what stands behind it.
fn declare_with(
    work: &mut Work<'_>,
    s: Specified,
    first: u32,
    others: &[u32],
    depth: u32,
) -> Result<Items, Refusal>
    requires whole { IsWhole work.old.nodes }
    requires specified { SpecifiedThere work.old s }
    requires part { PartWithin work.old depth first }
    requires parts { PartsWithin work.old depth others.now }
    ensures { (y : meant.Specified) (x : Syn) (ys : Syns) → IsSpecified work.old s y → IsPart work.old first x →
        AreParts work.old others.now ys →
        Answers freely work.old work.new (declares_with y x ys) ItemsThere IsItems result }
{
    let behind = behind_of(work, others);
    let d = derived(work, first, depth)?;
    declare_named(work, s, &d, behind, depth)
}

// A declarator and its initialiser, if there is one. The name is in force in it (C11 6.2.1p7).
fn declared(work: &mut Work<'_>, s: Specified, k: u32, depth: u32) -> Result<Items, Refusal>
    requires whole { IsWhole work.old.nodes }
    requires specified { SpecifiedThere work.old s }
    requires part { PartWithin work.old depth k }
    ensures { (y : meant.Specified) (x : Syn) → IsSpecified work.old s y → IsPart work.old k x →
        Answers freely work.old work.new ((reading x).declared y) ItemsThere IsItems result }
{
    let node = node_at(work, k);
    match first_of(node.kids.as_slice()) {
        None => Err(Refusal::Code(NO_TREE, s.first)),
        Some(x) => declare_with(work, s, x.first, x.others, depth),
    }
}

// Declarators with their initialisers, one after the other.
fn declare_all(
    work: &mut Work<'_>,
    s: Specified,
    kids: &[u32],
    depth: u32,
) -> Result<Items, Refusal>
    requires whole { IsWhole work.old.nodes }
    requires specified { SpecifiedThere work.old s }
    requires parts { PartsWithin work.old depth kids.now }
    ensures { (y : meant.Specified) (xs : Syns) → IsSpecified work.old s y → AreParts work.old kids.now xs →
        Answers freely work.old work.new (declare_all y (readings xs)) ItemsThere IsItems result }
{
    let mut items = no_items(work.nodes.alloc);
    let mut left = kids;
    while let Some(part) = first_of(left) {
        let more = declared(work, s, part.first, depth)?;
        join(&mut items, more)?;
        left = part.others;
    }
    Ok(items)
}

// Specifiers, and then declarators.
fn declare_list(
    work: &mut Work<'_>,
    first: u32,
    others: &[u32],
    depth: u32,
) -> Result<Items, Refusal>
    requires whole { IsWhole work.old.nodes }
    requires part { PartWithin work.old depth first }
    requires parts { PartsWithin work.old depth others.now }
    ensures { (x : Syn) (ys : Syns) → IsPart work.old first x → AreParts work.old others.now ys →
        Answers freely work.old work.new (declares_list x ys) ItemsThere IsItems result }
{
    let s = specified(work, first, others.is_empty(), depth)?;
    declare_all(work, s, others, depth)
}

/// A declaration: specifiers, and then declarators (C11 6.7).
pub fn declaration(
    work: &mut Work<'_>,
    kids: &[u32],
    pos: Pos,
    depth: u32,
) -> Result<Items, Refusal>
    requires whole { IsWhole work.old.nodes }
    requires parts { PartsWithin work.old depth kids.now }
    ensures { (xs : Syns) → AreParts work.old kids.now xs →
        Answers freely work.old work.new (declaration pos (readings xs)) ItemsThere IsItems result }
{
    match first_of(kids) {
        None => Err(Refusal::Code(NO_TREE, pos)),
        Some(x) => declare_list(work, x.first, x.others, depth),
    }
}

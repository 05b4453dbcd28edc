//! Function definitions (C11 6.9.1).

ghost use Rattle.std.specs.Prelude.{◌≡◌, ◌<◌, true, ◌||◌, not};
ghost use Rattle.ck_base.specs.Tokens.{Lexeme};
ghost use Rattle.c_tree.specs.Syntax.{Syn, Syns};
ghost use Rattle.c_tree.specs.Readings as meant;
ghost use Rattle.c_tree.specs.Scopes.{State};
ghost use Rattle.c_tree.specs.Programs.{reading, readings, function_definition, define_named, gives_complete};
ghost use Rattle.c_expressions.specs.Nodes.{IsWhole, type_in, type_count};
ghost use Rattle.c_elaborator.specs.Work.{Shows};
ghost use Rattle.c_elaborator.specs.Answers.{Answers, freely, NothingThere, IsNothing};
ghost use Rattle.c_elaborator.specs.Parts.{IsPart, AreParts};
ghost use Rattle.c_readings.specs.Within.{PartWithin, PartsWithin};
ghost use Rattle.c_declarators.specs.Parts.{SpecifiedThere, IsSpecified, DerivedThere, ShowsDerived};
ghost use Rattle.c_elaborator.specs.Shown.{AnswersFor};
ghost use Rattle.c_statements.specs.Declaring.{WrapsThere};
ghost use Rattle.c_elab.specs.Functions.{HasState, IsDeclarator, first_prototype, defines_from};

use crate::bodies::define_body;
use c_declarators::{Derived, Formed, Prototype, Specified, Wrap, formed};
use c_elaborator::{Name, Work};
use c_expressions::Class;
use c_readings::{derived, specified, three};
use c_statements::declare_definition;
use c_types::{Decl, DeclKind, Faults};
use ck_base::{NO_TREE, Pos, Refusal};

// The parameters, where the declarator itself is that of a function: what is made last stands first.
fn own_prototype<'a>(wraps: Vec<Wrap<'a>>) -> Option<Prototype<'a>>
    ensures { result ≡ first_prototype wraps.entry.items }
{
    let mut parts = wraps;
    if parts.is_empty() {
        return None;
    }
    match parts.remove(0) {
        Wrap::Gives(p) => Some(p),
        Wrap::Point(_) | Wrap::Row(_) => None,
    }
}

// Whether a function of a type may be defined: it gives void, or what is complete.
fn gives_complete(work: &Work<'_>, of: u32) -> bool
    requires whole { IsWhole work.now.nodes }
    requires there { of < type_count work.now.nodes }
    ensures { (s : State) → Shows work.now s → result ≡ gives_complete s (type_in work.now.nodes of) }
{
    match work.nodes.class(of) {
        Class::Function(gives) => {
            let void = work.nodes.is_bare_void(gives);
            let complete = work.nodes.scopes.is_complete(&work.nodes.p, gives);
            void || complete
        }
        Class::Void
        | Class::Int(_, _)
        | Class::Cap(_)
        | Class::Pointer(_)
        | Class::Array(_, _)
        | Class::Tagged(_)
        | Class::Const(_) => true,
    }
}

// What is declared of a function with its body: 132 where what it gives is not complete, 133 where the declarator
// itself is not that of a function.
fn defined_as(s: Specified, name: Name, f: Formed, is_complete: bool, is_own: bool) -> Decl
    ensures { result ≡ record {
      name = name.span;
      pos = name.pos;
      of = f.of;
      faults = record f.faults {
        lacks = f.faults.lacks || not is_complete;
        misfits = f.faults.misfits || not is_own;
      };
      what = DeclKind.Fun;
      storage = s.storage;
      defines = true;
    } }
{
    Decl {
        name: name.span,
        pos: name.pos,
        of: f.of,
        faults: Faults {
            lacks: f.faults.lacks || !is_complete,
            misfits: f.faults.misfits || !is_own,
            ..f.faults
        },
        what: DeclKind::Fun,
        storage: s.storage,
        defines: true,
    }
}

// The function is declared, and then its body is typed.
fn define_so<'a>(
    work: &mut Work<'a>,
    s: Specified,
    name: Name,
    wraps: Vec<Wrap<'a>>,
    block: u32,
    depth: u32,
) -> Result<(), Refusal>
    requires whole { IsWhole work.old.nodes }
    requires specified { SpecifiedThere work.old s }
    requires parts { WrapsThere work.old wraps.items }
    requires part { PartWithin work.old depth block }
    requires shown { HasState work.old }
    ensures { (y : meant.Specified) (z : Syn) → IsSpecified work.old s y → IsPart work.old block z →
        AnswersFor freely work.old work.new (IsDeclarator work.old name wraps.entry.items)
        (λ e. define_named y e e.name z (reading z)) NothingThere IsNothing result }
{
    let f = formed(work, s.of, wraps.as_slice())?;
    let own = own_prototype(wraps);
    let complete = gives_complete(work, f.of);
    let k = declare_definition(work, defined_as(s, name, f, complete, own.is_some()))?;
    match own {
        None => unreachable!(),
        Some(p) => define_body(work, k, p, block, depth),
    }
}

// The same of a declarator: 120 at the specifiers where there is no name.
fn define_named<'a>(
    work: &mut Work<'a>,
    s: Specified,
    d: Derived<'a>,
    block: u32,
    depth: u32,
) -> Result<(), Refusal>
    requires whole { IsWhole work.old.nodes }
    requires specified { SpecifiedThere work.old s }
    requires derived { DerivedThere work.old d }
    requires part { PartWithin work.old depth block }
    requires shown { HasState work.old }
    ensures { (y : meant.Specified) (z : Syn) → IsSpecified work.old s y → IsPart work.old block z →
        AnswersFor freely work.old work.new (ShowsDerived work.old d.entry)
        (λ e. define_named y e e.name z (reading z)) NothingThere IsNothing result }
{
    match d.name {
        None => Err(Refusal::Code(NO_TREE, s.first)),
        Some(name) => define_so(work, s, name, d.wraps, block, depth),
    }
}

// Specifiers, a declarator and a block.
fn define(
    work: &mut Work<'_>,
    specifiers: u32,
    declarator: u32,
    block: u32,
    depth: u32,
) -> Result<(), Refusal>
    requires whole { IsWhole work.old.nodes }
    requires first { PartWithin work.old depth specifiers }
    requires second { PartWithin work.old depth declarator }
    requires third { PartWithin work.old depth block }
    requires shown { HasState work.old }
    ensures { (x y z : Syn) → IsPart work.old specifiers x → IsPart work.old declarator y → IsPart work.old block z →
        Answers freely work.old work.new (defines_from x y z) NothingThere IsNothing result }
{
    let s = specified(work, specifiers, false, depth)?;
    let d = derived(work, declarator, depth)?;
    define_named(work, s, d, block, depth)
}

/// A function definition.
pub(crate) fn function_definition(
    work: &mut Work<'_>,
    kids: &[u32],
    pos: Pos,
    depth: u32,
) -> Result<(), Refusal>
    requires whole { IsWhole work.old.nodes }
    requires parts { PartsWithin work.old depth kids.now }
    requires shown { HasState work.old }
    ensures { (t : Lexeme) (xs : Syns) → t.pos ≡ pos → AreParts work.old kids.now xs →
        Answers freely work.old work.new (function_definition t xs (readings xs)) NothingThere IsNothing result }
{
    match three(kids) {
        None => Err(Refusal::Code(NO_TREE, pos)),
        Some(x) => define(work, x.first, x.second, x.third, depth),
    }
}

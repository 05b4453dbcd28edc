//! Types, tags and declarations: calls in order, each with what it answers, and types that are large in number or
//! depth.
use crate::given::none;
use c_tree::{CType, Member, RecordKind, Typed, VarDef};
use c_types::DeclKind::{self, Fun, Object};
use c_types::Storage::{self, Extern, Plain, Static};
use c_types::{Decl, Entry, Faults, Scopes, TagKind};
use cap_layout::{Layout, LayoutFault};
use ck_base::{NoMemory, Pos, Refusal, Span};
use ck_int::IntKind;
use std::alloc::Global;

const PLACE: Pos = Pos { line: 1, col: 1 };

// The names of the tests, one byte each, in the file that they are declared over.
const NAMES: &[u8] = b"abfgtzuvx";

// The name where a step has none of its own: `x`.
const NAME: Span = Span { start: 8, end: 9 };

const SOUND: Faults = Faults {
    lacks: false,
    misfits: false,
    too_large: false,
};

const ALL_FAULTS: Faults = Faults {
    lacks: true,
    misfits: true,
    too_large: true,
};

const NONE_LACKS: Faults = Faults {
    lacks: false,
    misfits: true,
    too_large: true,
};

const TOO_LARGE: Faults = Faults {
    lacks: false,
    misfits: false,
    too_large: true,
};

// A parameter of the first type.
const PARAMETER: VarDef = VarDef {
    name: NAME,
    pos: PLACE,
    of: 0,
    simple: false,
};

// A type that the steps name.
#[derive(Clone, Copy)]
enum Of {
    Int,
    Char,
    // Arrays of `int`: of a length that is not known, and of ten.
    Open,
    Ten,
    // Functions without parameters: that give an `int`, and a `char`.
    Call,
    Other,
}

use Of::{Call, Char, Int, Open, Other, Ten};

// What a declaration gives: an entry, a typedef name of its type, or the code at the name.
#[derive(Clone, Copy)]
enum Given {
    Gives(Entry),
    Aliases,
    Refused(u16),
}

use Given::{Aliases, Gives, Refused};

// What is so of a name.
#[derive(Clone, Copy)]
enum Naming {
    // What it denotes, if anything.
    Denotes(&'static [u8], Option<Entry>),
    IsType(&'static [u8]),
    // Whether it is of the innermost scope.
    IsHere(&'static [u8], bool),
    IsNoTag(&'static [u8]),
}

use Naming::{Denotes, IsHere, IsNoTag, IsType};

// What is so of scopes and a program.
#[derive(Clone, Copy)]
enum Fact {
    // The types of an object, of a function and of a local, by their numbers.
    OfObject(u32, Of),
    OfFunction(u32, Of),
    OfLocal(u32, Of),
    IsDefined(u32, bool),
    // How many globals and functions there are.
    Counts(usize, usize),
    // The newest type, a struct or union, has no layout.
    IsIncomplete,
    // How many members the first struct or union has.
    HasMembers(Option<usize>),
    // There is one struct or union, which is a union.
    IsUnion,
}

// The kind of records in one another, how many levels there are of them, how often each has the one before it, and the
// bytes of the last.
type Nested = (RecordKind, u32, usize, u64);

// A call on scopes alone, and what it answers.
#[derive(Clone, Copy)]
enum Scoping {
    Enters,
    // The block is closed, in which a name of the scope around it was not, and open again.
    OpensAgain(&'static [u8]),
    Leaves,
    // An enumeration constant of this value is declared.
    Constant(i32, Given),
    // Whether the braces of the first struct or union can be opened.
    Opens(bool),
    AddsParameter,
    CompletesLocal,
    // So many locals are taken.
    Takes(usize),
}

use Scoping::{AddsParameter, CompletesLocal, Constant, Enters, Leaves, Opens, OpensAgain, Takes};

// A call and what it answers, or what is so then.
#[derive(Clone, Copy)]
enum Step {
    Names(Naming),
    Is(Fact),
    Does(Scoping),
    // The place of a name, its type, what is declared, its storage and whether it is defined; and what is given.
    Declares(u32, Of, DeclKind, Storage, bool, Given),
    // The place of a declaration of an object whose type breaks rules, which of them, and the code that comes first.
    Breaks(u32, Faults, u16),
    // A struct's tag is declared as one of this kind: it is found then, or refused by a code.
    Tags(TagKind, Option<u16>),
    // A struct or union without a tag.
    Begins(RecordKind),
    // It gets one member of a type.
    Completes(Of),
    CompletesGlobal(Of),
    FillsGlobal,
    FillsFunction(u32),
    HasOneNumber,
    Nests(Nested),
}

use Step::{Breaks, Declares, Does, Is, Names};

// Names, and what they denote where nothing is declared, in a block and outside.
static KNOWN: [Step; 16] = [
    Names(Denotes(b"putchar", Some(Entry::Library(0)))),
    Names(Denotes(b"__builtin_cheri_equal_exact", Some(Entry::Library(15)))),
    Names(Denotes(
        b"cheri_representable_alignment_mask",
        Some(Entry::Library(17)),
    )),
    Names(Denotes(b"__builtin_putchar", None)),
    Names(IsType(b"uint16_t")),
    Does(Enters),
    Does(Constant(-7, Gives(Entry::Constant(-7)))),
    Names(Denotes(b"x", Some(Entry::Constant(-7)))),
    Does(Constant(8, Refused(131))),
    Names(Denotes(b"exit", Some(Entry::Library(3)))),
    Names(IsHere(b"exit", false)),
    Names(IsNoTag(b"exit")),
    Does(OpensAgain(b"exit")),
    Does(Leaves),
    Names(IsHere(b"exit", true)),
    Names(IsNoTag(b"exit")),
];

static NUMBERS: [Step; 1] = [Step::HasOneNumber];

static RECORDS: [Step; 3] = [
    Step::Nests((RecordKind::Struct, 10_000, 1, 4)),
    Step::Nests((RecordKind::Union, 40, 2, 4)),
    Step::Nests((RecordKind::Struct, 2, 3, 36)),
];

static TAGS_AND_LOCALS: [Step; 8] = [
    Step::Tags(TagKind::Struct, None),
    Step::Tags(TagKind::Struct, Some(131)),
    Step::Tags(TagKind::Enum, Some(133)),
    Does(AddsParameter),
    Does(CompletesLocal),
    Names(Denotes(b"x", Some(Entry::Var(0)))),
    Does(Takes(1)),
    Does(Takes(0)),
];

static FILE_SCOPE: [Step; 23] = [
    Declares(0, Int, Object, Plain, false, Gives(Entry::Global(0))),
    Declares(0, Int, Object, Static, true, Gives(Entry::Global(0))),
    Declares(0, Char, Object, Extern, false, Refused(131)),
    Declares(0, Call, Fun, Plain, false, Refused(131)),
    Declares(1, Open, Object, Extern, false, Gives(Entry::Global(1))),
    Declares(1, Ten, Object, Plain, false, Gives(Entry::Global(1))),
    Declares(1, Open, Object, Plain, false, Gives(Entry::Global(1))),
    Declares(2, Call, Fun, Plain, false, Gives(Entry::Fun(0))),
    Declares(2, Call, Fun, Plain, true, Gives(Entry::Fun(0))),
    Declares(2, Call, Fun, Plain, true, Refused(131)),
    Declares(2, Call, Object, Plain, false, Gives(Entry::Fun(0))),
    Declares(2, Other, Fun, Plain, false, Refused(131)),
    Declares(3, Call, Fun, Storage::Typedef, true, Refused(133)),
    Declares(3, Call, Fun, Plain, false, Gives(Entry::Fun(1))),
    Declares(4, Open, DeclKind::Typedef, Storage::Typedef, false, Aliases),
    Declares(4, Open, Object, Storage::Typedef, false, Aliases),
    Declares(4, Ten, Object, Storage::Typedef, false, Refused(131)),
    Declares(5, Open, Object, Storage::Typedef, true, Refused(133)),
    Declares(
        5,
        Int,
        DeclKind::Constant(3),
        Plain,
        false,
        Gives(Entry::Constant(3)),
    ),
    Is(Fact::OfObject(1, Ten)),
    Is(Fact::OfFunction(1, Call)),
    Is(Fact::Counts(2, 2)),
    Is(Fact::IsDefined(1, true)),
];

static BLOCKS: [Step; 21] = [
    Declares(0, Int, Object, Plain, false, Gives(Entry::Global(0))),
    Declares(2, Call, Fun, Plain, true, Gives(Entry::Fun(0))),
    Does(Enters),
    Declares(0, Int, Object, Extern, false, Gives(Entry::Global(0))),
    Declares(0, Int, Object, Plain, false, Refused(131)),
    Declares(1, Open, Object, Extern, false, Gives(Entry::Global(1))),
    Declares(2, Int, Object, Extern, false, Refused(131)),
    Declares(2, Int, Object, Plain, true, Gives(Entry::Var(0))),
    Declares(3, Open, Object, Plain, false, Refused(132)),
    Declares(3, Open, Object, Plain, true, Gives(Entry::Var(1))),
    Declares(4, Int, Object, Static, false, Gives(Entry::Global(2))),
    Declares(4, Ten, Object, Static, false, Refused(131)),
    Declares(5, Call, Fun, Plain, false, Refused(133)),
    Declares(5, Int, Object, Extern, true, Refused(133)),
    Declares(5, Int, Object, Storage::Typedef, false, Aliases),
    Declares(5, Int, Object, Storage::Typedef, false, Refused(131)),
    Is(Fact::OfLocal(1, Open)),
    Does(Leaves),
    Names(Denotes(b"a", Some(Entry::Global(0)))),
    Names(Denotes(b"b", None)),
    Is(Fact::IsDefined(1, false)),
];

static FILLED: [Step; 8] = [
    Declares(0, Int, Object, Plain, false, Gives(Entry::Global(0))),
    Declares(2, Call, Fun, Plain, true, Gives(Entry::Fun(0))),
    Step::CompletesGlobal(Char),
    Is(Fact::OfObject(0, Char)),
    Step::FillsGlobal,
    Declares(0, Char, Object, Plain, true, Refused(131)),
    Does(AddsParameter),
    Step::FillsFunction(5),
];

static BRACES: [Step; 4] = [
    Step::Begins(RecordKind::Struct),
    Is(Fact::IsIncomplete),
    Does(Opens(true)),
    Does(Opens(false)),
];

static MEMBERS: [Step; 5] = [
    Step::Begins(RecordKind::Union),
    Is(Fact::HasMembers(None)),
    Step::Completes(Int),
    Is(Fact::HasMembers(Some(1))),
    Is(Fact::IsUnion),
];

// The lowest code comes first. A name that is declared twice stands before.
static CODES: [Step; 6] = [
    Breaks(6, ALL_FAULTS, 132),
    Breaks(6, NONE_LACKS, 133),
    Breaks(6, TOO_LARGE, 140),
    Names(Denotes(b"u", None)),
    Declares(
        7,
        Int,
        DeclKind::Constant(1),
        Plain,
        false,
        Gives(Entry::Constant(1)),
    ),
    Breaks(7, TOO_LARGE, 131),
];

// The numbers of the types that the steps name.
#[derive(Clone, Copy)]
struct Kinds {
    int: u32,
    char: u32,
    open: u32,
    ten: u32,
    call: u32,
    other: u32,
}

fn known_kinds(alloc: Global, scopes: &mut Scopes, p: &mut Typed) -> Result<Kinds, NoMemory> {
    let int = scopes.number_of(p, CType::Int(IntKind::I32, 0))?;
    let char = scopes.number_of(p, CType::Int(IntKind::U8, 0))?;
    let open = scopes.number_of(p, CType::Array(int, 0))?;
    let ten = scopes.number_of(p, CType::Array(int, 10))?;
    let call = scopes.number_of(p, CType::Function(int, none(alloc)))?;
    let other = scopes.number_of(p, CType::Function(char, none(alloc)))?;
    Ok(Kinds {
        int,
        char,
        open,
        ten,
        call,
        other,
    })
}

fn number_of(k: Kinds, of: Of) -> u32 {
    match of {
        Int => k.int,
        Char => k.char,
        Open => k.open,
        Ten => k.ten,
        Call => k.call,
        Other => k.other,
    }
}

fn named(at: u32, of: u32, what: DeclKind, storage: Storage, defines: bool) -> Decl {
    Decl {
        name: Span {
            start: at,
            end: at.saturating_add(1),
        },
        pos: Pos { line: 1, col: at },
        of,
        faults: SOUND,
        what,
        storage,
        defines,
    }
}

fn answer(name: Decl, given: Given) -> Result<Entry, Refusal> {
    match given {
        Gives(entry) => Ok(entry),
        Aliases => Ok(Entry::Typedef(name.of)),
        Refused(code) => Err(Refusal::Code(code, name.pos)),
    }
}

// The type of a struct or union by the number of its tag, if it is the newest type.
fn newest(p: &Typed) -> u32 {
    u32::try_from(p.types.as_slice().len())
        .unwrap_or(0)
        .saturating_sub(1)
}

fn is_named(scopes: &Scopes, naming: Naming) -> bool {
    match naming {
        Denotes(name, entry) => scopes.find(name) == entry,
        IsType(name) => matches!(scopes.find(name), Some(Entry::Typedef(_))),
        IsHere(name, here) => scopes.look_here(name).is_some() == here,
        IsNoTag(name) => {
            scopes.find_tag(name).is_none()
                && scopes.look_tag(name).is_none()
                && scopes.look_tag_here(name).is_none()
        }
    }
}

fn is_incomplete(scopes: &Scopes, p: &Typed, t: u32) -> bool {
    scopes.layout(p, t) == Err(LayoutFault::Incomplete) && !scopes.is_complete(p, t)
}

fn is_one_union(scopes: &Scopes) -> bool {
    scopes.tag_count() == 1
        && scopes.kind_of_tag(1).is_none()
        && matches!(scopes.kind_of_tag(0), Some(RecordKind::Union))
}

fn is_so(scopes: &Scopes, p: &Typed, k: Kinds, fact: Fact) -> bool {
    match fact {
        Fact::OfObject(n, of) => scopes.type_of_object(p, n) == Some(number_of(k, of)),
        Fact::OfFunction(n, of) => scopes.type_of_function(p, n) == Some(number_of(k, of)),
        Fact::OfLocal(n, of) => scopes.type_of_local(n) == Some(number_of(k, of)),
        Fact::IsDefined(n, defined) => scopes.is_defined(n) == defined,
        Fact::Counts(globals, funs) => {
            p.globals.as_slice().len() == globals && p.funs.as_slice().len() == funs
        }
        Fact::IsIncomplete => is_incomplete(scopes, p, newest(p)),
        Fact::HasMembers(count) => match scopes.members(p, 0) {
            Some(members) => count == Some(members.len()),
            None => count.is_none(),
        },
        Fact::IsUnion => is_one_union(scopes),
    }
}

fn opens_again(scopes: &mut Scopes, name: &[u8]) -> bool {
    match scopes.close() {
        Some(scope) => {
            let is_closed = scopes.look_here(name).is_some();
            scopes.reopen(scope).is_ok() && is_closed
        }
        None => false,
    }
}

fn is_tag(scopes: &mut Scopes, p: &mut Typed, kind: TagKind, refused: Option<u16>) -> bool {
    let tag = named(NAME.start, 0, DeclKind::Tag(TagKind::Struct), Plain, true);
    match scopes.declare_tag(p, kind, tag) {
        Ok(entry) => refused.is_none() && scopes.find_tag(b"x") == Some(entry),
        Err(Refusal::Code(code, pos)) => refused == Some(code) && pos == tag.pos,
        Err(Refusal::NoMemory) => false,
    }
}

// Whether a type has this layout.
fn is_laid_out(scopes: &Scopes, p: &Typed, t: u32, size: u64, align: u64) -> bool {
    scopes.layout(p, t) == Ok(Layout { size, align })
}

// Pointers in one another, made by turns in two rows of the same, and arrays and the words `const` around them.
fn has_one_number(scopes: &mut Scopes, p: &mut Typed, char: u32) -> Result<bool, NoMemory> {
    let other = scopes.number_of(p, CType::Int(IntKind::U8, 1))?;
    let mut first = char;
    let mut second = char;
    for _ in 0..100_000 {
        first = scopes.number_of(p, CType::Pointer(first))?;
        second = scopes.number_of(p, CType::Pointer(second))?;
    }
    let mut array = second;
    for _ in 0..100_000 {
        array = scopes.number_of(p, CType::Array(array, 1))?;
        array = scopes.number_of(p, CType::Const(array))?;
    }
    Ok(
        char != other
            && first == second
            && is_laid_out(scopes, p, first, 16, 16)
            && is_laid_out(scopes, p, array, 16, 16)
            && scopes.is_complete(p, array),
    )
}

// A struct or union gets so many members of a type.
fn complete(
    alloc: Global,
    scopes: &mut Scopes,
    p: &mut Typed,
    tag: u32,
    of: u32,
    times: usize,
) -> Result<(), Refusal> {
    let members = vec![in alloc; Member { name: NAME, of }; times]?;
    scopes.complete_tag(p, tag, members, PLACE)
}

fn is_nested(
    alloc: Global,
    scopes: &mut Scopes,
    p: &mut Typed,
    int: u32,
    (kind, levels, times, size): Nested,
) -> Result<bool, Refusal> {
    let mut of = int;
    for _ in 0..levels {
        let tag = scopes.new_tag(p, kind)?;
        let whole = newest(p);
        scopes.begin_tag(tag, PLACE)?;
        complete(alloc, scopes, p, tag, of, times)?;
        of = whole;
    }
    Ok(is_laid_out(scopes, p, of, size, 4))
}

fn is_global_filled(alloc: Global, scopes: &mut Scopes, p: &mut Typed) -> bool {
    match Vec::from_slice(alloc, &[7]) {
        Ok(sevens) => {
            scopes.fill_global(p, 0, sevens, Vec::new(alloc));
            true
        }
        Err(_) => false,
    }
}

fn is_function_filled(alloc: Global, scopes: &mut Scopes, p: &mut Typed, body: u32) -> bool {
    let locals = scopes.take_locals();
    scopes.fill_function(p, 0, Vec::new(alloc), locals, body);
    matches!(p.funs.as_slice(), [f] if f.body == body)
}

fn is_constant(scopes: &mut Scopes, value: i32, given: Given) -> bool {
    let name = named(NAME.start, 0, DeclKind::Constant(-7), Plain, false);
    scopes.declare_constant(name, value) == answer(name, given)
}

fn is_broken(scopes: &mut Scopes, p: &mut Typed, at: u32, faults: Faults, code: u16) -> bool {
    let mut object = named(at, 0, Object, Plain, false);
    object.faults = faults;
    is_declared(scopes, p, object, Refused(code))
}

fn is_declared(scopes: &mut Scopes, p: &mut Typed, name: Decl, given: Given) -> bool {
    scopes.declare(p, name) == answer(name, given)
}

fn is_met_by_scopes(scopes: &mut Scopes, step: Scoping) -> bool {
    match step {
        Leaves => {
            scopes.leave();
            true
        }
        Enters => scopes.enter().is_ok(),
        OpensAgain(name) => opens_again(scopes, name),
        Constant(value, given) => is_constant(scopes, value, given),
        Opens(opens) => scopes.begin_tag(0, PLACE).is_ok() == opens,
        AddsParameter => scopes.add_parameter(PARAMETER).is_ok(),
        CompletesLocal => scopes.complete_local(0, 1, NAME).is_ok(),
        Takes(count) => scopes.take_locals().len() == count,
    }
}

// One function asks all.
fn is_met(alloc: Global, scopes: &mut Scopes, p: &mut Typed, k: Kinds, step: Step) -> bool {
    match step {
        Names(naming) => is_named(scopes, naming),
        Is(fact) => is_so(scopes, p, k, fact),
        Does(step) => is_met_by_scopes(scopes, step),
        Declares(at, of, what, storage, defines, given) => {
            let name = named(at, number_of(k, of), what, storage, defines);
            is_declared(scopes, p, name, given)
        }
        Breaks(at, faults, code) => is_broken(scopes, p, at, faults, code),
        Step::Tags(kind, refused) => is_tag(scopes, p, kind, refused),
        Step::Begins(kind) => scopes.new_tag(p, kind).is_ok(),
        Step::Completes(of) => complete(alloc, scopes, p, 0, number_of(k, of), 1).is_ok(),
        Step::CompletesGlobal(of) => {
            scopes.complete_global(p, 0, number_of(k, of));
            true
        }
        Step::FillsFunction(body) => is_function_filled(alloc, scopes, p, body),
        Step::FillsGlobal => is_global_filled(alloc, scopes, p),
        Step::HasOneNumber => has_one_number(scopes, p, k.char) == Ok(true),
        Step::Nests(row) => is_nested(alloc, scopes, p, k.int, row) == Ok(true),
    }
}

fn are_met(alloc: Global, scopes: &mut Scopes, p: &mut Typed, steps: &[Step]) -> bool {
    let Ok(k) = known_kinds(alloc, scopes, p) else {
        return false;
    };
    for step in steps {
        if !is_met(alloc, scopes, p, k, *step) {
            return false;
        }
    }
    true
}

// The tables of steps: each is asked of scopes and a program of its own.
#[derive(Clone, Copy)]
pub(crate) enum Table {
    Numbers,
    Records,
    Known,
    Braces,
    TagsAndLocals,
    FileScope,
    Blocks,
    Filled,
    Members,
    Codes,
}

fn steps_of(table: Table) -> &'static [Step] {
    match table {
        Table::Numbers => &NUMBERS,
        Table::Records => &RECORDS,
        Table::Known => &KNOWN,
        Table::Braces => &BRACES,
        Table::TagsAndLocals => &TAGS_AND_LOCALS,
        Table::FileScope => &FILE_SCOPE,
        Table::Blocks => &BLOCKS,
        Table::Filled => &FILLED,
        Table::Members => &MEMBERS,
        Table::Codes => &CODES,
    }
}

// Whether the steps are met by scopes and a program without anything.
pub(crate) fn are_declared(alloc: Global, p: &mut Typed, table: Table) -> bool {
    match Scopes::new(alloc, p, NAMES) {
        Ok(mut scopes) => are_met(alloc, &mut scopes, p, steps_of(table)),
        Err(_) => false,
    }
}

//! Sizes, alignments, offsets and counts: each public call on known values.
ghost use Rattle.std.specs.Prelude.{◌<◌, length};
ghost use Rattle.cap_layout.specs.Kept.{AreLayoutsOf};

use crate::given::none;
use c_interner::append;
use c_tree::{CType, Expr, ExprKind, FunDef, Member, Stmt, StmtKind, Typed, VarDef};
use cap_layout::{Layout, LayoutFault, Layouts, copies, granules, layout, offset_of, owned};
use ck_base::{NoMemory, Pos, Sequence, Span};
use ck_int::IntKind;
use std::alloc::{AllocError, Global};

const PLACE: Pos = Pos { line: 1, col: 1 };

const NAME: Span = Span { start: 0, end: 0 };

fn members(alloc: Global, types: &[u32]) -> Result<Sequence<Member>, AllocError> {
    let mut members = Vec::new(alloc);
    for of in types {
        members.push(Member {
            name: NAME,
            of: *of,
        })?;
    }
    Ok(Sequence::from_vec(members))
}

// A type, with the numbers of its parts.
#[derive(Clone, Copy)]
enum Kind {
    Void,
    Int(IntKind),
    Cap,
    Pointer(u32),
    Const(u32),
    Array(u32, u64),
    Function(u32),
    Struct(&'static [u32]),
    Union(&'static [u32]),
    Incomplete,
}

fn type_of(alloc: Global, kind: Kind) -> Result<CType, AllocError> {
    Ok(match kind {
        Kind::Void => CType::Void,
        Kind::Int(of) => CType::Int(of, 0),
        Kind::Cap => CType::Cap(true),
        Kind::Pointer(of) => CType::Pointer(of),
        Kind::Const(of) => CType::Const(of),
        Kind::Array(of, count) => CType::Array(of, count),
        Kind::Function(gives) => CType::Function(gives, none(alloc)),
        Kind::Struct(of) => CType::Struct(0, members(alloc, of)?),
        Kind::Union(of) => CType::Union(0, members(alloc, of)?),
        Kind::Incomplete => CType::Incomplete(0),
    })
}

const TYPES: [Kind; 26] = [
    Kind::Int(IntKind::U8),
    Kind::Array(0, 4),
    Kind::Int(IntKind::I32),
    Kind::Struct(&[1, 2]),
    Kind::Array(0, 4097),
    Kind::Struct(&[4, 0]),
    Kind::Union(&[2, 1]),
    Kind::Array(0, 3),
    Kind::Struct(&[7]),
    Kind::Pointer(2),
    Kind::Struct(&[9, 0]),
    Kind::Const(10),
    Kind::Array(11, 3),
    Kind::Incomplete,
    Kind::Struct(&[13]),
    Kind::Array(0, 0),
    Kind::Array(0, 67_108_865),
    Kind::Array(0, 67_108_864),
    Kind::Struct(&[16, 13]),
    Kind::Struct(&[2, 19]),
    Kind::Void,
    Kind::Function(2),
    Kind::Cap,
    Kind::Array(17, 2),
    Kind::Struct(&[17, 0]),
    Kind::Union(&[4, 22]),
];

fn add_types(alloc: Global, p: &mut Typed) -> Result<(), NoMemory> {
    for kind in &TYPES {
        let added = type_of(alloc, *kind)?;
        append(alloc, &mut p.types, added)?;
    }
    Ok(())
}

fn variable(of: u32, simple: bool) -> VarDef {
    VarDef {
        name: NAME,
        pos: PLACE,
        of,
        simple,
    }
}

fn function(alloc: Global) -> Result<FunDef, AllocError> {
    let vars = vec![in alloc; variable(5, false), variable(0, false), variable(2, true)]?;
    Ok(FunDef {
        name: NAME,
        pos: PLACE,
        of: 21,
        params: none(alloc),
        vars: Sequence::from_vec(vars),
        body: 0,
    })
}

fn add_functions(alloc: Global, p: &mut Typed) -> Result<(), NoMemory> {
    for _ in 0..2 {
        let added = function(alloc)?;
        append(alloc, &mut p.funs, added)?;
    }
    Ok(())
}

fn add_expression(alloc: Global, p: &mut Typed, kind: ExprKind, of: u32) -> Result<(), NoMemory> {
    let pos = PLACE;
    append(alloc, &mut p.exprs, Expr { kind, of, pos })
}

// A read, assignments of values of two structs and of an integer, and conditional expressions that choose a struct and
// an integer; and an initialiser.
fn add_body(alloc: Global, p: &mut Typed) -> Result<(), NoMemory> {
    add_expression(alloc, p, ExprKind::Load(0), 10)?;
    for of in [10, 8, 2] {
        add_expression(alloc, p, ExprKind::Assign(0, 0), of)?;
    }
    for of in [10, 2] {
        add_expression(alloc, p, ExprKind::Conditional(0, 0, 0), of)?;
    }
    let kind = StmtKind::Init {
        var: 0,
        offset: 0,
        value: 0,
    };
    append(alloc, &mut p.stmts, Stmt { kind, pos: PLACE })
}

// Where a member of a struct begins, if there is such a member.
fn offset(p: &Typed, t: u32, member: u32) -> Option<u64> {
    match p.types.as_slice().get(t as usize) {
        Some(CType::Struct(_, members)) => {
            if (member as usize) < members.as_slice().len() {
                offset_of(p, t, member).ok()
            } else {
                None
            }
        }
        _ => None,
    }
}

const OWNED: [(u64, u64, u64); 7] = [
    (0, 0, 1),
    (4095, 4095, 1),
    (4097, 4104, 8),
    (8191, 8192, 16),
    (10001, 10016, 16),
    (100_000, 100_096, 128),
    (16_777_216, 16_777_216, 32768),
];

fn is_owned(&(n, length, align): &(u64, u64, u64)) -> bool {
    n <= 67_108_864 && owned(n).length == length && owned(n).align == align
}

pub(crate) fn are_owned() -> bool {
    for row in &OWNED {
        if !is_owned(row) {
            return false;
        }
    }
    true
}

const LAYOUTS: [(u32, u64, u64); 16] = [
    (0, 1, 1),
    (1, 4, 1),
    (2, 4, 4),
    (3, 8, 4),
    (4, 4097, 1),
    (5, 4112, 8),
    (6, 4, 4),
    (7, 3, 1),
    (8, 3, 1),
    (9, 16, 16),
    (10, 32, 16),
    (11, 32, 16),
    (12, 96, 16),
    (17, 67_108_864, 1),
    (22, 16, 16),
    (25, 4112, 16),
];

const FAULTS: [(u32, LayoutFault); 11] = [
    (13, LayoutFault::Incomplete),
    (14, LayoutFault::Incomplete),
    (15, LayoutFault::Incomplete),
    (16, LayoutFault::TooLarge),
    (18, LayoutFault::Incomplete),
    (19, LayoutFault::Incomplete),
    (20, LayoutFault::Incomplete),
    (21, LayoutFault::Incomplete),
    (23, LayoutFault::TooLarge),
    (24, LayoutFault::TooLarge),
    (26, LayoutFault::Incomplete),
];

fn is_layout(found: Result<Layout, LayoutFault>, size: u64, align: u64) -> bool {
    found == Ok(Layout { size, align })
}

const OFFSETS: [(u32, u32, u64); 6] = [
    (3, 0, 0),
    (3, 1, 4),
    (5, 1, 4104),
    (8, 0, 0),
    (10, 0, 0),
    (10, 1, 16),
];

// Whether each type of the program has its layout, or its fault, and the layouts that are kept say the same.
fn have_layouts(p: &Typed, layouts: &Layouts) -> bool
    requires { AreLayoutsOf p.now.types layouts.now }
{
    for &(t, size, align) in &LAYOUTS {
        let found = layout(p, t);
        if !is_layout(found, size, align) || layouts.layout(p, t) != found {
            return false;
        }
    }
    for &(t, fault) in &FAULTS {
        let found = layout(p, t);
        if found != Err(fault) || layouts.layout(p, t) != found {
            return false;
        }
    }
    true
}

// Whether layouts are found and kept, and the granules and copies are counted by them.
fn are_kept(alloc: Global, p: &Typed) -> Result<bool, AllocError> {
    let layouts = Layouts::new(alloc, p)?;
    Ok(
        have_layouts(p, &layouts)
            && granules(&layouts, p) == 2 * (257 + 1)
            && copies(&layouts, p) == 2 + 2 + 1 + 2,
    )
}

fn have_offsets(p: &Typed) -> bool {
    for &(t, member, at) in &OFFSETS {
        if offset(p, t, member) != Some(at) {
            return false;
        }
    }
    true
}

// Whether the types have layouts, which are kept and counted, and their members have offsets.
pub(crate) fn are_known(alloc: Global, p: &mut Typed) -> Result<bool, NoMemory> {
    add_types(alloc, p)?;
    add_functions(alloc, p)?;
    add_body(alloc, p)?;
    Ok(are_kept(alloc, p)? && have_offsets(p))
}

// How each type is made of the one before.
#[derive(Clone, Copy)]
pub(crate) enum Nesting {
    // Arrays and the words `const`, by turns.
    Arrays,
    // Structs of one member.
    Structs,
    // Unions of two members.
    Unions,
}

fn nested(alloc: Global, how: Nesting, of: u32) -> Result<CType, AllocError> {
    Ok(match how {
        Nesting::Arrays if of % 2 == 0 => CType::Array(of, 1),
        Nesting::Arrays => CType::Const(of),
        Nesting::Structs => CType::Struct(0, members(alloc, &[of])?),
        Nesting::Unions => CType::Union(0, members(alloc, &[of, of])?),
    })
}

// How types are in one another, how many of them, and whether the layouts are kept.
pub(crate) type Nested = (Nesting, u32, bool);

// Arrays and the words `const` in one another take no stack; structs in one another take some. Kept layouts take none,
// and no more time where a type stands twice in the one around it.
pub(crate) const ARRAYS: Nested = (Nesting::Arrays, 100_000, false);

pub(crate) const STRUCTS: Nested = (Nesting::Structs, 1_000, false);

pub(crate) const KEPT_STRUCTS: Nested = (Nesting::Structs, 50_000, true);

pub(crate) const KEPT_UNIONS: Nested = (Nesting::Unions, 50_000, true);

// So many types in one another, from `int` on.
fn add_nested(alloc: Global, p: &mut Typed, how: Nesting, levels: u32) -> Result<(), NoMemory> {
    append(alloc, &mut p.types, CType::Int(IntKind::I32, 0))?;
    for of in 0..levels {
        let added = nested(alloc, how, of)?;
        append(alloc, &mut p.types, added)?;
    }
    Ok(())
}

fn kept_layout(
    alloc: Global,
    p: &Typed,
    t: u32,
) -> Result<Result<Layout, LayoutFault>, AllocError> {
    let layouts = Layouts::new(alloc, p)?;
    Ok(layouts.layout(p, t))
}

// Whether the last of so many types in one another has the layout of an `int`.
pub(crate) fn are_nested(
    alloc: Global,
    p: &mut Typed,
    (how, levels, kept): Nested,
) -> Result<bool, NoMemory> {
    add_nested(alloc, p, how, levels)?;
    let found = if kept {
        kept_layout(alloc, p, levels)?
    } else {
        layout(p, levels)
    };
    Ok(is_layout(found, 4, 4))
}

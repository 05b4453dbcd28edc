//! Programs that are made by hand: each test of numbers, declarations, layouts and maps.

use crate::declarations::Table;
use crate::given::{must_be_none, none};
use crate::layouts::Nested;
use crate::maps::{PLACED, Placed};
use crate::{agreement, declarations, initializers, layouts, maps};
use c_tree::Typed;
use std::alloc::Global;

/// What is asked of a program that begins with nothing.
#[derive(Clone, Copy)]
enum Asked {
    /// The numbers of equal types.
    Numbers,
    /// Which types agree, and their composites.
    Agreements,
    /// The same of types that are deep.
    DeepAgreements,
    /// Declarations in these steps.
    Declares(Table),
    Layouts,
    DeepLayouts(Nested),
    Places(&'static Placed),
}

use Asked::{Declares, DeepLayouts, Places};

type Row = (&'static str, Asked);

static ASKED: [Row; 11] = [
    ("equal types", Asked::Numbers),
    ("types that agree", Asked::Agreements),
    ("known names", Declares(Table::Known)),
    ("braces", Declares(Table::Braces)),
    ("tags and locals", Declares(Table::TagsAndLocals)),
    ("file scope", Declares(Table::FileScope)),
    ("blocks", Declares(Table::Blocks)),
    ("what is filled", Declares(Table::Filled)),
    ("members", Declares(Table::Members)),
    ("codes", Declares(Table::Codes)),
    ("layouts", Asked::Layouts),
];

static DEEP_AGREEMENTS: [Row; 1] = [("deep types that agree", Asked::DeepAgreements)];

static MANY: [Row; 2] = [
    ("many numbers", Declares(Table::Numbers)),
    ("records", Declares(Table::Records)),
];

static DEEP_LAYOUTS: [Row; 4] = [
    ("deep arrays", DeepLayouts(layouts::ARRAYS)),
    ("deep structs", DeepLayouts(layouts::STRUCTS)),
    ("deep kept structs", DeepLayouts(layouts::KEPT_STRUCTS)),
    ("deep kept unions", DeepLayouts(layouts::KEPT_UNIONS)),
];

fn is_right(alloc: Global, p: &mut Typed, asked: Asked) -> bool {
    match asked {
        Asked::Numbers => agreement::have_one_number(alloc, p),
        Asked::Agreements => agreement::are_known(alloc, p) == Ok(true),
        Asked::DeepAgreements => agreement::are_deep(alloc, p) == Ok(true),
        Declares(table) => declarations::are_declared(alloc, p, table),
        Asked::Layouts => layouts::are_known(alloc, p) == Ok(true),
        DeepLayouts(nested) => layouts::are_nested(alloc, p, nested) == Ok(true),
        Places(placed) => maps::is_placed(alloc, p, placed),
    }
}

/// One function owns the program: each that owns one takes a proof long.
fn is_answered(alloc: Global, asked: Asked) -> bool {
    let mut p = Typed {
        types: none(alloc),
        globals: none(alloc),
        literals: none(alloc),
        funs: none(alloc),
        exprs: none(alloc),
        stmts: none(alloc),
        main: 0,
    };
    is_right(alloc, &mut p, asked)
}

/// The name of the first row that is answered otherwise.
fn wrong_answer(alloc: Global, rows: &[Row]) -> Option<&'static str> {
    for &(name, asked) in rows {
        if !is_answered(alloc, asked) {
            return Some(name);
        }
    }
    None
}

fn wrong_place(alloc: Global) -> Option<&'static str> {
    for placed in &PLACED {
        if !is_answered(alloc, Places(placed)) {
            return Some("maps");
        }
    }
    None
}

#[test]
fn programs_have_numbers_declarations_layouts_and_maps(rt: HostRuntime) {
    must_be_none(&rt, wrong_answer(rt.alloc(), &ASKED));
    must_be_none(&rt, wrong_place(rt.alloc()));
    assert!(rt; layouts::are_owned() && maps::are_lengths());
    assert!(rt; initializers::end_at_the_last_that_is_not_zero(rt.alloc()));
}

// What is deep has tests of its own: each may take a minute.
#[test]
fn deep_types_agree(rt: HostRuntime) {
    must_be_none(&rt, wrong_answer(rt.alloc(), &DEEP_AGREEMENTS));
}

#[test]
fn many_types_have_numbers(rt: HostRuntime) {
    must_be_none(&rt, wrong_answer(rt.alloc(), &MANY));
}

#[test]
fn deep_types_have_layouts(rt: HostRuntime) {
    must_be_none(&rt, wrong_answer(rt.alloc(), &DEEP_LAYOUTS));
}

//! What the meaning asks of the types of a program, in a table by their numbers.
ghost use Rattle.std.specs.Prelude.{◌≡◌, ◌≤◌, ◌<◌, Some, IfOk, length, option_map, slice_get};
ghost use Rattle.c_tree.specs.Layout.{bare, bare_of, extent};
ghost use Rattle.obj_mem.specs.Needs.{is_const, is_const_of, is_const_within};
ghost use Rattle.cap_layout.specs.Kept.{AreLayoutsOf};
ghost use Rattle.cap_layout.specs.Answers.{IsLayout};
ghost use Rattle.cheri_c_sem.specs.Types.{size_in, align_in, scalar_of, is_record, is_void, is_pointer, pointee_of};
ghost use Rattle.cheri_c_sem.specs.Types.{result_type_of, kind_or_int, unit_of};
ghost use Rattle.mean_types.specs.Views.{kind_of};
ghost use Rattle.mean_types.specs.Constants.{IsConstantBy};
ghost use Rattle.mean_types.specs.Facts.{AreOwn, AreFactsOf, AreTypesOf};
ghost use Rattle.c_tree.specs.Layout.{size_limit};

use crate::kinds::{INT, Kind, scalar_of};
use c_tree::{CType, Typed};
use cap_layout::{Layout, LayoutFault, Layouts};
use ck_base::NoMemory;
use std::alloc::Global;
use std::marker::Model;
use tac_ir::bare;

/// What is known of a type, behind the words `const`.
#[derive(Clone, Copy)]
pub struct TypeFacts {
    /// How its values are kept, where they are scalars.
    pub kind: Option<Kind>,
    /// It is a pointer, and the number of the type that it points to.
    pub pointer: bool,
    pub target: u32,
    pub void: bool,
    /// It is a struct or union.
    pub record: bool,
    /// It is const, or an array of what is.
    pub constant: bool,
    /// The type that a function gives, by its number.
    pub gives: u32,
    pub size: u64,
    pub align: u64,
}

/// A type that is not known.
const NO_FACTS: TypeFacts = TypeFacts {
    kind: None,
    pointer: false,
    target: 0,
    void: false,
    record: false,
    constant: false,
    gives: 0,
    size: 0,
    align: 1,
};

/// The types of a program.
#[derive(Drop)]
pub struct Types {
    facts: Vec<TypeFacts>,
}

impl TypeFacts {
    /// Its kind; that of an `int` where it is no scalar.
    pub fn kind_or_int(&self) -> Kind
        ensures { kind_of result ≡ kind_or_int (option_map kind_of self.now.kind) }
    {
        match self.kind {
            None => INT,
            Some(k) => k,
        }
    }

    /// A struct or union is copied in units of at most 16 bytes, and at most its alignment.
    pub fn unit(&self) -> u64
        ensures { result ≡ unit_of self.now.align }
    {
        if self.align < 16 { self.align } else { 16 }
    }
}

impl Model for Types {
    ghost use Rattle.std.specs.Prelude.{List};
    ghost use Rattle.mean_types.specs.declared.types.TypeFacts.{TypeFacts as Facts};

    ghost Value = { List Facts };

    ghost view = { λ s. s.facts.items };
}

/// What a type is, behind the words `const`.
fn own_facts(c: &CType) -> TypeFacts
    ensures { AreOwn (Some c.now) result }
{
    let kind = scalar_of(c);
    match c {
        CType::Void => TypeFacts {
            kind,
            void: true,
            ..NO_FACTS
        },
        CType::Pointer(t) => TypeFacts {
            kind,
            pointer: true,
            target: *t,
            ..NO_FACTS
        },
        CType::Struct(_, _) | CType::Union(_, _) => TypeFacts {
            kind,
            record: true,
            ..NO_FACTS
        },
        CType::Function(t, _) => TypeFacts {
            kind,
            gives: *t,
            ..NO_FACTS
        },
        CType::Int(_, _)
        | CType::Cap(_)
        | CType::Array(_, _)
        | CType::Const(_)
        | CType::Incomplete(_) => TypeFacts { kind, ..NO_FACTS },
    }
}

fn bare_facts(types: &[CType], t: u32) -> TypeFacts
    ensures { AreOwn (bare types.now t) result }
{
    match bare(types, t) {
        None => NO_FACTS,
        Some(c) => own_facts(c),
    }
}

/// What is asked of to know whether a type is const.
enum Constant {
    Known(bool),
    As(u32),
}

fn constant_of(c: &CType) -> Constant
    ensures { IsConstantBy c.now result }
{
    match c {
        CType::Const(_) => Constant::Known(true),
        CType::Array(element, _) => Constant::As(*element),
        _ => Constant::Known(false),
    }
}

/// Whether objects of the type are not written: it is const, or an array of what is.
fn is_constant(types: &[CType], t: u32) -> bool
    ensures { result ≡ is_const types.now t }
{
    let mut left = types.len();
    let mut at = t;
    while left > 0 {
        left -= 1;
        match types.get(at as usize) {
            None => return false,
            Some(c) => match constant_of(c) {
                Constant::Known(b) => return b,
                Constant::As(element) => at = element,
            },
        }
    }
    false
}

/// The layout of a type whose size is within the limit.
fn layout_of(layouts: &Layouts, p: &Typed, t: u32) -> Layout
    requires { AreLayoutsOf p.now.types layouts.now }
    ensures size { size_in p.now.types t ≤ size_limit → result.size ≡ size_in p.now.types t }
    ensures align { size_in p.now.types t ≤ size_limit → result.align ≡ align_in p.now.types t }
{
    match layouts.layout(p, t) {
        Ok(l) => l,
        Err(LayoutFault::TooLarge | LayoutFault::Incomplete) => Layout { size: 0, align: 1 },
    }
}

fn facts_of(layouts: &Layouts, p: &Typed, t: u32) -> TypeFacts
    requires { AreLayoutsOf p.now.types layouts.now }
    ensures { AreFactsOf p.now.types t result }
{
    let Layout { size, align } = layout_of(layouts, p, t);
    TypeFacts {
        constant: is_constant(p.types.as_slice(), t),
        size,
        align,
        ..bare_facts(p.types.as_slice(), t)
    }
}

impl Types {
    /// The types of a program.
    pub fn new(alloc: Global, p: &Typed) -> Result<Types, NoMemory>
        ensures { IfOk result (λ s. AreTypesOf p.now.types s) }
    {
        let layouts = Layouts::new(alloc, p)?;
        let mut facts = Vec::new(alloc);
        'types: for t in 0..p.types.as_slice().len() {
            facts.push(facts_of(&layouts, p, (t % 4_294_967_296) as u32))?;
        }
        Ok(Types { facts })
    }

    /// The facts of a type by its number.
    pub fn facts(&self, p: &Typed, t: u32) -> TypeFacts
        requires { AreTypesOf p.now.types self.now }
        ensures { AreFactsOf p.now.types t result }
    {
        match self.facts.get(t as usize) {
            None => NO_FACTS,
            Some(f) => *f,
        }
    }
}

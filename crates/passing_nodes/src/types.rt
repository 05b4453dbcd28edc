//! The types of the program that is run, by the numbers of those that they stand for.

ghost use Rattle.std.specs.Prelude.{◌≡◌, ◌≤◌, List, Some, IfSome, IfNone, length, slice_get, slice_index};
ghost use Rattle.c_tree.specs.declared.typed.CType.{CType as Written};
ghost use Rattle.c_tree.specs.Types.{is_tagged};
ghost use Rattle.c_tree.specs.Passed.{by_pointer};
ghost use Rattle.passing_nodes.specs.Numbered.{type_in, is_record, const_of, IsBare};

use c_tree::CType;

/// The types of the program that is run, by the numbers of those that they stand for.
#[derive(Drop)]
pub struct Types {
    pub list: Vec<CType>,
    /// The number of each type.
    pub numbers: Vec<u32>,
    /// For each struct or union, perhaps qualified, the number of the pointer to it without the qualifier.
    pub pointers: Vec<u32>,
}

/// The number of `void`.
pub const VOID: u32 = 0;

fn is_record(c: &CType) -> bool
    ensures { result ≡ is_record c.now }
{
    match c {
        CType::Struct(_, _) | CType::Union(_, _) | CType::Incomplete(_) => true,
        CType::Void
        | CType::Int(_, _)
        | CType::Cap(_)
        | CType::Pointer(_)
        | CType::Array(_, _)
        | CType::Function(_, _)
        | CType::Const(_) => false,
    }
}

fn const_of(c: &CType) -> Option<u32>
    ensures { result ≡ const_of c.now }
{
    match c {
        CType::Const(t) => Some(*t),
        CType::Void
        | CType::Int(_, _)
        | CType::Cap(_)
        | CType::Pointer(_)
        | CType::Array(_, _)
        | CType::Struct(_, _)
        | CType::Union(_, _)
        | CType::Function(_, _)
        | CType::Incomplete(_) => None,
    }
}

/// The type that a number names, if there is one.
pub fn look(types: &[CType], k: u32) -> Option<&CType>
    ensures there { IfSome result (λ c. slice_get types.now k ≡ Some c.now) }
    ensures past { IfNone result (length types.now ≤ k) }
{
    types.get(k as usize)
}

/// Whether a type is a struct or union.
pub fn is_tagged(types: &[CType], k: u32) -> bool
    ensures { result ≡ is_tagged (type_in types.now k) }
{
    match look(types, k) {
        None => false,
        Some(c) => is_record(c),
    }
}

// The same of the type with a number.
fn bare_at(c: &CType, k: u32) -> u32
    ensures { (types : List Written) → slice_get types k ≡ Some c.now → IsBare types k result }
{
    match const_of(c) {
        None => k,
        Some(t) => { if t < k { t } else { k } }
    }
}

/// A type without a qualifier of its own.
pub fn bare(types: &[CType], k: u32) -> u32
    ensures { IsBare types.now k result }
{
    match look(types, k) {
        None => k,
        Some(c) => bare_at(c, k),
    }
}

/// Whether values of a type go by pointers: it is a struct or union, perhaps qualified.
pub fn by_pointer(types: &[CType], k: u32) -> bool
    ensures { result ≡ by_pointer (type_in types.now k) }
{
    is_tagged(types, bare(types, k))
}

/// What stands for the type with a number: `void` where there is no such type.
pub fn number_in(numbers: &[u32], k: u32) -> u32
    ensures { slice_index numbers.now k ≡ result }
{
    if (k as usize) < numbers.len() {
        numbers[k as usize]
    } else {
        VOID
    }
}

impl Types {
    /// The number that stands for a type.
    pub fn number(&self, k: u32) -> u32
        ensures { slice_index self.now.numbers.items k ≡ result }
    {
        number_in(self.numbers.as_slice(), k)
    }

    /// The number of the pointer to a struct or union.
    pub fn pointer(&self, k: u32) -> u32
        ensures { slice_index self.now.pointers.items k ≡ result }
    {
        number_in(self.pointers.as_slice(), k)
    }
}

//! What is declared before a file.

ghost use Rattle.std.specs.Prelude.{◌≡◌, ℕ, ◌<◌, ◌≤◌, List, length, slice_index, IfOk, [], true};
ghost use Rattle.c_tree.specs.Types.{Ty};
ghost use Rattle.c_tree.specs.Views.{type_from, types_of};
ghost use Rattle.c_tree.specs.Programs.{file_scope, beginning};
ghost use Rattle.c_interner.specs.Numbers.{IsPlain, AddsTypes};
ghost use Rattle.c_types.specs.Stands.{Stands, ShowsScope, entity_kept, entity_seen};
ghost use Rattle.c_types.specs.Beginning.{recipe_type, recipe_entity, KnowsTypes, all_refer_within, names_scope};

use crate::entries::Entity;
use crate::scopes::{Scope, Scopes};
use c_interner::Numbers;
use c_tree::{CType, Typed};
use ck_base::{NoMemory, Sequence};
use ck_int::IntKind;
use indexmap::IndexMap;
use std::alloc::Global;

/// A type that is known before a file. Numbers name the recipes before it.
#[derive(Clone, Copy)]
enum Recipe {
    Void,
    Int(IntKind, u8),
    Cap(bool),
    Pointer(usize),
    /// A function without parameters, and what it gives.
    Nullary(usize),
    /// A function of one parameter: what it gives, and the parameter.
    Unary(usize, usize),
}

const RECIPES: [Recipe; 18] = [
    Recipe::Int(IntKind::I32, 0),
    Recipe::Void,
    Recipe::Int(IntKind::U64, 0),
    Recipe::Int(IntKind::I64, 0),
    Recipe::Cap(true),
    Recipe::Cap(false),
    Recipe::Int(IntKind::I8, 0),
    Recipe::Int(IntKind::I16, 0),
    Recipe::Int(IntKind::U8, 1),
    Recipe::Int(IntKind::U16, 0),
    Recipe::Int(IntKind::U32, 0),
    Recipe::Pointer(1),
    Recipe::Unary(0, 0),
    Recipe::Nullary(0),
    Recipe::Unary(11, 2),
    Recipe::Unary(1, 0),
    Recipe::Unary(2, 2),
    Recipe::Int(IntKind::Bool, 0),
];

/// What a name denotes before a file. A type is named by its recipe.
#[derive(Clone, Copy)]
enum Known {
    Alias(usize),
    /// A library function, which has a type.
    Typed(u8, usize),
    /// An intrinsic that has none.
    Untyped(u8),
}

// The last of them stands first.
const NAMES: [(&[u8], Known); 45] = [
    (
        b"__builtin_cheri_representable_alignment_mask",
        Known::Typed(17, 16),
    ),
    (b"cheri_representable_alignment_mask", Known::Typed(17, 16)),
    (
        b"__builtin_cheri_round_representable_length",
        Known::Typed(16, 16),
    ),
    (b"cheri_representable_length", Known::Typed(16, 16)),
    (b"__builtin_cheri_equal_exact", Known::Untyped(15)),
    (b"cheri_is_equal_exact", Known::Untyped(15)),
    (b"__builtin_cheri_perms_and", Known::Untyped(14)),
    (b"cheri_perms_and", Known::Untyped(14)),
    (b"__builtin_cheri_bounds_set_exact", Known::Untyped(13)),
    (b"cheri_bounds_set_exact", Known::Untyped(13)),
    (b"__builtin_cheri_bounds_set", Known::Untyped(12)),
    (b"cheri_bounds_set", Known::Untyped(12)),
    (b"__builtin_cheri_tag_clear", Known::Untyped(11)),
    (b"cheri_tag_clear", Known::Untyped(11)),
    (b"__builtin_cheri_address_set", Known::Untyped(10)),
    (b"cheri_address_set", Known::Untyped(10)),
    (b"__builtin_cheri_perms_get", Known::Untyped(9)),
    (b"cheri_perms_get", Known::Untyped(9)),
    (b"__builtin_cheri_tag_get", Known::Untyped(8)),
    (b"cheri_tag_get", Known::Untyped(8)),
    (b"__builtin_cheri_length_get", Known::Untyped(7)),
    (b"cheri_length_get", Known::Untyped(7)),
    (b"__builtin_cheri_offset_get", Known::Untyped(6)),
    (b"cheri_offset_get", Known::Untyped(6)),
    (b"__builtin_cheri_base_get", Known::Untyped(5)),
    (b"cheri_base_get", Known::Untyped(5)),
    (b"__builtin_cheri_address_get", Known::Untyped(4)),
    (b"cheri_address_get", Known::Untyped(4)),
    (b"exit", Known::Typed(3, 15)),
    (b"malloc", Known::Typed(2, 14)),
    (b"getchar", Known::Typed(1, 13)),
    (b"putchar", Known::Typed(0, 12)),
    (b"uint64_t", Known::Alias(2)),
    (b"uint32_t", Known::Alias(10)),
    (b"uint16_t", Known::Alias(9)),
    (b"uint8_t", Known::Alias(8)),
    (b"int64_t", Known::Alias(3)),
    (b"int32_t", Known::Alias(0)),
    (b"int16_t", Known::Alias(7)),
    (b"int8_t", Known::Alias(6)),
    (b"uintptr_t", Known::Alias(5)),
    (b"intptr_t", Known::Alias(4)),
    (b"ptrdiff_t", Known::Alias(3)),
    (b"ptraddr_t", Known::Alias(2)),
    (b"size_t", Known::Alias(2)),
];

// The number that a recipe's type has.
fn number_at(numbers: &[u32], k: usize) -> u32
    ensures { result ≡ slice_index numbers.now k }
{
    numbers.get(k).copied().unwrap_or(0)
}

// The type of a recipe.
fn made(alloc: Global, recipe: Recipe, numbers: &[u32]) -> Result<CType, NoMemory>
    ensures plain { IfOk result IsPlain }
    ensures is { IfOk result (λ c. (go : ℕ → Ty) →
        type_from c go ≡ recipe_type recipe (λ k. go (slice_index numbers.now k))) }
{
    match recipe {
        Recipe::Void => Ok(CType::Void),
        Recipe::Int(kind, other) => Ok(CType::Int(kind, other)),
        Recipe::Cap(signed) => Ok(CType::Cap(signed)),
        Recipe::Pointer(of) => Ok(CType::Pointer(number_at(numbers, of))),
        Recipe::Nullary(gives) => {
            let params = Sequence::from_vec(Vec::new(alloc));
            Ok(CType::Function(number_at(numbers, gives), params))
        }
        Recipe::Unary(gives, takes) => {
            let mut params = Vec::new(alloc);
            params.push(number_at(numbers, takes))?;
            Ok(CType::Function(number_at(numbers, gives), Sequence::from_vec(params)))
        }
    }
}

fn known_entity(known: Known, numbers: &[u32]) -> Entity
    ensures { result ≡ recipe_entity known numbers.now }
{
    match known {
        Known::Alias(t) => Entity::Alias(number_at(numbers, t)),
        Known::Typed(k, t) => Entity::Library(k, Some(number_at(numbers, t))),
        Known::Untyped(k) => Entity::Library(k, None),
    }
}

// The numbers of the types, which are added to the program.
fn known_types(alloc: Global, known: &mut Numbers, p: &mut Typed) -> Result<Vec<u32>, NoMemory>
    ensures adds { AddsTypes p.old p.new }
    ensures ok { IfOk result (λ v. KnowsTypes (types_of p.new.types) v.items) }
{
    let mut numbers = Vec::new(alloc);
    for recipe in &RECIPES {
        let c = made(alloc, *recipe, numbers.as_slice())?;
        let k = known.number_of(p, c)?;
        numbers.push(k)?;
    }
    Ok(numbers)
}

// A scope with these names, the last of which is the newest.
fn named_scope<'a>(
    alloc: Global,
    rows: &[(&'static [u8], Known)],
    numbers: &[u32],
) -> Result<Scope<'a>, NoMemory>
    ensures { IfOk result (λ c. (ts : List Ty) → KnowsTypes ts numbers.now → all_refer_within rows.now ≡ true →
        ShowsScope ts 0 c (names_scope rows.now)) }
{
    let mut scope = Scope::new(alloc);
    for &(name, known) in rows {
        scope.bind(name, known_entity(known, numbers))?;
    }
    Ok(scope)
}

// The scope of the file.
fn known_names<'a>(alloc: Global, numbers: &[u32]) -> Result<Scope<'a>, NoMemory>
    ensures { IfOk result (λ c. (ts : List Ty) → KnowsTypes ts numbers.now → ShowsScope ts 0 c file_scope) }
{
    named_scope(alloc, &NAMES, numbers)
}

impl<'a> Scopes<'a> {
    /// The scopes before a file: that of the file alone, with the typedef names, the library functions and the
    /// intrinsics that are declared before it, whose types are added to the program. The program has no types, objects
    /// and functions yet.
    pub fn new(alloc: Global, p: &mut Typed, file: &'a [u8]) -> Result<Scopes<'a>, NoMemory>
        ensures adds { AddsTypes p.old p.new }
        ensures ok { IfOk result (λ sc. p.old.types ≡ [] → p.old.globals ≡ [] → p.old.funs ≡ [] →
            Stands sc p.new beginning) }
        ensures file { IfOk result (λ sc. sc.file.now ≡ file.entry.now) }
    {
        let mut known = Numbers::new(alloc);
        let numbers = known_types(alloc, &mut known, p)?;
        let scope = known_names(alloc, numbers.as_slice())?;
        let mut scopes = Vec::new(alloc);
        scopes.push(scope)?;
        Ok(Scopes {
            alloc,
            file,
            scopes,
            tags: Vec::new(alloc),
            named: IndexMap::new(alloc),
            stale: false,
            objects: Vec::new(alloc),
            begun: Vec::new(alloc),
            linked: IndexMap::new(alloc),
            locals: Vec::new(alloc),
            numbers: known,
            int: number_at(numbers.as_slice(), 0),
        })
    }
}

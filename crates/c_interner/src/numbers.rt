//! The types of a program by their numbers.

ghost use Rattle.std.specs.Prelude.{◌≡◌, ℕ, ◌<◌, ◌++◌, [], ◌∷◌, length, slice_set, true, IfSome, IfOk, OnOk};
ghost use Rattle.std.specs.Prelude.{OnErr};
ghost use Rattle.c_tree.specs.Types.{Ty, composite};
ghost use Rattle.c_tree.specs.Views.{type_from};
ghost use Rattle.c_type_levels.specs.Heads.{built, IsPlain};
ghost use Rattle.c_interner.specs.Numbers.{AddsTypes, IsAt, IsNumberOf, type_named};

use crate::composites::Composites;
use c_tree::{CType, Typed};
use c_type_levels::{Head, head_of, params_of, stands_before};
use ck_base::{NoMemory, Sequence};
use ck_int::IntKind;
use indexmap::IndexMap;
use std::alloc::Global;
use std::mem;

/// What tells a type from the others: its form, and the numbers of the types that it is made of.
#[derive(Drop, PartialEq, Eq, Hash)]
enum Key {
    Void,
    /// How many bytes it has, none for `_Bool`; whether it has a sign; and what tells types of one kind apart.
    Int(u8, bool, u8),
    Cap(bool),
    Pointer(u32),
    Array(u32, u64),
    Tagged(u32),
    Function(u32, Vec<u32>),
    Const(u32),
}

/// The numbers of the types that were asked for. Types that are equal have one number.
#[derive(Drop)]
pub struct Numbers {
    alloc: Global,
    known: IndexMap<Key, u32>,
}

/// One more item at the end. For want of memory nothing changes.
pub fn append<T: Drop>(alloc: Global, list: &mut Sequence<T>, item: T) -> Result<(), NoMemory>
    ensures ok { OnOk result (list.new ≡ list.old ++ item ∷ []) }
    ensures err { OnErr result (list.new ≡ list.old) }
{
    let mut items = mem::replace(list, Sequence::from_vec(Vec::new(alloc))).into_vec();
    let pushed = items.push(item);
    *list = Sequence::from_vec(items);
    pushed?;
    Ok(())
}

/// Another item in the place of one. It takes no memory.
pub fn replace<T: Drop>(alloc: Global, list: &mut Sequence<T>, k: u32, item: T)
    ensures { list.new ≡ slice_set list.old k item }
{
    let mut items = mem::replace(list, Sequence::from_vec(Vec::new(alloc))).into_vec();
    if (k as usize) < items.len() {
        items[k as usize] = item;
    }
    *list = Sequence::from_vec(items);
}

/// The number of the next item.
pub fn next_number<T>(list: &[T]) -> Result<u32, NoMemory>
    ensures { IfOk result (λ k. k ≡ length list.now) }
{
    match u32::try_from(list.len()) {
        Ok(k) => Ok(k),
        Err(_) => Err(NoMemory),
    }
}

fn integer_key(kind: IntKind, other: u8) -> Key {
    match kind {
        IntKind::Bool => Key::Int(0, false, other),
        IntKind::I8 => Key::Int(1, true, other),
        IntKind::U8 => Key::Int(1, false, other),
        IntKind::I16 => Key::Int(2, true, other),
        IntKind::U16 => Key::Int(2, false, other),
        IntKind::I32 => Key::Int(4, true, other),
        IntKind::U32 => Key::Int(4, false, other),
        IntKind::I64 => Key::Int(8, true, other),
        IntKind::U64 => Key::Int(8, false, other),
    }
}

fn key_of(alloc: Global, head: Head, params: &[u32]) -> Result<Key, NoMemory> {
    Ok(match head {
        Head::Void => Key::Void,
        Head::Int(kind, other) => integer_key(kind, other),
        Head::Cap(signed) => Key::Cap(signed),
        Head::Pointer(of) => Key::Pointer(of),
        Head::Array(of, count) => Key::Array(of, count),
        Head::Tagged(tag) => Key::Tagged(tag),
        Head::Function(gives) => Key::Function(gives, params.to_vec(alloc)?),
        Head::Const(of) => Key::Const(of),
    })
}

/// Whether a type has this level.
fn is_level(there: &CType, head: Head, params: &[u32]) -> bool
    ensures { result ≡ true → (go : ℕ → Ty) → type_from there.now go ≡ built head params.now go }
{
    head_of(there) == head && params_of(there) == params
}

/// Whether a type of the list, by its number, is the type.
fn is_at(types: &[CType], k: u32, c: &CType) -> bool
    ensures { result ≡ true → IsAt types.now k c.now }
{
    match types.get(k as usize) {
        None => false,
        Some(there) => {
            let head = head_of(c);
            let params = params_of(c);
            is_level(there, head, params) && stands_before(head, params, k)
        }
    }
}

impl Numbers {
    pub fn new(alloc: Global) -> Self {
        Numbers {
            alloc,
            known: IndexMap::new(alloc),
        }
    }

    // The number that is known for a key, if it is that of the type.
    fn look(&self, types: &[CType], key: &Key, c: &CType) -> Option<u32>
        ensures { IfSome result (λ k. IsAt types.now k c.now) }
    {
        match self.known.get(key) {
            Some(k) if is_at(types, *k, c) => Some(*k),
            _ => None,
        }
    }

    // Adds a type with this key to the program.
    fn add(&mut self, p: &mut Typed, key: Key, c: CType) -> Result<u32, NoMemory>
        requires { IsPlain c }
        ensures adds { AddsTypes p.old p.new }
        ensures ok { IfOk result (λ k. IsNumberOf p.old p.new k c) }
        ensures err { OnErr result (p.new ≡ p.old) }
    {
        let k = next_number(p.types.as_slice())?;
        self.known.reserve(1)?;
        append(self.alloc, &mut p.types, c)?;
        self.known.insert(key, k)?;
        Ok(k)
    }

    /// The number of a type, which is added to the program if it has none. The numbers in it are those of types of the
    /// program, and it is no struct or union.
    pub fn number_of(&mut self, p: &mut Typed, c: CType) -> Result<u32, NoMemory>
        requires { IsPlain c }
        ensures adds { AddsTypes p.old p.new }
        ensures ok { IfOk result (λ k. IsNumberOf p.old p.new k c) }
        ensures err { OnErr result (p.new ≡ p.old) }
    {
        let key = key_of(self.alloc, head_of(&c), params_of(&c))?;
        match self.look(p.types.as_slice(), &key, &c) {
            Some(k) => Ok(k),
            None => self.add(p, key, c),
        }
    }

    /// The composite of two compatible types (C11 6.2.7p3). Types may have been added to the program, also for want of
    /// memory.
    pub fn composite(&mut self, p: &mut Typed, a: u32, b: u32) -> Result<u32, NoMemory>
        requires first { a < length p.old.types }
        requires second { b < length p.old.types }
        ensures adds { AddsTypes p.old p.new }
        ensures ok { IfOk result (λ k. (k < length p.new.types) ×
            (type_named p.new k ≡ composite (type_named p.old a) (type_named p.old b))) }
    {
        let void = self.number_of(p, CType::Void)?;
        Composites::new(self.alloc, void).find(self, p, a, b)
    }
}

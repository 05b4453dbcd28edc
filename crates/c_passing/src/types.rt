//! The types of the program that is run, as they are added.

ghost use Rattle.std.specs.Prelude.{◌≡◌, ◌++◌, ◌∷◌, ◌+◌, [], Some, IfOk, OnOk, length, slice_get};
ghost use Rattle.c_tree.specs.declared.typed.CType.TheVariants as ctypes;
ghost use Rattle.c_passing.specs.Numbered.{gives_of, IsGivenIn, Follows, AddsType, Keeps, AreParameters};
ghost use Rattle.c_passing.specs.Numbered.{AreRenumbered, IsWithMembers, AreListed};

use c_copy::listed as copied;
use c_tree::{CType, Member};
use ck_base::{NoMemory, Sequence};
use passing_steps::{Types, VOID, by_pointer, is_tagged, look, number_in};
use std::alloc::Global;

fn gives_of(c: &CType) -> Option<u32>
    ensures { result ≡ gives_of c.now }
{
    match c {
        CType::Function(t, _) => Some(*t),
        _ => None,
    }
}

// That of the type with a number.
fn given_at(types: &[CType], c: &CType, k: u32) -> Option<u32>
    ensures { slice_get types.now k ≡ Some c.now → IsGivenIn types.now k result }
{
    match gives_of(c) {
        None => None,
        Some(t) => {
            if t < k && by_pointer(types, t) {
                Some(t)
            } else {
                None
            }
        }
    }
}

/// The type of the result that a function of a type gives by a pointer, if there is one.
pub(crate) fn given_by_pointer(types: &[CType], k: u32) -> Option<u32>
    ensures { IsGivenIn types.now k result }
{
    match look(types, k) {
        None => None,
        Some(c) => given_at(types, c, k),
    }
}

fn members_of(alloc: Global, numbers: &[u32], members: &[Member]) -> Result<Vec<Member>, NoMemory>
    ensures { IfOk result (λ v. AreRenumbered numbers.now members.now v.items) }
{
    let mut list = Vec::new(alloc);
    for m in members {
        let of = number_in(numbers, m.of);
        list.push(Member { name: m.name, of })?;
    }
    Ok(list)
}

fn same_members(alloc: Global, members: &[Member]) -> Result<Vec<Member>, NoMemory>
    ensures { IfOk result (λ v. v.items ≡ members.now) }
{
    let list = Vec::from_slice(alloc, members)?;
    Ok(list)
}

fn push(into: &mut Types, c: CType) -> Result<u32, NoMemory>
    ensures list { OnOk result (into.new.list.items ≡ into.old.list.items ++ c ∷ []) }
    ensures number { IfOk result (λ k. k ≡ length into.old.list.items) }
    ensures rest { OnOk result (into.new ≡ record into.old { list = into.new.list }) }
{
    let Ok(k) = u32::try_from(into.list.len()) else {
        return Err(NoMemory);
    };
    into.list.push(c)?;
    Ok(k)
}

fn keep(into: &mut Types, number: u32, pointer: u32) -> Result<(), NoMemory>
    ensures { OnOk result (Keeps into.old into.new [] number pointer) }
{
    into.numbers.push(number)?;
    into.pointers.push(pointer)?;
    Ok(())
}

// A type that is no struct or union, by its number.
fn plainly(into: &mut Types, c: CType) -> Result<(), NoMemory>
    ensures { OnOk result (Keeps into.old into.new (c ∷ []) (length into.old.list.items)
        (length into.old.list.items)) }
{
    let k = push(into, c)?;
    keep(into, k, k)
}

// A struct or union, and the pointer to it.
fn add_tagged(into: &mut Types, c: CType) -> Result<(), NoMemory>
    ensures { OnOk result (Keeps into.old into.new (c ∷ ctypes.Pointer (length into.old.list.items) ∷ [])
        (length into.old.list.items) (length into.old.list.items + 1)) }
{
    let k = push(into, c)?;
    let pointer = push(into, CType::Pointer(k))?;
    keep(into, k, pointer)
}

fn pointer_to(into: &mut Types, types: &[CType], t: u32) -> Result<(), NoMemory>
    ensures { OnOk result (AddsType types.now into.old into.new (ctypes.Pointer t)) }
{
    if is_tagged(types, t) {
        let k = into.pointer(t);
        return keep(into, k, k);
    }
    let of = into.number(t);
    plainly(into, CType::Pointer(of))
}

fn array_of(into: &mut Types, types: &[CType], t: u32, n: u64) -> Result<(), NoMemory>
    ensures { OnOk result (AddsType types.now into.old into.new (ctypes.Array t n)) }
{
    let of = into.number(t);
    plainly(into, CType::Array(of, n))
}

fn qualified(into: &mut Types, types: &[CType], t: u32) -> Result<(), NoMemory>
    ensures { OnOk result (AddsType types.now into.old into.new (ctypes.Const t)) }
{
    let of = into.number(t);
    let pointer = into.pointer(t);
    let k = push(into, CType::Const(of))?;
    keep(into, k, pointer)
}

// What stands for a parameter of a type.
fn parameter(into: &Types, types: &[CType], t: u32) -> u32
    ensures { AreParameters types.now into.now (t ∷ []) [] (result ∷ []) }
{
    if by_pointer(types, t) {
        into.pointer(t)
    } else {
        into.number(t)
    }
}

fn parameters(
    into: &Types,
    types: &[CType],
    ts: &[u32],
    list: &mut Vec<u32>,
) -> Result<(), NoMemory>
    ensures { OnOk result (AreParameters types.now into.now ts.now list.old.items list.new.items) }
{
    for t in ts {
        let of = parameter(into, types, *t);
        list.push(of)?;
    }
    Ok(())
}

fn function(
    into: &mut Types,
    alloc: Global,
    types: &[CType],
    gives: u32,
    ts: &[u32],
) -> Result<(), NoMemory>
    ensures { OnOk result (AddsType types.now into.old into.new (ctypes.Function gives ts.now)) }
{
    let mut params = Vec::new(alloc);
    if by_pointer(types, gives) {
        let pointer = into.pointer(gives);
        params.push(pointer)?;
        parameters(into, types, ts, &mut params)?;
        plainly(into, CType::Function(VOID, Sequence::from_vec(params)))
    } else {
        let of = into.number(gives);
        parameters(into, types, ts, &mut params)?;
        plainly(into, CType::Function(of, Sequence::from_vec(params)))
    }
}

fn struct_of(
    into: &mut Types,
    alloc: Global,
    types: &[CType],
    tag: u32,
    members: &[Member],
) -> Result<(), NoMemory>
    ensures { OnOk result (AddsType types.now into.old into.new (ctypes.Struct tag members.now)) }
{
    let members = same_members(alloc, members)?;
    add_tagged(into, CType::Struct(tag, Sequence::from_vec(members)))
}

fn union_of(
    into: &mut Types,
    alloc: Global,
    types: &[CType],
    tag: u32,
    members: &[Member],
) -> Result<(), NoMemory>
    ensures { OnOk result (AddsType types.now into.old into.new (ctypes.Union tag members.now)) }
{
    let members = same_members(alloc, members)?;
    add_tagged(into, CType::Union(tag, Sequence::from_vec(members)))
}

// One type more, behind these. The members of a struct or union have their old types yet.
fn add(into: &mut Types, alloc: Global, types: &[CType], c: &CType) -> Result<(), NoMemory>
    ensures { OnOk result (AddsType types.now into.old into.new c.now) }
{
    match c {
        CType::Void => keep(into, VOID, VOID),
        CType::Int(kind, other) => plainly(into, CType::Int(*kind, *other)),
        CType::Cap(signed) => plainly(into, CType::Cap(*signed)),
        CType::Incomplete(tag) => add_tagged(into, CType::Incomplete(*tag)),
        CType::Pointer(t) => pointer_to(into, types, *t),
        CType::Array(t, n) => array_of(into, types, *t, *n),
        CType::Struct(tag, members) => struct_of(into, alloc, types, *tag, members.as_slice()),
        CType::Union(tag, members) => union_of(into, alloc, types, *tag, members.as_slice()),
        CType::Function(gives, params) => {
            function(into, alloc, types, *gives, params.as_slice())
        }
        CType::Const(t) => qualified(into, types, *t),
    }
}

/// What stands for each type.
pub(crate) fn types_of(alloc: Global, types: &[CType]) -> Result<Types, NoMemory>
    ensures { IfOk result (λ t. Follows types.now t) }
{
    let mut passed = Types {
        list: Vec::new(alloc),
        numbers: Vec::new(alloc),
        pointers: Vec::new(alloc),
    };
    push(&mut passed, CType::Void)?;
    for k in 0..types.len() {
        let (before, _) = types.split_at(k);
        add(&mut passed, alloc, before, &types[k])?;
    }
    Ok(passed)
}

// A type whose members have their types.
fn with_members(alloc: Global, numbers: &[u32], c: &CType) -> Result<CType, NoMemory>
    ensures { IfOk result (IsWithMembers numbers.now c.now) }
{
    match c {
        CType::Void => Ok(CType::Void),
        CType::Int(kind, other) => Ok(CType::Int(*kind, *other)),
        CType::Cap(signed) => Ok(CType::Cap(*signed)),
        CType::Pointer(t) => Ok(CType::Pointer(*t)),
        CType::Array(t, n) => Ok(CType::Array(*t, *n)),
        CType::Struct(tag, members) => {
            let members = members_of(alloc, numbers, members.as_slice())?;
            Ok(CType::Struct(*tag, Sequence::from_vec(members)))
        }
        CType::Union(tag, members) => {
            let members = members_of(alloc, numbers, members.as_slice())?;
            Ok(CType::Union(*tag, Sequence::from_vec(members)))
        }
        CType::Function(t, params) => {
            let params = copied(alloc, params.as_slice())?;
            Ok(CType::Function(*t, Sequence::from_vec(params)))
        }
        CType::Const(t) => Ok(CType::Const(*t)),
        CType::Incomplete(tag) => Ok(CType::Incomplete(*tag)),
    }
}

/// The list of types, where the members of structs and unions have the types that stand for theirs.
pub(crate) fn listed(alloc: Global, types: &Types) -> Result<Vec<CType>, NoMemory>
    ensures { IfOk result (λ v. AreListed types.now.numbers.items types.now.list.items v.items) }
{
    let mut whole = Vec::new(alloc);
    for c in types.list.as_slice() {
        let c = with_members(alloc, types.numbers.as_slice(), c)?;
        whole.push(c)?;
    }
    Ok(whole)
}

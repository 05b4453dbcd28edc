//! Types that name types before them, and members and variables whose types are there.

ghost use Rattle.std.specs.Prelude.{◌≡◌, ◌<◌, true};
ghost use Rattle.c_tree.specs.Views.{Below};
ghost use Rattle.c_copy.specs.Copying.{AllBelow};
ghost use Rattle.ordered_programs.specs.Ordered.{MembersTyped, VarsTyped, GlobalsTyped, TypesOrdered};

use c_tree::{CType, GlobalDef, Member, VarDef};

fn are_below(k: usize, ts: &[u32]) -> bool
    ensures { result ≡ true → AllBelow k ts.now }
{
    for t in ts {
        if (*t as usize) >= k {
            return false;
        }
    }
    true
}

fn are_members_typed(n: usize, members: &[Member]) -> bool
    ensures { result ≡ true → MembersTyped n members.now }
{
    for m in members {
        if (m.of as usize) >= n {
            return false;
        }
    }
    true
}

/// Whether variables have some of so many types.
pub(crate) fn are_vars_typed(n: usize, vars: &[VarDef]) -> bool
    ensures { result ≡ true → VarsTyped n vars.now }
{
    for v in vars {
        if (v.of as usize) >= n {
            return false;
        }
    }
    true
}

/// Whether objects have some of so many types.
pub(crate) fn are_globals_typed(n: usize, globals: &[GlobalDef]) -> bool
    ensures { result ≡ true → GlobalsTyped n globals.now }
{
    for g in globals {
        if (g.of as usize) >= n {
            return false;
        }
    }
    true
}

// A function, whose result and parameters stand before it.
fn is_function_below(k: usize, gives: u32, params: &[u32]) -> bool
    ensures gives { result ≡ true → gives < k }
    ensures params { result ≡ true → AllBelow k params.now }
{
    (gives as usize) < k && are_below(k, params)
}

// Whether type `k` of so many names types before it, and its members have some of them all.
fn is_type_ordered(n: usize, k: usize, c: &CType) -> bool
    ensures { result ≡ true → Below n k c.now }
{
    match c {
        CType::Void | CType::Int(_, _) | CType::Cap(_) | CType::Incomplete(_) => true,
        CType::Pointer(t) | CType::Array(t, _) | CType::Const(t) => (*t as usize) < k,
        CType::Struct(_, members) | CType::Union(_, members) => {
            are_members_typed(n, members.as_slice())
        }
        CType::Function(t, params) => is_function_below(k, *t, params.as_slice()),
    }
}

/// Whether all types of a list are so.
pub(crate) fn are_types_ordered(types: &[CType]) -> bool
    ensures { result ≡ true → TypesOrdered types.now }
{
    for k in 0..types.len() {
        if !is_type_ordered(types.len(), k, &types[k]) {
            return false;
        }
    }
    true
}

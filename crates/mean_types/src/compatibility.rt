//! Compatible types (C11 6.2.7).
ghost use Rattle.std.specs.Prelude.{◌≡◌, true, false, None, Some, MatchOption};
ghost use Rattle.cheri_c_sem.specs.Compatible.{kind_number, same_bool, lengths_agree, all_agree, agree_of};
ghost use Rattle.cheri_c_sem.specs.Compatible.{agree_within, compatible};
ghost use Rattle.mean_types.specs.Parameters.{looked_up};

use c_tree::CType;
use ck_int::IntKind;
use tac_ir::bare;

fn kind_number(k: IntKind) -> u8
    ensures { result ≡ kind_number k }
{
    match k {
        IntKind::Bool => 0,
        IntKind::I8 => 1,
        IntKind::U8 => 2,
        IntKind::I16 => 3,
        IntKind::U16 => 4,
        IntKind::I32 => 5,
        IntKind::U32 => 6,
        IntKind::I64 => 7,
        IntKind::U64 => 8,
    }
}

fn same_bool(a: bool, b: bool) -> bool
    ensures { result ≡ same_bool a b }
{
    if a { b } else { !b }
}

/// Array lengths are equal, or one is not known (C11 6.7.6.2p6).
fn lengths_agree(m: u64, n: u64) -> bool
    ensures { result ≡ lengths_agree m n }
{
    m == 0 || n == 0 || m == n
}

/// The types of two lists of parameters.
#[cycle(compatible)]
fn all_agree(types: &[CType], depth: usize, ts: &[u32], us: &[u32]) -> bool
    ensures { result ≡ all_agree (agree_within depth types.now true) ts.now us.now }
{
    let (mut left, mut others) = (ts, us);
    'pairs: loop {
        match (left.split_first(), others.split_first()) {
            (None, None) => return true,
            (Some((t, rest)), Some((u, more))) => {
                if !agree_within(types, depth, true, *t, *u) {
                    return false;
                }
                left = rest;
                others = more;
            }
            _ => return false,
        }
    }
}

/// One level of two types. A struct or union is the one with the same tag; it may be complete in one place and not in
/// the other.
#[cycle(compatible)]
fn agree_at(types: &[CType], depth: usize, a: &CType, b: &CType) -> bool
    ensures { result ≡ agree_of (agree_within depth types.now false) (agree_within depth types.now true) (Some a.now)
        (Some b.now) }
{
    match (a, b) {
        (CType::Void, CType::Void) => true,
        (CType::Int(k, n), CType::Int(l, m)) => kind_number(*k) == kind_number(*l) && n == m,
        (CType::Cap(s), CType::Cap(t)) => same_bool(*s, *t),
        (CType::Pointer(t), CType::Pointer(u)) | (CType::Const(t), CType::Const(u)) => {
            agree_within(types, depth, false, *t, *u)
        }
        (CType::Array(t, n), CType::Array(u, m)) => {
            agree_within(types, depth, false, *t, *u) && lengths_agree(*n, *m)
        }
        (CType::Struct(s, _) | CType::Incomplete(s), CType::Struct(t, _))
        | (CType::Union(s, _) | CType::Incomplete(s), CType::Union(t, _))
        | (CType::Struct(s, _) | CType::Union(s, _) | CType::Incomplete(s), CType::Incomplete(t)) =>
            s == t,
        (CType::Function(t, ps), CType::Function(u, qs)) => {
            agree_within(types, depth, false, *t, *u)
                && all_agree(types, depth, ps.as_slice(), qs.as_slice())
        }
        _ => false,
    }
}

/// A type; that of a parameter behind its own const, which doesn't count (C11 6.7.6.3p15).
fn type_at<'a>(types: &'a [CType], parameter: bool, t: u32) -> Option<&'a CType>
    ensures { MatchOption result (looked_up types.now parameter t ≡ None)
        (λ c. looked_up types.now parameter t ≡ Some c.now) }
{
    if parameter {
        bare(types, t)
    } else {
        types.get(t as usize)
    }
}

/// Types whose parts lie at most so deep in one another.
#[cycle(compatible)]
fn agree_within(types: &[CType], depth: usize, parameter: bool, t: u32, u: u32) -> bool
    ensures { result ≡ agree_within depth types.now parameter t u }
{
    if depth == 0 {
        return false;
    }
    match type_at(types, parameter, t) {
        None => false,
        Some(a) => match type_at(types, parameter, u) {
            None => false,
            Some(b) => agree_at(types, depth - 1, a, b),
        },
    }
}

pub fn compatible(types: &[CType], t: u32, u: u32) -> bool
    ensures { result ≡ compatible types.now t u }
{
    agree_within(types, types.len(), false, t, u)
}

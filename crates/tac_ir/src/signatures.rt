//! What functions take and give.
ghost use Rattle.std.specs.Prelude.{◌≡◌, map, Some, None, MatchOption, slice_get, option_map};
ghost use Rattle.c_tree.specs.Layout.{bare};
ghost use Rattle.cheri_c_sem.specs.Types.{scalar_of};
ghost use Rattle.tac_ir.specs.Effects.{kind_of};
ghost use Rattle.tac_ir.specs.Signatures.{IsConst, Signs};
ghost use Rattle.tac_ir.specs.WellFormed.{kind_or_int, signature_of, signature_of_function, type_of_param};

use crate::code::TacKind;
use crate::kinds::{INT, POINTER};
use c_tree::{CType, FunDef, Typed};

/// A function type: what it gives, where that is a value, and the types of its parameters.
#[derive(Clone, Copy)]
pub struct Signature<'a> {
    pub gives: Option<TacKind>,
    pub params: &'a [u32],
}

/// The type behind one word `const`.
fn inner_of(c: &CType) -> Option<u32>
    ensures { IsConst c.now result }
{
    match c {
        CType::Const(inner) => Some(*inner),
        _ => None,
    }
}

/// The type behind the words `const` (C11 6.7.3), where there is one. It takes no memory.
pub fn bare<'a>(types: &'a [CType], t: u32) -> Option<&'a CType>
    ensures { MatchOption result (bare types.now t ≡ None) (λ c. bare types.now t ≡ Some c.now) }
{
    let mut left = types.len();
    let mut of = t;
    while left > 0 {
        left -= 1;
        match types.get(of as usize) {
            None => return None,
            Some(c) => match inner_of(c) {
                None => return Some(c),
                Some(inner) => of = inner,
            },
        }
    }
    None
}

fn scalar_of(c: &CType) -> Option<TacKind>
    ensures { option_map kind_of result ≡ scalar_of (Some c.now) }
{
    match c {
        CType::Int(kind, _) => Some(TacKind::Int(*kind)),
        CType::Cap(signed) => Some(TacKind::Cap(*signed)),
        CType::Pointer(_) => Some(POINTER),
        _ => None,
    }
}

/// The kind of the values of a type, where it has some.
fn scalar_at(types: &[CType], t: u32) -> Option<TacKind>
    ensures { option_map kind_of result ≡ scalar_of (bare types.now t) }
{
    match bare(types, t) {
        None => None,
        Some(c) => scalar_of(c),
    }
}

/// The kind of the values of a type; of one that has none, that of an `int`.
pub fn kind_of_type(types: &[CType], t: u32) -> TacKind
    ensures { kind_of result ≡ kind_or_int (scalar_of (bare types.now t)) }
{
    match scalar_at(types, t) {
        None => INT,
        Some(k) => k,
    }
}

/// A function type, by its number.
pub fn signature_at<'a>(p: &'a Typed, t: u32) -> Option<Signature<'a>>
    ensures { Signs p.now.types (signature_of p.now t) result }
{
    let types = p.types.as_slice();
    match bare(types, t) {
        Some(CType::Function(gives, params)) => Some(Signature {
            gives: scalar_at(types, *gives),
            params: params.as_slice(),
        }),
        _ => None,
    }
}

/// The type of a function, by the function's number.
pub fn signature_of_function<'a>(p: &'a Typed, fun: u32) -> Option<Signature<'a>>
    ensures { Signs p.now.types (signature_of_function p.now fun) result }
{
    match p.funs.as_slice().get(fun as usize) {
        None => None,
        Some(f) => signature_at(p, f.of),
    }
}

/// The kind of a parameter, by its number among the variables of its function.
pub fn param_kind(p: &Typed, d: &FunDef, x: u32) -> TacKind
    ensures { kind_of result ≡ kind_or_int (scalar_of (bare p.now.types (type_of_param (slice_get d.now.vars x)))) }
{
    let types = p.types.as_slice();
    match d.vars.as_slice().get(x as usize) {
        None => kind_of_type(types, 0),
        Some(v) => kind_of_type(types, v.of),
    }
}

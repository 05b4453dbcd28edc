//! The name and the type of the function `main` (C11 5.1.2.2.1).

ghost use Rattle.std.specs.Prelude.{◌≡◌, ◌≤◌, ℕ, Some, MatchOption, length, slice_get, codes, bytes_eq};
ghost use Rattle.ck_int.specs.declared.kinds.IntKind.TheVariants as int_kinds;
ghost use Rattle.c_tree.specs.Types.{Ty, Function, no_types, int, same, same_kind};
ghost use Rattle.c_tree.specs.Views.{types_of, type_at, type_from};

use c_tree::CType;
use ck_int::IntKind;

fn is_i32(kind: IntKind) -> bool
    ensures { same_kind kind int_kinds.I32 ≡ result }
{
    match kind {
        IntKind::I32 => true,
        IntKind::Bool
        | IntKind::I8
        | IntKind::U8
        | IntKind::I16
        | IntKind::U16
        | IntKind::U32
        | IntKind::I64
        | IntKind::U64 => false,
    }
}

fn is_int_level(c: &CType) -> bool
    ensures { (go : ℕ → Ty) → same (type_from c.now go) int ≡ result }
{
    match c {
        CType::Int(kind, n) => is_i32(*kind) && *n == 0,
        CType::Void
        | CType::Cap(_)
        | CType::Pointer(_)
        | CType::Array(_, _)
        | CType::Struct(_, _)
        | CType::Union(_, _)
        | CType::Function(_, _)
        | CType::Const(_)
        | CType::Incomplete(_) => false,
    }
}

fn type_item(types: &[CType], k: u32) -> Option<&CType>
    ensures { MatchOption result (length types.now ≤ k) (λ c. slice_get types.now k ≡ Some c.now) }
{
    types.get(k as usize)
}

fn is_int(types: &[CType], k: u32) -> bool
    ensures { same (type_at (types_of types.now) k) int ≡ result }
{
    match type_item(types, k) {
        None => false,
        Some(c) => is_int_level(c),
    }
}

// Whether a function type that gives this is `int(void)`.
fn is_main_function(types: &[CType], k: u32, gives: u32, params: &[u32]) -> bool
    requires { slice_get types.now k ≡ Some (CType.Function gives params.now) }
    ensures { same (type_at (types_of types.now) k) (Function int no_types) ≡ result }
{
    if gives >= k {
        return false;
    }
    if params.is_empty() {
        return is_int(types, gives);
    }
    false
}

/// Whether a type is `int(void)`.
pub fn is_main_type(types: &[CType], k: u32) -> bool
    ensures { same (type_at (types_of types.now) k) (Function int no_types) ≡ result }
{
    match type_item(types, k) {
        None => false,
        Some(c) => match c {
            CType::Function(gives, params) => {
                is_main_function(types, k, *gives, params.as_slice())
            }
            _ => false,
        },
    }
}

/// Whether a name is `main`.
pub fn is_named_main(text: &[u8]) -> bool
    ensures { bytes_eq text.now (codes "main") ≡ result }
{
    text == b"main".as_slice()
}

//! One level of a type, and the arithmetic types (C11 6.2.5, 6.3.1).

ghost use Rattle.std.specs.Prelude.{◌≡◌, ℕ, map};
ghost use Rattle.c_tree.specs.Types.{Ty, Tys, is_integer, is_pointer, is_scalar, is_void, is_bool, is_array};
ghost use Rattle.c_tree.specs.Types.{is_function, is_tagged, is_capability, rank, has_sign, width, promoted, kind_rank};
ghost use Rattle.c_tree.specs.Types.{same_kind, same_truth, same, without_sign, common_mixed, common_promoted};
ghost use Rattle.ck_int.specs.Kinds.{form_of, is_signed, width_of};
ghost use Rattle.c_tree.specs.Constants.{kind_of};
ghost use Rattle.c_tree.specs.Views.{type_from, tys};
ghost use Rattle.c_node_facts.specs.Facts.{is_plain, is_cap};
ghost use Rattle.c_node_facts.specs.Classes.{class_type, params_of, integer_type};

use c_tree::CType;
use ck_int::IntKind;

/// One level of a type, without the parameters of a function. Numbers without another word are those of types.
#[derive(Clone, Copy)]
pub enum Class {
    Void,
    Int(IntKind, u8),
    Cap(bool),
    Pointer(u32),
    Array(u32, u64),
    /// A struct or union, by the number of its tag.
    Tagged(u32),
    /// What it gives.
    Function(u32),
    Const(u32),
}

/// An integer type.
#[derive(Clone, Copy)]
pub enum Integer {
    Int(IntKind, u8),
    Cap(bool),
}

/// What a type is, without its parameters or members.
pub fn class_of(c: &CType) -> Class
    ensures { (go : ℕ → Ty) → type_from c.now go ≡ class_type result go (tys (map go (params_of c.now))) }
{
    match c {
        CType::Void => Class::Void,
        CType::Int(kind, other) => Class::Int(*kind, *other),
        CType::Cap(signed) => Class::Cap(*signed),
        CType::Pointer(of) => Class::Pointer(*of),
        CType::Array(of, count) => Class::Array(*of, *count),
        CType::Struct(tag, _) => Class::Tagged(*tag),
        CType::Union(tag, _) => Class::Tagged(*tag),
        CType::Function(gives, _) => Class::Function(*gives),
        CType::Const(of) => Class::Const(*of),
        CType::Incomplete(tag) => Class::Tagged(*tag),
    }
}

/// The parameters, which only a function has.
pub fn params_of<'a>(c: &'a CType) -> &'a [u32]
    ensures { result.now ≡ params_of c.now }
{
    match c {
        CType::Function(_, params) => params.as_slice(),
        _ => &[],
    }
}

impl Class {
    /// Whether it is an integer type (C11 6.2.5p17).
    pub fn is_integer(self) -> bool
        ensures { (go : ℕ → Ty) (ps : Tys) → is_integer (class_type self go ps) ≡ result }
    {
        match self {
            Class::Int(_, _) | Class::Cap(_) => true,
            Class::Void
            | Class::Pointer(_)
            | Class::Array(_, _)
            | Class::Tagged(_)
            | Class::Function(_)
            | Class::Const(_) => false,
        }
    }

    /// Whether it is a pointer type.
    pub fn is_pointer(self) -> bool
        ensures { (go : ℕ → Ty) (ps : Tys) → is_pointer (class_type self go ps) ≡ result }
    {
        match self {
            Class::Pointer(_) => true,
            Class::Void
            | Class::Int(_, _)
            | Class::Cap(_)
            | Class::Array(_, _)
            | Class::Tagged(_)
            | Class::Function(_)
            | Class::Const(_) => false,
        }
    }

    /// Whether it is a scalar type: an integer or a pointer (C11 6.2.5p21).
    pub fn is_scalar(self) -> bool
        ensures { (go : ℕ → Ty) (ps : Tys) → is_scalar (class_type self go ps) ≡ result }
    {
        match self {
            Class::Int(_, _) | Class::Cap(_) | Class::Pointer(_) => true,
            Class::Void
            | Class::Array(_, _)
            | Class::Tagged(_)
            | Class::Function(_)
            | Class::Const(_) => false,
        }
    }

    /// Whether its values are capabilities: a pointer, `intptr_t` or `uintptr_t`.
    pub fn is_capability(self) -> bool
        ensures { (go : ℕ → Ty) (ps : Tys) → is_capability (class_type self go ps) ≡ result }
    {
        match self {
            Class::Cap(_) | Class::Pointer(_) => true,
            Class::Void
            | Class::Int(_, _)
            | Class::Array(_, _)
            | Class::Tagged(_)
            | Class::Function(_)
            | Class::Const(_) => false,
        }
    }

    /// Whether it is `void`.
    pub fn is_void(self) -> bool
        ensures { (go : ℕ → Ty) (ps : Tys) → is_void (class_type self go ps) ≡ result }
    {
        match self {
            Class::Void => true,
            Class::Int(_, _)
            | Class::Cap(_)
            | Class::Pointer(_)
            | Class::Array(_, _)
            | Class::Tagged(_)
            | Class::Function(_)
            | Class::Const(_) => false,
        }
    }

    /// Whether it is `_Bool`.
    pub fn is_bool(self) -> bool
        ensures { (go : ℕ → Ty) (ps : Tys) → is_bool (class_type self go ps) ≡ result }
    {
        match self {
            Class::Int(IntKind::Bool, _) => true,
            Class::Int(
                IntKind::I8
                | IntKind::U8
                | IntKind::I16
                | IntKind::U16
                | IntKind::I32
                | IntKind::U32
                | IntKind::I64
                | IntKind::U64,
                _,
            ) => false,
            Class::Void
            | Class::Cap(_)
            | Class::Pointer(_)
            | Class::Array(_, _)
            | Class::Tagged(_)
            | Class::Function(_)
            | Class::Const(_) => false,
        }
    }

    /// Whether it is an array type.
    pub fn is_array(self) -> bool
        ensures { (go : ℕ → Ty) (ps : Tys) → is_array (class_type self go ps) ≡ result }
    {
        match self {
            Class::Array(_, _) => true,
            Class::Void
            | Class::Int(_, _)
            | Class::Cap(_)
            | Class::Pointer(_)
            | Class::Tagged(_)
            | Class::Function(_)
            | Class::Const(_) => false,
        }
    }

    /// Whether it is a function type.
    pub fn is_function(self) -> bool
        ensures { (go : ℕ → Ty) (ps : Tys) → is_function (class_type self go ps) ≡ result }
    {
        match self {
            Class::Function(_) => true,
            Class::Void
            | Class::Int(_, _)
            | Class::Cap(_)
            | Class::Pointer(_)
            | Class::Array(_, _)
            | Class::Tagged(_)
            | Class::Const(_) => false,
        }
    }

    /// Whether it is a structure or union type, complete or not.
    pub fn is_tagged(self) -> bool
        ensures { (go : ℕ → Ty) (ps : Tys) → is_tagged (class_type self go ps) ≡ result }
    {
        match self {
            Class::Tagged(_) => true,
            Class::Void
            | Class::Int(_, _)
            | Class::Cap(_)
            | Class::Pointer(_)
            | Class::Array(_, _)
            | Class::Function(_)
            | Class::Const(_) => false,
        }
    }

    /// Whether it is an integer type whose values are no capabilities.
    pub fn is_plain(self) -> bool
        ensures { (go : ℕ → Ty) (ps : Tys) → is_plain (class_type self go ps) ≡ result }
    {
        match self {
            Class::Int(_, _) => true,
            Class::Void
            | Class::Cap(_)
            | Class::Pointer(_)
            | Class::Array(_, _)
            | Class::Tagged(_)
            | Class::Function(_)
            | Class::Const(_) => false,
        }
    }

    /// Whether it is `intptr_t` or `uintptr_t`.
    pub fn is_cap(self) -> bool
        ensures { (go : ℕ → Ty) (ps : Tys) → is_cap (class_type self go ps) ≡ result }
    {
        match self {
            Class::Cap(_) => true,
            Class::Void
            | Class::Int(_, _)
            | Class::Pointer(_)
            | Class::Array(_, _)
            | Class::Tagged(_)
            | Class::Function(_)
            | Class::Const(_) => false,
        }
    }

    /// The kind at which an integer type is computed; a capability integer is computed as its address.
    pub fn kind(self) -> IntKind
        ensures { (go : ℕ → Ty) (ps : Tys) → kind_of (class_type self go ps) ≡ result }
    {
        match self {
            Class::Int(kind, _) => kind,
            Class::Cap(true) => IntKind::I64,
            Class::Cap(false) => IntKind::U64,
            Class::Void
            | Class::Pointer(_)
            | Class::Array(_, _)
            | Class::Tagged(_)
            | Class::Function(_)
            | Class::Const(_) => IntKind::U64,
        }
    }

    /// The integer promotions (C11 6.3.1.1p2).
    pub fn promoted(self) -> Integer
        ensures { (go : ℕ → Ty) (ps : Tys) → promoted (class_type self go ps) ≡ integer_type result }
    {
        match self {
            Class::Int(kind, other) => promoted_kind(kind, other),
            Class::Cap(signed) => Integer::Cap(signed),
            Class::Void
            | Class::Pointer(_)
            | Class::Array(_, _)
            | Class::Tagged(_)
            | Class::Function(_)
            | Class::Const(_) => Integer::Int(IntKind::I32, 0),
        }
    }
}

#[tactic(auto, using(crate::proofs::Integers::promoted_long, crate::proofs::Integers::promoted_unsigned_long))]
fn promoted_kind(kind: IntKind, other: u8) -> Integer
    ensures { promoted (integer_type (Integer.Int kind other)) ≡ integer_type result }
{
    match kind {
        IntKind::Bool | IntKind::I8 | IntKind::U8 | IntKind::I16 | IntKind::U16 => Integer::Int(
            IntKind::I32,
            0,
        ),
        IntKind::I32 | IntKind::U32 | IntKind::I64 | IntKind::U64 => Integer::Int(kind, other),
    }
}

/// Whether two kinds of integers are the same.
pub fn is_same_kind(j: IntKind, k: IntKind) -> bool
    ensures { same_kind j k ≡ result }
{
    match (j, k) {
        (IntKind::Bool, IntKind::Bool)
        | (IntKind::I8, IntKind::I8)
        | (IntKind::U8, IntKind::U8)
        | (IntKind::I16, IntKind::I16)
        | (IntKind::U16, IntKind::U16)
        | (IntKind::I32, IntKind::I32)
        | (IntKind::U32, IntKind::U32)
        | (IntKind::I64, IntKind::I64)
        | (IntKind::U64, IntKind::U64) => true,
        _ => false,
    }
}

/// Whether two truth values are the same.
pub fn is_same_truth(a: bool, b: bool) -> bool
    ensures { same_truth a b ≡ result }
{
    if a { b } else { !b }
}

fn kind_rank(kind: IntKind, other: u8) -> u16
    ensures { kind_rank kind other ≡ result }
{
    match kind {
        IntKind::Bool => 0,
        IntKind::I8 | IntKind::U8 => 1,
        IntKind::I16 | IntKind::U16 => 2,
        IntKind::I32 | IntKind::U32 => 3,
        IntKind::I64 | IntKind::U64 => 4 + u16::from(other),
    }
}

fn is_signed_kind(kind: IntKind) -> bool
    ensures { is_signed (form_of kind) ≡ result }
{
    match kind {
        IntKind::I8 | IntKind::I16 | IntKind::I32 | IntKind::I64 => true,
        IntKind::Bool | IntKind::U8 | IntKind::U16 | IntKind::U32 | IntKind::U64 => false,
    }
}

fn kind_width(kind: IntKind) -> u8
    ensures { width_of (form_of kind) ≡ result }
{
    match kind {
        IntKind::Bool => 1,
        IntKind::I8 | IntKind::U8 => 8,
        IntKind::I16 | IntKind::U16 => 16,
        IntKind::I32 | IntKind::U32 => 32,
        IntKind::I64 | IntKind::U64 => 64,
    }
}

impl Integer {
    fn rank(self) -> u16
        ensures { rank (integer_type self) ≡ result }
    {
        match self {
            Integer::Int(kind, other) => kind_rank(kind, other),
            Integer::Cap(_) => 6,
        }
    }

    fn has_sign(self) -> bool
        ensures { has_sign (integer_type self) ≡ result }
    {
        match self {
            Integer::Int(kind, _) => is_signed_kind(kind),
            Integer::Cap(signed) => signed,
        }
    }

    fn width(self) -> u8
        ensures { width (integer_type self) ≡ result }
    {
        match self {
            Integer::Int(kind, _) => kind_width(kind),
            Integer::Cap(_) => 64,
        }
    }

    fn is_same(self, other: Integer) -> bool
        ensures { same (integer_type self) (integer_type other) ≡ result }
    {
        match self {
            Integer::Int(j, m) => match other {
                Integer::Int(k, n) => is_same_kind(j, k) && m == n,
                Integer::Cap(_) => false,
            },
            Integer::Cap(a) => match other {
                Integer::Int(_, _) => false,
                Integer::Cap(b) => is_same_truth(a, b),
            },
        }
    }

    fn without_sign(self) -> Integer
        ensures { without_sign (integer_type self) ≡ integer_type result }
    {
        match self {
            Integer::Int(IntKind::I32, other) => Integer::Int(IntKind::U32, other),
            Integer::Int(IntKind::I64, other) => Integer::Int(IntKind::U64, other),
            Integer::Int(
                IntKind::Bool
                | IntKind::I8
                | IntKind::U8
                | IntKind::I16
                | IntKind::U16
                | IntKind::U32
                | IntKind::U64,
                _,
            ) => self,
            Integer::Cap(_) => Integer::Cap(false),
        }
    }

    /// The common type of a promoted type with a sign and one without.
    fn common_mixed(self, unsigned: Integer) -> Integer
        ensures { common_mixed (integer_type self) (integer_type unsigned) ≡ integer_type result }
    {
        if self.rank() <= unsigned.rank() {
            unsigned
        } else if unsigned.width() < self.width() {
            self
        } else {
            self.without_sign()
        }
    }

    /// The common type of two promoted types (C11 6.3.1.8).
    pub fn common(self, other: Integer) -> Integer
        ensures { common_promoted (integer_type self) (integer_type other) ≡ integer_type result }
    {
        if self.is_same(other) {
            self
        } else if is_same_truth(self.has_sign(), other.has_sign()) {
            if self.rank() < other.rank() {
                other
            } else {
                self
            }
        } else if self.has_sign() {
            self.common_mixed(other)
        } else {
            other.common_mixed(self)
        }
    }
}

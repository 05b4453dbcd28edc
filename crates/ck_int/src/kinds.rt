//! The kinds of integers, the operations on them and the comparisons, as types.
ghost use Rattle.std.specs.Prelude.{◌≡◌};
ghost use Rattle.ck_int.specs.Kinds.{form_of, is_signed};

/// The kinds of integers: C11's `_Bool`, and for 8, 16, 32 and 64 bits the kind in two's complement and the kind
/// without a sign (C11 6.2.5, 6.2.6.2).
#[derive(Clone, Copy, PartialEq, Eq, Debug)]
pub enum IntKind {
    /// 0 and 1.
    Bool,
    /// -2^7 to 2^7 - 1.
    I8,
    /// 0 to 2^8 - 1.
    U8,
    /// -2^15 to 2^15 - 1.
    I16,
    /// 0 to 2^16 - 1.
    U16,
    /// -2^31 to 2^31 - 1.
    I32,
    /// 0 to 2^32 - 1.
    U32,
    /// -2^63 to 2^63 - 1.
    I64,
    /// 0 to 2^64 - 1.
    U64,
}

/// The binary operations (C11 6.5.5 to 6.5.7 and 6.5.10 to 6.5.12).
#[derive(Clone, Copy, PartialEq, Eq, Debug)]
pub enum IntOp {
    /// The sum.
    Add,
    /// The difference.
    Sub,
    /// The product.
    Mul,
    /// The quotient, rounded toward zero.
    Div,
    /// The remainder, with the dividend's sign.
    Rem,
    /// The bits that both operands have.
    And,
    /// The bits that an operand has.
    Or,
    /// The bits that one operand alone has.
    Xor,
    /// The first operand shifted left by the second.
    Shl,
    /// The first operand shifted right by the second; the sign bit is copied in.
    Shr,
}

/// The comparisons (C11 6.5.8 and 6.5.9).
#[derive(Clone, Copy, PartialEq, Eq, Debug)]
pub enum CmpOp {
    /// Less than.
    Lt,
    /// Less than or equal.
    Le,
    /// Greater than.
    Gt,
    /// Greater than or equal.
    Ge,
    /// Equal.
    Eq,
    /// Not equal.
    Ne,
}

impl IntKind {
    pub(crate) fn is_signed(self) -> bool
        ensures { result ≡ is_signed (form_of self) }
    {
        matches!(
            self,
            IntKind::I8 | IntKind::I16 | IntKind::I32 | IntKind::I64
        )
    }
}

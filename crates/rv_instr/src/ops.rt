//! The names of the instructions, one variant for each.

/// The instructions of format U.
#[derive(Clone, Copy, Debug, PartialEq, Eq)]
pub enum UpperOp {
    /// The field as bits 31 to 12 of a sign-extended number.
    Lui,
    /// That number added to the program counter's capability.
    Auipcc,
}

/// The branches, by the test on rs1 and rs2.
#[derive(Clone, Copy, Debug, PartialEq, Eq)]
pub enum BranchOp {
    /// Equal.
    Beq,
    /// Not equal.
    Bne,
    /// Less, signed.
    Blt,
    /// Greater or equal, signed.
    Bge,
    /// Less, unsigned.
    Bltu,
    /// Greater or equal, unsigned.
    Bgeu,
}

/// The loads of integers.
#[derive(Clone, Copy, Debug, PartialEq, Eq)]
pub enum LoadOp {
    /// 8 bits, sign-extended.
    Lb,
    /// 16 bits, sign-extended.
    Lh,
    /// 32 bits, sign-extended.
    Lw,
    /// 64 bits.
    Ld,
    /// 8 bits, zero-extended.
    Lbu,
    /// 16 bits, zero-extended.
    Lhu,
    /// 32 bits, zero-extended.
    Lwu,
}

/// The stores.
#[derive(Clone, Copy, Debug, PartialEq, Eq)]
pub enum StoreOp {
    /// The low 8 bits.
    Sb,
    /// The low 16 bits.
    Sh,
    /// The low 32 bits.
    Sw,
    /// 64 bits.
    Sd,
    /// The capability, with its tag.
    Csc,
}

/// The instructions on an integer and an immediate, but for the shifts.
#[derive(Clone, Copy, Debug, PartialEq, Eq)]
pub enum ImmOp {
    /// The sum.
    Addi,
    /// 1 where rs1 is less, signed, else 0.
    Slti,
    /// 1 where rs1 is less, unsigned, else 0.
    Sltiu,
    /// Exclusive or.
    Xori,
    /// Or.
    Ori,
    /// And.
    Andi,
    /// The sum, of 32 bits.
    Addiw,
}

/// The shifts by a count in the instruction.
#[derive(Clone, Copy, Debug, PartialEq, Eq)]
pub enum ShiftOp {
    /// To the left.
    Slli,
    /// To the right, filled with zeros.
    Srli,
    /// To the right, filled with the sign.
    Srai,
    /// To the left, of 32 bits.
    Slliw,
    /// To the right, filled with zeros, of 32 bits.
    Srliw,
    /// To the right, filled with the sign, of 32 bits.
    Sraiw,
}

/// The instructions on two integers.
#[derive(Clone, Copy, Debug, PartialEq, Eq)]
pub enum RegOp {
    /// The sum.
    Add,
    /// A shift to the left.
    Sll,
    /// 1 where rs1 is less, signed, else 0.
    Slt,
    /// 1 where rs1 is less, unsigned, else 0.
    Sltu,
    /// Exclusive or.
    Xor,
    /// A shift to the right, filled with zeros.
    Srl,
    /// Or.
    Or,
    /// And.
    And,
    /// The difference.
    Sub,
    /// A shift to the right, filled with the sign.
    Sra,
    /// The low 64 bits of the product.
    Mul,
    /// The quotient, signed.
    Div,
    /// The quotient, unsigned.
    Divu,
    /// The remainder, signed.
    Rem,
    /// The remainder, unsigned.
    Remu,
    /// The sum, of 32 bits.
    Addw,
    /// A shift to the left, of 32 bits.
    Sllw,
    /// A shift to the right, filled with zeros, of 32 bits.
    Srlw,
    /// The difference, of 32 bits.
    Subw,
    /// A shift to the right, filled with the sign, of 32 bits.
    Sraw,
    /// The low 32 bits of the product.
    Mulw,
    /// The quotient, signed, of 32 bits.
    Divw,
    /// The quotient, unsigned, of 32 bits.
    Divuw,
    /// The remainder, signed, of 32 bits.
    Remw,
    /// The remainder, unsigned, of 32 bits.
    Remuw,
}

/// The instructions on a capability and an immediate.
#[derive(Clone, Copy, Debug, PartialEq, Eq)]
pub enum CapImmOp {
    /// Adds a signed number to the address.
    Cincoffsetimm,
    /// Sets the bounds to a length, from the address on.
    Csetboundsimm,
}

/// The instructions on a capability and a register.
#[derive(Clone, Copy, Debug, PartialEq, Eq)]
pub enum CapRegOp {
    /// Sets the bounds to a length, from the address on.
    Csetbounds,
    /// The same, and clears the tag where the bounds were rounded.
    Csetboundsexact,
    /// Keeps those permissions that a mask has.
    Candperm,
    /// Sets the address.
    Csetaddr,
    /// Adds to the address.
    Cincoffset,
    /// 1 where two capabilities agree in all bits and the tag, else 0.
    Csetequalexact,
}

/// The instructions on one register.
#[derive(Clone, Copy, Debug, PartialEq, Eq)]
pub enum CapGetOp {
    /// The permissions.
    Cgetperm,
    /// The base.
    Cgetbase,
    /// The length.
    Cgetlen,
    /// The tag.
    Cgettag,
    /// The address less the base.
    Cgetoffset,
    /// The least length, not below the integer, whose bounds are exact at some base.
    Crrl,
    /// The mask of the base's alignment for that length.
    Cram,
    /// The capability as it is.
    Cmove,
    /// The capability without its tag.
    Ccleartag,
    /// The address.
    Cgetaddr,
    /// The capability sealed as a sentry.
    Csealentry,
}

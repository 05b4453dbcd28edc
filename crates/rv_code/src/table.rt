//! The rows of the instruction table: the fixed fields of each instruction's word, and back.

ghost use Rattle.std.specs.Prelude.{◌≡◌};
ghost use Rattle.rv_code.specs.Table.{upper_opcode, branch_funct3, load_funct3, store_funct3, imm_row, shift_row};
ghost use Rattle.rv_code.specs.Table.{reg_row, cap_imm_funct3, cap_reg_funct7, cap_get_rs2};
ghost use Rattle.rv_code.specs.Lookup.{upper_named, branch_named, load_named, store_named, imm_named, shift_named};
ghost use Rattle.rv_code.specs.Lookup.{reg_named, cap_imm_named, cap_reg_named, cap_get_named};

use rv_instr::{
    BranchOp, CapGetOp, CapImmOp, CapRegOp, ImmOp, LoadOp, RegOp, ShiftOp, StoreOp, UpperOp,
};

/// The opcode of an instruction of format U.
pub fn upper_opcode(op: UpperOp) -> u32
    ensures { result ≡ upper_opcode op }
{
    match op {
        UpperOp::Lui => 0x37,
        UpperOp::Auipcc => 0x17,
    }
}

/// The instruction of format U with this opcode.
pub fn upper_named(opcode: u32) -> Option<UpperOp>
    ensures { result ≡ upper_named opcode }
{
    match opcode {
        0x37 => Some(UpperOp::Lui),
        0x17 => Some(UpperOp::Auipcc),
        _ => None,
    }
}

/// The funct3 of a branch.
pub fn branch_funct3(op: BranchOp) -> u32
    ensures { result ≡ branch_funct3 op }
{
    match op {
        BranchOp::Beq => 0,
        BranchOp::Bne => 1,
        BranchOp::Blt => 4,
        BranchOp::Bge => 5,
        BranchOp::Bltu => 6,
        BranchOp::Bgeu => 7,
    }
}

/// The branch with this funct3.
pub fn branch_named(funct3: u32) -> Option<BranchOp>
    ensures { result ≡ branch_named funct3 }
{
    match funct3 {
        0 => Some(BranchOp::Beq),
        1 => Some(BranchOp::Bne),
        4 => Some(BranchOp::Blt),
        5 => Some(BranchOp::Bge),
        6 => Some(BranchOp::Bltu),
        7 => Some(BranchOp::Bgeu),
        _ => None,
    }
}

/// The funct3 of a load.
pub fn load_funct3(op: LoadOp) -> u32
    ensures { result ≡ load_funct3 op }
{
    match op {
        LoadOp::Lb => 0,
        LoadOp::Lh => 1,
        LoadOp::Lw => 2,
        LoadOp::Ld => 3,
        LoadOp::Lbu => 4,
        LoadOp::Lhu => 5,
        LoadOp::Lwu => 6,
    }
}

/// The load with this funct3.
pub fn load_named(funct3: u32) -> Option<LoadOp>
    ensures { result ≡ load_named funct3 }
{
    match funct3 {
        0 => Some(LoadOp::Lb),
        1 => Some(LoadOp::Lh),
        2 => Some(LoadOp::Lw),
        3 => Some(LoadOp::Ld),
        4 => Some(LoadOp::Lbu),
        5 => Some(LoadOp::Lhu),
        6 => Some(LoadOp::Lwu),
        _ => None,
    }
}

/// The funct3 of a store.
pub fn store_funct3(op: StoreOp) -> u32
    ensures { result ≡ store_funct3 op }
{
    match op {
        StoreOp::Sb => 0,
        StoreOp::Sh => 1,
        StoreOp::Sw => 2,
        StoreOp::Sd => 3,
        StoreOp::Csc => 4,
    }
}

/// The store with this funct3.
pub fn store_named(funct3: u32) -> Option<StoreOp>
    ensures { result ≡ store_named funct3 }
{
    match funct3 {
        0 => Some(StoreOp::Sb),
        1 => Some(StoreOp::Sh),
        2 => Some(StoreOp::Sw),
        3 => Some(StoreOp::Sd),
        4 => Some(StoreOp::Csc),
        _ => None,
    }
}

/// The opcode and the funct3 of an instruction on a register and an immediate.
pub fn imm_row(op: ImmOp) -> (u32, u32)
    ensures { result ≡ imm_row op }
{
    match op {
        ImmOp::Addi => (0x13, 0),
        ImmOp::Slti => (0x13, 2),
        ImmOp::Sltiu => (0x13, 3),
        ImmOp::Xori => (0x13, 4),
        ImmOp::Ori => (0x13, 6),
        ImmOp::Andi => (0x13, 7),
        ImmOp::Addiw => (0x1b, 0),
    }
}

/// The instruction on a register and an immediate with these fields.
pub fn imm_named(opcode: u32, funct3: u32) -> Option<ImmOp>
    ensures { result ≡ imm_named opcode funct3 }
{
    match (opcode, funct3) {
        (0x13, 0) => Some(ImmOp::Addi),
        (0x13, 2) => Some(ImmOp::Slti),
        (0x13, 3) => Some(ImmOp::Sltiu),
        (0x13, 4) => Some(ImmOp::Xori),
        (0x13, 6) => Some(ImmOp::Ori),
        (0x13, 7) => Some(ImmOp::Andi),
        (0x1b, 0) => Some(ImmOp::Addiw),
        _ => None,
    }
}

/// The opcode of a shift by a count, the bits of its immediate above the count, and its funct3.
pub fn shift_row(op: ShiftOp) -> (u32, u32, u32)
    ensures { result ≡ shift_row op }
{
    match op {
        ShiftOp::Slli => (0x13, 0x00, 1),
        ShiftOp::Srli => (0x13, 0x00, 5),
        ShiftOp::Srai => (0x13, 0x10, 5),
        ShiftOp::Slliw => (0x1b, 0x00, 1),
        ShiftOp::Srliw => (0x1b, 0x00, 5),
        ShiftOp::Sraiw => (0x1b, 0x20, 5),
    }
}

/// The shift by a count with these fields.
pub fn shift_named(opcode: u32, high: u32, funct3: u32) -> Option<ShiftOp>
    ensures { result ≡ shift_named opcode high funct3 }
{
    match (opcode, high, funct3) {
        (0x13, 0x00, 1) => Some(ShiftOp::Slli),
        (0x13, 0x00, 5) => Some(ShiftOp::Srli),
        (0x13, 0x10, 5) => Some(ShiftOp::Srai),
        (0x1b, 0x00, 1) => Some(ShiftOp::Slliw),
        (0x1b, 0x00, 5) => Some(ShiftOp::Srliw),
        (0x1b, 0x20, 5) => Some(ShiftOp::Sraiw),
        _ => None,
    }
}

/// The opcode, the funct7 and the funct3 of an instruction on two registers.
pub fn reg_row(op: RegOp) -> (u32, u32, u32)
    ensures { result ≡ reg_row op }
{
    match op {
        RegOp::Add => (0x33, 0x00, 0),
        RegOp::Sll => (0x33, 0x00, 1),
        RegOp::Slt => (0x33, 0x00, 2),
        RegOp::Sltu => (0x33, 0x00, 3),
        RegOp::Xor => (0x33, 0x00, 4),
        RegOp::Srl => (0x33, 0x00, 5),
        RegOp::Or => (0x33, 0x00, 6),
        RegOp::And => (0x33, 0x00, 7),
        RegOp::Sub => (0x33, 0x20, 0),
        RegOp::Sra => (0x33, 0x20, 5),
        RegOp::Mul => (0x33, 0x01, 0),
        RegOp::Div => (0x33, 0x01, 4),
        RegOp::Divu => (0x33, 0x01, 5),
        RegOp::Rem => (0x33, 0x01, 6),
        RegOp::Remu => (0x33, 0x01, 7),
        RegOp::Addw => (0x3b, 0x00, 0),
        RegOp::Sllw => (0x3b, 0x00, 1),
        RegOp::Srlw => (0x3b, 0x00, 5),
        RegOp::Subw => (0x3b, 0x20, 0),
        RegOp::Sraw => (0x3b, 0x20, 5),
        RegOp::Mulw => (0x3b, 0x01, 0),
        RegOp::Divw => (0x3b, 0x01, 4),
        RegOp::Divuw => (0x3b, 0x01, 5),
        RegOp::Remw => (0x3b, 0x01, 6),
        RegOp::Remuw => (0x3b, 0x01, 7),
    }
}

/// The instruction on two registers with these fields.
pub fn reg_named(opcode: u32, funct7: u32, funct3: u32) -> Option<RegOp>
    ensures { result ≡ reg_named opcode funct7 funct3 }
{
    match (opcode, funct7, funct3) {
        (0x33, 0x00, 0) => Some(RegOp::Add),
        (0x33, 0x00, 1) => Some(RegOp::Sll),
        (0x33, 0x00, 2) => Some(RegOp::Slt),
        (0x33, 0x00, 3) => Some(RegOp::Sltu),
        (0x33, 0x00, 4) => Some(RegOp::Xor),
        (0x33, 0x00, 5) => Some(RegOp::Srl),
        (0x33, 0x00, 6) => Some(RegOp::Or),
        (0x33, 0x00, 7) => Some(RegOp::And),
        (0x33, 0x20, 0) => Some(RegOp::Sub),
        (0x33, 0x20, 5) => Some(RegOp::Sra),
        (0x33, 0x01, 0) => Some(RegOp::Mul),
        (0x33, 0x01, 4) => Some(RegOp::Div),
        (0x33, 0x01, 5) => Some(RegOp::Divu),
        (0x33, 0x01, 6) => Some(RegOp::Rem),
        (0x33, 0x01, 7) => Some(RegOp::Remu),
        (0x3b, 0x00, 0) => Some(RegOp::Addw),
        (0x3b, 0x00, 1) => Some(RegOp::Sllw),
        (0x3b, 0x00, 5) => Some(RegOp::Srlw),
        (0x3b, 0x20, 0) => Some(RegOp::Subw),
        (0x3b, 0x20, 5) => Some(RegOp::Sraw),
        (0x3b, 0x01, 0) => Some(RegOp::Mulw),
        (0x3b, 0x01, 4) => Some(RegOp::Divw),
        (0x3b, 0x01, 5) => Some(RegOp::Divuw),
        (0x3b, 0x01, 6) => Some(RegOp::Remw),
        (0x3b, 0x01, 7) => Some(RegOp::Remuw),
        _ => None,
    }
}

/// The funct3 of an instruction on a capability and an immediate.
pub fn cap_imm_funct3(op: CapImmOp) -> u32
    ensures { result ≡ cap_imm_funct3 op }
{
    match op {
        CapImmOp::Cincoffsetimm => 1,
        CapImmOp::Csetboundsimm => 2,
    }
}

/// The instruction on a capability and an immediate with this funct3.
pub fn cap_imm_named(funct3: u32) -> Option<CapImmOp>
    ensures { result ≡ cap_imm_named funct3 }
{
    match funct3 {
        1 => Some(CapImmOp::Cincoffsetimm),
        2 => Some(CapImmOp::Csetboundsimm),
        _ => None,
    }
}

/// The funct7 of an instruction on a capability and a register.
pub fn cap_reg_funct7(op: CapRegOp) -> u32
    ensures { result ≡ cap_reg_funct7 op }
{
    match op {
        CapRegOp::Csetbounds => 0x08,
        CapRegOp::Csetboundsexact => 0x09,
        CapRegOp::Candperm => 0x0d,
        CapRegOp::Csetaddr => 0x10,
        CapRegOp::Cincoffset => 0x11,
        CapRegOp::Csetequalexact => 0x21,
    }
}

/// The instruction on a capability and a register with this funct7.
pub fn cap_reg_named(funct7: u32) -> Option<CapRegOp>
    ensures { result ≡ cap_reg_named funct7 }
{
    match funct7 {
        0x08 => Some(CapRegOp::Csetbounds),
        0x09 => Some(CapRegOp::Csetboundsexact),
        0x0d => Some(CapRegOp::Candperm),
        0x10 => Some(CapRegOp::Csetaddr),
        0x11 => Some(CapRegOp::Cincoffset),
        0x21 => Some(CapRegOp::Csetequalexact),
        _ => None,
    }
}

/// What stands in the field rs2 of an instruction on one capability.
pub fn cap_get_rs2(op: CapGetOp) -> u32
    ensures { result ≡ cap_get_rs2 op }
{
    match op {
        CapGetOp::Cgetperm => 0,
        CapGetOp::Cgetbase => 2,
        CapGetOp::Cgetlen => 3,
        CapGetOp::Cgettag => 4,
        CapGetOp::Cgetoffset => 6,
        CapGetOp::Crrl => 8,
        CapGetOp::Cram => 9,
        CapGetOp::Cmove => 10,
        CapGetOp::Ccleartag => 11,
        CapGetOp::Cgetaddr => 15,
        CapGetOp::Csealentry => 17,
    }
}

/// The instruction on one capability with this in its field rs2.
pub fn cap_get_named(rs2: u32) -> Option<CapGetOp>
    ensures { result ≡ cap_get_named rs2 }
{
    match rs2 {
        0 => Some(CapGetOp::Cgetperm),
        2 => Some(CapGetOp::Cgetbase),
        3 => Some(CapGetOp::Cgetlen),
        4 => Some(CapGetOp::Cgettag),
        6 => Some(CapGetOp::Cgetoffset),
        8 => Some(CapGetOp::Crrl),
        9 => Some(CapGetOp::Cram),
        10 => Some(CapGetOp::Cmove),
        11 => Some(CapGetOp::Ccleartag),
        15 => Some(CapGetOp::Cgetaddr),
        17 => Some(CapGetOp::Csealentry),
        _ => None,
    }
}

//! The names of the instructions.

ghost use Rattle.std.specs.Prelude.{◌≡◌, ◌≤◌, length};
ghost use Rattle.rv_text.specs.Listing.{
  upper_name,
  branch_name,
  load_name,
  store_name,
  imm_name,
  shift_name,
  reg_name,
  cap_imm_name,
  cap_reg_name,
  cap_get_name,
};

use rv_instr::{
    BranchOp, CapGetOp, CapImmOp, CapRegOp, ImmOp, LoadOp, RegOp, ShiftOp, StoreOp, UpperOp,
};

pub fn upper_name(op: UpperOp) -> &'static str
    ensures text { result.now ≡ upper_name op }
    ensures short { length result.now ≤ 15 }
{
    match op {
        UpperOp::Lui => "lui",
        UpperOp::Auipcc => "auipcc",
    }
}

pub fn branch_name(op: BranchOp) -> &'static str
    ensures text { result.now ≡ branch_name op }
    ensures short { length result.now ≤ 15 }
{
    match op {
        BranchOp::Beq => "beq",
        BranchOp::Bne => "bne",
        BranchOp::Blt => "blt",
        BranchOp::Bge => "bge",
        BranchOp::Bltu => "bltu",
        BranchOp::Bgeu => "bgeu",
    }
}

pub fn load_name(op: LoadOp) -> &'static str
    ensures text { result.now ≡ load_name op }
    ensures short { length result.now ≤ 15 }
{
    match op {
        LoadOp::Lb => "lb",
        LoadOp::Lh => "lh",
        LoadOp::Lw => "lw",
        LoadOp::Ld => "ld",
        LoadOp::Lbu => "lbu",
        LoadOp::Lhu => "lhu",
        LoadOp::Lwu => "lwu",
    }
}

pub fn store_name(op: StoreOp) -> &'static str
    ensures text { result.now ≡ store_name op }
    ensures short { length result.now ≤ 15 }
{
    match op {
        StoreOp::Sb => "sb",
        StoreOp::Sh => "sh",
        StoreOp::Sw => "sw",
        StoreOp::Sd => "sd",
        StoreOp::Csc => "csc",
    }
}

pub fn imm_name(op: ImmOp) -> &'static str
    ensures text { result.now ≡ imm_name op }
    ensures short { length result.now ≤ 15 }
{
    match op {
        ImmOp::Addi => "addi",
        ImmOp::Slti => "slti",
        ImmOp::Sltiu => "sltiu",
        ImmOp::Xori => "xori",
        ImmOp::Ori => "ori",
        ImmOp::Andi => "andi",
        ImmOp::Addiw => "addiw",
    }
}

pub fn shift_name(op: ShiftOp) -> &'static str
    ensures text { result.now ≡ shift_name op }
    ensures short { length result.now ≤ 15 }
{
    match op {
        ShiftOp::Slli => "slli",
        ShiftOp::Srli => "srli",
        ShiftOp::Srai => "srai",
        ShiftOp::Slliw => "slliw",
        ShiftOp::Srliw => "srliw",
        ShiftOp::Sraiw => "sraiw",
    }
}

pub fn reg_name(op: RegOp) -> &'static str
    ensures text { result.now ≡ reg_name op }
    ensures short { length result.now ≤ 15 }
{
    match op {
        RegOp::Add => "add",
        RegOp::Sll => "sll",
        RegOp::Slt => "slt",
        RegOp::Sltu => "sltu",
        RegOp::Xor => "xor",
        RegOp::Srl => "srl",
        RegOp::Or => "or",
        RegOp::And => "and",
        RegOp::Sub => "sub",
        RegOp::Sra => "sra",
        RegOp::Mul => "mul",
        RegOp::Div => "div",
        RegOp::Divu => "divu",
        RegOp::Rem => "rem",
        RegOp::Remu => "remu",
        RegOp::Addw => "addw",
        RegOp::Sllw => "sllw",
        RegOp::Srlw => "srlw",
        RegOp::Subw => "subw",
        RegOp::Sraw => "sraw",
        RegOp::Mulw => "mulw",
        RegOp::Divw => "divw",
        RegOp::Divuw => "divuw",
        RegOp::Remw => "remw",
        RegOp::Remuw => "remuw",
    }
}

pub fn cap_imm_name(op: CapImmOp) -> &'static str
    ensures text { result.now ≡ cap_imm_name op }
    ensures short { length result.now ≤ 15 }
{
    match op {
        CapImmOp::Cincoffsetimm => "cincoffsetimm",
        CapImmOp::Csetboundsimm => "csetboundsimm",
    }
}

pub fn cap_reg_name(op: CapRegOp) -> &'static str
    ensures text { result.now ≡ cap_reg_name op }
    ensures short { length result.now ≤ 15 }
{
    match op {
        CapRegOp::Csetbounds => "csetbounds",
        CapRegOp::Csetboundsexact => "csetboundsexact",
        CapRegOp::Candperm => "candperm",
        CapRegOp::Csetaddr => "csetaddr",
        CapRegOp::Cincoffset => "cincoffset",
        CapRegOp::Csetequalexact => "csetequalexact",
    }
}

pub fn cap_get_name(op: CapGetOp) -> &'static str
    ensures text { result.now ≡ cap_get_name op }
    ensures short { length result.now ≤ 15 }
{
    match op {
        CapGetOp::Cgetperm => "cgetperm",
        CapGetOp::Cgetbase => "cgetbase",
        CapGetOp::Cgetlen => "cgetlen",
        CapGetOp::Cgettag => "cgettag",
        CapGetOp::Cgetoffset => "cgetoffset",
        CapGetOp::Crrl => "crrl",
        CapGetOp::Cram => "cram",
        CapGetOp::Cmove => "cmove",
        CapGetOp::Ccleartag => "ccleartag",
        CapGetOp::Cgetaddr => "cgetaddr",
        CapGetOp::Csealentry => "csealentry",
    }
}

//! The operations that funct3 and funct7 name, by the instruction table of the RISC-V Unprivileged
//! ISA.

ghost use Rattle.std.specs.Prelude.{◌≡◌, ◌^◌, ◌<◌};
ghost use Rattle.sl_model.specs.Words.{branch_op, load_op, store_op, immediate_op, shift_op, register_op, mul_div_op, branch_funct3, load_funct3, store_funct3, immediate_funct3, shift_funct3, shift_funct7, register_funct3, register_funct7, mul_div_funct3};

use sl_model::{BranchOp, ImmediateOp, LoadOp, MulDivOp, RegisterOp, ShiftOp, StoreOp};

/// The branch with this funct3.
#[inline(always)]
#[tactic(auto, unfolding(sl_model::specs::Words::branch_op))]
pub fn branch(funct3: u32) -> Option<BranchOp>
    ensures { result ≡ branch_op funct3 }
{
    match funct3 {
        0b000 => Some(BranchOp::Beq),
        0b001 => Some(BranchOp::Bne),
        0b100 => Some(BranchOp::Blt),
        0b101 => Some(BranchOp::Bge),
        0b110 => Some(BranchOp::Bltu),
        0b111 => Some(BranchOp::Bgeu),
        _ => None,
    }
}

/// The load with this funct3.
#[inline(always)]
#[tactic(auto, unfolding(sl_model::specs::Words::load_op))]
pub fn load(funct3: u32) -> Option<LoadOp>
    ensures { result ≡ load_op funct3 }
{
    match funct3 {
        0b000 => Some(LoadOp::Lb),
        0b001 => Some(LoadOp::Lh),
        0b010 => Some(LoadOp::Lw),
        0b100 => Some(LoadOp::Lbu),
        0b101 => Some(LoadOp::Lhu),
        _ => None,
    }
}

/// The store with this funct3.
#[inline(always)]
#[tactic(auto, unfolding(sl_model::specs::Words::store_op))]
pub fn store(funct3: u32) -> Option<StoreOp>
    ensures { result ≡ store_op funct3 }
{
    match funct3 {
        0b000 => Some(StoreOp::Sb),
        0b001 => Some(StoreOp::Sh),
        0b010 => Some(StoreOp::Sw),
        _ => None,
    }
}

/// The operation with an immediate that has this funct3; 001 and 101 are shifts.
#[inline(always)]
#[tactic(auto, unfolding(sl_model::specs::Words::immediate_op))]
pub fn immediate(funct3: u32) -> Option<ImmediateOp>
    ensures { result ≡ immediate_op funct3 }
{
    match funct3 {
        0b000 => Some(ImmediateOp::Addi),
        0b010 => Some(ImmediateOp::Slti),
        0b011 => Some(ImmediateOp::Sltiu),
        0b100 => Some(ImmediateOp::Xori),
        0b110 => Some(ImmediateOp::Ori),
        0b111 => Some(ImmediateOp::Andi),
        _ => None,
    }
}

/// The shift by an amount in the word that has this funct7 and funct3.
#[inline(always)]
#[tactic(auto, unfolding(sl_model::specs::Words::shift_op))]
pub fn shift(funct7: u32, funct3: u32) -> Option<ShiftOp>
    ensures { result ≡ shift_op funct7 funct3 }
{
    match (funct7, funct3) {
        (0b0000000, 0b001) => Some(ShiftOp::Slli),
        (0b0000000, 0b101) => Some(ShiftOp::Srli),
        (0b0100000, 0b101) => Some(ShiftOp::Srai),
        _ => None,
    }
}

/// The operation of two registers with this funct7 and funct3, outside the "M" extension.
#[inline(always)]
#[tactic(auto, unfolding(sl_model::specs::Words::register_op, sl_model::specs::Words::plain_register_op))]
pub fn register(funct7: u32, funct3: u32) -> Option<RegisterOp>
    ensures { result ≡ register_op funct7 funct3 }
{
    match (funct7, funct3) {
        (0b0000000, 0b000) => Some(RegisterOp::Add),
        (0b0000000, 0b001) => Some(RegisterOp::Sll),
        (0b0000000, 0b010) => Some(RegisterOp::Slt),
        (0b0000000, 0b011) => Some(RegisterOp::Sltu),
        (0b0000000, 0b100) => Some(RegisterOp::Xor),
        (0b0000000, 0b101) => Some(RegisterOp::Srl),
        (0b0000000, 0b110) => Some(RegisterOp::Or),
        (0b0000000, 0b111) => Some(RegisterOp::And),
        (0b0100000, 0b000) => Some(RegisterOp::Sub),
        (0b0100000, 0b101) => Some(RegisterOp::Sra),
        _ => None,
    }
}

/// The operation of the "M" extension with this funct3.
#[inline(always)]
#[tactic(auto, unfolding(sl_model::specs::Words::mul_div_op))]
pub fn multiply(funct3: u32) -> Option<MulDivOp>
    ensures { result ≡ mul_div_op funct3 }
{
    match funct3 {
        0b000 => Some(MulDivOp::Mul),
        0b001 => Some(MulDivOp::Mulh),
        0b010 => Some(MulDivOp::Mulhsu),
        0b011 => Some(MulDivOp::Mulhu),
        0b100 => Some(MulDivOp::Div),
        0b101 => Some(MulDivOp::Divu),
        0b110 => Some(MulDivOp::Rem),
        0b111 => Some(MulDivOp::Remu),
        _ => None,
    }
}

/// funct3 of a branch.
pub fn branch_funct3(op: BranchOp) -> u32
    ensures value { result ≡ branch_funct3 op }
    ensures fits { result < 2 ^ 3 }
{
    match op {
        BranchOp::Beq => 0b000,
        BranchOp::Bne => 0b001,
        BranchOp::Blt => 0b100,
        BranchOp::Bge => 0b101,
        BranchOp::Bltu => 0b110,
        BranchOp::Bgeu => 0b111,
    }
}

/// funct3 of a load.
pub fn load_funct3(op: LoadOp) -> u32
    ensures value { result ≡ load_funct3 op }
    ensures fits { result < 2 ^ 3 }
{
    match op {
        LoadOp::Lb => 0b000,
        LoadOp::Lh => 0b001,
        LoadOp::Lw => 0b010,
        LoadOp::Lbu => 0b100,
        LoadOp::Lhu => 0b101,
    }
}

/// funct3 of a store.
pub fn store_funct3(op: StoreOp) -> u32
    ensures value { result ≡ store_funct3 op }
    ensures fits { result < 2 ^ 3 }
{
    match op {
        StoreOp::Sb => 0b000,
        StoreOp::Sh => 0b001,
        StoreOp::Sw => 0b010,
    }
}

/// funct3 of a operation with an immediate.
pub fn immediate_funct3(op: ImmediateOp) -> u32
    ensures value { result ≡ immediate_funct3 op }
    ensures fits { result < 2 ^ 3 }
{
    match op {
        ImmediateOp::Addi => 0b000,
        ImmediateOp::Slti => 0b010,
        ImmediateOp::Sltiu => 0b011,
        ImmediateOp::Xori => 0b100,
        ImmediateOp::Ori => 0b110,
        ImmediateOp::Andi => 0b111,
    }
}

/// funct3 of a shift by an amount in the word.
pub fn shift_funct3(op: ShiftOp) -> u32
    ensures value { result ≡ shift_funct3 op }
    ensures fits { result < 2 ^ 3 }
{
    match op {
        ShiftOp::Slli => 0b001,
        ShiftOp::Srli => 0b101,
        ShiftOp::Srai => 0b101,
    }
}

/// funct7 of a shift by an amount in the word.
pub fn shift_funct7(op: ShiftOp) -> u32
    ensures value { result ≡ shift_funct7 op }
    ensures fits { result < 2 ^ 7 }
{
    match op {
        ShiftOp::Slli => 0b0000000,
        ShiftOp::Srli => 0b0000000,
        ShiftOp::Srai => 0b0100000,
    }
}

/// funct3 of a operation of two registers.
pub fn register_funct3(op: RegisterOp) -> u32
    ensures value { result ≡ register_funct3 op }
    ensures fits { result < 2 ^ 3 }
{
    match op {
        RegisterOp::Add => 0b000,
        RegisterOp::Sub => 0b000,
        RegisterOp::Sll => 0b001,
        RegisterOp::Slt => 0b010,
        RegisterOp::Sltu => 0b011,
        RegisterOp::Xor => 0b100,
        RegisterOp::Srl => 0b101,
        RegisterOp::Sra => 0b101,
        RegisterOp::Or => 0b110,
        RegisterOp::And => 0b111,
    }
}

/// funct7 of a operation of two registers.
pub fn register_funct7(op: RegisterOp) -> u32
    ensures value { result ≡ register_funct7 op }
    ensures fits { result < 2 ^ 7 }
{
    match op {
        RegisterOp::Add => 0b0000000,
        RegisterOp::Sub => 0b0100000,
        RegisterOp::Sll => 0b0000000,
        RegisterOp::Slt => 0b0000000,
        RegisterOp::Sltu => 0b0000000,
        RegisterOp::Xor => 0b0000000,
        RegisterOp::Srl => 0b0000000,
        RegisterOp::Sra => 0b0100000,
        RegisterOp::Or => 0b0000000,
        RegisterOp::And => 0b0000000,
    }
}

/// funct3 of a operation of the "M" extension.
pub fn mul_div_funct3(op: MulDivOp) -> u32
    ensures value { result ≡ mul_div_funct3 op }
    ensures fits { result < 2 ^ 3 }
{
    match op {
        MulDivOp::Mul => 0b000,
        MulDivOp::Mulh => 0b001,
        MulDivOp::Mulhsu => 0b010,
        MulDivOp::Mulhu => 0b011,
        MulDivOp::Div => 0b100,
        MulDivOp::Divu => 0b101,
        MulDivOp::Rem => 0b110,
        MulDivOp::Remu => 0b111,
    }
}

//! From an instruction to its word.

ghost use Rattle.std.specs.Prelude.{◌≡◌, ℕ};
ghost use Rattle.sl_model.specs.declared.instr.Instr.TheVariants.{Branch, Load, Store, OpImm, Shift, Op, MulDiv};
ghost use Rattle.sl_model.specs.Words.{meaning, Means};

use crate::{formats, operations};
use sl_model::{
    Bits, BranchOp, ImmediateOp, Instr, LoadOp, MulDivOp, Register, RegisterOp, ShiftOp, StoreOp,
    one_word, opcodes, words_mean,
};

fn branch(op: BranchOp, rs1: Register, rs2: Register, half_offset: Bits<12>) -> u32
    ensures { Means result (Branch op rs1 rs2 half_offset) }
{
    let funct3 = operations::branch_funct3(op);
    formats::branch_format(opcodes::BRANCH, funct3, rs1, rs2, half_offset)
}

fn load(op: LoadOp, rd: Register, rs1: Register, offset: Bits<12>) -> u32
    ensures { Means result (Load op rd rs1 offset) }
{
    let funct3 = operations::load_funct3(op);
    formats::immediate_format(opcodes::LOAD, funct3, rd, rs1, offset)
}

fn store(op: StoreOp, rs1: Register, rs2: Register, offset: Bits<12>) -> u32
    ensures { Means result (Store op rs1 rs2 offset) }
{
    let funct3 = operations::store_funct3(op);
    formats::store_format(opcodes::STORE, funct3, rs1, rs2, offset)
}

fn immediate(op: ImmediateOp, rd: Register, rs1: Register, imm: Bits<12>) -> u32
    ensures { Means result (OpImm op rd rs1 imm) }
{
    let funct3 = operations::immediate_funct3(op);
    formats::immediate_format(opcodes::OP_IMM, funct3, rd, rs1, imm)
}

fn shift(op: ShiftOp, rd: Register, rs1: Register, amount: Bits<5>) -> u32
    ensures { Means result (Shift op rd rs1 amount) }
{
    let funct3 = operations::shift_funct3(op);
    let funct7 = operations::shift_funct7(op);
    formats::register_format(opcodes::OP_IMM, funct3, funct7, rd, rs1, amount)
}

fn register(op: RegisterOp, rd: Register, rs1: Register, rs2: Register) -> u32
    ensures { Means result (Op op rd rs1 rs2) }
{
    let funct3 = operations::register_funct3(op);
    let funct7 = operations::register_funct7(op);
    formats::register_format(opcodes::OP, funct3, funct7, rd, rs1, rs2)
}

fn multiply(op: MulDivOp, rd: Register, rs1: Register, rs2: Register) -> u32
    ensures { Means result (MulDiv op rd rs1 rs2) }
{
    let funct3 = operations::mul_div_funct3(op);
    formats::register_format(opcodes::OP, funct3, 0b0000001, rd, rs1, rs2)
}

/// The word, by the variant.
fn by_variant(instr: &Instr) -> u32
    ensures { Means result instr.now }
{
    match *instr {
        Instr::Lui { rd, imm } => formats::upper_format(opcodes::LUI, rd, imm),
        Instr::Auipc { rd, imm } => formats::upper_format(opcodes::AUIPC, rd, imm),
        Instr::Jal { rd, half_offset } => formats::jump_format(opcodes::JAL, rd, half_offset),
        Instr::Jalr { rd, rs1, offset } => {
            formats::immediate_format(opcodes::JALR, 0b000, rd, rs1, offset)
        }
        Instr::Branch {
            op,
            rs1,
            rs2,
            half_offset,
        } => branch(op, rs1, rs2, half_offset),
        Instr::Load {
            op,
            rd,
            rs1,
            offset,
        } => load(op, rd, rs1, offset),
        Instr::Store {
            op,
            rs1,
            rs2,
            offset,
        } => store(op, rs1, rs2, offset),
        Instr::OpImm { op, rd, rs1, imm } => immediate(op, rd, rs1, imm),
        Instr::Shift {
            op,
            rd,
            rs1,
            amount,
        } => shift(op, rd, rs1, amount),
        Instr::Op { op, rd, rs1, rs2 } => register(op, rd, rs1, rs2),
        Instr::MulDiv { op, rd, rs1, rs2 } => multiply(op, rd, rs1, rs2),
        Instr::Fence { high, rd } => formats::fence_format(opcodes::MISC_MEM, high, rd),
        Instr::Ecall => 0x0000_0073,
        Instr::Ebreak => 0x0010_0073,
    }
}

/// The word of an instruction: the one that means it.
pub fn encode(instr: &Instr) -> u32
    ensures word { Means result instr.now }
    ensures only { (word : ℕ) → Means word instr.now → word ≡ result }
    ensures back { meaning result ≡ Some instr.now }
{
    words_mean();
    one_word();
    by_variant(instr)
}

//! From a word to its instruction.

ghost use Rattle.std.specs.Prelude.{◌≡◌, IfSome};
ghost use Rattle.sl_model.specs.declared.instr.Instr.{Instr};
ghost use Rattle.sl_model.specs.Words.{meaning, jalr_meaning, branch_meaning, load_meaning, store_meaning, immediate_meaning, register_meaning, fence_meaning, system_meaning, Means};

use crate::{fields, operations};
use sl_model::{Instr, opcodes, words_mean};

/// A word of opcode JALR.
#[inline(always)]
#[tactic(auto, unfolding(sl_model::specs::Words::jalr_meaning))]
fn register_jump(word: u32) -> Option<Instr>
    ensures { result ≡ jalr_meaning word }
{
    if fields::funct3(word) != 0b000 {
        return None;
    }
    let rd = fields::rd(word);
    let rs1 = fields::rs1(word);
    let offset = fields::immediate(word);
    Some(Instr::Jalr { rd, rs1, offset })
}

/// A word of opcode BRANCH.
#[inline(always)]
#[tactic(auto, unfolding(sl_model::specs::Words::branch_meaning))]
fn branch(word: u32) -> Option<Instr>
    ensures { result ≡ branch_meaning word }
{
    let op = operations::branch(fields::funct3(word))?;
    let rs1 = fields::rs1(word);
    let rs2 = fields::rs2(word);
    let half_offset = fields::branch_half_offset(word);
    Some(Instr::Branch {
        op,
        rs1,
        rs2,
        half_offset,
    })
}

/// A word of opcode LOAD.
#[inline(always)]
#[tactic(auto, unfolding(sl_model::specs::Words::load_meaning))]
fn load(word: u32) -> Option<Instr>
    ensures { result ≡ load_meaning word }
{
    let op = operations::load(fields::funct3(word))?;
    let rd = fields::rd(word);
    let rs1 = fields::rs1(word);
    let offset = fields::immediate(word);
    Some(Instr::Load {
        op,
        rd,
        rs1,
        offset,
    })
}

/// A word of opcode STORE.
#[inline(always)]
#[tactic(auto, unfolding(sl_model::specs::Words::store_meaning))]
fn store(word: u32) -> Option<Instr>
    ensures { result ≡ store_meaning word }
{
    let op = operations::store(fields::funct3(word))?;
    let rs1 = fields::rs1(word);
    let rs2 = fields::rs2(word);
    let offset = fields::store_offset(word);
    Some(Instr::Store {
        op,
        rs1,
        rs2,
        offset,
    })
}

/// A word of opcode OP-IMM.
#[inline(always)]
#[tactic(auto, unfolding(sl_model::specs::Words::immediate_meaning))]
fn immediate(word: u32) -> Option<Instr>
    ensures { result ≡ immediate_meaning word }
{
    let funct3 = fields::funct3(word);
    let rd = fields::rd(word);
    let rs1 = fields::rs1(word);
    if funct3 == 0b001 || funct3 == 0b101 {
        let op = operations::shift(fields::funct7(word), funct3)?;
        let amount = fields::rs2(word);
        return Some(Instr::Shift {
            op,
            rd,
            rs1,
            amount,
        });
    }
    let op = operations::immediate(funct3)?;
    let imm = fields::immediate(word);
    Some(Instr::OpImm { op, rd, rs1, imm })
}

/// A word of opcode OP.
#[inline(always)]
#[tactic(auto, unfolding(sl_model::specs::Words::register_meaning))]
fn register(word: u32) -> Option<Instr>
    ensures { result ≡ register_meaning word }
{
    let funct7 = fields::funct7(word);
    let funct3 = fields::funct3(word);
    let rd = fields::rd(word);
    let rs1 = fields::rs1(word);
    let rs2 = fields::rs2(word);
    if funct7 == opcodes::MULDIV {
        let op = operations::multiply(funct3)?;
        return Some(Instr::MulDiv { op, rd, rs1, rs2 });
    }
    let op = operations::register(funct7, funct3)?;
    Some(Instr::Op { op, rd, rs1, rs2 })
}

/// A word of opcode MISC-MEM.
#[inline(always)]
#[tactic(auto, unfolding(sl_model::specs::Words::fence_meaning))]
fn fence(word: u32) -> Option<Instr>
    ensures { result ≡ fence_meaning word }
{
    if fields::funct3(word) != 0b000 {
        return None;
    }
    let high = fields::fence_fields(word);
    let rd = fields::rd(word);
    Some(Instr::Fence { high, rd })
}

/// A word of opcode SYSTEM.
#[inline(always)]
#[tactic(auto, unfolding(sl_model::specs::Words::system_meaning))]
fn system(word: u32) -> Option<Instr>
    ensures { result ≡ system_meaning word }
{
    match word {
        opcodes::ECALL => Some(Instr::Ecall),
        opcodes::EBREAK => Some(Instr::Ebreak),
        _ => None,
    }
}

/// The instruction that a word means; `None` exactly where it means none.
#[inline(always)]
pub fn decode(word: u32) -> Option<Instr>
    ensures value { result ≡ meaning word }
    ensures found { IfSome result (Means word) }
    ensures only { (instr : Instr) → Means word instr → result ≡ Some instr }
{
    words_mean();
    by_opcode(word)
}

/// The instruction, by the opcode.
#[inline(always)]
#[tactic(auto, unfolding(sl_model::specs::Words::meaning))]
fn by_opcode(word: u32) -> Option<Instr>
    ensures { result ≡ meaning word }
{
    match fields::opcode(word) {
        opcodes::LUI => Some(Instr::Lui {
            rd: fields::rd(word),
            imm: fields::upper_immediate(word),
        }),
        opcodes::AUIPC => Some(Instr::Auipc {
            rd: fields::rd(word),
            imm: fields::upper_immediate(word),
        }),
        opcodes::JAL => Some(Instr::Jal {
            rd: fields::rd(word),
            half_offset: fields::jump_half_offset(word),
        }),
        opcodes::JALR => register_jump(word),
        opcodes::BRANCH => branch(word),
        opcodes::LOAD => load(word),
        opcodes::STORE => store(word),
        opcodes::OP_IMM => immediate(word),
        opcodes::OP => register(word),
        opcodes::MISC_MEM => fence(word),
        opcodes::SYSTEM => system(word),
        _ => None,
    }
}

//! The instructions of the blocks, by the roles of their registers.

ghost use Rattle.std.specs.Prelude.{◌≡◌};
ghost use Rattle.tracer_compile.specs.Blocks as blocks;

use crate::roles::{Role, register};
use sl_model::{
    Bits, BranchOp, ImmediateOp, Instr, LoadOp, MulDivOp, RegisterOp, ShiftOp, StoreOp,
};

/// The sum of a register and a number.
pub fn add_number(rd: Role, rs1: Role, n: u32) -> Instr
    ensures { result ≡ blocks.add_number rd rs1 n }
{
    Instr::OpImm {
        op: ImmediateOp::Addi,
        rd: register(rd),
        rs1: register(rs1),
        imm: Bits::low(n),
    }
}

/// A register less a number.
pub fn take_number(rd: Role, rs1: Role, n: u32) -> Instr
    ensures { result ≡ blocks.take_number rd rs1 n }
{
    add_number(rd, rs1, 4096 - n % 4096)
}

/// The sum of two registers.
pub fn add(rd: Role, rs1: Role, rs2: Role) -> Instr
    ensures { result ≡ blocks.add rd rs1 rs2 }
{
    Instr::Op {
        op: RegisterOp::Add,
        rd: register(rd),
        rs1: register(rs1),
        rs2: register(rs2),
    }
}

/// The product of two registers.
pub fn multiply(rd: Role, rs1: Role, rs2: Role) -> Instr
    ensures { result ≡ blocks.multiply rd rs1 rs2 }
{
    Instr::MulDiv {
        op: MulDivOp::Mul,
        rd: register(rd),
        rs1: register(rs1),
        rs2: register(rs2),
    }
}

/// Four times a register.
pub fn times_four(rd: Role, rs1: Role) -> Instr
    ensures { result ≡ blocks.times_four rd rs1 }
{
    Instr::Shift {
        op: ShiftOp::Slli,
        rd: register(rd),
        rs1: register(rs1),
        amount: Bits::low(2),
    }
}

/// A number whose low twelve bits are 0.
pub fn high_number(rd: Role, n: u32) -> Instr
    ensures { result ≡ blocks.high_number rd n }
{
    Instr::Lui {
        rd: register(rd),
        imm: Bits::low(n >> 12),
    }
}

/// The word at some bytes behind a register's address.
pub fn load_word(rd: Role, rs1: Role, offset: u32) -> Instr
    ensures { result ≡ blocks.load_word rd rs1 offset }
{
    Instr::Load {
        op: LoadOp::Lw,
        rd: register(rd),
        rs1: register(rs1),
        offset: Bits::low(offset),
    }
}

/// The word at some bytes before a register's address.
pub fn load_word_before(rd: Role, rs1: Role, offset: u32) -> Instr
    ensures { result ≡ blocks.load_word_before rd rs1 offset }
{
    load_word(rd, rs1, 4096 - offset % 4096)
}

/// The word at some bytes behind a register's address becomes another register.
pub fn store_word(rs2: Role, rs1: Role, offset: u32) -> Instr
    ensures { result ≡ blocks.store_word rs2 rs1 offset }
{
    Instr::Store {
        op: StoreOp::Sw,
        rs1: register(rs1),
        rs2: register(rs2),
        offset: Bits::low(offset),
    }
}

/// To so many words further, where a condition of two registers holds.
pub fn skip_if(op: BranchOp, rs1: Role, rs2: Role, words: u32) -> Instr
    ensures { result ≡ blocks.skip_if op rs1 rs2 words }
{
    Instr::Branch {
        op,
        rs1: register(rs1),
        rs2: register(rs2),
        half_offset: Bits::low(2 * (words % 2048)),
    }
}

/// To so many words further.
pub fn jump_on(words: usize) -> Instr
    ensures { result ≡ blocks.jump_on words }
{
    Instr::Jal {
        rd: register(Role::Zero),
        half_offset: Bits::low(2 * (words % 0x8_0000) as u32),
    }
}

/// To so many words back.
pub fn jump_back(words: usize) -> Instr
    ensures { result ≡ blocks.jump_back words }
{
    Instr::Jal {
        rd: register(Role::Zero),
        half_offset: Bits::low(0x10_0000 - 2 * (words % 0x8_0000) as u32),
    }
}

/// To the address in a register.
pub fn jump_to(rs1: Role) -> Instr
    ensures { result ≡ blocks.jump_to rs1 }
{
    Instr::Jalr {
        rd: register(Role::Zero),
        rs1: register(rs1),
        offset: Bits::low(0),
    }
}

/// What memory holds at a register's address.
pub fn load_at_role(op: LoadOp, rd: Role, rs1: Role) -> Instr
    ensures { result ≡ blocks.load_at_role op rd rs1 }
{
    Instr::Load {
        op,
        rd: register(rd),
        rs1: register(rs1),
        offset: Bits::low(0),
    }
}

/// Memory at a register's address becomes another register.
pub fn store_at_role(op: StoreOp, rs2: Role, rs1: Role) -> Instr
    ensures { result ≡ blocks.store_at_role op rs2 rs1 }
{
    Instr::Store {
        op,
        rs1: register(rs1),
        rs2: register(rs2),
        offset: Bits::low(0),
    }
}

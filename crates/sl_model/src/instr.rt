//! The instructions of RV32IM, as the RISC-V Unprivileged ISA lists them ("RV32/64G Instruction Set
//! Listings"). Immediates are kept as the bits that stand in the word; what they mean,
//! sign-extended, is a matter of the step.

use crate::bits::Bits;

/// A register, x0 to x31.
pub type Register = Bits<5>;

/// The conditions of branches.
#[derive(Clone, Copy, Debug, PartialEq, Eq)]
pub enum BranchOp {
    Beq,
    Bne,
    Blt,
    Bge,
    Bltu,
    Bgeu,
}

/// The widths of loads, and how a narrow one is extended.
#[derive(Clone, Copy, Debug, PartialEq, Eq)]
pub enum LoadOp {
    Lb,
    Lh,
    Lw,
    Lbu,
    Lhu,
}

/// The widths of stores.
#[derive(Clone, Copy, Debug, PartialEq, Eq)]
pub enum StoreOp {
    Sb,
    Sh,
    Sw,
}

/// Operations of a register and an immediate.
#[derive(Clone, Copy, Debug, PartialEq, Eq)]
pub enum ImmediateOp {
    Addi,
    Slti,
    Sltiu,
    Xori,
    Ori,
    Andi,
}

/// Shifts by an amount that stands in the word.
#[derive(Clone, Copy, Debug, PartialEq, Eq)]
pub enum ShiftOp {
    Slli,
    Srli,
    Srai,
}

/// Operations of two registers.
#[derive(Clone, Copy, Debug, PartialEq, Eq)]
pub enum RegisterOp {
    Add,
    Sub,
    Sll,
    Slt,
    Sltu,
    Xor,
    Srl,
    Sra,
    Or,
    And,
}

/// Operations of two registers of the "M" extension.
#[derive(Clone, Copy, Debug, PartialEq, Eq)]
pub enum MulDivOp {
    Mul,
    Mulh,
    Mulhsu,
    Mulhu,
    Div,
    Divu,
    Rem,
    Remu,
}

/// An instruction. Each field holds the bits of the word that the standard names so.
#[derive(Clone, Copy, Debug, PartialEq, Eq)]
pub enum Instr {
    /// `rd` becomes the upper immediate.
    Lui {
        rd: Register,
        /// imm[31:12].
        imm: Bits<20>,
    },
    /// `rd` becomes pc and the upper immediate.
    Auipc {
        rd: Register,
        /// imm[31:12].
        imm: Bits<20>,
    },
    /// A jump relative to pc, which leaves the place after it in `rd`.
    Jal {
        rd: Register,
        /// imm[20:1]: half the offset.
        half_offset: Bits<20>,
    },
    /// A jump relative to a register, which leaves the place after it in `rd`.
    Jalr {
        rd: Register,
        rs1: Register,
        /// imm[11:0].
        offset: Bits<12>,
    },
    /// A jump relative to pc where a condition of two registers holds.
    Branch {
        op: BranchOp,
        rs1: Register,
        rs2: Register,
        /// imm[12:1]: half the offset.
        half_offset: Bits<12>,
    },
    /// `rd` becomes what memory holds at `rs1` and the offset.
    Load {
        op: LoadOp,
        rd: Register,
        rs1: Register,
        /// imm[11:0].
        offset: Bits<12>,
    },
    /// Memory at `rs1` and the offset becomes the low bytes of `rs2`.
    Store {
        op: StoreOp,
        rs1: Register,
        rs2: Register,
        /// imm[11:0].
        offset: Bits<12>,
    },
    OpImm {
        op: ImmediateOp,
        rd: Register,
        rs1: Register,
        /// imm[11:0].
        imm: Bits<12>,
    },
    Shift {
        op: ShiftOp,
        rd: Register,
        rs1: Register,
        /// shamt[4:0].
        amount: Bits<5>,
    },
    Op {
        op: RegisterOp,
        rd: Register,
        rs1: Register,
        rs2: Register,
    },
    MulDiv {
        op: MulDivOp,
        rd: Register,
        rs1: Register,
        rs2: Register,
    },
    /// Orders nothing on this machine. Its other fields are kept, so that the word can be had back.
    Fence {
        /// Bits 31 to 15.
        high: Bits<17>,
        rd: Register,
    },
    Ecall,
    Ebreak,
}

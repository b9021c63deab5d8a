//! What the name at the front of a statement stands for.

use rv_decode::{
    BranchOp, ImmediateOp, Instr, LoadOp, MulDivOp, Register, RegisterOp, ShiftOp, StoreOp,
};

/// A section of a program.
#[derive(Clone, Copy, Debug, PartialEq, Eq)]
pub enum Section {
    /// Instructions, and words among them.
    Text,
    /// Data, which starts at the first page at or after the end of text.
    Data,
}

/// How many bytes each value of a directive takes: 4, 2 or 1.
#[derive(Clone, Copy, Debug, PartialEq, Eq)]
pub enum Width {
    Word,
    Half,
    Byte,
}

/// What an address is to be a multiple of.
#[derive(Clone, Copy, Debug, PartialEq, Eq)]
pub enum Alignment {
    One,
    Two,
    Four,
    Eight,
    Sixteen,
}

/// An instruction, a short form or a directive, without its operands.
#[derive(Clone, Copy, Debug, PartialEq, Eq)]
pub enum Mnemonic {
    Lui,
    Auipc,
    Jal,
    Jalr,
    Branch(BranchOp),
    Load(LoadOp),
    Store(StoreOp),
    Immediate(ImmediateOp),
    Shift(ShiftOp),
    Operation(RegisterOp),
    MulDiv(MulDivOp),
    /// An instruction, or a short form of it, that has no operands.
    Alone(Instr),
    /// `mv`.
    Move,
    /// `j` and `call`: a jump that leaves the place after it in a register.
    JumpTo(Register),
    /// `beqz` and `bnez`: a branch against zero.
    BranchZero(BranchOp),
    /// `li`.
    LoadImmediate,
    /// `la`.
    LoadAddress,
    /// `.text` and `.data`.
    Enter(Section),
    /// `.word`, `.half` and `.byte`.
    Values(Width),
    /// `.space`.
    Space,
    /// `.balign`.
    Align,
    /// `.globl`.
    Global,
}

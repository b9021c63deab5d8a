//! Instruction words of RV32IM: which instruction a word means, and the word of an instruction.
#![tactic(auto)]

mod decoding;
mod encoding;
mod fields;
mod formats;
mod operations;

pub use decoding::decode;
pub use encoding::encode;
pub use sl_model::{
    Bits, BranchOp, ImmediateOp, Instr, LoadOp, MulDivOp, Register, RegisterOp, ShiftOp, StoreOp,
};

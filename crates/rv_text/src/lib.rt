//! The text of instructions.
#![tactic(auto)]

mod names;
mod numbers;
mod text;

pub use text::print_instr;

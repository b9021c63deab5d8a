//! The layer that runs blocks of words: a program as a list of instructions, how such a list stands
//! in memory, and why the machine follows what its instructions do one after the other.
#![tactic(auto)]

mod laws;

pub use laws::{blocks_are_run, instructions_are_steps, jumps_are_taken, runs_end};

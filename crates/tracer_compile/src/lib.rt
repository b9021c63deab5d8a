//! Tracers compiled to words of RV32IM, which run in a bank of their own beside the program.
#![tactic(auto)]

mod blocks;
mod bodies;
mod compiling;
mod instructions;
mod roles;
mod scope;

pub use compiling::compile;

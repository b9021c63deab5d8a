//! What every crate stands on: system calls by their numbers, lists and refusals that contracts see
//! as plain values, a counter of steps, and the texts of numbers.
#![tactic(auto)]

mod call;
mod refused;
mod seq;
mod steps;
mod symbol;
#[cfg(test)]
mod tests;
mod text;

pub use call::{Call, GETRANDOM, LEAST_ERROR, READ, WRITE};
pub use refused::{Memory, Refused};
pub use seq::Seq;
pub use std::marker::Brand;
pub use std::sync::ledger::{Blank, Ledger};
pub use steps::Steps;
pub use symbol::Symbol;
pub use text::{DecimalText, WordText, decimal_text, word_text};

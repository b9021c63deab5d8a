//! The bank that a compiled tracer runs in: its code, its frames, the log of what it stored over,
//! and its output. They are the areas of a memory of its own, beside the program's.
#![tactic(auto)]

mod area;
mod bank;
mod bank_bus;
mod laws;
mod regions;
#[cfg(test)]
mod tests;

pub use bank::Bank;
pub use bank_bus::BankBus;
pub use laws::{started_banks_are_ready, undoing_needs_no_bank};

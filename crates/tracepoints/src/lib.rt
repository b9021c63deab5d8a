//! Which tracepoints of a script fire before an instruction.
#![tactic(auto)]

mod chain;
mod fired;
mod points;
#[cfg(test)]
mod tests;

pub use fired::Fired;
pub use points::Points;

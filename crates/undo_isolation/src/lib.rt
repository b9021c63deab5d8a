//! Compiled tracers in place: a tracer's words run over the program's own memory, and what they did
//! to it is undone from a log.
#![tactic(auto)]

mod in_place;
mod room;
mod run;
mod start;
#[cfg(test)]
mod tests;

pub use in_place::run_in_place;
pub use room::RecordRoom;

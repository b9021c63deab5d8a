//! Code of tracers: its words, where each tracer begins, what the words promise to do and to leave
//! alone where they are run beside a program, and how their end tells an outcome.
#![tactic(auto)]

mod code;
mod laws;
pub mod outcomes;

pub use code::TracerCode;
pub use laws::{outcomes_are_told, standing_code_is_sound};
pub use outcomes::outcome_of;

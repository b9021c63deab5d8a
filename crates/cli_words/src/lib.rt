//! The words of a command line: plain words and options, and the command that they name.
#![tactic(auto)]

mod laws;
mod numbers;
mod orders;
mod parts;
mod rows;
mod settings;
mod usage;

pub use laws::work_stands_apart;
pub use orders::{Order, RecordOptions, TraceOptions};
pub use rows::read_words;
pub use usage::Usage;

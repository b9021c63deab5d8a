//! The threads that run epochs: each claims epochs from one board, runs them with memory of its
//! own, and posts what they came to.
#![tactic(auto)]

mod all;
mod epochs;
mod jobs;
mod joining;
mod worker;

pub use all::run_all;
pub use epochs::Epochs;
pub use worker::{Worked, work};

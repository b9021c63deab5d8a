//! The commands of Sledgehammer, over any store, world, outputs and gate.
#![tactic(auto)]

mod assemble;
mod command;
mod done;
mod failure;
mod finish;
mod generated;
mod kinds;
mod laws;
mod recording;
mod recutting;
mod runs;
mod show;
mod store;
mod trace;

pub use command::sledge;
pub use laws::{
    answers_are_outcomes, posts_merge, recordings_are_accepted, same_answer, traces_are_one_run,
    traces_complete,
};
pub use report::{Refusal, Status, write_fault};

#[cfg(test)]
mod tests;

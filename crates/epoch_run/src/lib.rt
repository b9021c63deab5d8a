//! What an epoch of a recorded run gives, and the records that tracers leave on it.
#![tactic(auto)]

mod comparing;
mod compiled;
mod epoch;
mod firing;
mod laws;
mod one_point;
mod places;
mod plan;
mod running;
mod segment;
mod worker;

pub use compiled::CompiledScript;
pub use epoch::{PlanRuns, run_epoch};
pub use laws::{
    at_emits, epochs_join, epochs_start_on_the_run, least_break_is_first, one_epoch_is_the_run,
    records_are_those_of_the_run, runs_end_as_recorded, values_are_the_run,
};
pub use one_point::at_script;
pub use plan::Plan;
pub use running::{run_between, run_on};
pub use worker::Worker;

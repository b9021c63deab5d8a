//! Records the run of a program over a world, and gives a recorded run other checkpoints.
#![tactic(auto)]

mod answering;
mod changes;
mod kept;
mod live;
mod memory;
mod record;
mod recutting;
mod source;

pub use record::record_run;
pub use recutting::recut;
pub use source::ImageSource;

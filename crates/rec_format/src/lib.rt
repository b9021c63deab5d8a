//! Recordings of runs: the format of version 1, read and written exactly.
#![tactic(auto)]

mod calls;
mod checkpoints;
mod cursor;
mod fault;
mod laws;
mod limits;
mod listings;
mod reading;
mod recording;
mod size;
mod writing;

pub use fault::{RecCause, RecFault, TooLarge};
pub use laws::recorded_states_fit;
pub use reading::{read_recording, spelled_apart};
pub use recording::{CheckpointData, ListedPage, Recording};
pub use writing::write_recording;

//! The checkpoints of a recording: the page and the state that each of them records, and how a state differs from one.
#![tactic(auto)]

mod differ;
mod kept;
mod laws;
mod listed;
mod mapping;
mod pages;
mod parts;
mod restore;
mod version_lists;
mod versions;

pub use kept::Checkpoints;
pub use laws::{comparisons_see_changes, recorded_states_hold_recorded};

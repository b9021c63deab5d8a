//! The posts of all epochs, merged in the order of the epochs.
#![tactic(auto)]

mod laws;
mod least;
mod merging;
mod ordering;

pub use analysers::{Merged, Row};
pub use laws::merged_means;
pub use merging::merge;

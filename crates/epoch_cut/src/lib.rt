//! Cuts the segments of a recording into epochs.
#![tactic(auto)]

mod cutting;

pub use cutting::{Cutting, cut, from_list};

//! A program's memory: pages of 4,096 bytes by their numbers, with the list of those that changed.
#![tactic(auto)]

mod frame;
mod frames;
mod laws;
mod table;

pub use frames::Frames;
pub use laws::walk_gives_each_dirty_page_once;

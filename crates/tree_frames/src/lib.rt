//! The first body of `page_frames`, over an ordered map. No other crate stands on it: a test runs
//! both bodies over the same accesses.
#![tactic(auto)]

mod frame;
mod frames;
#[cfg(test)]
mod tests;

pub use frames::TreeFrames;

//! The board from which threads claim epochs: each epoch is claimed at most once, whatever the
//! threads do.
#![tactic(auto)]

mod board;
mod plays;
mod view;

pub use board::{Board, BoardSeat};

//! What a seat at the table knows, and what the table is told when it is made.

use std::collections::LinkedList;

/// The second word of a board where no epoch is known to have broken.
pub(crate) const NO_EPOCH: u64 = u64::MAX;

/// How many epochs a board has, and how many seats can be made of it.
#[derive(Drop)]
pub(crate) struct Size {
    pub(crate) epochs: u32,
    pub(crate) seats: u32,
}

/// What a seat knows. No value of it is made.
pub(crate) struct View {
    /// The board's number of epochs.
    pub(crate) epochs: u32,
    /// The board's number of seats.
    pub(crate) seats: u32,
    /// Its share of the seats; a seat with a share of n can make n - 1 more.
    pub(crate) share: u32,
    /// The epochs that it claimed, in order.
    pub(crate) claims: LinkedList<u32>,
    /// The epochs that it said broke, in order.
    pub(crate) breaks: LinkedList<u32>,
    /// What its loads of the least break gave, in order.
    pub(crate) seen: LinkedList<Option<u32>>,
    /// Whether it drew a number at or above the epochs.
    pub(crate) told: bool,
}

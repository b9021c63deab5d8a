//! What a tree analysis makes of a part of the records.

use sl_base::Seq;
use tracer_lang::Record;

/// A word, and how many records have it, modulo 2^64.
#[derive(Clone, Copy, Debug, PartialEq, Eq)]
pub struct Bin {
    pub value: u32,
    pub count: u64,
}

/// What a tree analysis makes of some records that stand one after the other.
#[derive(Debug, Drop)]
pub enum Part {
    /// Their number, modulo 2^64.
    Count(u64),
    /// The sum of their words, modulo 2^64.
    Sum(u64),
    /// The least of their words.
    Least(Option<u32>),
    /// The greatest of their words.
    Greatest(Option<u32>),
    /// Their words, rising.
    Hist(Seq<Bin>),
    /// The first of them.
    First(Option<Record>),
    /// The last of them.
    Last(Option<Record>),
}

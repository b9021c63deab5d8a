//! What an analysis gives.

use tracer_lang::Record;

/// One line of an analysis.
#[derive(Debug, Drop)]
pub enum Row {
    /// A record as it stands.
    Of(Record),
    /// A number.
    Number(u64),
    /// A word.
    Word(u32),
    /// A word, and how many records have it, modulo 2^64.
    Bin { value: u32, count: u64 },
}

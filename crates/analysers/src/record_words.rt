//! The words of records.

ghost use Rattle.std.specs.Prelude.{◌≡◌, IfOk};
ghost use Rattle.analysers.specs.Words.{word_at, greater, lesser};

use sl_base::{Memory, Seq};
use std::alloc::Global;
use tracer_lang::Record;

/// The word of a record at a place, where it has one.
pub fn word_at(place: u32, r: &Record) -> Option<u32>
    ensures { result ≡ word_at place r.now }
{
    r.words.as_slice().get(place as usize).copied()
}

/// A copy of a record.
pub fn copy_of(alloc: Global, r: &Record) -> Result<Record, Memory>
    ensures { IfOk result (λ copy. copy ≡ r.now) }
{
    let words = Vec::from_slice(alloc, r.words.as_slice())?;
    Ok(Record {
        count: r.count,
        point: r.point,
        pc: r.pc,
        words: Seq::from_vec(words),
        outcome: r.outcome,
    })
}

/// The greater of two words, where there are two.
pub fn greater(a: Option<u32>, b: Option<u32>) -> Option<u32>
    ensures { result ≡ greater a b }
{
    match (a, b) {
        (Some(a), Some(b)) => Some(a.max(b)),
        _ => a.or(b),
    }
}

/// The lesser of two words, where there are two.
pub fn lesser(a: Option<u32>, b: Option<u32>) -> Option<u32>
    ensures { result ≡ lesser a b }
{
    match (a, b) {
        (Some(a), Some(b)) => Some(a.min(b)),
        _ => a.or(b),
    }
}

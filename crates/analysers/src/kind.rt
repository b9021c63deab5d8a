//! The kinds of analyses.

ghost use Rattle.std.specs.Prelude.{◌≡◌, Some};
ghost use Rattle.analysers.specs.Kinds.{kind_of};

use sl_base::Seq;

/// What an analysis makes of the records. A word's place is counted from 0; a record that has no
/// word at that place is passed over. Words compare without sign.
#[derive(Clone, Copy, Debug, PartialEq, Eq)]
pub enum KindOf {
    /// `all`: each record.
    All,
    /// `done`: each record whose tracer ended as it should.
    Done,
    /// `point=T`: each record of this tracepoint.
    Point(u32),
    /// `word=I:V`: each record that has this word at this place.
    Word { place: u32, value: u32 },
    /// `changes=I`: each record whose word at this place differs from that of the last record
    /// before it that had one, and the first that has one.
    Changes(u32),
    /// `rising=I`: each record whose word at this place is above all earlier ones, and the first
    /// that has one.
    Rising(u32),
    /// `open=T:U`: what was opened by a record of one tracepoint and not closed by one of the
    /// other, and what closes nothing.
    Open { opens: u32, closes: u32 },
    /// `count`: the number of records, modulo 2^64.
    Count,
    /// `sum=I`: the sum of the words at this place, modulo 2^64.
    Sum(u32),
    /// `least=I`: the least of the words at this place.
    Least(u32),
    /// `greatest=I`: the greatest of the words at this place.
    Greatest(u32),
    /// `hist=I`: each word at this place, with the number of its records, modulo 2^64.
    Hist(u32),
    /// `first`: the first record.
    First,
    /// `last`: the last record.
    Last,
}

/// An analysis as it was asked for.
#[derive(Debug, Drop)]
pub struct Kind {
    /// The word that names it, as it was given.
    pub word: Seq<u8>,
    /// What the word says.
    pub what: KindOf,
    ghost reads: { kind_of word ≡ Some what },
}

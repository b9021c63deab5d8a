//! The kinds whose parts can be joined.

ghost use Rattle.std.specs.Prelude.{◌≡◌, IfOk};
ghost use Rattle.analysers.specs.Parts.{bin_of, IsSound, join_parts};

use crate::histogram::merge_bins;
use crate::part::{Bin, Part};
use crate::record_words::{copy_of, greater, lesser, word_at};
use crate::tree::Tree;
use sl_base::{Memory, Seq};
use std::alloc::Global;
use tracer_lang::Record;

/// The tree kinds. Those that name a place pass over records which have no word there.
#[derive(Clone, Copy, Debug, PartialEq, Eq)]
pub enum TreeKind {
    /// The number of records, modulo 2^64.
    Count,
    /// The sum of the words at this place, modulo 2^64.
    Sum(u32),
    /// The least word at this place.
    Least(u32),
    /// The greatest word at this place.
    Greatest(u32),
    /// Each word at this place, with the number of its records, modulo 2^64.
    Hist(u32),
    /// The first record.
    First,
    /// The last record.
    Last,
}

/// The bin of a word, where there is one.
fn bin_of(alloc: Global, word: Option<u32>) -> Result<Seq<Bin>, Memory>
    ensures { IfOk result (λ bins. bins ≡ bin_of word) }
{
    match word {
        None => Ok(Seq::new(alloc)),
        Some(value) => Ok(Seq::from_vec(vec![in alloc; Bin { value, count: 1 }]?)),
    }
}

/// The part of both. Parts of two kinds are never joined.
pub fn join_parts(alloc: Global, left: Part, right: Part) -> Result<Part, Memory>
    requires left { IsSound left }
    requires right { IsSound right }
    ensures { IfOk result (λ part. part ≡ join_parts left right) }
{
    match (left, right) {
        (Part::Count(m), Part::Count(n)) => Ok(Part::Count(m.wrapping_add(n))),
        (Part::Sum(m), Part::Sum(n)) => Ok(Part::Sum(m.wrapping_add(n))),
        (Part::Least(a), Part::Least(b)) => Ok(Part::Least(lesser(a, b))),
        (Part::Greatest(a), Part::Greatest(b)) => Ok(Part::Greatest(greater(a, b))),
        (Part::Hist(a), Part::Hist(b)) => Ok(Part::Hist(merge_bins(alloc, a, b)?)),
        (Part::First(a), Part::First(b)) => Ok(Part::First(a.or(b))),
        (Part::Last(a), Part::Last(b)) => Ok(Part::Last(b.or(a))),
        (left, _) => Ok(left),
    }
}

impl Tree for TreeKind {
    type Value = Part;

    ghost use Rattle.analysers.specs.Parts.{Fits, no_part, part_of, join_parts};
    ghost use Rattle.analysers.specs.TreeLaws.{no_part-fits, part_of-fits, join_parts-fits, join_parts-left, join_parts-right, join_parts-association};

    ghost fits = { Fits };

    ghost empty = { no_part };

    ghost single = { part_of };

    ghost joined = { λ _. join_parts };

    fn unit(&self, alloc: Global) -> Result<Part, Memory> {
        match self {
            TreeKind::Count => Ok(Part::Count(0)),
            TreeKind::Sum(_) => Ok(Part::Sum(0)),
            TreeKind::Least(_) => Ok(Part::Least(None)),
            TreeKind::Greatest(_) => Ok(Part::Greatest(None)),
            TreeKind::Hist(_) => Ok(Part::Hist(Seq::new(alloc))),
            TreeKind::First => Ok(Part::First(None)),
            TreeKind::Last => Ok(Part::Last(None)),
        }
    }

    fn leaf(&self, alloc: Global, r: &Record) -> Result<Part, Memory> {
        match *self {
            TreeKind::Count => Ok(Part::Count(1)),
            TreeKind::Sum(place) => Ok(Part::Sum(u64::from(word_at(place, r).unwrap_or(0)))),
            TreeKind::Least(place) => Ok(Part::Least(word_at(place, r))),
            TreeKind::Greatest(place) => Ok(Part::Greatest(word_at(place, r))),
            TreeKind::Hist(place) => Ok(Part::Hist(bin_of(alloc, word_at(place, r))?)),
            TreeKind::First => Ok(Part::First(Some(copy_of(alloc, r)?))),
            TreeKind::Last => Ok(Part::Last(Some(copy_of(alloc, r)?))),
        }
    }

    fn join(&self, alloc: Global, left: Part, right: Part) -> Result<Part, Memory> {
        join_parts(alloc, left, right)
    }

    ghost unit_fits = { no_part-fits };

    ghost leaf_fits = { part_of-fits };

    ghost join_fits = { join_parts-fits };

    ghost unit_left = { join_parts-left };

    ghost unit_right = { join_parts-right };

    ghost association = { join_parts-association };
}

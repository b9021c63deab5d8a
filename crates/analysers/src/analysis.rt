//! What an analysis gives of records.

ghost use Rattle.std.specs.Prelude.{◌≡◌, ◌++◌, map, OnOk, IfOk};
ghost use Rattle.analysers.specs.declared.row.Row.TheVariants as row;
ghost use Rattle.analysers.specs.Analyses.{part_rows, rows_by, analyse};

use crate::class::{Class, class_of};
use crate::folding::{fold_records, push_passing, push_stream};
use crate::kind::KindOf;
use crate::part::{Bin, Part};
use crate::row::Row;
use sl_base::{Memory, Seq};
use std::alloc::Global;
use tracer_lang::Record;

/// Adds the rows of a histogram.
fn push_bins(bins: Seq<Bin>, out: &mut Vec<Row>) -> Result<(), Memory>
    ensures { OnOk result (out.new.items
        ≡ out.old.items ++ map (λ bin. row.Bin bin.value bin.count) bins) }
{
    for bin in bins.into_vec() {
        out.push(Row::Bin {
            value: bin.value,
            count: bin.count,
        })?;
    }
    Ok(())
}

/// Adds the rows of a part.
pub fn push_part(part: Part, out: &mut Vec<Row>) -> Result<(), Memory>
    ensures { OnOk result (out.new.items ≡ out.old.items ++ part_rows part) }
{
    match part {
        Part::Count(n) | Part::Sum(n) => out.push(Row::Number(n))?,
        Part::Least(Some(word)) | Part::Greatest(Some(word)) => out.push(Row::Word(word))?,
        Part::Hist(bins) => push_bins(bins, out)?,
        Part::First(Some(r)) | Part::Last(Some(r)) => out.push(Row::Of(r))?,
        Part::Least(None) | Part::Greatest(None) | Part::First(None) | Part::Last(None) => {}
    }
    Ok(())
}

/// Adds the rows that a class of analysis gives of records.
fn push_rows(
    alloc: Global,
    class: &Class,
    records: &[Record],
    out: &mut Vec<Row>,
) -> Result<(), Memory>
    ensures { OnOk result (out.new.items ≡ out.old.items ++ rows_by class.now records.now) }
{
    match class {
        Class::Local(local) => push_passing(alloc, local, records, out),
        Class::Changes(changes) => push_stream(alloc, changes, records, out),
        Class::Rising(rising) => push_stream(alloc, rising, records, out),
        Class::Open(open) => push_stream(alloc, open, records, out),
        Class::Tree(tree) => push_part(fold_records(alloc, tree, records)?, out),
    }
}

/// The rows of an analysis over all records.
#[tactic(auto, unfolding(crate::specs::Analyses::analyse))]
pub fn analyse(alloc: Global, what: KindOf, records: &[Record]) -> Result<Seq<Row>, Memory>
    ensures { IfOk result (λ rows. rows ≡ analyse what records.now) }
{
    let mut out = Vec::new(alloc);
    push_rows(alloc, &class_of(what), records, &mut out)?;
    Ok(Seq::from_vec(out))
}

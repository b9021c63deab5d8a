//! Numbers past 64 bits, and the laws at their types. What each kind gives of records, and the words
//! that name kinds, stand on the page `ANALYSES.md` of the crate `transcripts`.

ghost use Rattle.std.specs.Prelude.{All, IfOk};
ghost use Rattle.analysers.specs.declared.trees.TreeKind.TheVariants.{Hist};
ghost use Rattle.analysers.specs.Parts.{Fits};

use analysers::{
    Bin, Changes, Open, Part, Rising, Row, Tree, TreeKind, folds_join, join_values, push_part,
    read_kind, streams_go_on, trees_mean,
};
use sl_base::{Memory, Seq};
use std::alloc::Global;
use std::fmt::Write;
use std::test::Fail;
use tracer_lang::{Record, TracerEnd};

/// The rows as a text: a record by its count, `n` with a number, `w` with a word, a word with its
/// number after a colon, and `-` for none.
fn spelled(alloc: Global, rows: &[Row]) -> Result<String, Memory> {
    let mut text = String::new(alloc);
    for row in rows {
        if !text.is_empty() {
            text.push(' ')?;
        }
        match row {
            Row::Of(r) => write!(text, "{}", r.count),
            Row::Number(n) => write!(text, "n{n}"),
            Row::Word(word) => write!(text, "w{word}"),
            Row::Bin { value, count } => write!(text, "{value}:{count}"),
        }
        .map_err(|_| Memory)?;
    }
    if rows.is_empty() {
        text.push('-')?;
    }
    Ok(text)
}

/// A record of these words at a count.
fn record(alloc: Global, count: u64, words: &[u32]) -> Result<Record, Memory> {
    Ok(Record {
        count,
        point: 0,
        pc: 0x10008,
        words: Seq::from_vec(Vec::from_slice(alloc, words)?),
        outcome: TracerEnd::Done,
    })
}

/// The rows of two parts of a kind together.
fn joined(alloc: Global, tree: TreeKind, left: Part, right: Part) -> Result<String, Memory>
    requires left { Fits tree left }
    requires right { Fits tree right }
{
    let mut rows = Vec::new(alloc);
    push_part(tree.join(alloc, left, right)?, &mut rows)?;
    spelled(alloc, &rows)
}

/// A histogram of one word.
fn bins(alloc: Global, count: u64) -> Result<Part, Memory>
    ensures { IfOk result (λ p. Fits (Hist 0) p) }
{
    Ok(Part::Hist(Seq::from_vec(vec![in alloc; Bin { value: 7, count }]?)))
}

#[test]
fn numbers_go_past_64_bits(rt: HostRuntime) -> Result<(), Fail> {
    let alloc = rt.alloc();
    let most = u64::MAX;
    let counts = joined(alloc, TreeKind::Count, Part::Count(most), Part::Count(3))?;
    assert_eq!(rt; counts.as_str(), "n2");
    let sums = joined(alloc, TreeKind::Sum(0), Part::Sum(most), Part::Sum(most))?;
    assert_eq!(rt; sums.as_str(), "n18446744073709551614");
    let one = joined(
        alloc,
        TreeKind::Hist(0),
        bins(alloc, most)?,
        bins(alloc, 1)?,
    )?;
    assert_eq!(rt; one.as_str(), "7:0");
    let both = joined(
        alloc,
        TreeKind::Hist(0),
        bins(alloc, most)?,
        bins(alloc, most)?,
    )?;
    assert_eq!(rt; both.as_str(), "7:18446744073709551614");
    Ok(())
}

/// The parts of records by themselves.
fn single_parts(alloc: Global, tree: &TreeKind, records: &[Record]) -> Result<Vec<Part>, Memory>
    ensures { IfOk result (λ parts. All (Fits tree.now) parts.items) }
{
    let mut parts = Vec::new(alloc);
    for r in records {
        parts.push(tree.leaf(alloc, r)?)?;
    }
    Ok(parts)
}

#[test]
fn values_of_lists_are_joined(rt: HostRuntime) -> Result<(), Fail> {
    let alloc = rt.alloc();
    let records = vec![in alloc; record(alloc, 10, &[5, 7])?, record(alloc, 17, &[9])?]?;
    let values = single_parts(alloc, &TreeKind::Last, &records)?;
    let mut rows = Vec::new(alloc);
    push_part(join_values(alloc, &TreeKind::Last, values)?, &mut rows)?;
    assert_eq!(rt; spelled(alloc, &rows)?.as_str(), "17");
    folds_join::<TreeKind>();
    streams_go_on::<Changes>();
    streams_go_on::<Rising>();
    streams_go_on::<Open>();
    trees_mean();
    Ok(())
}

/// The one word that names no kind and that no command line has.
#[test]
fn the_empty_word(rt: HostRuntime) -> Result<(), Fail> {
    assert!(rt; read_kind(rt.alloc(), "")?.is_none());
    Ok(())
}

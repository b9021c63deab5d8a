//! Merges that were worked by hand, from posts in several orders.

ghost use Rattle.std.specs.Prelude.{◌≡◌, List, [], ◌∷◌, All, length, IfOk};
ghost use Rattle.call_log.specs.declared.breaks.Break.{Break};
ghost use Rattle.tracer_lang.specs.declared.record.Record.{Record as Left};
ghost use Rattle.analysers.specs.Pieces.{parts_of};
ghost use Rattle.epoch_core.specs.declared.post.PostValue.{PostValue as Value};
ghost use Rattle.epoch_core.specs.declared.post.PostValue.TheVariants.{Ran, Broke, Skipped};
ghost use Rattle.epoch_core.specs.Posts.{Posted, HasParts, post_of};

use analysers::{Kind, Row, parts_of, read_kind};
use call_log::{Break, BreakKind};
use epoch_core::{Post, PostValue};
use ordered_merge::{merge, merged_means};
use sl_base::{Memory, Refused, Seq};
use std::alloc::Global;
use std::fmt::Write;
use std::test::Fail;
use tracer_lang::{Record, TracerEnd};

/// The record of a tracepoint that emits one word.
fn record(alloc: Global, count: u64, point: u32, word: u32) -> Result<Record, Memory> {
    Ok(Record {
        count,
        point,
        pc: 0x10010,
        words: Seq::from_vec(vec![in alloc; word]?),
        outcome: TracerEnd::Done,
    })
}

/// Three records, before the instructions 4, 5 and 6.
fn table(alloc: Global) -> Result<Vec<Record>, Memory> {
    vec![in alloc;
        record(alloc, 4, 0, 0x11000)?,
        record(alloc, 5, 2, 0x11000)?,
        record(alloc, 6, 1, 0x0102_0304)?,
    ]
    .map_err(|_| Memory)
}

/// The post of an epoch that ran from one count to another.
fn ran(alloc: Global, kinds: &[Kind], epoch: u32, from: u64, to: u64) -> Result<Post, Memory>
    ensures { IfOk result
        (λ post. (rs : List Left) × (post ≡ post_of epoch (Ran rs (parts_of kinds.now rs)))) }
{
    let mut records = Vec::new(alloc);
    for r in table(alloc)? {
        if from <= r.count && r.count < to {
            records.push(r)?;
        }
    }
    let parts = parts_of(alloc, kinds, &records)?;
    let records = Seq::from_vec(records);
    Ok(Post {
        epoch,
        value: PostValue::Ran { records, parts },
    })
}

/// The post of an epoch that broke.
fn broke(epoch: u32, first: Break) -> Post
    ensures { result ≡ post_of epoch (Broke first) }
{
    Post {
        epoch,
        value: PostValue::Broke(first),
    }
}

/// The post of an epoch that was skipped.
fn skipped(epoch: u32, below: u32) -> Post
    ensures { result ≡ post_of epoch (Skipped below) }
{
    Post {
        epoch,
        value: PostValue::Skipped { below },
    }
}

/// The kinds of some words with a space between two.
fn kinds_of(alloc: Global, words: &str) -> Result<Vec<Kind>, Memory> {
    let mut kinds = Vec::new(alloc);
    for word in words.split(' ') {
        if let Some(kind) = read_kind(alloc, word)? {
            kinds.push(kind)?;
        }
    }
    Ok(kinds)
}

/// Rows as the tables below say them: a record by its count, `n` with a number, a word, or a word
/// with its number behind a colon.
fn push_rows(text: &mut String, rows: &[Row]) -> Result<(), Memory> {
    for row in rows {
        match row {
            Row::Of(r) => write!(text, "{} ", r.count),
            Row::Number(n) => write!(text, "n{n} "),
            Row::Word(word) => write!(text, "{word} "),
            Row::Bin { value, count } => write!(text, "{value}:{count} "),
        }
        .map_err(|_| Memory)?;
    }
    Ok(())
}

/// The rows of each analysis over three epochs, each behind a bar, or the break.
fn told(
    alloc: Global,
    kinds: &[Kind],
    a: Post,
    b: Post,
    c: Post,
) -> Result<Result<String, Break>, Memory>
    requires { (values : List Value) × (length values ≡ 3) × Posted values (a ∷ b ∷ c ∷ [])
        × All (HasParts kinds.now) values }
{
    match merge(alloc, kinds, 3, vec![in alloc; a, b, c]?) {
        Ok(merged) => {
            let mut text = String::new(alloc);
            for rows in merged.rows.as_slice() {
                text.push('|')?;
                push_rows(&mut text, rows.as_slice())?;
            }
            Ok(Ok(text))
        }
        Err(Refused::Fault(first)) => Ok(Err(first)),
        Err(Refused::Memory) => Err(Memory),
    }
}

/// The posts in the order of the epochs.
fn rising(alloc: Global, kinds: &[Kind]) -> Result<Result<String, Break>, Memory> {
    let first = ran(alloc, kinds, 0, 0, 4)?;
    let second = ran(alloc, kinds, 1, 4, 5)?;
    let third = ran(alloc, kinds, 2, 5, 7)?;
    told(alloc, kinds, first, second, third)
}

/// The posts in falling order.
fn falling(alloc: Global, kinds: &[Kind]) -> Result<Result<String, Break>, Memory> {
    let first = ran(alloc, kinds, 0, 0, 5)?;
    let second = ran(alloc, kinds, 1, 5, 6)?;
    let third = ran(alloc, kinds, 2, 6, 7)?;
    told(alloc, kinds, third, second, first)
}

/// The posts in another order.
fn mixed(alloc: Global, kinds: &[Kind]) -> Result<Result<String, Break>, Memory> {
    let first = ran(alloc, kinds, 0, 0, 6)?;
    let second = ran(alloc, kinds, 1, 6, 6)?;
    let third = ran(alloc, kinds, 2, 6, 7)?;
    told(alloc, kinds, second, third, first)
}

/// The break of a checkpoint whose recorded x10 is 6 where the program has 5.
const FIRST: Break = Break {
    count: 2,
    kind: BreakKind::CheckpointDiffers {
        index: 1,
        part: 10,
        at: 0,
        recorded: 6,
        replayed: 5,
    },
};

/// A program that makes a call which was not recorded.
const SECOND: Break = Break {
    count: 7,
    kind: BreakKind::NoCall { index: 0 },
};

/// The second epoch broke, and the third was skipped.
fn third_skipped(alloc: Global, kinds: &[Kind]) -> Result<Result<String, Break>, Memory> {
    let first = ran(alloc, kinds, 0, 0, 5)?;
    told(alloc, kinds, skipped(2, 1), first, broke(1, FIRST))
}

/// The first epoch broke, and both others were skipped.
fn both_skipped(alloc: Global, kinds: &[Kind]) -> Result<Result<String, Break>, Memory> {
    told(alloc, kinds, broke(0, SECOND), skipped(2, 0), skipped(1, 0))
}

/// Two epochs broke.
fn two_broke(alloc: Global, kinds: &[Kind]) -> Result<Result<String, Break>, Memory> {
    let first = ran(alloc, kinds, 0, 0, 5)?;
    told(alloc, kinds, broke(2, SECOND), broke(1, FIRST), first)
}

/// Analyses, and what they give.
const WORDS: &str = "changes=0 first last open=0:1 all count hist=0 rising=0 done";

const GIVEN: &str = "|4 6 |4 |6 ||4 5 6 |n3 |69632:2 16909060:1 |4 6 |4 5 6 ";

#[test]
fn analyses_of_three_epochs(rt: HostRuntime) -> Result<(), Fail> {
    let alloc = rt.alloc();
    let kinds = kinds_of(alloc, WORDS)?;
    assert_eq!(rt; rising(alloc, &kinds)??.as_str(), GIVEN);
    assert_eq!(rt; falling(alloc, &kinds)??.as_str(), GIVEN);
    assert_eq!(rt; mixed(alloc, &kinds)??.as_str(), GIVEN);
    assert_eq!(rt; rising(alloc, &[])??.as_str(), "");
    merged_means();
    Ok(())
}

#[test]
fn least_break_is_told(rt: HostRuntime) -> Result<(), Fail> {
    let alloc = rt.alloc();
    let kinds = kinds_of(alloc, WORDS)?;
    assert_eq!(rt; third_skipped(alloc, &kinds)?.err(), Some(FIRST));
    assert_eq!(rt; both_skipped(alloc, &kinds)?.err(), Some(SECOND));
    assert_eq!(rt; two_broke(alloc, &kinds)?.err(), Some(FIRST));
    Ok(())
}

//! Schedules that were worked by hand: that calls succeed, and which worker has which post.

ghost use Rattle.std.specs.Prelude.{◌≡◌, ◌<◌, Some, length, slice_get, OnOk, IfOk};
ghost use Rattle.epoch_core.specs.Listed.{record_of, value_of};

use call_log::{Break, BreakKind};
use epoch_core::{CoreEvent, Post, PostValue, Runs, posts_are_whole, run_schedule};
use sl_base::{Memory, Seq};
use std::alloc::Global;
use std::test::Fail;
use tracer_lang::{Record, TracerEnd};

/// Runs of epochs that are listed: each breaks, or leaves no record or one that emits this word.
#[derive(Debug, Drop)]
struct ListedRuns {
    listed: Vec<Result<Option<u32>, Break>>,
}

/// The record of a tracepoint at 0x10008, before the third instruction.
fn record_of(alloc: Global, word: u32) -> Result<Record, Memory>
    ensures { IfOk result (λ made. made ≡ record_of word) }
{
    Ok(Record {
        count: 2,
        point: 0,
        pc: 0x10008,
        words: Seq::from_vec(vec![in alloc; word]?),
        outcome: TracerEnd::Done,
    })
}

/// What a listed epoch comes to.
fn value_of(alloc: Global, listed: Result<Option<u32>, Break>) -> Result<PostValue, Memory>
    ensures { IfOk result (λ value. value ≡ value_of listed) }
{
    match listed {
        Ok(None) => Ok(PostValue::Ran {
            records: Seq::new(alloc),
            parts: Seq::new(alloc),
        }),
        Ok(Some(word)) => Ok(PostValue::Ran {
            records: Seq::from_vec(vec![in alloc; record_of(alloc, word)?]?),
            parts: Seq::new(alloc),
        }),
        Err(first) => Ok(PostValue::Broke(first)),
    }
}

impl Runs for ListedRuns {
    ghost use Rattle.std.specs.Prelude.{map};
    ghost use Rattle.epoch_core.specs.Listed.{value_of, values_are_own};

    ghost values = { λ runs. map value_of runs.listed.items };

    ghost not_skipped = { λ runs. values_are_own runs.listed.items };

    fn run(&mut self, alloc: Global, epoch: u32) -> Result<Post, Memory> {
        let value = value_of(alloc, self.listed[epoch as usize])?;
        Ok(Post { epoch, value })
    }
}

/// The break of a checkpoint whose recorded x10 is 6 where the program has 5.
const FIRST: Break = Break {
    count: 2,
    kind: BreakKind::CheckpointDiffers {
        index: 1,
        part: 10,
        at: 0,
        recorded: 6,
        replayed: 5,
    },
};

/// What a post says of its epoch.
#[derive(Clone, Copy, Debug, PartialEq, Eq)]
enum Told {
    Nothing,
    Word(u32),
    Break(Break),
    Below(u32),
}

fn told_by(post: &Post) -> (u32, Told) {
    let told = match &post.value {
        PostValue::Ran { records, .. } => match records.as_slice().first() {
            Some(record) => Told::Word(record.words.as_slice().first().copied().unwrap_or(0)),
            None => Told::Nothing,
        },
        PostValue::Broke(first) => Told::Break(*first),
        PostValue::Skipped { below } => Told::Below(*below),
    };
    (post.epoch, told)
}

const BOTH_RUN: [Result<Option<u32>, Break>; 2] = [Ok(None), Ok(Some(5))];

const FIRST_BREAKS: [Result<Option<u32>, Break>; 2] = [Err(FIRST), Ok(Some(5))];

#[test]
fn posts_of_two_workers(rt: HostRuntime) -> Result<(), Fail> {
    let alloc = rt.alloc();
    let rows: [(_, &[CoreEvent], [&[(u32, Told)]; 2]); 4] = [
        (
            BOTH_RUN,
            &[
                CoreEvent::Claim(0),
                CoreEvent::Claim(1),
                CoreEvent::Finish(1),
                CoreEvent::Finish(0),
            ],
            [&[(0, Told::Nothing)], &[(1, Told::Word(5))]],
        ),
        (
            FIRST_BREAKS,
            &[
                CoreEvent::Claim(0),
                CoreEvent::Finish(0),
                CoreEvent::Claim(1),
                CoreEvent::Skip(1),
            ],
            [&[(0, Told::Break(FIRST))], &[(1, Told::Below(0))]],
        ),
        (
            FIRST_BREAKS,
            &[
                CoreEvent::Claim(0),
                CoreEvent::Claim(1),
                CoreEvent::Skip(1),
                CoreEvent::Finish(0),
                CoreEvent::Finish(1),
            ],
            [&[(0, Told::Break(FIRST))], &[(1, Told::Word(5))]],
        ),
        (
            BOTH_RUN,
            &[
                CoreEvent::Claim(2),
                CoreEvent::Claim(0),
                CoreEvent::Claim(0),
                CoreEvent::Finish(0),
                CoreEvent::Leave(1),
                CoreEvent::Claim(0),
                CoreEvent::Leave(1),
                CoreEvent::Finish(0),
            ],
            [&[(0, Told::Nothing), (1, Told::Word(5))], &[]],
        ),
    ];
    for (listed, events, want) in rows {
        let mut runs = ListedRuns {
            listed: Vec::from_slice(alloc, &listed)?,
        };
        let trays = run_schedule(alloc, &mut runs, 2, 2, events)?;
        assert_eq!(rt; trays.len(), 2);
        for (tray, want) in trays.as_slice().iter().zip(want) {
            let mut posts = Vec::new(alloc);
            for post in tray.as_slice() {
                posts.push(told_by(post))?;
            }
            assert_eq!(rt; posts.as_slice(), want, "{events:?}");
        }
    }
    posts_are_whole();
    Ok(())
}

/// What a worker has, worked out plainly.
#[derive(Drop)]
struct PlainSeat {
    held: Option<u32>,
    has_left: bool,
    tray: Vec<(u32, Told)>,
}

/// Two workers and two epochs, the first of which breaks, worked out plainly.
#[derive(Drop)]
struct PlainCore {
    next: u32,
    low: Option<u32>,
    first: PlainSeat,
    second: PlainSeat,
}

impl PlainCore {
    fn new(alloc: Global) -> PlainCore {
        PlainCore {
            next: 0,
            low: None,
            first: PlainSeat {
                held: None,
                has_left: false,
                tray: Vec::new(alloc),
            },
            second: PlainSeat {
                held: None,
                has_left: false,
                tray: Vec::new(alloc),
            },
        }
    }

    fn seat(&mut self, worker: u32) -> &mut PlainSeat {
        if worker == 0 {
            &mut self.first
        } else {
            &mut self.second
        }
    }

    /// An idle worker draws the next number, and holds it or leaves.
    fn draw(&mut self, worker: u32, leaves: bool) {
        let next = self.next;
        let seat = self.seat(worker);
        if seat.has_left || seat.held.is_some() || leaves == (next < 2) {
            return;
        }
        if leaves {
            seat.has_left = true;
        } else {
            seat.held = Some(next);
        }
        self.next = next.wrapping_add(1);
    }

    /// A worker posts the epoch that it holds.
    fn post(&mut self, worker: u32, told: Told) -> Result<(), Fail> {
        let seat = self.seat(worker);
        if let Some(epoch) = seat.held {
            seat.tray.push((epoch, told))?;
            seat.held = None;
        }
        Ok(())
    }

    fn finish(&mut self, worker: u32) -> Result<(), Fail> {
        match self.seat(worker).held {
            Some(0) => {
                self.low = Some(0);
                self.post(worker, Told::Break(FIRST))
            }
            _ => self.post(worker, Told::Word(5)),
        }
    }

    fn skip(&mut self, worker: u32) -> Result<(), Fail> {
        match (self.low, self.seat(worker).held) {
            (Some(0), Some(1)) => self.post(worker, Told::Below(0)),
            _ => Ok(()),
        }
    }
}

/// What a tray says of its epochs.
fn told_by_all(alloc: Global, tray: &[Post]) -> Result<Vec<(u32, Told)>, Fail> {
    let mut posts = Vec::new(alloc);
    for post in tray {
        posts.push(told_by(post))?;
    }
    Ok(posts)
}

/// Whether the trays of a list of events, which is told by its digits, are those that were worked
/// out plainly. The lowest bit of a digit is the worker.
fn trays_agree(alloc: Global, length: u32, digits: u32) -> Result<bool, Fail> {
    let mut plain = PlainCore::new(alloc);
    let mut events = Vec::new(alloc);
    let mut rest = digits;
    for _ in 0..length {
        let worker = rest % 2;
        match rest / 2 % 4 {
            0 => {
                plain.draw(worker, false);
                events.push(CoreEvent::Claim(worker))?;
            }
            1 => {
                plain.finish(worker)?;
                events.push(CoreEvent::Finish(worker))?;
            }
            2 => {
                plain.skip(worker)?;
                events.push(CoreEvent::Skip(worker))?;
            }
            _ => {
                plain.draw(worker, true);
                events.push(CoreEvent::Leave(worker))?;
            }
        }
        rest /= 8;
    }
    let mut runs = ListedRuns {
        listed: Vec::from_slice(alloc, &FIRST_BREAKS)?,
    };
    let trays = run_schedule(alloc, &mut runs, 2, 2, &events)?;
    let [first, second] = trays.as_slice() else {
        return Ok(false);
    };
    Ok(
        told_by_all(alloc, first.as_slice())?.as_slice() == plain.first.tray.as_slice()
            && told_by_all(alloc, second.as_slice())?.as_slice() == plain.second.tray.as_slice(),
    )
}

/// Every list of up to six events of two workers.
#[test]
fn every_short_schedule(rt: HostRuntime) -> Result<(), Fail> {
    let alloc = rt.alloc();
    for (length, count) in [
        (0, 1),
        (1, 8),
        (2, 64),
        (3, 512),
        (4, 4096),
        (5, 32_768),
        (6, 262_144u32),
    ] {
        for digits in 0..count {
            assert!(rt; trays_agree(alloc, length, digits)?, "{length} {digits}");
        }
    }
    Ok(())
}

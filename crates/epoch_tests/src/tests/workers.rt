//! Threads over epochs that are listed by hand: which posts come, and that the gate is told.

ghost use Rattle.std.specs.Prelude.{◌≡◌, ◌<◌, ◌≤◌, Some, length, slice_get, IfOk};
ghost use Rattle.epoch_core.specs.Listed.{record_of, value_of};

use call_log::{Break, BreakKind};
use epoch_board::Board;
use epoch_core::{Post, PostValue};
use epoch_worker::{Epochs, Worked, run_all, work};
use outside::{Gate, NoGate};
use sl_base::{Memory, Seq};
use std::alloc::Global;
use std::sync::atomic::{AtomicU64, Ordering};
use std::test::Fail;
use std::thread::Threads;
use tracer_lang::{Record, TracerEnd};

/// Epochs that are listed: each breaks, or leaves no record or one that emits this word. The gate
/// has to be told of an epoch before it is run.
#[derive(Drop)]
struct ListedEpochs<'a> {
    listed: Vec<Result<Option<u32>, Break>>,
    claims: &'a Claims,
    /// An epoch at which memory is wanting.
    wanting: Option<u32>,
}

/// The record of a tracepoint at 0x10008, before the third instruction.
fn record_of(alloc: Global, word: u32) -> Result<Record, Memory>
    ensures { IfOk result (λ made. made ≡ record_of word) }
{
    Ok(Record {
        count: 2,
        point: 0,
        pc: 0x10008,
        words: Seq::from_vec(vec![in alloc; word]?),
        outcome: TracerEnd::Done,
    })
}

/// What a listed epoch comes to.
fn value_of(alloc: Global, listed: Result<Option<u32>, Break>) -> Result<PostValue, Memory>
    ensures { IfOk result (λ value. value ≡ value_of listed) }
{
    match listed {
        Ok(None) => Ok(PostValue::Ran {
            records: Seq::new(alloc),
            parts: Seq::new(alloc),
        }),
        Ok(Some(word)) => Ok(PostValue::Ran {
            records: Seq::from_vec(vec![in alloc; record_of(alloc, word)?]?),
            parts: Seq::new(alloc),
        }),
        Err(first) => Ok(PostValue::Broke(first)),
    }
}

impl<'a> Epochs for ListedEpochs<'a> {
    type Worker = u64;

    ghost use Rattle.std.specs.Prelude.{map};
    ghost use Rattle.epoch_core.specs.Listed.{value_of, values_are_own};

    ghost values = { λ epochs. map value_of epochs.listed.items };

    ghost stands = { λ epochs worker. Unit {0} };

    ghost not_skipped = { λ epochs. values_are_own epochs.listed.items };

    fn start(&self, _alloc: Global) -> Result<u64, Memory> {
        Ok(0)
    }

    fn run(&self, alloc: Global, worker: &mut u64, epoch: u32) -> Result<Post, Memory> {
        *worker = worker.wrapping_add(1);
        if self.wanting == Some(epoch) || !self.claims.has(epoch) {
            return Err(Memory);
        }
        let value = value_of(alloc, self.listed[epoch as usize])?;
        Ok(Post { epoch, value })
    }
}

/// A gate that keeps which epochs below 64 it was told of, and how many claims.
#[derive(Drop)]
struct Claims {
    epochs: AtomicU64,
    count: AtomicU64,
}

impl Claims {
    fn new() -> Claims {
        Claims {
            epochs: AtomicU64::new(0),
            count: AtomicU64::new(0),
        }
    }

    fn has(&self, epoch: u32) -> bool {
        let epochs = self.epochs.load(Ordering::SeqCst);
        epochs.checked_shr(epoch).is_some_and(|rest| rest % 2 == 1)
    }
}

impl Gate for Claims {
    fn claimed(&self, _worker: u32, epoch: u32) {
        let bit = 1u64.checked_shl(epoch).unwrap_or(0);
        self.epochs.fetch_or(bit, Ordering::SeqCst);
        self.count.fetch_add(1, Ordering::SeqCst);
    }
}

/// The break of an epoch whose number it has as its count.
fn broken(epoch: u32) -> Break {
    Break {
        count: u64::from(epoch),
        kind: BreakKind::NoCall { index: 0 },
    }
}

/// So many epochs, of which these break. Each other one emits its number.
fn listed<'a>(
    alloc: Global,
    epochs: u32,
    breaks: &[u32],
    claims: &'a Claims,
    wanting: Option<u32>,
) -> Result<ListedEpochs<'a>, Memory>
    ensures { IfOk result (λ made. length made.listed.items ≡ epochs) }
{
    let mut listed = Vec::new(alloc);
    for epoch in 0..epochs {
        listed.push(if breaks.contains(&epoch) {
            Err(broken(epoch))
        } else {
            Ok(Some(epoch))
        })?;
    }
    Ok(ListedEpochs {
        listed,
        claims,
        wanting,
    })
}

/// What a post says, with its epoch's number as what it emits or breaks with.
#[derive(Clone, Copy, Debug, PartialEq, Eq)]
enum Told {
    Ran(u32),
    Broke(u64),
    Below(u32),
}

fn told_by(post: &Post) -> (u32, Told) {
    let told = match &post.value {
        PostValue::Ran { records, .. } => Told::Ran(match records.as_slice().first() {
            Some(record) => record.words.as_slice().first().copied().unwrap_or(u32::MAX),
            None => u32::MAX,
        }),
        PostValue::Broke(first) => Told::Broke(first.count),
        PostValue::Skipped { below } => Told::Below(*below),
    };
    (post.epoch, told)
}

/// Whether a post may come, where these epochs break.
fn may_come(post: &Post, breaks: &[u32]) -> bool {
    let (epoch, told) = told_by(post);
    match told {
        Told::Ran(word) => word == epoch && !breaks.contains(&epoch),
        Told::Broke(count) => count == u64::from(epoch) && breaks.contains(&epoch),
        Told::Below(below) => below < epoch && breaks.contains(&below),
    }
}

#[test]
fn each_epoch_is_posted_once(rt: HostRuntime) -> Result<(), Fail> {
    let alloc = rt.alloc();
    let rows: [(u32, u32, &[u32]); 10] = [
        (1, 7, &[]),
        (2, 7, &[]),
        (4, 64, &[]),
        (16, 64, &[]),
        (16, 3, &[]),
        (3, 0, &[]),
        (16, 64, &[0]),
        (16, 64, &[63]),
        (16, 64, &[5, 17, 40]),
        (2, 1, &[0]),
    ];
    for (workers, count, breaks) in rows {
        let claims = Claims::new();
        let epochs = listed(alloc, count, breaks, &claims, None)?;
        let posts = run_all(&rt, alloc, &epochs, count, workers, &claims)?;
        let mut times = vec![in alloc; 0u32; count as usize]?;
        for post in &posts {
            let at = post.epoch as usize;
            assert!(rt;
                at < times.len() && may_come(post, breaks),
                "{:?}",
                told_by(post)
            );
            times[at] = times[at].wrapping_add(1);
        }
        assert!(rt; times.iter().all(|times| *times == 1), "{workers} {count}");
        assert_eq!(rt; claims.count.load(Ordering::SeqCst), u64::from(count));
    }
    Ok(())
}

/// Where the fifth of seven epochs breaks, one worker posts the others before it, and skips those
/// behind it.
#[test]
fn epochs_behind_a_break_are_skipped(rt: HostRuntime) -> Result<(), Fail> {
    let alloc = rt.alloc();
    let claims = Claims::new();
    let epochs = listed(alloc, 7, &[4], &claims, None)?;
    let (board, seat) = Board::new(alloc, 7, 1)?;
    let Worked { seat, tray } = work(alloc, &epochs, &board, seat, 0, &claims)?;
    let mut posts = Vec::new(alloc);
    for post in &tray {
        posts.push(told_by(post))?;
    }
    let want = [
        (0, Told::Ran(0)),
        (1, Told::Ran(1)),
        (2, Told::Ran(2)),
        (3, Told::Ran(3)),
        (4, Told::Broke(4)),
        (5, Told::Below(4)),
        (6, Told::Below(4)),
    ];
    assert_eq!(rt; posts.as_slice(), want.as_slice());
    board.close(seat);
    Ok(())
}

/// A worker goes on with a seat that claimed an epoch before, and that no other was split from.
#[test]
fn seat_goes_on(rt: HostRuntime) -> Result<(), Fail> {
    let alloc = rt.alloc();
    let claims = Claims::new();
    let epochs = listed(alloc, 4, &[2], &claims, None)?;
    let (board, mut seat) = Board::new(alloc, 4, 2)?;
    let Some(first) = board.claim(&mut seat) else {
        return Err("no epoch".into());
    };
    let Worked { seat, tray } = work(alloc, &epochs, &board, seat, 0, &claims)?;
    let mut posts = Vec::new(alloc);
    for post in &tray {
        posts.push(told_by(post))?;
    }
    let want = [(1, Told::Ran(1)), (2, Told::Broke(2)), (3, Told::Below(2))];
    assert_eq!(rt; first, 0);
    assert_eq!(rt; posts.as_slice(), want.as_slice());
    board.close(seat);
    Ok(())
}

/// Want of memory in one worker is the answer of all.
#[test]
fn memory_is_wanting(rt: HostRuntime) -> Result<(), Fail> {
    let alloc = rt.alloc();
    for (workers, wanting) in [(1, 0), (1, 6), (4, 0), (4, 3), (16, 6)] {
        let claims = Claims::new();
        let epochs = listed(alloc, 7, &[], &claims, Some(wanting))?;
        let posts = run_all(&rt, alloc, &epochs, 7, workers, &claims);
        assert!(rt; posts.is_err(), "{workers} {wanting}");
    }
    Ok(())
}

//! Traces by many workers: one answer, whatever the numbers of workers and epochs are.

use super::recordings::recording;
use super::running::{store_of, tells, told_at};
use outside::{Gate, MemoryWorld, NoGate};
use std::alloc::Global;
use std::sync::atomic::{AtomicU64, Ordering};
use std::test::Fail;
use std::thread;
use std::thread::Threads;

/// The number and both outputs of a command over the file `a.rec`, as one text.
fn told<R: Threads + Sync, G: Gate>(
    rt: &R,
    alloc: Global,
    bytes: &[u8],
    words: &str,
    gate: &G,
) -> Result<Vec<u8>, Fail> {
    let mut store = store_of(alloc, "a.rec", bytes, &[])?;
    let mut world = MemoryWorld::new(Vec::new(alloc));
    told_at(rt, alloc, &mut store, &mut world, words, 4096, gate)
}

/// A program that stores a word at 0x11005, with a checkpoint behind each instruction. The lowest
/// byte of the word in the checkpoint behind the store is left open.
pub fn stores_once(alloc: Global, byte: u32) -> Result<Vec<u8>, Fail> {
    let recipe = format!(in alloc;
        "\
words 0 10000 1010 000112b7 00028293 01020337 30430313 0062a2a3 05d00893 73
zeros ff4
words 0 0 6
at 1 10004 0 5=11000 21=12000
at 2 10008 0 5=11000 21=12000
at 3 1000c 0 5=11000 6=1020000 21=12000
at 4 10010 0 5=11000 6=1020304 21=12000
at 5 10014 1 5=11000 6=1020304 21=12000
page 11 5 {byte} 3 2 1
at 6 10018 0 5=11000 6=1020304 11=5d 21=12000
words 0 0
at 7 1001c 0 5=11000 6=1020304 11=5d 21=12000
"
    )?;
    recording(alloc, recipe.as_str())
}

/// A program that counts in 64 turns: the instruction that loads how often it adds 3 to a0 in each
/// turn, and what a turn adds.
#[derive(Clone, Copy)]
struct Turns {
    load: &'static str,
    added: u32,
}

/// 16,384 times: 3,145,923 instructions.
const LONG: Turns = Turns {
    load: "000042b7",
    added: 49_152,
};

/// 64 times: 12,483 instructions.
const SHORT: Turns = Turns {
    load: "04000293",
    added: 192,
};

impl Turns {
    /// The count behind so many turns.
    fn count(&self, turns: u32) -> u32 {
        self.added
            .wrapping_add(3)
            .wrapping_mul(turns)
            .wrapping_add(1)
    }

    /// The value of a0 there.
    fn sum(&self, turns: u32) -> u32 {
        self.added.wrapping_mul(turns)
    }
}

/// The recording of such a program, with a checkpoint behind each turn but the last. In the
/// checkpoints of these numbers a0 is greater by one; number 64 is the end's.
fn recorded(alloc: Global, turns: Turns, lies: &[u32]) -> Result<Vec<u8>, Fail> {
    let load = turns.load;
    let mut recipe = format!(in alloc;
        "\
words 0 10000 24 04000313 {load} 00350513 fff28293 fe029ce3 fff30313 fe0316e3 05d00893 73
words 0 0 3f
"
    )?;
    for number in 1..65u32 {
        let sum = turns.sum(number);
        let told = sum.wrapping_add(u32::from(lies.contains(&number)));
        let line = if number < 64 {
            let count = turns.count(number);
            let left = 64u32.wrapping_sub(number);
            format!(in alloc; "at {count:x} 10004 0 6={left:x} a={told:x}\n")?
        } else {
            let count = turns.count(64).wrapping_add(2);
            format!(in alloc; "words 0 {sum:x}\nat {count:x} 10024 0 a={told:x} 11=5d\n")?
        };
        recipe.push_str(line.as_str())?;
    }
    recording(alloc, recipe.as_str())
}

/// The report of such a program with a0 recorded in each turn, once it was added to.
fn report(alloc: Global, turns: Turns) -> Result<String, Fail> {
    let mut text = String::from_str(alloc, "0 ")?;
    for number in 1..65u32 {
        let count = turns.count(number).wrapping_sub(2);
        let sum = turns.sum(number);
        let line = format!(in alloc; "1,all,{count},0,0x00010014,Done,{sum:#010x}\n")?;
        text.push_str(line.as_str())?;
    }
    let count = turns.count(64).wrapping_add(2);
    let sum = turns.sum(64);
    let end = format!(in alloc;
        "end,exited,{count},,0x00010024,,{sum:#010x}\nregs,x,,,,,x2=0x7fffffe0 x10={sum:#010x} x17=0x0000005d\n"
    )?;
    text.push_str(end.as_str())?;
    Ok(text)
}

#[test]
fn reports_are_the_same(rt: HostRuntime) -> Result<(), Fail> {
    let alloc = rt.alloc();
    let bytes = recorded(alloc, LONG, &[])?;
    let want = report(alloc, LONG)?;
    for workers in [1, 2, 3, 4, 16] {
        for epochs in [1, 7, 64] {
            let words = format!(in alloc;
                "trace a.rec at 10014 --workers {workers} --epochs {epochs}"
            )?;
            let text = told(&rt, alloc, &bytes, words.as_str(), &NoGate)?;
            assert!(rt; text.as_slice() == want.as_bytes(), "{words}");
        }
    }
    Ok(())
}

/// The first, the last and several epochs break, with sixteen workers.
#[test]
fn the_first_break_is_told(rt: HostRuntime) -> Result<(), Fail> {
    let alloc = rt.alloc();
    let rows: [(&[u32], &str); 4] = [
        (
            &[1],
            "9 sledge: checkpoint 1 differs at count 196, part 10, at 0x00000000: recorded 0x000000c1, replayed 0x000000c0\n",
        ),
        (
            &[64],
            "9 sledge: checkpoint 64 differs at count 12483, part 10, at 0x00000000: recorded 0x00003001, replayed 0x00003000\n",
        ),
        (
            &[5, 17, 40],
            "9 sledge: checkpoint 5 differs at count 976, part 10, at 0x00000000: recorded 0x000003c1, replayed 0x000003c0\n",
        ),
        (
            &[62, 63, 64],
            "9 sledge: checkpoint 62 differs at count 12091, part 10, at 0x00000000: recorded 0x00002e81, replayed 0x00002e80\n",
        ),
    ];
    for (lies, text) in rows {
        let bytes = recorded(alloc, SHORT, lies)?;
        for words in [
            "trace a.rec at 10014 --workers 16",
            "trace a.rec at 10014 --workers 16 --epochs 4096",
            "trace a.rec at 10014 --workers 16 --epochs 5",
        ] {
            assert!(rt; tells(&rt, alloc, &bytes, words, text)?, "{words} {lies:?}");
        }
    }
    Ok(())
}

/// A gate that holds each claim of one of two epochs until it was told of the other one too, for at
/// most so many turns.
#[derive(Drop)]
struct Meeting {
    epochs: AtomicU64,
    workers: AtomicU64,
    claims: AtomicU64,
    late: AtomicU64,
}

const TURNS_OF_WAITING: u32 = 100_000_000;

impl Meeting {
    fn new() -> Meeting {
        Meeting {
            epochs: AtomicU64::new(0),
            workers: AtomicU64::new(0),
            claims: AtomicU64::new(0),
            late: AtomicU64::new(0),
        }
    }
}

/// The bit of a number below 64.
fn bit(number: u32) -> u64 {
    1u64.checked_shl(number).unwrap_or(0)
}

impl Gate for Meeting {
    fn claimed(&self, worker: u32, epoch: u32) {
        self.claims.fetch_add(1, Ordering::SeqCst);
        self.workers.fetch_or(bit(worker), Ordering::SeqCst);
        self.epochs.fetch_or(bit(epoch), Ordering::SeqCst);
        for _ in 0..TURNS_OF_WAITING {
            if self.epochs.load(Ordering::SeqCst) == 3 {
                return;
            }
            thread::yield_now();
        }
        self.late.fetch_add(1, Ordering::SeqCst);
    }
}

/// Loads 5 into a0 and exits, with a checkpoint before the last instruction.
const EXITS_IN_TWO: &str = "\
words 0 10000 c 00500513 05d00893 73 0 0 1
at 2 10008 0 a=5 11=5d
words 0 5
at 3 1000c 0 a=5 11=5d
";

const EXITS_REPORT: &str = "0 \
1,all,2,0,0x00010008,Done,0x00000005
end,exited,3,,0x0001000c,,0x00000005
regs,x,,,,,x2=0x7fffffe0 x10=0x00000005 x17=0x0000005d
";

/// Two workers are in their epochs at the same time.
#[test]
fn two_epochs_meet(rt: HostRuntime) -> Result<(), Fail> {
    let alloc = rt.alloc();
    let bytes = recording(alloc, EXITS_IN_TWO)?;
    let gate = Meeting::new();
    let words = "trace a.rec at 10008 --epochs 2 --workers 2";
    let text = told(&rt, alloc, &bytes, words, &gate)?;
    assert_eq!(rt; text.as_slice(), EXITS_REPORT.as_bytes());
    assert_eq!(rt; gate.late.load(Ordering::SeqCst), 0);
    assert_eq!(rt; gate.claims.load(Ordering::SeqCst), 2);
    assert_eq!(rt; gate.workers.load(Ordering::SeqCst), 3);
    Ok(())
}

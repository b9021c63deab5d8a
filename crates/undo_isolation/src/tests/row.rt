//! A tracer that stores over one word three times, followed word by word, and in place.

ghost use Rattle.std.specs.Prelude.{◌≡◌, ◌<◌, length, IfOk};
ghost use Rattle.tracer_code.specs.Sound.{IsSound};
ghost use Rattle.undo_bank.specs.Areas.{IsMadeFrom};

use super::{machine, memory, script_of};
use crate::start::{copied_words, start_at};
use crate::{RecordRoom, run_in_place};
use page_frames::Frames;
use rv_machine::{Machine, Outcome, step};
use sl_base::{Blank, Brand, Ledger, Steps};
use sl_model::{Bus, MOST_ENTRIES, RunState};
use std::alloc::Global;
use std::test::Fail;
use tracer_code::outcomes::DONE;
use tracer_code::{TracerCode, standing_code_is_sound};
use tracer_compile::compile;
use tracer_lang::{Record, TracerEnd};
use undo_bank::{Bank, BankBus};

/// The tracer, which fires after the program's store.
const STORES: &str =
    "(at (addr 0x10014) (store4 0x11004 0xffffffff) (store1 0x11005 0) (store2 0x11004 \
                      0x1234) (emit (load4 0x11004)))";

/// Takes so many steps over a bank and a program's memory, or as many as are done.
fn steps_on<L: Ledger>(
    m: &mut Machine,
    bank: &mut Bank,
    frames: &mut Frames,
    most: u64,
    blank: Blank,
)
    requires name { blank.name ≡ L.name }
    requires parts { blank.parts ≡ L.parts }
    requires some_parts { 0 < blank.parts }
{
    let mut steps = Steps::<L>::new(blank);
    let mut bus = BankBus { bank, frames };
    for _ in 0..most {
        if m.status != RunState::Running || m.count >= 1_000_000_000 {
            return;
        }
        if step(m, &mut bus, &mut steps) != Outcome::Stepped {
            return;
        }
    }
}

/// The same, on a count of their own.
fn take_steps(m: &mut Machine, bank: &mut Bank, frames: &mut Frames, most: u64) {
    steps_on::<Brand>(m, bank, frames, most, Blank::new(1));
}

/// The code of the tracer.
fn stores_code(alloc: Global) -> Result<TracerCode, Fail>
    ensures { IfOk result IsSound }
{
    let Some(script) = script_of(alloc, STORES)? else {
        return Err(Fail::from("no script"));
    };
    standing_code_is_sound();
    Ok(compile(alloc, &script)?)
}

/// Where a run stands after some steps.
#[derive(Clone, Copy)]
struct Came {
    steps: u64,
    outcome: u32,
    output: Option<u32>,
    entries: u32,
    /// The word at 0x11004, and what it is once the log is put back.
    word: Option<u32>,
    restored: Option<u32>,
}

/// Where the run of the first tracer of some code stands after so many steps, or as many as it has.
fn came_to(alloc: Global, code: &TracerCode, most: u64) -> Result<Came, Fail> {
    let place = code.places.as_slice().first().copied().unwrap_or(0);
    if place > 0x00ff_ffff {
        return Err(Fail::from("no place"));
    }
    let mut m = machine();
    let mut f = memory(alloc)?;
    let mut bank = Bank::new(alloc, code.words.as_slice())?;
    bank.start(&copied_words(&m));
    start_at(&mut m, place);
    take_steps(&mut m, &mut bank, &mut f, most);
    let entries = bank.log_len();
    if entries > MOST_ENTRIES {
        return Err(Fail::from("more entries than the log has"));
    }
    let (output, word) = (bank.out_word(0), f.load(0x11004, 4));
    bank.undo_into(&mut f);
    Ok(Came {
        steps: m.count,
        outcome: m.x[10],
        output,
        entries,
        word,
        restored: f.load(0x11004, 4),
    })
}

#[test]
fn log_gives_the_word_back_at_every_step(rt: HostRuntime) -> Result<(), Fail> {
    let code = stores_code(rt.alloc())?;
    for most in 0..1000 {
        let came = came_to(rt.alloc(), &code, most)?;
        assert_eq!(rt; came.restored, Some(0x0203_0400));
        if came.steps < most {
            assert_eq!(rt; came.outcome, DONE);
            assert_eq!(rt; came.output, Some(0xffff_1234));
            assert_eq!(rt; came.word, Some(0xffff_1234));
            assert_eq!(rt; came.entries, 3);
            return Ok(());
        }
    }
    Err(Fail::from("no end"))
}

/// Runs the first tracer of some code in place.
fn run_first<L: Ledger>(
    m: &mut Machine,
    f: &mut Frames,
    bank: &mut Bank,
    code: &TracerCode,
    room: &mut RecordRoom,
    blank: Blank,
)
    requires name { blank.name ≡ L.name }
    requires parts { blank.parts ≡ L.parts }
    requires some_parts { 0 < blank.parts }
    requires sound { IsSound code.now }
    requires made { IsMadeFrom code.now.words bank.old }
    requires running { m.old.status ≡ RunState.Running }
    requires some { 0 < length code.now.places }
{
    let mut steps = Steps::<L>::new(blank);
    run_in_place(m, f, bank, code, 0, room, &mut steps);
}

/// What a tracer leaves in place.
#[derive(Drop)]
struct Left {
    record: Record,
    /// How many entries its log had.
    logged: u32,
    /// How many entries are left.
    entries: u32,
    /// The word at 0x11004.
    word: Option<u32>,
}

/// What the first tracer of some code leaves in place.
fn left_in_place(alloc: Global, code: &TracerCode) -> Result<Left, Fail>
    requires { IsSound code.now }
{
    if code.places.is_empty() {
        return Err(Fail::from("no place"));
    }
    let mut m = machine();
    let mut f = memory(alloc)?;
    let mut bank = Bank::new(alloc, code.words.as_slice())?;
    let mut room = RecordRoom::new(alloc)?;
    run_first::<Brand>(&mut m, &mut f, &mut bank, code, &mut room, Blank::new(1));
    Ok(Left {
        record: room.to_record(alloc)?,
        logged: bank.last_log_len(),
        entries: bank.log_len(),
        word: f.load(0x11004, 4),
    })
}

#[test]
fn stores_are_undone(rt: HostRuntime) -> Result<(), Fail> {
    let code = stores_code(rt.alloc())?;
    let left = left_in_place(rt.alloc(), &code)?;
    assert_eq!(rt; left.logged, 3);
    assert_eq!(rt; left.entries, 0);
    assert_eq!(rt; left.word, Some(0x0203_0400));
    assert_eq!(rt; left.record.outcome, TracerEnd::Done);
    assert_eq!(rt; left.record.words.as_slice(), [0xffff_1234].as_slice());
    Ok(())
}

//! One script, compiled and on a copy.

ghost use Rattle.std.specs.Prelude.{◌≡◌, ◌<◌, IfOk};

use page_frames::Frames;
use rv_machine::{Machine, Outcome, step};
use sl_base::{Blank, Brand, Ledger, Memory, Refused, Steps};
use sl_model::{Bus, CODE_START, Layout, MOST_ENTRIES, RunState};
use std::alloc::Global;
use tracer_code::{TracerCode, outcome_of};
use tracer_compile::compile;
use tracer_lang::{Record, Script, TracerEnd};
use tracer_mean::run_on_copy;
use tracer_read::read_script;
use undo_bank::{Bank, BankBus};

/// The pages that `machine` maps.
const PAGES: [u32; 3] = [0x11, 0x12, 0xBFFFE];

/// What a tracer left.
#[derive(Drop)]
pub struct Left {
    pub outcome: TracerEnd,
    pub words: Vec<u32>,
    /// How many stores it did, where that is known.
    pub stores: u32,
    /// Whether memory is as it was.
    pub restored: bool,
}

/// The script of a text.
pub fn script_of(alloc: Global, text: &str) -> Result<Option<Script>, Memory> {
    match read_script(alloc, text.as_bytes(), &[]) {
        Ok(script) => Ok(Some(script)),
        Err(Refused::Fault(_fault)) => Ok(None),
        Err(Refused::Memory) => Err(Memory),
    }
}

/// Three pages, the last of them the highest of a program.
fn mapped(alloc: Global) -> Result<Frames, Memory> {
    let mut frames = Frames::new(alloc)?;
    frames.map_page(0x11)?;
    frames.map_page(0x12)?;
    frames.map_page(0xBFFFE)?;
    Ok(frames)
}

/// Those pages with some words. The last page and the page at 0x12000 are dirty, in this order, and
/// the page at 0x11000 is not.
fn written(alloc: Global) -> Result<Frames, Memory> {
    let mut frames = mapped(alloc)?;
    frames.store(0x11004, 4, 0x8081_8283);
    frames.store(0x11ffc, 4, 0xf0f1_f2f3);
    frames.clear_dirty();
    frames.store(0xbfff_effc, 4, 0);
    frames.store(0x12000, 4, 0xa0a1_a2a3);
    Ok(frames)
}

/// A machine at 0x10014 over those pages.
pub fn machine(alloc: Global) -> Result<(Machine, Frames), Memory>
    ensures { IfOk result (λ made. made.0.status ≡ RunState.Running) }
{
    let mut x = [0; 32];
    x[5] = 0xffff_fff6;
    x[6] = 3;
    x[10] = 0x12345;
    x[31] = 31;
    let machine = Machine {
        pc: 0x10014,
        x,
        brk: 0x12000,
        brk_end: 0x13000,
        next_call: 0,
        status: RunState::Running,
        count: 5,
        layout: Layout {
            brk_start: 0x11000,
            heap_limit: 0x15000,
        },
    };
    Ok((machine, written(alloc)?))
}

/// What the first tracer of a script leaves on a copy; `None` where there is none.
pub fn left_on_copy(alloc: Global, text: &str) -> Result<Option<Record>, Memory> {
    let Some(script) = script_of(alloc, text)? else {
        return Ok(None);
    };
    if script.points() == 0 {
        return Ok(None);
    }
    let (m, f) = machine(alloc)?;
    Ok(Some(run_on_copy(alloc, m, f, &script, 0)?))
}

/// The words of a machine that a tracer reads.
fn copies_of(m: &Machine) -> [u32; 37] {
    let mut copies = [0; 37];
    for (i, value) in m.x.iter().enumerate() {
        copies[i] = *value;
    }
    copies[32] = m.pc;
    copies[33] = m.layout.brk_start;
    copies[34] = m.layout.heap_limit;
    copies[35] = m.brk;
    copies[36] = m.brk_end;
    copies
}

/// The machine at the first word of a tracer.
fn started(m: &Machine, place: u32) -> Machine {
    Machine {
        pc: CODE_START.wrapping_add(place.wrapping_mul(4)),
        x: [0; 32],
        brk: m.brk,
        brk_end: m.brk_end,
        next_call: m.next_call,
        status: RunState::Running,
        count: 0,
        layout: m.layout,
    }
}

/// Steps to the end of a run, which comes within so many instructions; false where it does not.
fn run_on<L: Ledger>(
    m: &mut Machine,
    bank: &mut Bank,
    frames: &mut Frames,
    most: u64,
    blank: Blank,
) -> bool
    requires name { blank.name ≡ L.name }
    requires parts { blank.parts ≡ L.parts }
    requires some_parts { 0 < blank.parts }
{
    let mut steps = Steps::<L>::new(blank);
    let mut memory = BankBus { bank, frames };
    for _ in 0..most {
        if m.status != RunState::Running || m.count >= 1_000_000_000 {
            return false;
        }
        if step(m, &mut memory, &mut steps) != Outcome::Stepped {
            return true;
        }
    }
    false
}

/// The same, on a count of its own.
fn run_to_end(m: &mut Machine, bank: &mut Bank, frames: &mut Frames, most: u64) -> bool {
    run_on::<Brand>(m, bank, frames, most, Blank::new(1))
}

/// Whether two memories hold the same in the pages that are mapped.
pub fn are_alike(a: &Frames, b: &Frames) -> bool {
    PAGES.iter().all(|page| match (a.page(*page), b.page(*page)) {
        (Some(a), Some(b)) => a == b,
        _ => false,
    })
}

/// The words that a bank has as its output.
fn output_of(alloc: Global, bank: &Bank) -> Result<Vec<u32>, Memory> {
    let mut words = Vec::new(alloc);
    for i in 0..bank.out_len() {
        if let Some(word) = bank.out_word(i) {
            words.push(word)?;
        }
    }
    Ok(words)
}

/// Undoes the stores of a bank's log; false where it has too many entries.
fn undo(bank: &mut Bank, frames: &mut Frames) -> bool {
    let fits = bank.log_len() <= MOST_ENTRIES;
    if fits {
        bank.undo_into(frames);
    }
    fits
}

/// What a tracer with its first word at a place leaves; `None` where its run does not end as it
/// should.
fn left_at(alloc: Global, code: &TracerCode, place: u32) -> Result<Option<Left>, Memory> {
    let (m, before) = machine(alloc)?;
    let mut frames = written(alloc)?;
    let mut bank = Bank::new(alloc, code.words.as_slice())?;
    bank.start(&copies_of(&m));
    let mut t = started(&m, place);
    if !run_to_end(&mut t, &mut bank, &mut frames, code.most) {
        return Ok(None);
    }
    let words = output_of(alloc, &bank)?;
    if !undo(&mut bank, &mut frames) {
        return Ok(None);
    }
    Ok(Some(Left {
        outcome: outcome_of(t.x[10], t.x[11]),
        words,
        stores: bank.last_log_len(),
        restored: are_alike(&before, &frames),
    }))
}

/// What the first tracer of a script leaves as compiled code; `None` where there is none, or where
/// its run does not end as it should.
pub fn left_by_code(alloc: Global, text: &str) -> Result<Option<Left>, Memory> {
    let Some(script) = script_of(alloc, text)? else {
        return Ok(None);
    };
    let code = compile(alloc, &script)?;
    match code.places.as_slice().first() {
        Some(place) => left_at(alloc, &code, *place),
        None => Ok(None),
    }
}

//! One script, compiled and run in place.

ghost use Rattle.std.specs.Prelude.{◌≡◌, ◌<◌, length};
ghost use Rattle.tracer_code.specs.Sound.{IsSound};
ghost use Rattle.undo_bank.specs.Areas.{IsMadeFrom};

use super::running::{are_alike, machine, script_of};
use page_frames::Frames;
use rv_machine::Machine;
use sl_base::{Blank, Brand, Ledger, Memory, Steps};
use sl_model::RunState;
use std::alloc::Global;
use tracer_code::{TracerCode, standing_code_is_sound};
use tracer_compile::compile;
use tracer_lang::Record;
use undo_bank::Bank;
use undo_isolation::{RecordRoom, run_in_place};

/// What a tracer that ran in place left.
#[derive(Drop)]
pub struct LeftInPlace {
    pub record: Record,
    /// How many stores it did.
    pub stores: u32,
    /// Whether the bank's log has no entry.
    pub emptied: bool,
    /// Whether the machine and its pages are as before.
    pub restored: bool,
    /// The dirty pages, in the order of marking.
    pub dirty: Vec<u32>,
}

/// Runs the first tracer of some code in place, and counts its instructions.
fn run_counted<L: Ledger>(
    m: &mut Machine,
    f: &mut Frames,
    bank: &mut Bank,
    code: &TracerCode,
    room: &mut RecordRoom,
    blank: Blank,
)
    requires name { blank.name ≡ L.name }
    requires parts { blank.parts ≡ L.parts }
    requires some_parts { 0 < blank.parts }
    requires sound { IsSound code.now }
    requires made { IsMadeFrom code.now.words bank.old }
    requires running { m.old.status ≡ RunState.Running }
    requires some { 0 < length code.now.places }
{
    let mut steps = Steps::<L>::new(blank);
    run_in_place(m, f, bank, code, 0, room, &mut steps);
}

/// Runs the first tracer of some code in place.
fn run_first(
    m: &mut Machine,
    f: &mut Frames,
    bank: &mut Bank,
    code: &TracerCode,
    room: &mut RecordRoom,
)
    requires sound { IsSound code.now }
    requires made { IsMadeFrom code.now.words bank.old }
    requires running { m.old.status ≡ RunState.Running }
    requires some { 0 < length code.now.places }
{
    run_counted::<Brand>(m, f, bank, code, room, Blank::new(1));
}

/// The dirty pages of a memory, in the order of marking.
fn dirty_pages(alloc: Global, f: &Frames) -> Result<Vec<u32>, Memory> {
    let mut pages = Vec::new(alloc);
    let mut at = None;
    for _ in 0..f.dirty_len() {
        at = f.next_dirty(at);
        if let Some(page) = at {
            pages.push(page)?;
        }
    }
    Ok(pages)
}

/// What the first tracer of some code leaves in place; `None` where there is none.
fn left_by(alloc: Global, code: &TracerCode) -> Result<Option<LeftInPlace>, Memory>
    requires { IsSound code.now }
{
    if code.places.is_empty() {
        return Ok(None);
    }
    let (before, unchanged) = machine(alloc)?;
    let (mut m, mut f) = machine(alloc)?;
    let mut bank = Bank::new(alloc, code.words.as_slice())?;
    let mut room = RecordRoom::new(alloc)?;
    run_first(&mut m, &mut f, &mut bank, code, &mut room);
    Ok(Some(LeftInPlace {
        record: room.to_record(alloc)?,
        stores: bank.last_log_len(),
        emptied: bank.log_len() == 0,
        restored: m == before && are_alike(&f, &unchanged),
        dirty: dirty_pages(alloc, &f)?,
    }))
}

/// What the first tracer of a script leaves in place; `None` where there is none.
pub fn left_in_place(alloc: Global, text: &str) -> Result<Option<LeftInPlace>, Memory> {
    let Some(script) = script_of(alloc, text)? else {
        return Ok(None);
    };
    let code = compile(alloc, &script)?;
    standing_code_is_sound();
    left_by(alloc, &code)
}

//! One instruction of a replay.

ghost use Rattle.std.specs.Prelude.{◌≡◌, ◌+◌, ◌<◌, ◌^◌, OnOk, true, slice_get};
ghost use Rattle.std.specs.Option.{option_copied};
ghost use Rattle.sl_model.specs.Marks.{MarksGoOn};
ghost use Rattle.sl_model.specs.State.{Fits};
ghost use Rattle.rv_machine.specs.Machine.{state_of};
ghost use Rattle.replay.specs.Calls.{ask_of};
ghost use Rattle.replay.specs.Run.{asked, onward};
ghost use Rattle.replay.specs.Advance.{HasCalls, CameOf, CountsOne};

use crate::answering::{apply, exit};
use crate::asking::ask;
use call_log::{BreakKind, CallEntry, first_difference};
use page_frames::Frames;
use rec_format::Recording;
use rv_machine::{Machine, Outcome, step};
use sl_base::{Refused, Steps};
use sl_model::RunState;
use std::alloc::Global;
use std::sync::ledger::Ledger;

/// A program that exits or traps before the recorded end.
fn early_end(rec: &Recording) -> BreakKind
    ensures { result ≡ BreakKind.EarlyEnd rec.now.last.count }
{
    BreakKind::EarlyEnd {
        end: rec.last.count,
    }
}

/// The recorded call with an index.
fn entry_at(rec: &Recording, index: u32) -> Option<&CallEntry>
    ensures { option_copied result ≡ slice_get rec.now.calls index }
{
    rec.calls.as_slice().get(index as usize)
}

/// Does the call at an ECALL: an exit by itself, and every other call with the next recorded
/// answer.
///
/// # Errors
///
/// The divergence of the call: nothing has changed then. Or want of memory, after which machine and
/// memory are given up.
#[cold]
#[inline(never)]
fn call(
    alloc: Global,
    rec: &Recording,
    m: &mut Machine,
    f: &mut Frames,
) -> Result<(), Refused<BreakKind>>
    requires calls { HasCalls rec.now }
    requires fits { Fits (state_of m.old f.old.pages) }
    requires count { m.old.count < 2 ^ 62 }
    ensures came { let s = state_of m.old f.old.pages in
        CameOf (asked rec.now s (ask_of s)) m.old f.old result m.new f.new }
    ensures count { OnOk result (m.new.count ≡ m.old.count + 1) }
    ensures marks { OnOk result
        (MarksGoOn true f.old.pages f.old.dirty f.new.pages f.new.dirty) }
{
    let Some(due) = ask(alloc, m, f)? else {
        exit(m);
        return Ok(());
    };
    let Some(entry) = entry_at(rec, m.next_call) else {
        return Err(Refused::Fault(BreakKind::NoCall { index: m.next_call }));
    };
    if let Some(diff) = first_difference(entry, &due) {
        return Err(Refused::Fault(BreakKind::CallDiffers {
            index: m.next_call,
            field: diff.field,
            recorded: diff.recorded,
            due: diff.due,
        }));
    }
    apply(entry, m, f)?;
    Ok(())
}

/// Does the next instruction of a program that runs.
#[inline(always)]
fn run_one<L: Ledger>(
    alloc: Global,
    rec: &Recording,
    m: &mut Machine,
    f: &mut Frames,
    steps: &mut Steps<L>,
) -> Result<(), Refused<BreakKind>>
    requires calls { HasCalls rec.now }
    requires fits { Fits (state_of m.old f.old.pages) }
    requires running { m.old.status ≡ RunState.Running }
    requires count { m.old.count < 2 ^ 62 }
    ensures onward { let next = onward rec.now (state_of m.old f.old.pages) in
        CameOf next m.old f.old result m.new f.new }
    ensures count { OnOk result (m.new.count ≡ m.old.count + 1) }
    ensures marks { OnOk result
        (MarksGoOn true f.old.pages f.old.dirty f.new.pages f.new.dirty) }
    ensures counted { CountsOne result steps.old steps.new }
{
    match step(m, f, steps) {
        Outcome::Stepped => Ok(()),
        Outcome::Trap(_) => Err(Refused::Fault(early_end(rec))),
        Outcome::Call => call(alloc, rec, m, f),
    }
}

/// Does the next instruction of a replay, below the recorded end.
///
/// # Errors
///
/// Why the replay diverges there: nothing has changed then, and no step was counted. Or want of
/// memory, after which machine and memory are given up.
#[inline(always)]
pub fn advance_one<L: Ledger>(
    alloc: Global,
    rec: &Recording,
    m: &mut Machine,
    f: &mut Frames,
    steps: &mut Steps<L>,
) -> Result<(), Refused<BreakKind>>
    requires calls { HasCalls rec.now }
    requires fits { Fits (state_of m.old f.old.pages) }
    requires count { m.old.count < 2 ^ 62 }
    ensures onward { let next = onward rec.now (state_of m.old f.old.pages) in
        CameOf next m.old f.old result m.new f.new }
    ensures fits { OnOk result (Fits (state_of m.new f.new.pages)) }
    ensures count { OnOk result (m.new.count ≡ m.old.count + 1) }
    ensures marks { OnOk result
        (MarksGoOn true f.old.pages f.old.dirty f.new.pages f.new.dirty) }
    ensures counted { CountsOne result steps.old steps.new }
{
    match m.status {
        RunState::Exited(_) => Err(Refused::Fault(early_end(rec))),
        RunState::Running => run_one(alloc, rec, m, f, steps),
    }
}

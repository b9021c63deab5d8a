//! One interval of a recorded run, from a checkpoint to the next one.

ghost use Rattle.std.specs.Prelude.{◌≡◌, ◌+◌, ◌-◌, ◌<◌, ◌≤◌, ◌^◌, ◌++◌, OnOk, true};
ghost use Rattle.sl_model.specs.State.{State, Fits};
ghost use Rattle.sl_model.specs.Marks.{MarksGoOn};
ghost use Rattle.rec_format.specs.Recorded.{end_place, recorded_state};
ghost use Rattle.checkpoints.specs.RecordedRun.{opened_of};
ghost use Rattle.epoch_run.specs.Epochs.{epoch_size, epoch_break, epoch_records};
ghost use Rattle.epoch_run.specs.LastLogs.{IsLoggedIn};
ghost use Rattle.epoch_run.specs.Segments.{stopped_at, CameTo, TellsBreak};
ghost use Rattle.epoch_run.specs.Plans.{tracers_of, state_in, CanTrace};

use crate::comparing::break_at_checkpoint;
use crate::firing::{fire, fire_at_checkpoint};
use crate::places::recorded_count;
use crate::plan::Plan;
use crate::worker::Worker;
use call_log::{Break, BreakKind};
use replay::advance_one;
use sl_base::{Refused, Steps};
use std::alloc::Global;
use std::sync::ledger::Ledger;
use tracepoints::Fired;
use tracer_lang::Record;

/// Why an instruction was not done, with the count at which it stands.
fn stopped_at(count: u64, stop: Refused<BreakKind>) -> Refused<Break>
    ensures { result ≡ stopped_at count stop }
{
    match stop {
        Refused::Fault(kind) => Refused::Fault(Break { count, kind }),
        Refused::Memory => Refused::Memory,
    }
}

/// Replays up to a count, and records what the tracers leave before each instruction.
///
/// # Errors
///
/// The break of the instruction that does not go on, or want of memory.
#[inline(never)]
fn run_to<L: Ledger>(
    alloc: Global,
    plan: &Plan,
    upto: u64,
    worker: &mut Worker,
    records: &mut Vec<Record>,
    steps: &mut Steps<L>,
) -> Result<(), Refused<Break>>
    requires from { worker.old.m.count ≤ upto }
    requires few { upto ≤ 2 ^ 40 }
    requires fits { Fits (state_in worker.old) }
    requires bank { CanTrace plan.now worker.old }
    ensures came { let rec = plan.now.checkpoints.rec in
        let left = upto - worker.old.m.count in
        CameTo rec (tracers_of plan.now) (state_in worker.old) left (state_in worker.new)
        records.old.items records.new.items result }
    ensures count { OnOk result (worker.new.m.count ≡ upto) }
    ensures marks { OnOk result (MarksGoOn true worker.old.f.pages worker.old.f.dirty
        worker.new.f.pages worker.new.f.dirty) }
    ensures steps { steps.new + worker.old.m.count ≤ steps.old + upto }
    ensures bank { CanTrace plan.now worker.new }
    ensures last { (first : State) → IsLoggedIn plan.now first worker.old records.old.items
        → OnOk result (IsLoggedIn plan.now first worker.new records.new.items) }
{
    let mut fired = Fired::new();
    for done in worker.m.count..upto {
        fire(alloc, plan, worker, &mut fired, records)?;
        let rec = &plan.checkpoints.rec;
        if let Err(stop) = advance_one(alloc, rec, &mut worker.m, &mut worker.f, steps) {
            return Err(stopped_at(done, stop));
        }
    }
    Ok(())
}

/// Replays the interval from checkpoint `j` to the next one, from the state that `j` records. A
/// page that is not dirty at its end holds what `j` records, so a comparison looks at the dirty
/// ones and those that the next checkpoint lists; then no page is dirty.
///
/// # Errors
///
/// Its break, or want of memory. The worker's machine and memory are then given up.
pub fn run_segment<L: Ledger>(
    alloc: Global,
    plan: &Plan,
    j: u32,
    worker: &mut Worker,
    records: &mut Vec<Record>,
    steps: &mut Steps<L>,
) -> Result<(), Refused<Break>>
    requires within { j < end_place plan.now.checkpoints.rec }
    requires at { let opened = opened_of plan.now.checkpoints in
        state_in worker.old ≡ recorded_state plan.now.checkpoints.rec opened j }
    requires bank { CanTrace plan.now worker.old }
    ensures first { let opened = opened_of plan.now.checkpoints in
        TellsBreak result (epoch_break plan.now.checkpoints.rec opened j (j + 1)) }
    ensures records { let rec = plan.now.checkpoints.rec in
        let opened = opened_of plan.now.checkpoints in
        let left = epoch_records rec opened (tracers_of plan.now) j (j + 1) in
        OnOk result (records.new.items ≡ records.old.items ++ left) }
    ensures state { let rec = plan.now.checkpoints.rec in
        let next = recorded_state rec (opened_of plan.now.checkpoints) (j + 1) in
        OnOk result (j + 1 < end_place rec → state_in worker.new ≡ next) }
    ensures steps { steps.new ≤ steps.old + epoch_size plan.now.checkpoints.rec j (j + 1) }
    ensures bank { CanTrace plan.now worker.new }
    ensures last { (first : State) → IsLoggedIn plan.now first worker.old records.old.items
        → OnOk result (IsLoggedIn plan.now first worker.new records.new.items) }
{
    let next = j + 1;
    let upto = recorded_count(plan, next);
    run_to(alloc, plan, upto, worker, records, steps)?;
    let _kept = worker.f.dirty_len();
    if let Some(broken) = break_at_checkpoint(plan, next, worker) {
        return Err(Refused::Fault(broken));
    }
    fire_at_checkpoint(alloc, plan, next, worker, records)?;
    worker.f.clear_dirty();
    Ok(())
}

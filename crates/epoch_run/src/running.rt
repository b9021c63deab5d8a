//! One epoch of a recorded run.

ghost use Rattle.std.specs.Prelude.{◌≡◌, ◌+◌, ◌<◌, ◌≤◌, IfOk, OnOk};
ghost use Rattle.sl_base.specs.Refusals.{Tells};
ghost use Rattle.rec_format.specs.Recorded.{end_place, recorded_state};
ghost use Rattle.checkpoints.specs.RecordedRun.{opened_of};
ghost use Rattle.epoch_run.specs.LastLogs.{TellsLastIn, recorded_in};
ghost use Rattle.epoch_run.specs.Epochs.{epoch_size, epoch_value};
ghost use Rattle.epoch_run.specs.Plans.{tracers_of, state_in, CanTrace};
ghost use Rattle.epoch_run.specs.Standings.{StandsIn, place_before_end};

use crate::plan::Plan;
use crate::segment::run_segment;
use crate::worker::Worker;
use call_log::Break;
use sl_base::{Memory, Refused, Seq, Steps};
use std::alloc::Global;
use std::sync::ledger::Ledger;
use tracer_lang::Record;

/// Replays the epoch from checkpoint `a`, in whose recorded state the worker is, to checkpoint `b`,
/// and gives the records that are left on it. The worker is then in the state that `b` records,
/// unless that is the end. The steps that are counted are instructions of the program.
///
/// # Errors
///
/// The epoch's first break, or want of memory.
pub fn run_on<L: Ledger>(
    alloc: Global,
    plan: &Plan,
    a: u32,
    b: u32,
    worker: &mut Worker,
    steps: &mut Steps<L>,
) -> Result<Seq<Record>, Refused<Break>>
    requires below { a < b }
    requires within { b ≤ end_place plan.now.checkpoints.rec }
    requires at { let opened = opened_of plan.now.checkpoints in
        state_in worker.old ≡ recorded_state plan.now.checkpoints.rec opened a }
    requires bank { CanTrace plan.now worker.old }
    ensures value { let opened = opened_of plan.now.checkpoints in
        Tells result (epoch_value plan.now.checkpoints.rec opened (tracers_of plan.now) a b) }
    ensures steps { steps.new ≤ steps.old + epoch_size plan.now.checkpoints.rec a b }
    ensures bank { CanTrace plan.now worker.new }
    ensures last { IfOk result (λ records.
        TellsLastIn plan.now (state_in worker.old) records worker.new.bank.last_log_len) }
    ensures state { let rec = plan.now.checkpoints.rec in
        let next = recorded_state rec (opened_of plan.now.checkpoints) b in
        OnOk result (b < end_place rec → state_in worker.new ≡ next) }
{
    let mut records = Vec::new(alloc);
    for j in a..b {
        run_segment(alloc, plan, j, worker, &mut records, steps)?;
    }
    Ok(Seq::from_vec(records))
}

/// Makes the recorded state of checkpoint `a`, where the worker is not in it already.
fn stand_at(plan: &Plan, a: u32, worker: &mut Worker) -> Result<(), Memory>
    requires within { a ≤ end_place plan.now.checkpoints.rec }
    requires stands { StandsIn plan.now worker.old }
    ensures state { let opened = opened_of plan.now.checkpoints in
        let recorded = recorded_state plan.now.checkpoints.rec opened a in
        OnOk result (state_in worker.new ≡ recorded) }
    ensures stands { StandsIn plan.now worker.new }
{
    if worker.at == Some(a) {
        return Ok(());
    }
    worker.at = None;
    plan.checkpoints.state_at(a, &mut worker.m, &mut worker.f)?;
    worker.at = Some(a);
    Ok(())
}

/// A checkpoint, where it is not that of the end.
fn place_before_end(plan: &Plan, b: u32) -> Option<u32>
    ensures { result ≡ place_before_end plan.now b }
{
    if b < plan.checkpoints.segments() {
        Some(b)
    } else {
        None
    }
}

/// Replays the epoch from checkpoint `a` to checkpoint `b`, from the state that `a` records, also
/// where no run ever had that state, and gives the records that are left on it. What the worker ran
/// before does not matter: the state of `a` is made, unless the worker is in it already. The steps
/// that are counted are instructions of the program.
///
/// # Errors
///
/// The epoch's first break, or want of memory.
pub fn run_between<L: Ledger>(
    alloc: Global,
    plan: &Plan,
    a: u32,
    b: u32,
    worker: &mut Worker,
    steps: &mut Steps<L>,
) -> Result<Seq<Record>, Refused<Break>>
    requires below { a < b }
    requires within { b ≤ end_place plan.now.checkpoints.rec }
    requires stands { StandsIn plan.now worker.old }
    ensures value { let opened = opened_of plan.now.checkpoints in
        Tells result (epoch_value plan.now.checkpoints.rec opened (tracers_of plan.now) a b) }
    ensures steps { steps.new ≤ steps.old + epoch_size plan.now.checkpoints.rec a b }
    ensures stands { StandsIn plan.now worker.new }
    ensures last { IfOk result (λ records.
        TellsLastIn plan.now (recorded_in plan.now a) records worker.new.bank.last_log_len) }
{
    stand_at(plan, a, worker)?;
    match run_on(alloc, plan, a, b, worker, steps) {
        Ok(records) => {
            worker.at = place_before_end(plan, b);
            Ok(records)
        }
        Err(stop) => {
            worker.at = None;
            Err(stop)
        }
    }
}

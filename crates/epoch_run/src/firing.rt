//! What the tracers of a plan leave at a place of a run.

ghost use Rattle.std.specs.Prelude.{◌≡◌, ◌<◌, ◌++◌, length, OnOk};
ghost use Rattle.sl_model.specs.declared.run_state.RunState.{RunState};
ghost use Rattle.tracer_lang.specs.Firing.{firing};
ghost use Rattle.tracer_lang.specs.Meaning.{record_of};
ghost use Rattle.tracer_lang.specs.Script.{tree_of};
ghost use Rattle.rec_format.specs.Recorded.{end_place};
ghost use Rattle.epoch_run.specs.Records.{at_end};
ghost use Rattle.epoch_run.specs.Epochs.{closing_records};
ghost use Rattle.epoch_run.specs.Firings.{RunsAtEnd};
ghost use Rattle.epoch_run.specs.LastLogs.{stores_of, FiredIn};
ghost use Rattle.epoch_run.specs.Plans.{tracers_of, state_in, CanTrace, OnlyTraced};

use crate::plan::Plan;
use crate::worker::Worker;
use call_log::End;
use sl_base::{Blank, Brand, Ledger, Memory, Steps};
use sl_model::RunState;
use std::alloc::Global;
use tracepoints::Fired;
use tracer_code::standing_code_is_sound;
use tracer_lang::Record;
use undo_isolation::run_in_place;

/// Runs the tracer of a tracepoint in place, at the worker's machine, which runs. The worker's room
/// has its record afterwards. Its steps are counted on a ledger of their own.
fn run_tracer<L: Ledger>(plan: &Plan, worker: &mut Worker, point: u32, blank: Blank)
    requires running { worker.old.m.status ≡ RunState.Running }
    requires point { point < length plan.now.tracers.script.tracepoints }
    requires bank { CanTrace plan.now worker.old }
    requires name { blank.name ≡ L.name }
    requires parts { blank.parts ≡ L.parts }
    requires some_parts { 0 < blank.parts }
    ensures record { worker.new.room
        ≡ record_of (tree_of plan.now.tracers.script) point (state_in worker.old) }
    ensures stores { worker.new.bank.last_log_len
        ≡ stores_of (tree_of plan.now.tracers.script) point (state_in worker.old) }
    ensures only { OnlyTraced plan.now worker.old worker.new }
{
    standing_code_is_sound();
    let mut steps = Steps::<L>::new(blank);
    let Worker {
        m,
        f,
        bank,
        room,
        ..
    } = worker;
    run_in_place(m, f, bank, plan.tracers.code(), point, room, &mut steps);
}

/// Runs the tracers of these tracepoints, in this order, each in place, and records what they
/// leave. They fire at few instructions, so this stays out of the loop that runs them.
#[cold]
#[inline(never)]
fn run_fired(
    alloc: Global,
    plan: &Plan,
    worker: &mut Worker,
    fired: &Fired,
    records: &mut Vec<Record>,
) -> Result<(), Memory>
    requires fired { fired.now ≡ firing plan.now.points (state_in worker.old) }
    requires running { worker.old.m.status ≡ RunState.Running }
    requires bank { CanTrace plan.now worker.old }
    ensures records { let left = tracers_of plan.now (state_in worker.old) in
        OnOk result (records.new.items ≡ records.old.items ++ left) }
    ensures last { OnOk result
        (FiredIn plan.now worker.old worker.new records.old.items records.new.items) }
    ensures only { OnlyTraced plan.now worker.old worker.new }
{
    for point in fired.as_slice() {
        run_tracer::<Brand>(plan, worker, *point, Blank::new(1));
        records.push(worker.room.to_record(alloc)?)?;
    }
    Ok(())
}

/// Records what the tracers of a plan leave at a machine that runs, in the order of the script.
/// Which of them fire is kept in `fired`.
#[inline(always)]
pub fn fire(
    alloc: Global,
    plan: &Plan,
    worker: &mut Worker,
    fired: &mut Fired,
    records: &mut Vec<Record>,
) -> Result<(), Memory>
    requires { CanTrace plan.now worker.old }
    ensures records { let left = tracers_of plan.now (state_in worker.old) in
        worker.old.m.status ≡ RunState.Running
        → OnOk result (records.new.items ≡ records.old.items ++ left) }
    ensures last { OnOk result
        (FiredIn plan.now worker.old worker.new records.old.items records.new.items) }
    ensures only { OnlyTraced plan.now worker.old worker.new }
{
    plan.points.fires(&worker.m, &worker.f, fired);
    if fired.is_empty() || worker.m.status != RunState::Running {
        return Ok(());
    }
    run_fired(alloc, plan, worker, fired, records)
}

/// Records what the tracers leave at the recorded end, where they fire only before an instruction
/// that traps.
fn fire_at_end(
    alloc: Global,
    plan: &Plan,
    worker: &mut Worker,
    records: &mut Vec<Record>,
) -> Result<(), Memory>
    requires running { RunsAtEnd plan.now.checkpoints.rec.end worker.old.m.status }
    requires bank { CanTrace plan.now worker.old }
    ensures records { let end = plan.now.checkpoints.rec.end in
        let left = at_end (tracers_of plan.now) end (state_in worker.old) in
        OnOk result (records.new.items ≡ records.old.items ++ left) }
    ensures last { OnOk result
        (FiredIn plan.now worker.old worker.new records.old.items records.new.items) }
    ensures only { OnlyTraced plan.now worker.old worker.new }
{
    match plan.checkpoints.rec.end {
        End::Trapped(_) => {
            let mut fired = Fired::new();
            fire(alloc, plan, worker, &mut fired, records)
        }
        End::Exited(_) | End::Stopped => Ok(()),
    }
}

/// Records what the tracers leave at checkpoint `k` in the epoch that ends there: nothing but at
/// the recorded end.
pub fn fire_at_checkpoint(
    alloc: Global,
    plan: &Plan,
    k: u32,
    worker: &mut Worker,
    records: &mut Vec<Record>,
) -> Result<(), Memory>
    requires running { k ≡ end_place plan.now.checkpoints.rec
        → RunsAtEnd plan.now.checkpoints.rec.end worker.old.m.status }
    requires bank { CanTrace plan.now worker.old }
    ensures records { let rec = plan.now.checkpoints.rec in
        let left = closing_records rec (tracers_of plan.now) k (state_in worker.old) in
        OnOk result (records.new.items ≡ records.old.items ++ left) }
    ensures last { OnOk result
        (FiredIn plan.now worker.old worker.new records.old.items records.new.items) }
    ensures only { OnlyTraced plan.now worker.old worker.new }
{
    if k == plan.checkpoints.segments() {
        return fire_at_end(alloc, plan, worker, records);
    }
    Ok(())
}

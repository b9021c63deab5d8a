//! What is tried at the checkpoint that an epoch ends at.

ghost use Rattle.std.specs.Prelude.{◌≡◌, ◌-◌, ◌<◌, ◌≤◌};
ghost use Rattle.std.specs.Option.{option_or};
ghost use Rattle.rec_format.specs.Recorded.{end_place, checkpoint_at};
ghost use Rattle.rec_format.specs.Compared.{checkpoint_break};
ghost use Rattle.replay.specs.Breaks.{at_count};
ghost use Rattle.checkpoints.specs.RecordedRun.{opened_of};
ghost use Rattle.checkpoints.specs.Marked.{HoldsRecorded};
ghost use Rattle.epoch_run.specs.Epochs.{early_exit, closing_break};
ghost use Rattle.epoch_run.specs.Plans.{state_in};

use crate::plan::Plan;
use crate::worker::Worker;
use call_log::{Break, BreakKind};
use rec_format::Recording;
use replay::end_break;
use rv_machine::Machine;
use sl_model::RunState;

/// The divergence of a program that has exited before the recorded end.
fn early_exit(rec: &Recording, m: &Machine) -> Option<BreakKind>
    ensures { result ≡ early_exit rec.now m.now.status }
{
    match m.status {
        RunState::Running => None,
        RunState::Exited(_) => Some(BreakKind::EarlyEnd {
            end: rec.last.count,
        }),
    }
}

/// The divergence at checkpoint `k` of a state that does not differ from it.
fn closing_break(plan: &Plan, k: u32, worker: &Worker) -> Option<BreakKind>
    ensures { result ≡ closing_break plan.now.checkpoints.rec k (state_in worker.now) }
{
    let rec = &plan.checkpoints.rec;
    if k == plan.checkpoints.segments() {
        return end_break(rec, &worker.m, &worker.f);
    }
    early_exit(rec, &worker.m)
}

/// The break at checkpoint `k` in the epoch that ends there.
pub fn break_at_checkpoint(plan: &Plan, k: u32, worker: &Worker) -> Option<Break>
    requires some { 0 < k }
    requires within { k ≤ end_place plan.now.checkpoints.rec }
    requires holds { let opened = opened_of plan.now.checkpoints in
        HoldsRecorded opened.pages plan.now.checkpoints.rec (k - 1) worker.now.f }
    ensures { let rec = plan.now.checkpoints.rec in
        let opened = opened_of plan.now.checkpoints in
        let s = state_in worker.now in
        let compared = checkpoint_break opened.pages rec k (checkpoint_at rec k) s in
        result ≡ at_count s (option_or compared (closing_break rec k s)) }
{
    let count = worker.m.count;
    if let Some(kind) = plan.checkpoints.differs(k, &worker.m, &worker.f) {
        return Some(Break { count, kind });
    }
    let kind = closing_break(plan, k, worker)?;
    Some(Break { count, kind })
}

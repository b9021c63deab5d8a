//! The epochs of a plan.

ghost use Rattle.std.specs.Prelude.{◌≡◌, ◌+◌, ◌<◌, ◌≤◌, List, Result, IfOk};
ghost use Rattle.sl_base.specs.Refusals.{Tells};
ghost use Rattle.call_log.specs.declared.breaks.Break.{Break as FirstBreak};
ghost use Rattle.tracer_lang.specs.declared.record.Record.{Record as Left};
ghost use Rattle.epoch_run.specs.EpochLaws.{epochs_of};
ghost use Rattle.epoch_run.specs.LastLogs.{LogAfter};
ghost use Rattle.epoch_run.specs.Plans.{posted, value_in, size_in};
ghost use Rattle.epoch_run.specs.Standings.{StandsIn, StandsIn-prop};

use crate::plan::Plan;
use crate::running::run_between;
use crate::worker::Worker;
use analysers::{Kind, parts_of};
use call_log::Break;
use epoch_core::{Post, PostValue, Runs};
use sl_base::{Memory, Refused, Seq, Steps};
use std::alloc::Global;
use std::sync::ledger::Ledger;
use tracer_lang::Record;

/// What is posted of what an epoch came to: its records with their parts of these analyses, or its
/// first break.
pub(crate) fn posted(
    alloc: Global,
    kinds: &[Kind],
    came: Result<Seq<Record>, Refused<Break>>,
) -> Result<PostValue, Memory>
    ensures { (due : Result (List Left) FirstBreak)
        → Tells came due → IfOk result (λ value. value ≡ posted kinds.now due) }
{
    match came {
        Ok(records) => {
            let parts = parts_of(alloc, kinds, records.as_slice())?;
            Ok(PostValue::Ran { records, parts })
        }
        Err(Refused::Fault(broken)) => Ok(PostValue::Broke(broken)),
        Err(Refused::Memory) => Err(Memory),
    }
}

/// Runs epoch `k` of a plan from the recorded state of its first checkpoint, whatever the worker
/// ran before, and gives its post. Where it ran the epoch before last, it goes on from there, and
/// no state is made anew. It breaks exactly where the epoch does, and is never `Skipped`. The steps that are counted are instructions of the program. After records were left, the last
/// log of the worker's bank is that of the last of them.
///
/// # Errors
///
/// Want of memory. The worker can go on.
pub fn run_epoch<L: Ledger>(
    alloc: Global,
    plan: &Plan,
    k: u32,
    worker: &mut Worker,
    steps: &mut Steps<L>,
) -> Result<Post, Memory>
    requires within { k < epochs_of plan.now.cutting }
    requires stands { StandsIn plan.now worker.old }
    ensures epoch { IfOk result (λ post. post.epoch ≡ k) }
    ensures value { IfOk result (λ post.
        post.value ≡ posted plan.now.kinds (value_in plan.now k)) }
    ensures steps { steps.new ≤ steps.old + size_in plan.now k }
    ensures stands { StandsIn plan.now worker.new }
    ensures last { IfOk result (λ post.
        LogAfter plan.now k post.value worker.new.bank.last_log_len) }
{
    let places = plan.cutting.places();
    let a = places[k as usize];
    let b = places[k as usize + 1];
    let kinds = plan.kinds.as_slice();
    let value = posted(alloc, kinds, run_between(alloc, plan, a, b, worker, steps))?;
    Ok(Post { epoch: k, value })
}

/// The epochs of a plan, run by one worker in any order.
#[derive(Drop)]
pub struct PlanRuns<'a, L: Ledger> {
    pub plan: &'a Plan,
    pub worker: &'a mut Worker,
    /// Instructions of the program.
    pub steps: &'a mut Steps<L>,
    ghost stands: { StandsIn plan.now worker.now } by { StandsIn-prop plan.now worker.now },
}

impl<'a, L: Ledger> Runs for PlanRuns<'a, L> {
    ghost use Rattle.epoch_run.specs.Plans.{values_of, values_are_own};

    ghost values = { λ runs. values_of runs.plan.now };

    ghost not_skipped = { λ runs. values_are_own runs.plan.now };

    fn run(&mut self, alloc: Global, epoch: u32) -> Result<Post, Memory> {
        run_epoch(alloc, self.plan, epoch, self.worker, self.steps)
    }
}

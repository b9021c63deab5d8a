//! The replay of a recording, cut into epochs.

ghost use Rattle.std.specs.Prelude.{◌≡◌, ◌<◌, Some, length, slice_get, IfOk};
ghost use Rattle.sl_base.specs.Refusals.{Tells};
ghost use Rattle.epoch_core.specs.Posts.{Posted};
ghost use Rattle.epoch_run.specs.Plans.{values_of};
ghost use Rattle.epoch_run.specs.Standings.{StandsIn};
ghost use Rattle.sledge_top.specs.Runs.{run_in};

use analysers::Merged;
use call_log::Break;
use epoch_core::Post;
use epoch_run::{Plan, Worker, run_epoch, values_are_the_run};
use epoch_worker::{Epochs, run_all};
use ordered_merge::{merge, merged_means};
use outside::Gate;
use sl_base::{Brand, Memory, Refused, Steps};
use std::alloc::Global;
use std::sync::ledger::{Blank, Ledger};
use std::thread::Threads;

/// The epochs of a plan, which each worker runs with a machine and a memory of its own.
#[derive(Drop)]
struct PlanEpochs<'a> {
    plan: &'a Plan,
}

/// Runs an epoch of a plan, from where the worker stands. Its steps are counted on a ledger of
/// their own.
fn run_counted<L: Ledger>(
    alloc: Global,
    plan: &Plan,
    worker: &mut Worker,
    epoch: u32,
    blank: Blank,
) -> Result<Post, Memory>
    requires within { epoch < length (values_of plan.now) }
    requires stands { StandsIn plan.now worker.old }
    requires name { blank.name ≡ L.name }
    requires parts { blank.parts ≡ L.parts }
    requires some_parts { 0 < blank.parts }
    ensures epoch { IfOk result (λ post. post.epoch ≡ epoch) }
    ensures value { IfOk result
        (λ post. slice_get (values_of plan.now) epoch ≡ Some post.value) }
    ensures stands { StandsIn plan.now worker.new }
{
    let mut steps = Steps::<L>::new(blank);
    run_epoch(alloc, plan, epoch, worker, &mut steps)
}

impl<'a> Epochs for PlanEpochs<'a> {
    type Worker = Worker;

    ghost use Rattle.epoch_run.specs.Plans.{values_of, values_are_own};
    ghost use Rattle.epoch_run.specs.Standings.{StandsIn};

    ghost values = { λ epochs. values_of epochs.plan.now };

    ghost stands = { λ epochs worker. StandsIn epochs.plan.now worker };

    ghost not_skipped = { λ epochs. values_are_own epochs.plan.now };

    fn start(&self, alloc: Global) -> Result<Worker, Memory> {
        Worker::new(alloc, self.plan)
    }

    fn run(&self, alloc: Global, worker: &mut Worker, epoch: u32) -> Result<Post, Memory> {
        run_counted::<Brand>(alloc, self.plan, worker, epoch, Blank::new(1))
    }
}

/// How many epochs a plan has.
pub fn count_of(plan: &Plan) -> u32
    ensures { length (values_of plan.now) ≡ result }
{
    plan.epochs()
}

/// The posts of all epochs of a plan, by so many workers in threads of their own.
pub fn posts_of<R: Threads + Sync, G: Gate>(
    rt: &R,
    alloc: Global,
    plan: &Plan,
    count: u32,
    workers: u32,
    gate: &G,
) -> Result<Vec<Post>, Memory>
    requires { length (values_of plan.now) ≡ count }
    ensures { IfOk result (λ posts. Posted (values_of plan.now) posts.items) }
{
    let epochs = PlanEpochs { plan };
    run_all(rt, alloc, &epochs, count, workers, gate)
}

/// What the analyses of a plan give of what its tracers leave on the run of its recording, or the
/// run's first break. Each epoch is replayed by itself, by one of so many workers in threads of
/// their own, and the posts are merged.
pub fn run_plan<R: Threads + Sync, G: Gate>(
    rt: &R,
    alloc: Global,
    plan: &Plan,
    workers: u32,
    gate: &G,
) -> Result<Merged, Refused<Break>>
    ensures { Tells result (run_in plan.now) }
{
    values_are_the_run();
    merged_means();
    let count = count_of(plan);
    let posts = posts_of(rt, alloc, plan, count, workers, gate)?;
    merge(alloc, plan.kinds.as_slice(), count, posts)
}

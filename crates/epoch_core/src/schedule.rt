ghost use Rattle.std.specs.Prelude.{◌≡◌, ◌≤◌, ℕ, List, length, OnOk, IfOk};
ghost use Rattle.epoch_core.specs.Posts.{Posted};
ghost use Rattle.epoch_core.specs.Schedule.{start, after, run_events, trays_of, all_posts, HoldsNone, HoldsEpochs};

use crate::event::CoreEvent;
use crate::machine::CoreMachine;
use crate::post::Post;
use crate::runs::Runs;
use sl_base::{Memory, Seq};
use std::alloc::Global;

/// Does one event, where it is allowed.
fn do_event<R: Runs>(
    alloc: Global,
    runs: &mut R,
    epochs: u32,
    machine: &mut CoreMachine,
    event: CoreEvent,
) -> Result<(), Memory>
    requires epochs { length (R.values runs.old) ≡ epochs }
    requires held { HoldsEpochs epochs machine.old }
    ensures after { OnOk result (machine.new ≡ after (R.values runs.old) machine.old event) }
    ensures values { OnOk result (R.values runs.new ≡ R.values runs.old) }
{
    match event {
        CoreEvent::Claim(worker) => machine.claim(epochs, worker),
        CoreEvent::Finish(worker) => {
            if let Some(epoch) = machine.held(worker) {
                let post = runs.run(alloc, epoch)?;
                machine.finish(worker, post)?;
            }
        }
        CoreEvent::Skip(worker) => machine.skip(worker)?,
        CoreEvent::Leave(worker) => machine.leave(epochs, worker),
    }
    Ok(())
}

/// Has workers claim, run and post the epochs in the order of the events, and gives their trays, by
/// worker. An event that is not allowed where it comes, or of a number that is not below `workers`,
/// changes nothing. After an `Err` the `runs` are given up.
///
/// Whatever the events are: where at the end no worker holds an epoch and every epoch was claimed,
/// each epoch has exactly one post, with its value, or skipped below a smaller epoch that broke.
pub fn run_schedule<R: Runs>(
    alloc: Global,
    runs: &mut R,
    epochs: u32,
    workers: u32,
    events: &[CoreEvent],
) -> Result<Seq<Seq<Post>>, Memory>
    requires { length (R.values runs.old) ≡ epochs }
    ensures trays { let ended = run_events (R.values runs.old) (start workers) events.now in
        IfOk result (λ trays. trays ≡ trays_of ended) }
    ensures posted { let ended = run_events (R.values runs.old) (start workers) events.now in
        IfOk result (λ trays. HoldsNone ended → epochs ≤ ended.next
        → Posted (R.values runs.old) (all_posts trays)) }
    ensures values { OnOk result (R.values runs.new ≡ R.values runs.old) }
{
    let mut machine = CoreMachine::new(alloc, workers)?;
    for event in events {
        do_event(alloc, runs, epochs, &mut machine, *event)?;
    }
    machine.into_trays(alloc)
}

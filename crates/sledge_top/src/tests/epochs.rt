//! What one worker posts of the epochs of a recording that lies, and the log that its last tracer
//! leaves.

ghost use Rattle.std.specs.Prelude.{◌≡◌, ◌<◌};

use super::running::store_of;
use super::workers::stores_once;
use crate::runs::{count_of, posts_of};
use crate::trace::{no_tracers, plan_of, recorded_in, script_of};
use epoch_core::{Post, PostValue};
use epoch_run::{Plan, Worker, run_epoch};
use outside::NoGate;
use sl_base::{Blank, Brand, Ledger, Seq, Steps};
use std::alloc::Global;
use std::test::Fail;
use std::thread::Threads;

/// A recording whose checkpoint 5 has a byte that the run has not, cut into seven epochs.
fn lying_plan(alloc: Global) -> Result<Plan, Fail> {
    let mut store = store_of(alloc, "a.rec", &stores_once(alloc, 5)?, &[])?;
    let Ok((rec, image)) = recorded_in(alloc, "a.rec", &mut store) else {
        return Err("no recording".into());
    };
    let (script, kinds) = (no_tracers(alloc), Seq::new(alloc));
    Ok(plan_of(alloc, rec, image, script, kinds, Some(7))?)
}

/// What one worker posts of it.
fn lying_posts<R: Threads + Sync>(rt: &R, alloc: Global) -> Result<Vec<Post>, Fail> {
    let plan = lying_plan(alloc)?;
    let count = count_of(&plan);
    Ok(posts_of(rt, alloc, &plan, count, 1, &NoGate)?)
}

/// Epoch 4 breaks. The epochs before it run, and those behind it are skipped.
#[test]
fn one_worker_skips_behind_a_break(rt: HostRuntime) -> Result<(), Fail> {
    let posts = lying_posts(&rt, rt.alloc())?;
    assert_eq!(rt; posts.len(), 7);
    for (number, post) in posts.iter().enumerate() {
        assert_eq!(rt; post.epoch as usize, number);
        let is_due = match &post.value {
            PostValue::Ran { records, .. } => number < 4 && records.is_empty(),
            PostValue::Broke(first) => number == 4 && first.count == 5,
            PostValue::Skipped { below } => number > 4 && *below == 4,
        };
        assert!(rt; is_due, "{number}");
    }
    Ok(())
}

/// The worked tracer that stores over one word three times, after the program's store.
const THREE_STORES: &[u8] = b"(at (addr 0x10014) (store4 0x11004 0xffffffff) (store1 0x11005 0) \
    (store2 0x11004 0x1234) (emit (load4 0x11004)))";

/// The recording that stores once, as one epoch with this tracer.
fn traced_plan(alloc: Global) -> Result<Plan, Fail> {
    let mut store = store_of(alloc, "a.rec", &stores_once(alloc, 4)?, &[])?;
    let Ok((rec, image)) = recorded_in(alloc, "a.rec", &mut store) else {
        return Err("no recording".into());
    };
    let Ok(script) = script_of(alloc, &image, THREE_STORES) else {
        return Err("no script".into());
    };
    Ok(plan_of(alloc, rec, image, script, Seq::new(alloc), Some(1))?)
}

/// How many entries the log of the last tracer had, and how many are left, once the epoch was run.
fn logged<L: Ledger>(alloc: Global, blank: Blank) -> Result<(u32, u32), Fail>
    requires name { blank.name ≡ L.name }
    requires parts { blank.parts ≡ L.parts }
    requires some_parts { 0 < blank.parts }
{
    let plan = traced_plan(alloc)?;
    if plan.epochs() == 0 {
        return Err("no epoch".into());
    }
    let mut steps = Steps::<L>::new(blank);
    let mut worker = Worker::new(alloc, &plan)?;
    run_epoch(alloc, &plan, 0, &mut worker, &mut steps)?;
    Ok((worker.last_log_len(), worker.bank.log_len()))
}

/// The log of the last tracer had its three stores, and they were undone.
#[test]
fn last_log_is_that_of_the_last_tracer(rt: HostRuntime) -> Result<(), Fail> {
    assert_eq!(rt; logged::<Brand>(rt.alloc(), Blank::new(1))?, (3, 0));
    Ok(())
}

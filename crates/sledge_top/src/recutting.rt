//! The command that gives a recording other checkpoints.

ghost use Rattle.std.specs.Prelude.{◌≡◌, ◌≤◌, IfOk, IfErr, IfSome, IsErrOf};
ghost use Rattle.outside.specs.Faults.{Rose};
ghost use Rattle.sl_base.specs.Refusals.{Gives};
ghost use Rattle.elf_image.specs.Loadable.{IsLoadable};
ghost use Rattle.rec_format.specs.Rules.{IsRecordingValue};
ghost use Rattle.epoch_run.specs.Images.{IsImageOf};
ghost use Rattle.replay.specs.Breaks.{first_break};
ghost use Rattle.replay.specs.Opening.{opening};
ghost use Rattle.cli_words.specs.Orders.{IsDistance};
ghost use Rattle.sledge_top.specs.Replays.{unless_broken};
ghost use Rattle.sledge_top.specs.Recutting.{recut_by, recut_from, recut};
ghost use Rattle.sledge_top.specs.Endings.{IsLaterFault};
ghost use Rattle.sledge_top.specs.Views.{done_view, Comes, IsLaterFailure};

use crate::done::Done;
use crate::failure::Failure;
use crate::recording::put_recording;
use crate::trace::{no_tracers, plan_of, recorded_in, replay_plan};
use call_recorder::recut as recut_run;
use elf_image::Image;
use epoch_run::Plan;
use outside::{Gate, Store};
use rec_format::Recording;
use report::Refusal;
use sl_base::{Refused, Seq};
use std::alloc::Global;
use std::thread::Threads;

/// A recording and its image, where it replays without a break.
fn unbroken<R: Threads + Sync, G: Gate>(
    rt: &R,
    alloc: Global,
    rec: Recording,
    image: Image,
    gate: &G,
) -> Result<(Recording, Image), Refused<Refusal>>
    requires rules { IsRecordingValue rec }
    requires spelled { IsImageOf image rec }
    requires image { IsLoadable image }
    ensures value { Gives (λ both. both) result
        (unless_broken (rec, image) (first_break rec (opening image rec.args))) }
    ensures rules { IfOk result (λ both. IsRecordingValue both.0) }
    ensures later { IfErr result IsLaterFault }
{
    let plan = plan_of(alloc, rec, image, no_tracers(alloc), Seq::new(alloc), None)?;
    let _ = replay_plan(rt, alloc, &plan, 1, gate)?;
    let Plan {
        image,
        checkpoints,
        ..
    } = plan;
    Ok((checkpoints.rec, image))
}

/// The same run with checkpoints at another distance, or how the command is refused.
fn recut_by<R: Threads + Sync, G: Gate>(
    rt: &R,
    alloc: Global,
    rec: Recording,
    image: Image,
    every: u64,
    gate: &G,
) -> Result<Recording, Refused<Refusal>>
    requires rules { IsRecordingValue rec }
    requires spelled { IsImageOf image rec }
    requires image { IsLoadable image }
    requires every { IsDistance every }
    ensures value { Gives (λ recut. recut) result (recut_by every rec (opening image rec.args)) }
    ensures rules { IfOk result IsRecordingValue }
    ensures later { IfErr result IsLaterFault }
{
    let (rec, image) = unbroken(rt, alloc, rec, image, gate)?;
    Ok(recut_run(alloc, rec, &image, every)?)
}

/// The file of the same run with checkpoints at another distance, under a name.
fn recut_from<'a, R: Threads + Sync, G: Gate>(
    rt: &R,
    alloc: Global,
    rec: Recording,
    image: Image,
    every: u64,
    output: &'a str,
    gate: &G,
) -> Result<Done<'a>, Refused<Refusal>>
    requires rules { IsRecordingValue rec }
    requires spelled { IsImageOf image rec }
    requires image { IsLoadable image }
    requires every { IsDistance every }
    ensures value { Gives done_view result
        (recut_from output.now every rec (opening image rec.args)) }
    ensures later { IfErr result IsLaterFault }
{
    let new = recut_by(rt, alloc, rec, image, every, gate)?;
    put_recording(alloc, &new, output)
}

/// `recut RECORDING OUTPUT`: replays a recording, and puts the same run with checkpoints at another
/// distance.
pub fn recut<'a, R: Threads + Sync, S: Store, G: Gate>(
    rt: &R,
    alloc: Global,
    name: &str,
    output: &'a str,
    every: u64,
    store: &mut S,
    gate: &G,
) -> Result<Done<'a>, Failure>
    requires { IsDistance every }
    ensures answer { IfSome (S.told store.old) (λ files.
        Comes done_view result (recut files name.now output.now every)) }
    ensures failed { IsErrOf result Failure.StoreFault
        → Rose (S.faults store.old) (S.faults store.new) }
    ensures later { IfErr result IsLaterFailure }
    ensures faults { S.faults store.old ≤ S.faults store.new }
    ensures same { S.told store.new ≡ S.told store.old }
{
    let (rec, image) = recorded_in(alloc, name, store)?;
    Ok(recut_from(rt, alloc, rec, image, every, output, gate)?)
}

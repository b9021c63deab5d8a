//! Gives a recorded run other checkpoints.

ghost use Rattle.std.specs.Prelude.{◌≡◌, ◌-◌, ◌<◌, ◌≤◌, ◌^◌, ℕ, true, Some, None, IsSome, IfOk, OnOk};
ghost use Rattle.sl_model.specs.Marks.{MarksGoOn};
ghost use Rattle.sl_model.specs.State.{State, Fits};
ghost use Rattle.elf_image.specs.Loadable.{IsLoadable};
ghost use Rattle.rec_format.specs.Rules.{IsRecordingValue};
ghost use Rattle.rv_machine.specs.Machine.{state_of};
ghost use Rattle.page_frames.specs.MarkedPages.{IsKept};
ghost use Rattle.replay.specs.Advance.{HasCalls};
ghost use Rattle.replay.specs.Breaks.{first_break};
ghost use Rattle.replay.specs.Opening.{opening};
ghost use Rattle.replay.specs.Run.{run_from};
ghost use Rattle.call_recorder.specs.Recorded.{IsRecut};
ghost use Rattle.call_recorder.specs.Replayed.{KeptAlong};

use crate::kept::{Finished, Kept};
use elf_image::Image;
use page_frames::Frames;
use rec_format::Recording;
use replay::{advance_one, load};
use rv_machine::Machine;
use sl_base::{Brand, Memory, Refused, Steps};
use std::alloc::Global;
use std::sync::ledger::{Blank, Ledger};

/// Replays a run that does not break up to a count.
fn replay_to<L: Ledger>(
    alloc: Global,
    rec: &Recording,
    upto: u64,
    m: &mut Machine,
    f: &mut Frames,
    steps: &mut Steps<L>,
) -> Result<(), Memory>
    requires calls { HasCalls rec.now }
    requires fits { Fits (state_of m.old f.old.pages) }
    requires from { m.old.count ≤ upto }
    requires upto { upto ≤ 2 ^ 40 }
    requires goes { IsSome (run_from rec.now (state_of m.old f.old.pages) (upto - m.old.count)) }
    ensures ran { OnOk result (run_from rec.now (state_of m.old f.old.pages) (upto - m.old.count)
        ≡ Some (state_of m.new f.new.pages)) }
    ensures fits { OnOk result (Fits (state_of m.new f.new.pages)) }
    ensures count { OnOk result (m.new.count ≡ upto) }
    ensures marks { OnOk result
        (MarksGoOn true f.old.pages f.old.dirty f.new.pages f.new.dirty) }
    ensures was { IsKept f.old }
    ensures is { OnOk result (IsKept f.new) }
{
    let _was = f.dirty_len();
    for _ in m.count..upto {
        match advance_one(alloc, rec, m, f, steps) {
            Ok(()) => {}
            Err(Refused::Memory) => return Err(Memory),
            Err(Refused::Fault(_)) => unreachable!(),
        }
    }
    let _is = f.dirty_len();
    Ok(())
}

/// Replays a run that does not break to its end, and keeps a checkpoint at each multiple of a distance below it.
fn replay_on<L: Ledger>(
    alloc: Global,
    rec: &Recording,
    every: u64,
    m: &mut Machine,
    f: &mut Frames,
    kept: &mut Kept,
    blank: Blank,
) -> Result<(), Memory>
    requires calls { HasCalls rec.now }
    requires fits { Fits (state_of m.old f.old.pages) }
    requires start { m.old.count ≡ 0 }
    requires goes { IsSome (run_from rec.now (state_of m.old f.old.pages) rec.now.last.count) }
    requires few { rec.now.last.count ≤ 2 ^ 40 }
    requires some { 0 < every }
    requires every { every ≤ 2 ^ 40 }
    requires name { blank.name ≡ L.name }
    requires parts { blank.parts ≡ L.parts }
    requires some_parts { 0 < blank.parts }
    ensures ran { OnOk result (run_from rec.now (state_of m.old f.old.pages) rec.now.last.count
        ≡ Some (state_of m.new f.new.pages)) }
    ensures count { OnOk result (m.new.count ≡ rec.now.last.count) }
    ensures kept { OnOk result ((offers : ℕ) × KeptAlong rec.now
        (state_of m.old f.old.pages) every offers kept.old f.old kept.new f.new) }
{
    let mut steps = Steps::<L>::new(blank);
    let mut next = every;
    while next < rec.last.count {
        replay_to(alloc, rec, next, m, f, &mut steps)?;
        kept.offer(alloc, m, f)?;
        next += every;
    }
    replay_to(alloc, rec, rec.last.count, m, f, &mut steps)?;
    Ok(())
}

/// The same run with checkpoints at the multiples of `every` instructions below its end, as far as their number and
/// their bytes go. Whether the new recording is too long to be written is not looked at.
pub fn recut(alloc: Global, rec: Recording, image: &Image, every: u64) -> Result<Recording, Memory>
    requires value { IsRecordingValue rec }
    requires image { IsLoadable image.now }
    requires unbroken { first_break rec (opening image.now rec.args) ≡ None }
    requires every_some { 1 ≤ every }
    requires every { every ≤ 2 ^ 40 }
    ensures { IfOk result (IsRecut image.now rec every) }
{
    let (mut machine, mut memory) = load(alloc, image, rec.args.as_slice())?;
    let (_, opening) = load(alloc, image, rec.args.as_slice())?;
    let mut kept = Kept::new(alloc, opening);
    replay_on::<Brand>(
        alloc,
        &rec,
        every,
        &mut machine,
        &mut memory,
        &mut kept,
        Blank::new(1),
    )?;
    let Finished { checkpoints, last } = kept.finish(alloc, &machine, &memory)?;
    let Recording {
        kind,
        load_addr,
        image: bytes,
        args,
        calls,
        end,
        checkpoints: _,
        last: _,
    } = rec;
    Ok(Recording {
        kind,
        load_addr,
        image: bytes,
        args,
        calls,
        checkpoints,
        end,
        last,
    })
}

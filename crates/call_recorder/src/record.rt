//! Records a run.

ghost use Rattle.std.specs.Prelude.{◌≡◌, ◌<◌, ◌≤◌, ◌^◌, ℕ, [], IfOk, OnOk};
ghost use Rattle.outside.specs.World.{HearsAll};
ghost use Rattle.sl_model.specs.State.{State};
ghost use Rattle.elf_image.specs.Loadable.{IsLoadable};
ghost use Rattle.rec_format.specs.Rules.{AreArguments};
ghost use Rattle.call_recorder.specs.Kept.{AreKept};
ghost use Rattle.call_recorder.specs.Lives.{ComesSoFar, GoesOn, HasStopped, KeptTo};
ghost use Rattle.call_recorder.specs.Recorded.{IsSource, IsRecorded};

use crate::kept::{Finished, Kept};
use crate::live::Live;
use crate::source::ImageSource;
use call_log::End;
use elf_image::Image;
use outside::World;
use rec_format::Recording;
use replay::load;
use sl_base::{Brand, Memory, Seq, Steps};
use std::alloc::Global;
use std::sync::ledger::{Blank, Ledger};

/// Runs a program to its end, or to a limit of instructions, and keeps a checkpoint at each multiple of a distance.
fn run_on<W: World, L: Ledger>(
    alloc: Global,
    live: &mut Live,
    kept: &mut Kept,
    limit: u64,
    every: u64,
    world: &mut W,
    blank: Blank,
) -> Result<End, Memory>
    requires goes { GoesOn live.old }
    requires start { live.old.machine.count ≡ 0 }
    requires limit { limit ≤ 2 ^ 40 }
    requires some { 0 < every }
    requires every { every ≤ 2 ^ 40 }
    requires name { blank.name ≡ L.name }
    requires parts { blank.parts ≡ L.parts }
    requires some_parts { 0 < blank.parts }
    ensures comes { OnOk result ((opened : State) (before : W)
        → ComesSoFar opened (HearsAll W.hears before world.old) live.old
        → ComesSoFar opened (HearsAll W.hears before world.new) live.new) }
    ensures stopped { IfOk result (HasStopped limit live.new) }
    ensures checkpoints { OnOk result ((offers : ℕ)
        × ((opened : State) (before : W)
        → ComesSoFar opened (HearsAll W.hears before world.old) live.old
        → AreKept opened.pages [] kept.old live.old.memory
        → KeptTo opened every live.new kept.new offers)) }
{
    let mut steps = Steps::<L>::new(blank);
    let mut next = every;
    while next < limit {
        if let Some(end) = live.run_to(alloc, next, world, &mut steps)? {
            return Ok(end);
        }
        kept.offer(alloc, &live.machine, &mut live.memory)?;
        next += every;
    }
    match live.run_to(alloc, limit, world, &mut steps)? {
        Some(end) => Ok(end),
        None => Ok(End::Stopped),
    }
}

/// Runs a program over a world and records the run, with a checkpoint at each multiple of `every` instructions, as far
/// as their number and their bytes go. The run ends where the program exits or traps, or after `limit` instructions, or
/// before a call for which a recording has no room. Whether the recording is too long to be written is not looked at.
pub fn record_run<W: World>(
    alloc: Global,
    image: &Image,
    source: ImageSource,
    args: Seq<Seq<u8>>,
    limit: u64,
    every: u64,
    world: &mut W,
) -> Result<Recording, Memory>
    requires image { IsLoadable image.now }
    requires source { IsSource source }
    requires args { AreArguments args }
    requires some { 1 ≤ limit }
    requires limit { limit ≤ 2 ^ 40 }
    requires every_some { 1 ≤ every }
    requires every { every ≤ 2 ^ 40 }
    ensures { IfOk result (IsRecorded image.now source args limit every
        (HearsAll W.hears world.old world.new)) }
{
    let (machine, memory) = load(alloc, image, args.as_slice())?;
    let (_, opening) = load(alloc, image, args.as_slice())?;
    let mut live = Live {
        machine,
        memory,
        calls: Seq::new(alloc),
    };
    let mut kept = Kept::new(alloc, opening);
    let end = run_on::<W, Brand>(
        alloc,
        &mut live,
        &mut kept,
        limit,
        every,
        world,
        Blank::new(1),
    )?;
    let Finished { checkpoints, last } = kept.finish(alloc, &live.machine, &live.memory)?;
    let ImageSource {
        kind,
        load_addr,
        bytes,
    } = source;
    Ok(Recording {
        kind,
        load_addr,
        image: bytes,
        args,
        calls: live.calls,
        checkpoints,
        end,
        last,
    })
}

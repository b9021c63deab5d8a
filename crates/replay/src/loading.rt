//! Loads a program.

ghost use Rattle.std.specs.Prelude.{◌≡◌, ◌+◌, ◌/◌, ◌<◌, ◌≤◌, [], OnOk, IfOk};
ghost use Rattle.std.specs.List.{AllByRecursion};
ghost use Rattle.std.specs.FinMap.{empty, len};
ghost use Rattle.sl_model.specs.State.{IsOpening};
ghost use Rattle.rv_machine.specs.Machine.{state_of};
ghost use Rattle.elf_image.specs.Loadable.{IsPlaced, IsLoadable};
ghost use Rattle.rec_format.specs.Rules.{AreArguments};
ghost use Rattle.replay.specs.Opening.{map_segment, map_segments, mapped, fill_segments, fill_stack, opening_pages, opening};

use crate::heap::layout_of;
use crate::stack::{stack_pointer, stack_words, strings, strings_start};
use elf_image::{Image, Segment};
use page_frames::Frames;
use rv_machine::Machine;
use sl_base::{Memory, Seq};
use sl_model::{FIRST_STACK_PAGE, MOST_PAGES, PAGE_SIZE, RunState, STACK_PAGES};
use std::alloc::Global;

/// The opening state of a program, with no page marked as changed.
pub fn load(alloc: Global, image: &Image, args: &[Seq<u8>]) -> Result<(Machine, Frames), Memory>
    requires image { IsLoadable image.now }
    requires args { AreArguments args.now }
    ensures state { IfOk result (λ p. state_of p.0 p.1.pages ≡ opening image.now args.now) }
    ensures clean { IfOk result (λ p. p.1.dirty ≡ []) }
    ensures opens { IfOk result (λ p. IsOpening (state_of p.0 p.1.pages)) }
{
    let mut frames = map_memory(alloc, image)?;
    fill_segments(&mut frames, image);
    fill_stack(alloc, &mut frames, image, args)?;
    let _kept = frames.dirty_len();
    frames.clear_dirty();
    Ok((open_machine(image, args), frames))
}

/// The machine at the entry of a program.
fn open_machine(image: &Image, args: &[Seq<u8>]) -> Machine
    requires image { IsLoadable image.now }
    requires args { AreArguments args.now }
    ensures { state_of result (opening_pages image.now args.now) ≡ opening image.now args.now }
{
    let mut x = [0; 32];
    x[2] = stack_pointer(args);
    let layout = layout_of(image.segments.as_slice());
    Machine {
        pc: image.entry,
        x,
        brk: layout.brk_start,
        brk_end: layout.brk_start,
        next_call: 0,
        status: RunState::Running,
        count: 0,
        layout,
    }
}

/// Memory with the pages of an image and of the stack, of zeros.
fn map_memory(alloc: Global, image: &Image) -> Result<Frames, Memory>
    requires { IsLoadable image.now }
    ensures { IfOk result (λ frames. frames.pages ≡ mapped image.now) }
{
    let mut frames = Frames::new(alloc)?;
    map_segments(&mut frames, image.segments.as_slice())?;
    frames.map_pages(FIRST_STACK_PAGE, STACK_PAGES)?;
    Ok(frames)
}

/// Maps the pages that meet some segments.
fn map_segments(frames: &mut Frames, segments: &[Segment]) -> Result<(), Memory>
    requires placed { AllByRecursion IsPlaced segments.now }
    requires few { len (map_segments frames.old.pages segments.now) ≤ MOST_PAGES }
    ensures { OnOk result (frames.new.pages ≡ map_segments frames.old.pages segments.now) }
{
    for segment in segments {
        map_segment(frames, segment)?;
    }
    Ok(())
}

/// Maps the pages that meet a segment.
fn map_segment(frames: &mut Frames, segment: &Segment) -> Result<(), Memory>
    requires placed { IsPlaced segment.now }
    requires few { len (map_segment frames.old.pages segment.now) ≤ MOST_PAGES }
    ensures { OnOk result (frames.new.pages ≡ map_segment frames.old.pages segment.now) }
{
    if segment.memsz == 0 {
        return Ok(());
    }
    let first = segment.vaddr / PAGE_SIZE;
    let last = (segment.vaddr + segment.memsz - 1) / PAGE_SIZE;
    frames.map_pages(first, last - first + 1)
}

/// Writes the bytes of each segment to its start.
fn fill_segments(frames: &mut Frames, image: &Image)
    requires image { IsLoadable image.now }
    requires mapped { frames.old.pages ≡ mapped image.now }
    ensures { frames.new.pages ≡ fill_segments (mapped image.now) image.now.segments }
{
    for segment in image.segments.as_slice() {
        frames.copy_in(segment.vaddr, segment.bytes.as_slice());
    }
}

/// Writes the arguments and the words at the stack pointer.
fn fill_stack(
    alloc: Global,
    frames: &mut Frames,
    image: &Image,
    args: &[Seq<u8>],
) -> Result<(), Memory>
    requires image { IsLoadable image.now }
    requires args { AreArguments args.now }
    requires filled { frames.old.pages ≡ fill_segments (mapped image.now) image.now.segments }
    ensures { OnOk result (frames.new.pages ≡ opening_pages image.now args.now) }
{
    let strings = strings(alloc, args)?;
    let words = stack_words(alloc, args)?;
    frames.copy_in(strings_start(args), strings.as_slice());
    frames.copy_in(stack_pointer(args), words.as_slice());
    Ok(())
}

//! Where a program's heap lies.

ghost use Rattle.std.specs.Prelude.{◌≡◌, ◌+◌, ◌<◌, ◌≤◌};
ghost use Rattle.std.specs.List.{AllByRecursion};
ghost use Rattle.elf_image.specs.Loadable.{IsPlaced};
ghost use Rattle.replay.specs.Opening.{end_of, highest_end, round_up, wall, heap_limit};

use elf_image::Segment;
use sl_model::{HEAP_SIZE, Layout, MEMORY_END, PAGE_SIZE, STACK_START};

/// The end of the highest segment that takes memory, or 0 where none does.
fn highest_end(segments: &[Segment]) -> u32
    requires { AllByRecursion IsPlaced segments.now }
    ensures value { result ≡ highest_end segments.now }
    ensures within { result ≤ MEMORY_END }
{
    let mut end = 0;
    for segment in segments {
        end = end.max(end_of(segment));
    }
    end
}

/// The end of a segment that takes memory, and 0 of one that takes none.
fn end_of(segment: &Segment) -> u32
    requires { IsPlaced segment.now }
    ensures value { result ≡ end_of segment.now }
    ensures within { result ≤ MEMORY_END }
{
    if segment.memsz == 0 {
        0
    } else {
        segment.vaddr + segment.memsz
    }
}

/// What a heap must not pass.
fn wall(start: u32) -> u32
    ensures { result ≡ wall start }
{
    if start <= STACK_START {
        STACK_START
    } else {
        MEMORY_END
    }
}

/// The bounds of the heap of a program with these segments.
pub(crate) fn layout_of(segments: &[Segment]) -> Layout
    requires { AllByRecursion IsPlaced segments.now }
    ensures start { result.brk_start ≡ round_up PAGE_SIZE (highest_end segments.now) }
    ensures limit { result.heap_limit ≡ heap_limit result.brk_start }
{
    let end = highest_end(segments);
    let brk_start = (end + (PAGE_SIZE - 1)) / PAGE_SIZE * PAGE_SIZE;
    Layout {
        brk_start,
        heap_limit: (brk_start + HEAP_SIZE).min(wall(brk_start)),
    }
}

//! The pages that changed since the last checkpoint.

ghost use Rattle.std.specs.Prelude.{◌≡◌, ◌++◌, ◌<◌, ◌≤◌, ℕ, length, map, None, Contains, IfOk, OnOk};
ghost use Rattle.std.specs.List.{All, AllByRecursion};
ghost use Rattle.sl_model.specs.declared.layout.TheConstants.{PROGRAM_PAGES};
ghost use Rattle.rec_format.specs.Rules.{IsListedPage, Rise, number_of};
ghost use Rattle.call_recorder.specs.Listing.{changed_page, changed_pages};
ghost use Rattle.call_recorder.specs.Kept.{recorded_in, OnlyMarked};

use crate::memory::RecordedMemory;
use page_frames::Frames;
use rec_format::ListedPage;
use sl_base::{Memory, Seq};
use std::alloc::{AllocError, Global};

/// The numbers of the dirty pages, in the order of marking.
fn marked_numbers(alloc: Global, f: &Frames) -> Result<Vec<u32>, AllocError>
    ensures { IfOk result (λ numbers. numbers.items ≡ f.now.dirty) }
{
    let mut numbers = Vec::new(alloc);
    let mut at = None;
    while let Some(page) = f.next_dirty(at) {
        numbers.push(page)?;
        at = Some(page);
    }
    Ok(numbers)
}

/// The numbers of the dirty pages, rising.
fn dirty_numbers(alloc: Global, f: &Frames) -> Result<Vec<u32>, AllocError>
    ensures rising { IfOk result (λ numbers. Rise None numbers.items) }
    ensures all { IfOk result
        (λ numbers. (q : ℕ) → Contains f.now.dirty q → Contains numbers.items q) }
    ensures below { IfOk result (λ numbers. All (λ q. q < PROGRAM_PAGES) numbers.items) }
    ensures few { IfOk result (λ numbers. length numbers.items ≤ 16384) }
{
    let _kept = f.dirty_len();
    let mut numbers = marked_numbers(alloc, f)?;
    numbers.sort()?;
    Ok(numbers)
}

/// Lists a page, where it is mapped and differs from what is recorded of it.
fn list_changed(
    alloc: Global,
    pages: &mut Seq<ListedPage>,
    number: u32,
    f: &Frames,
    memory: &RecordedMemory,
) -> Result<(), AllocError>
    ensures { OnOk result (pages.new
        ≡ pages.old ++ changed_page (recorded_in memory.now) f.now.pages number) }
{
    let Some(bytes) = f.page(number) else {
        return Ok(());
    };
    if memory.page(number) == bytes {
        return Ok(());
    }
    let bytes = Seq::from_vec(Vec::from_slice(alloc, bytes)?);
    pages.push(ListedPage { number, bytes })?;
    Ok(())
}

/// The pages that differ from what the last checkpoint records of them, by rising number. Only dirty pages are
/// compared: where no other page differs, these are all that do.
pub(crate) fn changed_pages(
    alloc: Global,
    f: &Frames,
    memory: &RecordedMemory,
) -> Result<Seq<ListedPage>, Memory>
    ensures all { OnlyMarked (recorded_in memory.now) f.now
        → IfOk result (λ pages. pages ≡ changed_pages (recorded_in memory.now) f.now.pages) }
    ensures each { IfOk result (AllByRecursion IsListedPage) }
    ensures rising { IfOk result (λ pages. Rise None (map number_of pages)) }
    ensures few { IfOk result (λ pages. length pages ≤ 16384) }
{
    let _kept = f.dirty_len();
    let mut pages = Seq::new(alloc);
    let numbers = dirty_numbers(alloc, f)?;
    for number in &numbers {
        list_changed(alloc, &mut pages, *number, f, memory)?;
    }
    Ok(pages)
}

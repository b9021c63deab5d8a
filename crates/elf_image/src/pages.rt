//! The pages that meet some segments.

ghost use Rattle.elf_image.specs.Ranges.{IsWithRow, IsWithin};
ghost use Rattle.std.specs.BTreeSet.{btree_set_len, IsOrdered};
ghost use Rattle.std.specs.Ordering.{nat_cmp};
ghost use Rattle.std.specs.Prelude.{◌≡◌, ◌+◌, ◌<◌, ◌≤◌, ◌^◌, false, true, IfOk};

use crate::memory::MOST_IMAGE_PAGES;
use std::alloc::AllocError;
use std::collections::BTreeSet;

/// Adds so many pages from one on. It stops with `false` once there are more than an image may
/// have.
pub fn add_pages(pages: &mut BTreeSet<u32>, first: u32, count: u32) -> Result<bool, AllocError>
    requires { first + count < 2 ^ 32 }

    // Where the pages are few enough, all were added.
    ensures added { IfOk result (λ few. few ≡ true → IsWithRow pages.old pages.new first count) }
    ensures few { IfOk result (λ few. few ≡ true → btree_set_len pages.new ≤ MOST_IMAGE_PAGES) }

    // Where they are not, these are too many of them.
    ensures part { IfOk result (λ few. few ≡ false → IsWithin pages.old pages.new first count) }
    ensures many { IfOk result (λ few. few ≡ false → MOST_IMAGE_PAGES < btree_set_len pages.new) }
    ensures ordered { IfOk result (λ few. IsOrdered nat_cmp pages.new) }
{
    for page in first..first + count {
        pages.insert(page)?;
        if pages.len() as u64 > MOST_IMAGE_PAGES {
            return Ok(false);
        }
    }
    Ok(pages.len() as u64 <= MOST_IMAGE_PAGES)
}

//! Flat images: bytes that are loaded as they stand.

ghost use Rattle.elf_image.specs.Reading.{Gives};
ghost use Rattle.elf_image.specs.Flat.{flat_image};
ghost use Rattle.elf_image.specs.Loadable.{IsLoadable};
ghost use Rattle.std.specs.Prelude.{◌≡◌, IfOk};

use crate::fault::{ImageCause, ImageFault};
use crate::image::{Image, Segment};
use crate::memory::{MEMORY_BYTES, MOST_IMAGE_PAGES, meets_stack, page_count};
use sl_base::{Refused, Seq};
use std::alloc::Global;

fn fault(cause: ImageCause) -> Refused<ImageFault>
    ensures { result ≡ Refused.Fault (record { place = 0; cause = cause }) }
{
    Refused::Fault(ImageFault { place: 0, cause })
}

/// The one segment of these bytes, unless they have no place in memory.
#[tactic(auto, unfolding(crate::specs::Flat::flat_image))]
fn one_segment(alloc: Global, addr: u32, bytes: &[u8]) -> Result<Image, Refused<ImageFault>>
    ensures { Gives (λ image. image) result (flat_image addr bytes.now) }
{
    let start = u64::from(addr);
    let len = bytes.len() as u64;
    if len == 0 || len > MEMORY_BYTES || start + len > MEMORY_BYTES {
        return Err(fault(ImageCause::SegmentRange));
    }
    if page_count(start, len) > MOST_IMAGE_PAGES {
        return Err(fault(ImageCause::SegmentRange));
    }
    if meets_stack(start, len) {
        return Err(fault(ImageCause::Overlap));
    }
    let mut segments = Seq::new(alloc);
    segments.push(Segment {
        vaddr: addr,
        memsz: len as u32,
        bytes: Seq::from_vec(Vec::from_slice(alloc, bytes)?),
    })?;
    Ok(Image {
        entry: addr,
        segments,
        symbols: Seq::new(alloc),
    })
}

/// The image of bytes that are loaded at an address, which is its entry. It has no symbols.
///
/// It is refused with `SegmentRange` where there are no bytes, where they pass the end of a
/// program's memory at 0xBFFFF000, or where their pages and those of the stack are more than
/// 12,288; and then with `Overlap` where they meet a page of the stack.
pub fn flat_image(alloc: Global, addr: u32, bytes: &[u8]) -> Result<Image, Refused<ImageFault>>
    ensures image { Gives (λ image. image) result (flat_image addr bytes.now) }
    ensures loadable { IfOk result IsLoadable }
{
    one_segment(alloc, addr, bytes)
}

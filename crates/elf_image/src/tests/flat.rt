//! Flat images that are too large for a page, by arithmetic on the map of memory.

use crate::ImageCause::{Overlap, SegmentRange};
use crate::{ImageFault, flat_image};
use sl_base::Refused;
use std::alloc::Global;
use std::test::Fail;

/// The fault of bytes at an address, and `None` where they are an image.
fn fault_of(alloc: Global, addr: u32, bytes: &[u8]) -> Result<Option<ImageFault>, Fail> {
    match flat_image(alloc, addr, bytes) {
        Ok(_) => Ok(None),
        Err(Refused::Fault(fault)) => Ok(Some(fault)),
        Err(Refused::Memory) => Err("memory".into()),
    }
}

#[test]
fn large_images(rt: HostRuntime) -> Result<(), Fail> {
    let bytes = vec![in rt.alloc(); 7; 49_283_073]?;
    for (addr, len, cause) in [
        // Around the stack.
        (0x7fe0_0000, 0x30_0000, Some(Overlap)),
        // 12,032 pages beside the 256 of the stack.
        (0x10000, 49_283_072, None),
        (0x10000, 49_283_073, Some(SegmentRange)),
        (0x10001, 49_283_072, Some(SegmentRange)),
        (0x10fff, 49_278_977, None),
        (0x10fff, 49_278_978, Some(SegmentRange)),
        (0x7ff0_0000, 49_283_072, Some(Overlap)),
        (0x7ff0_0000, 49_283_073, Some(SegmentRange)),
    ] {
        let want = cause.map(|cause| ImageFault { place: 0, cause });
        assert_eq!(rt;
            fault_of(rt.alloc(), addr, bytes.get(..len).unwrap_or(&[]))?,
            want,
            "{len} bytes at {addr:#010x}"
        );
    }
    Ok(())
}

#[test]
fn one_segment(rt: HostRuntime) -> Result<(), Fail> {
    let bytes = [0x13, 0x05, 0x50, 0, 0x93, 0x08, 0xd0, 0x05, 0x73, 0, 0, 0];
    let image = flat_image(rt.alloc(), 0x10000, &bytes)?;
    assert_eq!(rt; image.entry, 0x10000);
    assert!(rt; image.symbols.is_empty());
    let [segment] = image.segments.as_slice() else {
        return Err("one segment".into());
    };
    assert_eq!(rt; (segment.vaddr, segment.memsz), (0x10000, 12));
    assert_eq!(rt; segment.bytes.as_slice(), bytes.as_slice());
    Ok(())
}

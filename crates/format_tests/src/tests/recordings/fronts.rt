//! Recordings that end too early.

use super::files::each_field;
use rec_format::RecCause::Short;
use rec_format::{RecFault, read_recording};
use sl_base::Refused;
use std::alloc::Global;
use std::process::Abort;
use std::test::Fail;

/// The fault that a file is refused with.
pub fn fault_of(alloc: Global, file: &[u8]) -> Option<RecFault> {
    match read_recording(alloc, file) {
        Err(Refused::Fault(fault)) => Some(fault),
        _ => None,
    }
}

/// A file that ends in or before the field of `size` bytes at `place` is short there.
fn check_field(rt: &impl Abort, alloc: Global, file: &[u8], place: usize, size: usize) {
    let want = RecFault {
        place: place as u64,
        cause: Short,
    };
    for len in (place..).take(size) {
        let front = file.get(..len).unwrap_or(&[]);
        assert_eq!(rt; fault_of(alloc, front), Some(want), "{len} bytes");
    }
}

#[test]
fn each_field_may_be_short(rt: HostRuntime) -> Result<(), Fail> {
    let file = each_field(rt.alloc())?;
    let mut place = 0;
    for (fields, size) in [
        // Name and version; kind, address and length of the image; the image.
        (1, 7u16),
        (1, 1),
        (3, 4),
        (1, 12),
        // The number of arguments and the length of the first; the first; the length of the second.
        (2, 4),
        (1, 2),
        (1, 4),
        // The number of calls; number, arguments, result and length of the first; its data.
        (10, 4),
        (1, 3),
        // The number of checkpoints; a count; pc, 31 registers, both breaks, next call, number of
        // pages, a page; its bytes.
        (1, 4),
        (1, 8),
        (37, 4),
        (1, 4096),
        // Kind and value of the end; its checkpoint.
        (2, 4),
        (1, 8),
        (37, 4),
        (1, 4096),
    ] {
        for _ in 0..fields {
            check_field(&rt, rt.alloc(), &file, place, usize::from(size));
            assert!(rt; place < 8605);
            place += usize::from(size);
        }
    }
    assert_eq!(rt; (place, file.len()), (8605, 8605));
    Ok(())
}

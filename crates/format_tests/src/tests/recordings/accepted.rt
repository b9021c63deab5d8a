//! A recording at the edge of the rules, which is read, and written back to the same bytes.

use super::files::{checkpoint, end, front};
use rec_format::{read_recording, write_recording};
use std::alloc::Global;
use std::test::Fail;

/// What is written of what is read of a file.
pub fn written_back(alloc: Global, file: &[u8]) -> Result<Vec<u8>, Fail> {
    let rec = read_recording(alloc, file)?;
    Ok(write_recording(alloc, &rec)?)
}

#[test]
fn as_many_checkpoints_as_there_may_be(rt: HostRuntime) -> Result<(), Fail> {
    let alloc = rt.alloc();
    let mut file = front(alloc, 4095)?;
    for count in 1..=4095 {
        checkpoint(&mut file, count, 0x10008, 0)?;
    }
    end(&mut file, 4096, 0)?;
    assert_eq!(rt; file.len(), 622_644);
    assert!(rt; written_back(alloc, &file)? == file);
    Ok(())
}

//! What is read of recordings that were worked by hand.

use super::accepted::written_back;
use super::files::{each_field, plain, saved};
use call_log::End;
use rec_format::{CheckpointData, ListedPage, Recording, read_recording};
use std::process::Abort;
use std::test::Fail;

/// The state of the program that loads 5 into a0 and exits, after its second instruction or its
/// third.
fn check_state(rt: &impl Abort, state: &CheckpointData, count: u64, pc: u32) {
    let mut x = [0; 31];
    x[1] = 0x7fff_ffe0;
    x[9] = 5;
    x[16] = 0x5d;
    assert_eq!(rt; (state.count, state.pc), (count, pc));
    assert_eq!(rt; state.x, x);
    assert_eq!(rt;
        (state.brk, state.brk_end, state.next_call),
        (0x11000, 0x11000, 0)
    );
}

/// What all of the recordings have.
fn check_program(rt: &impl Abort, rec: &Recording) {
    let image = [0x13, 0x05, 0x50, 0, 0x93, 0x08, 0xd0, 0x05, 0x73, 0, 0, 0];
    assert_eq!(rt; (rec.kind, rec.load_addr), (0, 0x10000));
    assert_eq!(rt; rec.image.as_slice(), image.as_slice());
    assert_eq!(rt; rec.end, End::Exited(5));
    check_state(rt, &rec.last, 3, 0x1000c);
}

#[test]
fn no_checkpoint(rt: HostRuntime) -> Result<(), Fail> {
    let alloc = rt.alloc();
    let file = plain(alloc)?;
    assert_eq!(rt; file.len(), 204);
    let rec = read_recording(alloc, &file)?;
    check_program(&rt, &rec);
    assert!(rt; rec.args.is_empty() && rec.calls.is_empty());
    assert!(rt; rec.checkpoints.is_empty() && rec.last.pages.is_empty());
    Ok(())
}

#[test]
fn a_checkpoint(rt: HostRuntime) -> Result<(), Fail> {
    let alloc = rt.alloc();
    let file = saved(alloc)?;
    assert_eq!(rt; file.len(), 356);
    let rec = read_recording(alloc, &file)?;
    check_program(&rt, &rec);
    assert!(rt; rec.args.is_empty() && rec.calls.is_empty() && rec.last.pages.is_empty());
    let [first] = rec.checkpoints.as_slice() else {
        return Err("one checkpoint".into());
    };
    check_state(&rt, first, 2, 0x10008);
    assert!(rt; first.pages.is_empty());
    Ok(())
}

/// One page is listed, page 17 with this byte all over.
fn check_page(rt: &impl Abort, pages: &[ListedPage], byte: u8) {
    assert_eq!(rt; pages.len(), 1);
    assert_eq!(rt; pages[0].number, 17);
    assert_eq!(rt; pages[0].bytes.as_slice(), [byte; 4096].as_slice());
}

#[test]
fn every_field(rt: HostRuntime) -> Result<(), Fail> {
    let alloc = rt.alloc();
    let file = each_field(alloc)?;
    let rec = read_recording(alloc, &file)?;
    check_program(&rt, &rec);
    let args = rec.args.as_slice();
    assert_eq!(rt; args.len(), 2);
    assert_eq!(rt; args[0].as_slice(), b"ab".as_slice());
    assert!(rt; args[1].is_empty());
    let calls = rec.calls.as_slice();
    assert_eq!(rt; calls.len(), 1);
    assert_eq!(rt; calls[0].call.number, 64);
    assert_eq!(rt; calls[0].call.args, [1, 0x11000, 3, 0, 0, 0]);
    assert_eq!(rt; calls[0].result, 3);
    assert_eq!(rt; calls[0].bytes.as_slice(), b"hi\n".as_slice());
    let checkpoints = rec.checkpoints.as_slice();
    assert_eq!(rt; checkpoints.len(), 1);
    check_state(&rt, &checkpoints[0], 2, 0x10008);
    check_page(&rt, checkpoints[0].pages.as_slice(), 7);
    check_page(&rt, rec.last.pages.as_slice(), 8);
    assert!(rt; written_back(alloc, &file)? == file);
    Ok(())
}

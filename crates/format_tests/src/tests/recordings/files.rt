//! Files that are built by hand, byte by byte.

use std::alloc::{AllocError, Global};

/// Adds numbers of four bytes.
fn words(out: &mut Vec<u8>, numbers: &[u32]) -> Result<(), AllocError> {
    for n in numbers {
        out.extend_from_slice(&n.to_le_bytes())?;
    }
    Ok(())
}

/// Adds the front of a checkpoint of the program that loads 5 into a0 and exits, 152 bytes. So many
/// pages are to follow.
pub fn checkpoint(out: &mut Vec<u8>, count: u32, pc: u32, pages: u32) -> Result<(), AllocError> {
    words(out, &[count, 0, pc, 0, 0x7fff_ffe0])?;
    words(out, &[0; 7])?;
    words(out, &[5])?;
    words(out, &[0; 6])?;
    words(out, &[0x5d])?;
    words(out, &[0; 14])?;
    words(out, &[0x11000, 0x11000, 0, pages])
}

/// Adds a listing of page 17 that has this byte all over.
fn page(alloc: Global, out: &mut Vec<u8>, byte: u8) -> Result<(), AllocError> {
    words(out, &[17])?;
    out.extend_from_slice(&vec![in alloc; byte; 4096]?)
}

/// Adds the name, the version and the image of that program's recording.
fn image(out: &mut Vec<u8>) -> Result<(), AllocError> {
    out.extend_from_slice(b"SLDGREC1")?;
    words(out, &[0, 0x10000, 12, 0x0050_0513, 0x05d0_0893, 0x73])
}

/// The front of that program's recording: no arguments, no calls, and so many checkpoints to
/// follow.
pub fn front(alloc: Global, checkpoints: u32) -> Result<Vec<u8>, AllocError> {
    let mut out = Vec::new(alloc);
    image(&mut out)?;
    words(&mut out, &[0, 0, checkpoints])?;
    Ok(out)
}

/// How that program ends, after this count of instructions, with so many pages to follow.
pub fn end(out: &mut Vec<u8>, count: u32, pages: u32) -> Result<(), AllocError> {
    words(out, &[0, 5])?;
    checkpoint(out, count, 0x1000c, pages)
}

/// That program's recording without checkpoints before the end, 204 bytes.
pub fn plain(alloc: Global) -> Result<Vec<u8>, AllocError> {
    let mut out = front(alloc, 0)?;
    end(&mut out, 3, 0)?;
    Ok(out)
}

/// That program's recording with a checkpoint at count 2, 356 bytes.
pub fn saved(alloc: Global) -> Result<Vec<u8>, AllocError> {
    let mut out = front(alloc, 1)?;
    checkpoint(&mut out, 2, 0x10008, 0)?;
    end(&mut out, 3, 0)?;
    Ok(out)
}

/// A recording with each kind of field, 8,605 bytes: the arguments `ab` and one of no bytes, a call
/// that writes `hi` and a line feed, a checkpoint at count 2 that lists page 17, and an end that
/// lists it with other bytes.
pub fn each_field(alloc: Global) -> Result<Vec<u8>, AllocError> {
    let mut out = Vec::new(alloc);
    image(&mut out)?;
    words(&mut out, &[2, 2])?;
    out.extend_from_slice(b"ab")?;
    words(&mut out, &[0, 1, 64, 1, 0x11000, 3, 0, 0, 0, 3, 3])?;
    out.extend_from_slice(b"hi\n")?;
    words(&mut out, &[1])?;
    checkpoint(&mut out, 2, 0x10008, 1)?;
    page(alloc, &mut out, 7)?;
    end(&mut out, 3, 1)?;
    page(alloc, &mut out, 8)?;
    Ok(out)
}

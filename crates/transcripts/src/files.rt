//! The files of a page.

use crate::pieces::{Piece, pieces_of};
use crate::trouble::Trouble;
use outside::{GetFault, PutFault, Store};
use std::alloc::Global;

/// The most bytes of a page, of a file, and of what a command prints.
pub const MOST_BYTES: usize = 1_048_576;

/// The bytes of a file of the folder.
pub fn bytes_in<S: Store>(alloc: Global, folder: &mut S, name: &str) -> Result<Vec<u8>, Trouble> {
    match folder.get(alloc, name, MOST_BYTES as u64) {
        Ok(bytes) => Ok(bytes),
        Err(GetFault::Memory) => Err(Trouble::Memory),
        Err(_) => Err(Trouble::Unreadable(String::from_str(alloc, name)?)),
    }
}

/// The text of a file of the folder.
pub fn text_in<S: Store>(alloc: Global, folder: &mut S, name: &str) -> Result<String, Trouble> {
    match String::from_utf8(bytes_in(alloc, folder, name)?) {
        Ok(text) => Ok(text),
        Err(_) => Err(Trouble::Unreadable(String::from_str(alloc, name)?)),
    }
}

/// Gives a name of the folder these bytes.
pub fn put_in<S: Store>(
    alloc: Global,
    folder: &mut S,
    name: &str,
    bytes: &[u8],
) -> Result<(), Trouble> {
    match folder.put(alloc, name, bytes) {
        Ok(()) => Ok(()),
        Err(PutFault::Memory) => Err(Trouble::Memory),
        Err(PutFault::Failed) => Err(Trouble::Unreadable(String::from_str(alloc, name)?)),
    }
}

/// The bound that a text names, or the other one where there is no text.
fn bound(text: &str, other: usize) -> Result<usize, Trouble> {
    if text.is_empty() {
        return Ok(other);
    }
    text.parse::<usize>().map_err(|_| Trouble::Parts)
}

/// The bytes of a file from one place to another, as `[8..12]` says, where both may be missing.
fn slice_of<'a>(bytes: &'a [u8], range: &str) -> Result<&'a [u8], Trouble> {
    let Some((from, to)) = range.split_once("..") else {
        return Err(Trouble::Parts);
    };
    let (from, to) = (bound(from, 0)?, bound(to, bytes.len())?);
    bytes.get(from..to).ok_or(Trouble::Parts)
}

/// The bytes of a plain part: `NAME[A..B]` for those of another file from A up to B, else digits.
fn plain_part<S: Store>(alloc: Global, folder: &mut S, part: &str) -> Result<Vec<u8>, Trouble> {
    match part.split_once('[') {
        Some((name, range)) => {
            let bytes = bytes_in(alloc, folder, name)?;
            let range = range.strip_suffix(']').unwrap_or(range);
            Ok(Vec::from_slice(alloc, slice_of(&bytes, range)?)?)
        }
        None => hex::decode(alloc, part.as_bytes()).map_err(|_| Trouble::Parts),
    }
}

/// Adds a part to these bytes so many times more.
fn repeat(bytes: &mut Vec<u8>, part: &[u8], times: &str) -> Result<(), Trouble> {
    let times = times.parse::<usize>().map_err(|_| Trouble::Parts)?;
    for _ in 1..times {
        if bytes.len() > MOST_BYTES {
            return Err(Trouble::Parts);
        }
        bytes.extend_from_slice(part)?;
    }
    Ok(())
}

/// Adds a part to these bytes, and gives it.
fn add_part<S: Store>(
    alloc: Global,
    folder: &mut S,
    bytes: &mut Vec<u8>,
    piece: &Piece<'_>,
) -> Result<Vec<u8>, Trouble> {
    let part = match piece {
        Piece::Quoted(text) => Vec::from_slice(alloc, text.as_bytes())?,
        Piece::Plain(part) => plain_part(alloc, folder, part)?,
    };
    bytes.extend_from_slice(&part)?;
    Ok(part)
}

/// The number of times that a piece says its part stands, where it says that.
fn times_of<'a>(piece: &Piece<'a>) -> Option<&'a str> {
    match piece {
        Piece::Plain(word) => word.strip_prefix('*'),
        Piece::Quoted(_) => None,
    }
}

/// The bytes of parts: hexadecimal digits, text in quotes, bytes of another file, and `*N` for so
/// many times the part before it.
pub fn bytes_of<S: Store>(alloc: Global, folder: &mut S, parts: &str) -> Result<Vec<u8>, Trouble> {
    let mut bytes = Vec::new(alloc);
    let mut last = Vec::new(alloc);
    for piece in pieces_of(alloc, parts)?.iter() {
        match times_of(piece) {
            Some(times) => repeat(&mut bytes, &last, times)?,
            None => last = add_part(alloc, folder, &mut bytes, piece)?,
        }
    }
    Ok(bytes)
}

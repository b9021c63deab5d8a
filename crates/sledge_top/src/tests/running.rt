//! Runs commands over files in memory.

use crate::sledge;
use outside::{Gate, MemorySink, MemoryStore, MemoryWorld, NoGate, Sink, Store, World};
use std::alloc::Global;
use std::test::Fail;
use std::thread::Threads;

/// The words of a text with one blank between two.
pub fn words_of(alloc: Global, text: &str) -> Result<Vec<String>, Fail> {
    let mut words = Vec::new(alloc);
    for word in text.split_whitespace() {
        words.push(String::from_str(alloc, word)?)?;
    }
    Ok(words)
}

/// A store with one file, whose calls with these numbers fail.
pub fn store_of(
    alloc: Global,
    name: &str,
    bytes: &[u8],
    failing: &[u32],
) -> Result<MemoryStore, Fail> {
    let mut files = Vec::new(alloc);
    files.push((String::from_str(alloc, name)?, bytes.to_vec(alloc)?))?;
    Ok(MemoryStore::new(files, Vec::from_slice(alloc, failing)?))
}

/// The number that a command ends with.
pub fn ended<R: Threads + Sync, S: Store, W: World, O: Sink, E: Sink, G: Gate>(
    rt: &R,
    alloc: Global,
    words: &str,
    store: &mut S,
    world: &mut W,
    out: &mut O,
    err: &mut E,
    gate: &G,
) -> Result<u8, Fail> {
    let words = words_of(alloc, words)?;
    Ok(sledge(rt, alloc, &words, store, world, out, err, gate).code())
}

/// The number, the first and the second output of a command over a store and a world, as one text:
/// the number, a blank, and what was written.
pub fn told_over<R: Threads + Sync>(
    rt: &R,
    alloc: Global,
    store: &mut MemoryStore,
    world: &mut MemoryWorld,
    words: &str,
) -> Result<Vec<u8>, Fail> {
    told_at(rt, alloc, store, world, words, 400, &NoGate)
}

/// The same with so much room for the first output, and a gate.
pub fn told_at<R: Threads + Sync, G: Gate>(
    rt: &R,
    alloc: Global,
    store: &mut MemoryStore,
    world: &mut MemoryWorld,
    words: &str,
    room: usize,
    gate: &G,
) -> Result<Vec<u8>, Fail> {
    told_in(rt, alloc, store, world, words, (room, 150), gate)
}

/// The same with so much room for the first and for the second output.
pub fn told_in<R: Threads + Sync, S: Store, G: Gate>(
    rt: &R,
    alloc: Global,
    store: &mut S,
    world: &mut MemoryWorld,
    words: &str,
    rooms: (usize, usize),
    gate: &G,
) -> Result<Vec<u8>, Fail> {
    let mut out = MemorySink::new(alloc, rooms.0, Vec::new(alloc))?;
    let mut err = MemorySink::new(alloc, rooms.1, Vec::new(alloc))?;
    let number = ended(rt, alloc, words, store, world, &mut out, &mut err, gate)?;
    let mut text = format!(in alloc; "{number} ")?.into_bytes();
    text.extend_from_slice(out.bytes())?;
    text.extend_from_slice(err.bytes())?;
    Ok(text)
}

/// The same of a command over the file `a.rec`.
fn told<R: Threads + Sync>(
    rt: &R,
    alloc: Global,
    bytes: &[u8],
    words: &str,
) -> Result<Vec<u8>, Fail> {
    let mut store = store_of(alloc, "a.rec", bytes, &[])?;
    let mut world = MemoryWorld::new(Vec::new(alloc));
    told_over(rt, alloc, &mut store, &mut world, words)
}

/// Whether a command over the file `a.rec` ends with the number that begins this text, and writes
/// the rest.
pub fn tells<R: Threads + Sync>(
    rt: &R,
    alloc: Global,
    bytes: &[u8],
    words: &str,
    text: &str,
) -> Result<bool, Fail> {
    Ok(told(rt, alloc, bytes, words)?.as_slice() == text.as_bytes())
}

/// A text with a value in the place of each such character.
pub fn filled(alloc: Global, text: &str, hole: char, value: &str) -> Result<String, Fail> {
    let mut whole = String::new(alloc);
    for c in text.chars() {
        if c == hole {
            whole.push_str(value)?;
        } else {
            whole.push(c)?;
        }
    }
    Ok(whole)
}

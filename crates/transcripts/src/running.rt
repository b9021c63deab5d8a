//! A command of a page, run over the files of its folder.

use crate::files::{MOST_BYTES, bytes_in};
use crate::pieces::{Piece, pieces_of};
use crate::trouble::Trouble;
use crate::world::Outside;
use outside::{MemorySink, NoGate, Store};
use sl_base::Memory;
use sledge_top::sledge;
use std::alloc::Global;
use std::fmt::Write;
use std::thread::Threads;

/// The input of the program that a command records, which is empty where none is named.
fn input_of<S: Store>(
    alloc: Global,
    folder: &mut S,
    input: Option<&str>,
) -> Result<Vec<u8>, Trouble> {
    match input {
        Some(name) => bytes_in(alloc, folder, name),
        None => Ok(Vec::new(alloc)),
    }
}

/// The words of a command.
fn words_of(alloc: Global, command: &str) -> Result<Vec<String>, Memory> {
    let mut words = Vec::new(alloc);
    for piece in pieces_of(alloc, command)?.iter() {
        let word = match piece {
            Piece::Quoted(word) => word,
            Piece::Plain(word) => word,
        };
        words.push(String::from_str(alloc, word)?)?;
    }
    Ok(words)
}

/// What a command came to.
#[derive(Debug, Drop)]
struct Outcome {
    /// What its program wrote, and then its own text.
    written: Vec<u8>,
    /// The line of its refusal.
    fault: Vec<u8>,
    status: u8,
}

/// Runs a command.
fn run<R: Threads + Sync, S: Store>(
    rt: &R,
    alloc: Global,
    words: &[String],
    folder: &mut S,
    outside: &mut Outside,
) -> Result<Outcome, Trouble> {
    let mut out = MemorySink::new(alloc, MOST_BYTES, Vec::new(alloc))?;
    let mut err = MemorySink::new(alloc, MOST_BYTES, Vec::new(alloc))?;
    let status = sledge(
        rt, alloc, words, folder, outside, &mut out, &mut err, &NoGate,
    );
    let mut written = Vec::from_slice(alloc, outside.written())?;
    written.extend_from_slice(out.bytes())?;
    Ok(Outcome {
        written,
        fault: Vec::from_slice(alloc, err.bytes())?,
        status: status.code(),
    })
}

/// Adds the lines of some bytes, each after a mark and with a line feed.
fn add_lines(text: &mut String, alloc: Global, mark: &str, bytes: &[u8]) -> Result<(), Trouble> {
    let lines = String::from_utf8_lossy(alloc, bytes)?;
    for line in lines.lines() {
        text.push_str(mark)?;
        text.push_str(line)?;
        text.push('\n')?;
    }
    Ok(())
}

/// The text of an outcome, as a page shows it: what was written, the line of the refusal after `2>`,
/// and the status in brackets where it isn't 0.
fn text_of(alloc: Global, outcome: &Outcome) -> Result<String, Trouble> {
    let mut text = String::new(alloc);
    add_lines(&mut text, alloc, "", &outcome.written)?;
    add_lines(&mut text, alloc, "2> ", &outcome.fault)?;
    let status = outcome.status;
    if status != 0 {
        writeln!(text, "[{status}]")?;
    }
    Ok(text)
}

/// What a command with these words and this input comes to, as a page shows it.
pub fn printed<R: Threads + Sync, S: Store>(
    rt: &R,
    alloc: Global,
    folder: &mut S,
    words: &str,
    input: Option<&str>,
) -> Result<String, Trouble> {
    let words = words_of(alloc, words)?;
    let mut outside = Outside::new(alloc, input_of(alloc, folder, input)?);
    let outcome = run(rt, alloc, &words, folder, &mut outside)?;
    text_of(alloc, &outcome)
}

//! A page run from its first line to its last.

use crate::files::{bytes_of, put_in};
use crate::page::{Item, What, items_of};
use crate::running::printed;
use crate::trouble::Trouble;
use outside::Store;
use sl_base::Memory;
use std::alloc::Global;
use std::fmt::Write;
use std::thread::Threads;

/// What a page came to.
#[derive(Debug, Drop)]
pub struct Comparison {
    /// How many commands it has.
    pub commands: u64,
    /// How many of them print something else than the page shows.
    pub differing: u64,
    /// The page, the line and both texts of each of these.
    pub report: String,
}

/// Puts a file of a text.
fn put_text<S: Store>(
    alloc: Global,
    folder: &mut S,
    name: &str,
    text: &str,
    below: &str,
) -> Result<(), Trouble> {
    let text = if text.is_empty() { below } else { text };
    put_in(alloc, folder, name, text.as_bytes())
}

/// Puts a file of parts.
fn put_bytes<S: Store>(
    alloc: Global,
    folder: &mut S,
    name: &str,
    parts: &str,
    below: &str,
) -> Result<(), Trouble> {
    let parts = format!(in alloc; "{parts}\n{below}")?;
    let bytes = bytes_of(alloc, folder, parts.as_str())?;
    put_in(alloc, folder, name, &bytes)
}

/// Adds a text with an indent before each line.
fn add_indented(report: &mut String, text: &str) -> Result<(), Memory> {
    for line in text.lines() {
        report.push_str("    ")?;
        report.push_str(line)?;
        report.push('\n')?;
    }
    Ok(())
}

/// Adds the place of a command, and both texts.
fn add_difference(
    report: &mut String,
    page: &str,
    line: usize,
    shown: &str,
    found: &str,
) -> Result<(), Trouble> {
    writeln!(report, "{page}, line {line}: the page shows")?;
    add_indented(report, shown)?;
    writeln!(report, "and the command prints")?;
    Ok(add_indented(report, found)?)
}

/// Counts a command that prints `found`.
fn compare(
    comparison: &mut Comparison,
    page: &str,
    item: &Item<'_>,
    found: &str,
) -> Result<(), Trouble> {
    comparison.commands = comparison.commands.saturating_add(1);
    if found == item.below.as_str() {
        return Ok(());
    }
    comparison.differing = comparison.differing.saturating_add(1);
    add_difference(
        &mut comparison.report,
        page,
        item.line,
        item.below.as_str(),
        found,
    )
}

/// Does what an item says.
fn follow<R: Threads + Sync, S: Store>(
    rt: &R,
    alloc: Global,
    folder: &mut S,
    page: &str,
    item: &Item<'_>,
    comparison: &mut Comparison,
) -> Result<(), Trouble> {
    let below = item.below.as_str();
    match &item.what {
        What::Text { name, text } => put_text(alloc, folder, name, text, below),
        What::Bytes { name, parts } => put_bytes(alloc, folder, name, parts, below),
        What::Command { words, input } => {
            let found = printed(rt, alloc, folder, words, *input)?;
            compare(comparison, page, item, found.as_str())
        }
    }
}

/// Runs the items of a page of this name over the files of its folder.
pub fn run_page<R: Threads + Sync, S: Store>(
    rt: &R,
    alloc: Global,
    folder: &mut S,
    name: &str,
    page: &str,
) -> Result<Comparison, Trouble> {
    let mut comparison = Comparison {
        commands: 0,
        differing: 0,
        report: String::new(alloc),
    };
    for item in items_of(alloc, page)?.iter() {
        follow(rt, alloc, folder, name, item, &mut comparison)?;
    }
    Ok(comparison)
}

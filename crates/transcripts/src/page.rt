//! A page: the files that it gives and the commands that it runs, in order.

use sl_base::Memory;
use std::alloc::Global;

/// What a line of a page begins, with the lines below it.
#[derive(Debug, Drop)]
pub struct Item<'a> {
    /// The line of the page that begins it, from 1 on.
    pub line: usize,
    pub what: What<'a>,
    /// The lines below it, each with a line feed.
    pub below: String,
}

/// What a line of a page begins.
#[derive(Debug, PartialEq, Eq, Drop)]
pub enum What<'a> {
    /// A file of this text, or of the lines below where nothing stands on the line itself.
    Text {
        name: &'a str,
        text: &'a str,
    },
    /// A file of bytes: its parts on the line, which go on below.
    Bytes {
        name: &'a str,
        parts: &'a str,
    },
    /// A command by its words, and the file that the program it records reads as its input. Below
    /// stands what it prints.
    Command {
        words: &'a str,
        input: Option<&'a str>,
    },
}

/// A line of a page that is shown as it stands, without its indent.
fn shown_line(line: &str) -> Option<&str> {
    line.strip_prefix("    ")
}

/// The command of a line, where it has one.
fn command_of(line: &str) -> Option<What<'_>> {
    let command = line.strip_prefix("$ sledge")?;
    match command.split_once(" < ") {
        Some((words, input)) => Some(What::Command {
            words,
            input: Some(input),
        }),
        None => Some(What::Command {
            words: command,
            input: None,
        }),
    }
}

/// The name of a file, and what stands on its line after `NAME:` and a space.
fn name_and_rest(line: &str) -> Option<(&str, &str)> {
    let (name, rest) = line.split_once(':')?;
    Some((name, rest.strip_prefix(' ').unwrap_or(rest)))
}

/// The file that a line begins, where it does.
fn file_of(line: &str) -> Option<What<'_>> {
    match line.strip_prefix("file ") {
        Some(given) => {
            let (name, text) = name_and_rest(given)?;
            Some(What::Text { name, text })
        }
        None => {
            let (name, parts) = name_and_rest(line.strip_prefix("bytes ")?)?;
            Some(What::Bytes { name, parts })
        }
    }
}

/// What a shown line begins, where it begins something.
fn beginning_of(line: &str) -> Option<What<'_>> {
    match command_of(line) {
        Some(command) => Some(command),
        None => file_of(line),
    }
}

/// Adds a line below the last item. Without an item it belongs to none.
fn add_below(items: &mut [Item<'_>], line: &str) -> Result<(), Memory> {
    if let Some(item) = items.last_mut() {
        item.below.push_str(line)?;
        item.below.push('\n')?;
    }
    Ok(())
}

/// The items of a page in order. An item begins with an indented line, and the indented lines right
/// below it belong to it, up to the next item.
pub fn items_of(alloc: Global, page: &str) -> Result<Vec<Item<'_>>, Memory> {
    let mut items = Vec::new(alloc);
    let mut is_inside = false;
    for (index, line) in page.lines().enumerate() {
        let Some(shown) = shown_line(line) else {
            is_inside = false;
            continue;
        };
        if let Some(what) = beginning_of(shown) {
            items.push(Item {
                line: index.saturating_add(1),
                what,
                below: String::new(alloc),
            })?;
            is_inside = true;
        } else if is_inside {
            add_below(&mut items, shown)?;
        }
    }
    Ok(items)
}

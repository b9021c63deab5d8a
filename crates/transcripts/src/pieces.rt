//! Words with quotes.

use sl_base::Memory;
use std::alloc::Global;

/// A word of a line.
#[derive(Debug, PartialEq, Eq, Drop)]
pub enum Piece<'a> {
    /// What stands between two quotes `'`, which may be empty or have spaces.
    Quoted(&'a str),
    /// A word without spaces and quotes.
    Plain(&'a str),
}

/// Adds the plain words of a text.
fn add_plain<'a>(pieces: &mut Vec<Piece<'a>>, text: &'a str) -> Result<(), Memory> {
    for word in text.split_whitespace() {
        pieces.push(Piece::Plain(word))?;
    }
    Ok(())
}

/// The words of a text in order.
pub fn pieces_of(alloc: Global, text: &str) -> Result<Vec<Piece<'_>>, Memory> {
    let mut pieces = Vec::new(alloc);
    let mut is_quoted = false;
    for part in text.split('\'') {
        if is_quoted {
            pieces.push(Piece::Quoted(part))?;
        } else {
            add_plain(&mut pieces, part)?;
        }
        is_quoted = !is_quoted;
    }
    Ok(pieces)
}

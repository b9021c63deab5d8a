//! Tokens.

ghost use Rattle.std.specs.Prelude.{◌≡◌, ◌≤◌, ◌==◌, not, length, IfOk, All};
ghost use Rattle.std.specs.List.{prefix_len};
ghost use Rattle.tracer_text.specs.Tokens.{is_blank, is_run_byte, begins_token, more_of, tokens_of, IsWithin};

use memchr::memchr;
use sl_base::Memory;
use std::alloc::Global;

/// The most bytes of a text that are read: one more than a script may have.
pub(crate) const MOST_READ: usize = 65_537;

/// A parenthesis, a name, a number, or a byte that can stand in none of them.
#[derive(Clone, Copy, Debug, PartialEq, Eq)]
pub struct Token {
    /// The offset of its first byte.
    pub place: u32,
    /// The offset after its last byte.
    pub end: u32,
}

fn is_blank(byte: u8) -> bool
    ensures { result ≡ is_blank byte }
{
    byte == b' ' || byte == b'\t' || byte == b'\r' || byte == b'\n'
}

pub(crate) fn is_run_byte(byte: u8) -> bool
    ensures { result ≡ is_run_byte byte }
{
    byte >= b'!' && byte <= b'~' && !(byte == b'(' || byte == b')' || byte == b';')
}

fn begins_token(byte: u8) -> bool
    ensures { result ≡ begins_token byte }
{
    !(is_blank(byte) || byte == b';')
}

/// How many bytes at the front belong to names and numbers.
fn run_len(bytes: &[u8]) -> usize
    ensures { result ≡ prefix_len is_run_byte bytes.now }
{
    for (i, byte) in bytes.iter().enumerate() {
        if !is_run_byte(*byte) {
            return i;
        }
    }
    bytes.len()
}

/// How many bytes stand before the next line end.
fn comment_len(bytes: &[u8]) -> usize
    ensures { result ≡ prefix_len (λ c. not (c == 10)) bytes.now }
{
    match memchr(b'\n', bytes) {
        Some(end) => end,
        None => bytes.len(),
    }
}

/// How many of the bytes after it belong to what a byte begins.
fn more_of(byte: u8, after: &[u8]) -> usize
    ensures value { result ≡ more_of byte after.now }
    ensures within { result ≤ length after.now }
{
    if byte == b';' {
        comment_len(after)
    } else if is_run_byte(byte) {
        run_len(after)
    } else {
        0
    }
}

/// The tokens of a text, in order.
pub(crate) fn tokens_of(alloc: Global, text: &[u8]) -> Result<Vec<Token>, Memory>
    requires { length text.now ≤ MOST_READ }
    ensures tokens { IfOk result (λ all. all.items ≡ tokens_of text.now) }
    ensures within { IfOk result (λ all. All (IsWithin (length text.now)) all.items) }
{
    let mut all = Vec::new(alloc);
    let mut place = 0;
    while place < text.len() {
        let byte = text[place];
        let end = place + 1 + more_of(byte, &text[place + 1..]);
        if begins_token(byte) {
            let token = Token {
                place: place as u32,
                end: end as u32,
            };
            all.push(token)?;
        }
        place = end;
    }
    Ok(all)
}

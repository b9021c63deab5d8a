//! The first pass: bytes, parentheses and size.

ghost use Rattle.std.specs.Prelude.{◌≡◌, ◌<◌, ◌≤◌, length, IfOk, All};
ghost use Rattle.sl_base.specs.Refusals.{Gives};
ghost use Rattle.tracer_text.specs.Tokens.{IsWithin};
ghost use Rattle.tracer_text.specs.FirstPass.{cause_at, nodes_after, depth_after, fault_at_end, fault_from, read_part, first_pass, is_stray};

use crate::fault::{ScriptCause, ScriptFault};
use crate::token::{MOST_READ, Token, is_run_byte, tokens_of};
use sl_base::Refused;
use std::alloc::Global;

/// The most bytes of a script.
const MOST_BYTES: u32 = 65_536;

/// The most nodes of a script.
const MOST_NODES: u32 = 4_096;

/// The most lists that are depth at one place.
const MOST_DEPTH: u32 = 64;

fn is_stray(byte: u8) -> bool
    ensures { result ≡ is_stray byte }
{
    !(is_run_byte(byte) || byte == b'(' || byte == b')')
}

/// The rule that a token breaks which begins with this byte, behind so many nodes and with so many
/// lists open.
fn cause_at(place: u32, byte: u8, nodes: u32, depth: u32) -> Option<ScriptCause>
    ensures { result ≡ cause_at place byte nodes depth }
{
    if is_stray(byte) {
        Some(ScriptCause::Byte)
    } else if byte == b')' && depth == 0 {
        Some(ScriptCause::Paren)
    } else if place == MOST_BYTES || byte != b')' && nodes == MOST_NODES {
        Some(ScriptCause::TooLarge)
    } else if byte == b'(' && depth == MOST_DEPTH {
        Some(ScriptCause::TooDeep)
    } else {
        None
    }
}

/// The fault at the end of the text, with so many lists open.
fn fault_at_end(len: u32, depth: u32) -> Option<ScriptFault>
    ensures { result ≡ fault_at_end len depth }
{
    if len > MOST_BYTES {
        Some(ScriptFault {
            place: MOST_BYTES,
            cause: ScriptCause::TooLarge,
        })
    } else if depth == 0 {
        None
    } else {
        Some(ScriptFault {
            place: len,
            cause: ScriptCause::Paren,
        })
    }
}

/// The first fault of a text with these tokens.
fn first_fault(text: &[u8], tokens: &[Token]) -> Option<ScriptFault>
    requires text { length text.now ≤ 65537 }
    requires within { All (IsWithin (length text.now)) tokens.now }
    ensures { result ≡ fault_from text.now 0 0 tokens.now }
{
    let mut nodes = 0;
    let mut depth = 0;
    for token in tokens {
        let byte = text[token.place as usize];
        if let Some(cause) = cause_at(token.place, byte, nodes, depth) {
            let place = token.place;
            return Some(ScriptFault { place, cause });
        }
        match byte {
            b'(' => {
                nodes += 1;
                depth += 1;
            }
            b')' => depth -= 1,
            _ => nodes += 1,
        }
    }
    fault_at_end(text.len() as u32, depth)
}

/// What is read of a text: no more than one byte too many.
fn read_part(text: &[u8]) -> &[u8]
    ensures { result.now ≡ read_part text.now }
{
    if text.len() > MOST_READ {
        &text[..MOST_READ]
    } else {
        text
    }
}

/// The tokens of a text, or its first fault.
pub fn first_pass(alloc: Global, text: &[u8]) -> Result<Vec<Token>, Refused<ScriptFault>>
    ensures tells { Gives (λ tokens. tokens.items) result (first_pass text.now) }
    ensures within { IfOk result (λ tokens. All (IsWithin (length text.now)) tokens.items) }
{
    let text = read_part(text);
    let tokens = tokens_of(alloc, text)?;
    match first_fault(text, tokens.as_slice()) {
        None => Ok(tokens),
        Some(fault) => Err(Refused::Fault(fault)),
    }
}

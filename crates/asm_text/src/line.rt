//! The parts of a line.

ghost use Rattle.std.specs.Prelude.{◌≡◌, ◌+◌, ◌≤◌, ◌<◌, length, MatchOption, true, false};
ghost use Rattle.std.specs.List.{before_first};
ghost use Rattle.asm_text.specs.Lines.{without_comment, code_of, has_label, front_name, behind_label, statement_text, operand_text};

use crate::bytes::{name_len, without_front_blanks};
use memchr::memchr;

/// What stands before the comment, which `#` starts.
fn without_comment(line: &[u8]) -> &[u8]
    ensures value { result.now ≡ without_comment line.now }
    ensures within { length result.now ≤ length line.now }
{
    match memchr(b'#', line) {
        Some(end) => &line[..end],
        None => line,
    }
}

/// What stands before a line's comment, less the blanks at its front.
pub fn code_of(line: &[u8]) -> &[u8]
    ensures value { result.now ≡ code_of line.now }
    ensures within { length result.now ≤ length line.now }
{
    without_front_blanks(without_comment(line))
}

/// The name of the label at the front, and what stands behind it and blanks.
pub fn first_label(code: &[u8]) -> Option<(&[u8], &[u8])>
    ensures value { MatchOption result (has_label code.now ≡ false) (λ found.
        (has_label code.now ≡ true) × (found.0.now ≡ front_name code.now)
        × (found.1.now ≡ behind_label code.now)) }
    ensures within { MatchOption result (has_label code.now ≡ false)
        (λ found. length found.1.now < length code.now) }
{
    let len = name_len(code);
    if len > 0 && len < code.len() && code[len] == b':' {
        Some((&code[..len], without_front_blanks(&code[len + 1..])))
    } else {
        None
    }
}

/// The directive or the instruction of a line, which may be empty.
pub fn statement_text(line: &[u8]) -> &[u8]
    ensures value { result.now ≡ statement_text line.now }
    ensures within { length result.now ≤ length line.now }
{
    let mut code = code_of(line);
    while let Some((_, after)) = first_label(code) {
        code = after;
    }
    code
}

/// What stands behind the name at the front of a statement.
pub fn operand_text(statement: &[u8]) -> &[u8]
    ensures value { result.now ≡ operand_text statement.now }
    ensures within { length result.now ≤ length statement.now }
{
    &statement[name_len(statement)..]
}

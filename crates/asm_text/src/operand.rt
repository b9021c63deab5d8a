//! Operands.

ghost use Rattle.std.specs.Prelude.{◌≡◌, ◌+◌, ◌≤◌, ◌<◌, [], ◌∷◌, length, MatchOption};
ghost use Rattle.std.specs.List.{before_first, after_first};
ghost use Rattle.asm_text.specs.Operands.{pieces, one, two, three, last_of, register, number, label, offset, target, opens, in_parentheses, address, two_registers, three_registers, register_and_number, registers_and_number, register_and_address, register_and_target, registers_and_target, register_and_label};
ghost use Rattle.asm_text.specs.Views.{Gives};

use crate::bytes::{is_name, trimmed};
use crate::fault::AsmCause;
use crate::number::{Number, is_offset, number_of};
use crate::register::register_named;
use memchr::memchr;
use rv_decode::Register;

/// Where a jump goes.
#[derive(Clone, Copy, Debug, PartialEq, Eq)]
pub enum Target {
    /// So far from the jump itself.
    Offset(Number),
    /// To the label that the last operand names.
    Label,
}

/// The first operand, and the text of the others if there are any.
pub fn first_piece(text: &[u8]) -> (&[u8], Option<&[u8]>)
    ensures pieces { MatchOption result.1 (pieces text.now ≡ result.0.now ∷ [])
        (λ rest. pieces text.now ≡ result.0.now ∷ pieces rest.now) }
    ensures within { MatchOption result.1 (pieces text.now ≡ result.0.now ∷ [])
        (λ rest. length rest.now < length text.now) }
{
    match memchr(b',', text) {
        Some(end) => (trimmed(&text[..end]), Some(&text[end + 1..])),
        None => (trimmed(text), None),
    }
}

/// The last operand.
pub fn last_piece(text: &[u8]) -> &[u8]
    ensures { result.now ≡ last_of (pieces text.now) }
{
    let mut rest = text;
    loop {
        match first_piece(rest) {
            (last, None) => return last,
            (_, Some(after)) => rest = after,
        }
    }
}

/// How many operands there are.
pub fn piece_count(text: &[u8]) -> usize
    ensures value { result ≡ length (pieces text.now) }
    ensures most { result ≤ length text.now + 1 }
{
    let mut count = 0;
    let mut rest = text;
    loop {
        count += 1;
        match first_piece(rest) {
            (_, None) => return count,
            (_, Some(after)) => rest = after,
        }
    }
}

/// The only operand.
pub fn one(text: &[u8]) -> Result<&[u8], AsmCause>
    ensures { Gives (λ a. a.now) result (one (pieces text.now)) }
{
    match first_piece(text) {
        (a, None) => Ok(a),
        (_, Some(_)) => Err(AsmCause::Operand),
    }
}

/// The two operands.
pub fn two(text: &[u8]) -> Result<(&[u8], &[u8]), AsmCause>
    ensures { Gives (λ p. (p.0.now, p.1.now)) result (two (pieces text.now)) }
{
    let (a, rest) = first_piece(text);
    let Some(rest) = rest else {
        return Err(AsmCause::Operand);
    };
    match first_piece(rest) {
        (b, None) => Ok((a, b)),
        (_, Some(_)) => Err(AsmCause::Operand),
    }
}

/// The three operands.
pub fn three(text: &[u8]) -> Result<(&[u8], &[u8], &[u8]), AsmCause>
    ensures { Gives (λ p. (p.0.now, p.1.now, p.2.now)) result (three (pieces text.now)) }
{
    let (a, rest) = first_piece(text);
    let Some(rest) = rest else {
        return Err(AsmCause::Operand);
    };
    let (b, rest) = first_piece(rest);
    let Some(rest) = rest else {
        return Err(AsmCause::Operand);
    };
    match first_piece(rest) {
        (c, None) => Ok((a, b, c)),
        (_, Some(_)) => Err(AsmCause::Operand),
    }
}

pub fn register(piece: &[u8]) -> Result<Register, AsmCause>
    ensures { result ≡ register piece.now }
{
    register_named(piece).ok_or(AsmCause::Operand)
}

pub fn number(piece: &[u8]) -> Result<Number, AsmCause>
    ensures { result ≡ number piece.now }
{
    number_of(piece).ok_or(AsmCause::Operand)
}

/// A name that is to be a label's.
pub fn label(piece: &[u8]) -> Result<Target, AsmCause>
    ensures { result ≡ label piece.now }
{
    if is_name(piece) {
        Ok(Target::Label)
    } else {
        Err(AsmCause::Operand)
    }
}

/// A number as an offset of a jump that reaches so far back.
fn offset(reach: u64, number: Number) -> Result<Target, AsmCause>
    requires { 2 ≤ reach }
    ensures { result ≡ offset reach number }
{
    if is_offset(reach, number) {
        Ok(Target::Offset(number))
    } else {
        Err(AsmCause::Range)
    }
}

/// An offset or a label.
fn jump_target(reach: u64, piece: &[u8]) -> Result<Target, AsmCause>
    requires { 2 ≤ reach }
    ensures { result ≡ target reach piece.now }
{
    match number_of(piece) {
        Some(number) => offset(reach, number),
        None => label(piece),
    }
}

/// The register behind an opening parenthesis and before a closing one.
fn in_parentheses(text: &[u8]) -> Result<Register, AsmCause>
    ensures { result ≡ in_parentheses text.now }
{
    match text {
        [name @ .., b')'] => register(trimmed(name)),
        _ => Err(AsmCause::Operand),
    }
}

/// What stands before the first opening parenthesis, and what stands behind it.
fn at_parenthesis(piece: &[u8]) -> (&[u8], &[u8])
    ensures before { result.0.now ≡ before_first opens piece.now }
    ensures after { result.1.now ≡ after_first opens piece.now }
{
    match memchr(b'(', piece) {
        Some(open) => (&piece[..open], &piece[open + 1..]),
        None => (piece, &[]),
    }
}

/// A number, and a register in parentheses.
fn address(piece: &[u8]) -> Result<(Number, Register), AsmCause>
    ensures { result ≡ address piece.now }
{
    let (offset, base) = at_parenthesis(piece);
    let offset = number(trimmed(offset))?;
    let base = in_parentheses(base)?;
    Ok((offset, base))
}

pub fn two_registers(text: &[u8]) -> Result<(Register, Register), AsmCause>
    ensures { result ≡ two_registers text.now }
{
    let (a, b) = two(text)?;
    Ok((register(a)?, register(b)?))
}

pub fn three_registers(text: &[u8]) -> Result<(Register, Register, Register), AsmCause>
    ensures { result ≡ three_registers text.now }
{
    let (a, b, c) = three(text)?;
    Ok((register(a)?, register(b)?, register(c)?))
}

pub fn register_and_number(text: &[u8]) -> Result<(Register, Number), AsmCause>
    ensures { result ≡ register_and_number text.now }
{
    let (a, b) = two(text)?;
    Ok((register(a)?, number(b)?))
}

pub fn registers_and_number(text: &[u8]) -> Result<(Register, Register, Number), AsmCause>
    ensures { result ≡ registers_and_number text.now }
{
    let (a, b, c) = three(text)?;
    Ok((register(a)?, register(b)?, number(c)?))
}

pub fn register_and_address(text: &[u8]) -> Result<(Register, Number, Register), AsmCause>
    ensures { result ≡ register_and_address text.now }
{
    let (a, b) = two(text)?;
    let register = register(a)?;
    let (offset, base) = address(b)?;
    Ok((register, offset, base))
}

pub fn register_and_target(reach: u64, text: &[u8]) -> Result<(Register, Target), AsmCause>
    requires { 2 ≤ reach }
    ensures { result ≡ register_and_target reach text.now }
{
    let (a, b) = two(text)?;
    Ok((register(a)?, jump_target(reach, b)?))
}

pub fn registers_and_target(
    reach: u64,
    text: &[u8],
) -> Result<(Register, Register, Target), AsmCause>
    requires { 2 ≤ reach }
    ensures { result ≡ registers_and_target reach text.now }
{
    let (a, b, c) = three(text)?;
    Ok((register(a)?, register(b)?, jump_target(reach, c)?))
}

pub fn register_and_label(text: &[u8]) -> Result<(Register, Target), AsmCause>
    ensures { result ≡ register_and_label text.now }
{
    let (a, b) = two(text)?;
    Ok((register(a)?, label(b)?))
}

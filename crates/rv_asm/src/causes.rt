//! The causes of a line that depend on labels, on its place and on what stands before it.

ghost use Rattle.std.specs.Prelude.{◌≡◌, ◌+◌, ◌<◌, ◌≤◌, ◌^◌, length, IfNone};
ghost use Rattle.std.specs.List.{list_any};
ghost use Rattle.asm_text.specs.Operands.{pieces};
ghost use Rattle.rv_asm.specs.Places.{offset, after_statement};
ghost use Rattle.rv_asm.specs.Lines.{here, distance, label_offset, jump_offset, offset_cause, target_cause, unknown, is_unknown, label_cause, doubled_cause, section_cause, is_too_large, size_cause, statement_cause};

use crate::place::Place;
use crate::sizes::{after_statement, is_misplaced, spot_of};
use crate::table::{Table, address_of};
use asm_text::{
    AsmCause, BRANCH_REACH, JUMP_REACH, Number, Statement, Target, Width, first_piece, is_offset,
    last_piece, number_of,
};

/// How far it is from one address to another.
fn distance(from: u64, to: u64) -> Number
    ensures { result ≡ distance from to }
{
    if from <= to {
        Number {
            is_negative: false,
            magnitude: to - from,
        }
    } else {
        Number {
            is_negative: true,
            magnitude: from - to,
        }
    }
}

/// How far it is to the label that the last operand names, unless it isn't there.
fn label_offset(table: &Table<'_>, place: Place, text: &[u8]) -> Option<Number>
    requires start { table.now.data_start < 2 ^ 63 }
    requires offset { offset place < 2 ^ 62 }
    ensures { result ≡ label_offset table.now place text.now }
{
    let to = table.value(last_piece(text))?;
    Some(distance(address_of(table.data_start, spot_of(place)), to))
}

/// How far a jump goes, unless it goes to a label that isn't there.
pub fn jump_offset(table: &Table<'_>, place: Place, text: &[u8], target: Target) -> Option<Number>
    requires start { table.now.data_start < 2 ^ 63 }
    requires offset { offset place < 2 ^ 62 }
    ensures { result ≡ jump_offset table.now place text.now target }
{
    match target {
        Target::Offset(number) => Some(number),
        Target::Label => label_offset(table, place, text),
    }
}

fn offset_cause(reach: u64, offset: Option<Number>) -> Option<AsmCause>
    requires { 2 ≤ reach }
    ensures { result ≡ offset_cause reach offset }
{
    match offset {
        Some(number) if is_offset(reach, number) => None,
        Some(_) => Some(AsmCause::Range),
        None => Some(AsmCause::UnknownLabel),
    }
}

/// A number that is an offset fits where it stands, or the line says nothing that can be read.
fn target_cause(
    reach: u64,
    table: &Table<'_>,
    place: Place,
    text: &[u8],
    target: Target,
) -> Option<AsmCause>
    requires reach { 2 ≤ reach }
    requires start { table.now.data_start < 2 ^ 63 }
    requires offset { offset place < 2 ^ 62 }
    ensures { result ≡ target_cause reach table.now place text.now target }
{
    match target {
        Target::Offset(_) => None,
        Target::Label => offset_cause(reach, label_offset(table, place, text)),
    }
}

fn unknown(is_unknown: bool) -> Option<AsmCause>
    ensures { result ≡ unknown is_unknown }
{
    if is_unknown {
        Some(AsmCause::UnknownLabel)
    } else {
        None
    }
}

/// Whether an operand is a name that no label has.
fn is_unknown(table: &Table<'_>, piece: &[u8]) -> bool
    requires { table.now.data_start < 2 ^ 63 }
    ensures { result ≡ is_unknown table.now piece.now }
{
    number_of(piece).is_none() && table.value(piece).is_none()
}

/// Whether some operand is a name that no label has.
fn has_unknown(table: &Table<'_>, text: &[u8]) -> bool
    requires { table.now.data_start < 2 ^ 63 }
    ensures { result ≡ list_any (is_unknown table.now) (pieces text.now) }
{
    let mut rest = text;
    loop {
        let (piece, after) = first_piece(rest);
        if is_unknown(table, piece) {
            return true;
        }
        match after {
            Some(after) => rest = after,
            None => return false,
        }
    }
}

/// A label that isn't there, or to which an offset doesn't fit.
#[tactic(auto, unfolding(crate::specs::Lines::label_cause))]
fn label_cause(
    table: &Table<'_>,
    place: Place,
    text: &[u8],
    statement: &Statement,
) -> Option<AsmCause>
    requires start { table.now.data_start < 2 ^ 63 }
    requires offset { offset place < 2 ^ 62 }
    ensures { result ≡ label_cause table.now place text.now statement.now }
{
    match statement {
        Statement::Jump { target, .. } => { target_cause(JUMP_REACH, table, place, text, *target) }
        Statement::Branch { target, .. } => {
            target_cause(BRANCH_REACH, table, place, text, *target)
        }
        Statement::Address { .. } => unknown(table.value(last_piece(text)).is_none()),
        Statement::Values(Width::Word) => unknown(has_unknown(table, text)),
        _ => None,
    }
}

/// A label of the line has an earlier label's name. Only the first such line is told.
fn doubled_cause(table: &Table<'_>, line: u32) -> Option<AsmCause>
    ensures { result ≡ doubled_cause table.now line }
{
    match table.labels.doubled_line() {
        Some(first) if first == line => Some(AsmCause::DoubledLabel),
        _ => None,
    }
}

fn section_cause(place: Place, statement: &Statement) -> Option<AsmCause>
    ensures { result ≡ section_cause place statement.now }
{
    if is_misplaced(place.section, statement) {
        Some(AsmCause::Section)
    } else {
        None
    }
}

fn is_too_large(place: Place) -> bool
    ensures { result ≡ is_too_large place }
{
    place.text_size > 0x10_0000 || place.data_size > 0x100_0000
}

fn size_cause(place: Place) -> Option<AsmCause>
    ensures { result ≡ size_cause place }
{
    if is_too_large(place) {
        Some(AsmCause::TooLarge)
    } else {
        None
    }
}

/// The least cause of what can be read of a line.
#[tactic(auto, unfolding(crate::specs::Lines::statement_cause))]
pub fn statement_cause(
    table: &Table<'_>,
    place: Place,
    line: u32,
    text: &[u8],
    statement: &Statement,
) -> Option<AsmCause>
    requires len { length text.now ≤ 2 ^ 20 }
    requires start { table.now.data_start < 2 ^ 63 }
    requires text_fits { place.text_size < 2 ^ 62 }
    requires data_fits { place.data_size < 2 ^ 62 }
    ensures value { result ≡ statement_cause table.now place line text.now statement.now }
    ensures text_small { IfNone result
        ((after_statement place text.now statement.now).text_size ≤ 2 ^ 20) }
    ensures data_small { IfNone result
        ((after_statement place text.now statement.now).data_size ≤ 2 ^ 24) }
{
    label_cause(table, place, text, statement)
        .or(doubled_cause(table, line))
        .or(section_cause(place, statement))
        .or(size_cause(after_statement(place, text, statement)))
}

//! How many bytes each line adds.

ghost use Rattle.std.specs.Prelude.{◌≡◌, ◌+◌, ◌*◌, ◌<◌, ◌≤◌, ◌^◌, length};
ghost use Rattle.asm_text.specs.Lines.{statement_text, operand_text};
ghost use Rattle.asm_text.specs.Statements.{statement_of};
ghost use Rattle.rv_asm.specs.Labels.{spot_of};
ghost use Rattle.rv_asm.specs.Places.{offset, is_instruction, is_data, is_misplaced, width_bytes, alignment_bytes, padding_size, size_at, size_in, entered, moved_in, after_statement, after_reading, place_after};

use crate::place::{Place, Spot};
use asm_text::{
    Alignment, AsmCause, Section, Statement, Width, operand_text, piece_count, statement_of,
    statement_text,
};

/// How many bytes of its section stand before a place.
pub fn offset(place: Place) -> u64
    ensures { result ≡ offset place }
{
    match place.section {
        Section::Text => place.text_size,
        Section::Data => place.data_size,
    }
}

/// A place in its section.
pub fn spot_of(place: Place) -> Spot
    ensures { result ≡ spot_of place }
{
    Spot {
        section: place.section,
        offset: offset(place),
    }
}

/// Whether a statement stands in text alone.
fn is_instruction(statement: &Statement) -> bool
    ensures { result ≡ is_instruction statement.now }
{
    matches!(
        statement,
        Statement::One(_)
            | Statement::Two(_, _)
            | Statement::Jump { .. }
            | Statement::Branch { .. }
            | Statement::Address { .. }
    )
}

/// Whether a statement stands in data alone.
fn is_data(statement: &Statement) -> bool
    ensures { result ≡ is_data statement.now }
{
    match statement {
        Statement::Values(width) => !matches!(*width, Width::Word),
        Statement::Space { .. } | Statement::Align(_) => true,
        _ => false,
    }
}

/// Whether a statement may not stand in a section.
pub fn is_misplaced(section: Section, statement: &Statement) -> bool
    ensures { result ≡ is_misplaced section statement.now }
{
    match section {
        Section::Text => is_data(statement),
        Section::Data => is_instruction(statement),
    }
}

/// How many bytes each value of a width takes.
fn width_bytes(width: Width) -> u64
    ensures value { result ≡ width_bytes width }
    ensures most { result ≤ 4 }
{
    match width {
        Width::Word => 4,
        Width::Half => 2,
        Width::Byte => 1,
    }
}

fn alignment_bytes(alignment: Alignment) -> u64
    ensures value { result ≡ alignment_bytes alignment }
    ensures some { 0 < result }
    ensures most { result ≤ 16 }
{
    match alignment {
        Alignment::One => 1,
        Alignment::Two => 2,
        Alignment::Four => 4,
        Alignment::Eight => 8,
        Alignment::Sixteen => 16,
    }
}

/// How many bytes lead from an offset to a multiple.
pub fn padding_size(alignment: Alignment, at: u64) -> u64
    ensures value { result ≡ padding_size alignment at }
    ensures most { result < 16 }
{
    let bytes = alignment_bytes(alignment);
    (bytes - at % bytes) % bytes
}

/// How many bytes a statement with these operands makes at an offset.
fn size_at(at: u64, text: &[u8], statement: &Statement) -> u64
    requires { length text.now ≤ 2 ^ 20 }
    ensures value { result ≡ size_at at text.now statement.now }
    ensures most { result < 2 ^ 35 }
{
    match statement {
        Statement::Nothing | Statement::Enter(_) => 0,
        Statement::One(_) | Statement::Jump { .. } | Statement::Branch { .. } => 4,
        Statement::Two(_, _) | Statement::Address { .. } => 8,
        Statement::Values(width) => width_bytes(*width) * piece_count(text) as u64,
        Statement::Space { size } => u64::from(*size),
        Statement::Align(alignment) => padding_size(*alignment, at),
    }
}

/// How many bytes a statement adds at a place: none if it may not stand there.
#[tactic(auto, unfolding(crate::specs::Places::size_in))]
fn size_in(place: Place, text: &[u8], statement: &Statement) -> u64
    requires { length text.now ≤ 2 ^ 20 }
    ensures value { result ≡ size_in place text.now statement.now }
    ensures most { result < 2 ^ 35 }
{
    if is_misplaced(place.section, statement) {
        0
    } else {
        size_at(offset(place), text, statement)
    }
}

/// So many bytes further in a section.
fn moved_in(section: Section, place: Place, size: u64) -> Place
    requires text_fits { place.text_size < 2 ^ 62 }
    requires data_fits { place.data_size < 2 ^ 62 }
    requires size { size < 2 ^ 35 }
    ensures value { result ≡ moved_in section place size }
    ensures text_fits { result.text_size < place.text_size + 2 ^ 35 }
    ensures data_fits { result.data_size < place.data_size + 2 ^ 35 }
{
    let Place {
        section: at,
        text_size,
        data_size,
    } = place;
    match section {
        Section::Text => Place {
            section: at,
            text_size: text_size + size,
            data_size,
        },
        Section::Data => Place {
            section: at,
            text_size,
            data_size: data_size + size,
        },
    }
}

/// In the section that a statement enters.
fn entered(statement: &Statement, place: Place) -> Place
    ensures value { result ≡ entered statement.now place }
    ensures text_fits { result.text_size ≡ place.text_size }
    ensures data_fits { result.data_size ≡ place.data_size }
{
    match statement {
        Statement::Enter(section) => Place {
            section: *section,
            text_size: place.text_size,
            data_size: place.data_size,
        },
        _ => place,
    }
}

/// The place behind a statement with these operands.
#[tactic(auto, unfolding(crate::specs::Places::after_statement))]
pub fn after_statement(place: Place, text: &[u8], statement: &Statement) -> Place
    requires len { length text.now ≤ 2 ^ 20 }
    requires text_fits { place.text_size < 2 ^ 62 }
    requires data_fits { place.data_size < 2 ^ 62 }
    ensures value { result ≡ after_statement place text.now statement.now }
    ensures text_fits { result.text_size < place.text_size + 2 ^ 35 }
    ensures data_fits { result.data_size < place.data_size + 2 ^ 35 }
{
    let size = size_in(place, text, statement);
    entered(statement, moved_in(place.section, place, size))
}

/// The place behind what was read of a line.
#[tactic(auto, unfolding(crate::specs::Places::after_reading))]
fn after_reading(place: Place, text: &[u8], reading: Result<Statement, AsmCause>) -> Place
    requires len { length text.now ≤ 2 ^ 20 }
    requires text_fits { place.text_size < 2 ^ 62 }
    requires data_fits { place.data_size < 2 ^ 62 }
    ensures value { result ≡ after_reading place text.now reading }
    ensures text_fits { result.text_size < place.text_size + 2 ^ 35 }
    ensures data_fits { result.data_size < place.data_size + 2 ^ 35 }
{
    match reading {
        Ok(statement) => after_statement(place, text, &statement),
        Err(_) => place,
    }
}

/// The place behind a line.
#[tactic(auto, unfolding(crate::specs::Places::place_after))]
pub fn place_after(place: Place, line: &[u8]) -> Place
    requires len { length line.now ≤ 2 ^ 20 }
    requires text_fits { place.text_size < 2 ^ 62 }
    requires data_fits { place.data_size < 2 ^ 62 }
    ensures value { result ≡ place_after place line.now }
    ensures text_fits { result.text_size < place.text_size + 2 ^ 35 }
    ensures data_fits { result.data_size < place.data_size + 2 ^ 35 }
{
    let text = statement_text(line);
    after_reading(place, operand_text(text), statement_of(text))
}

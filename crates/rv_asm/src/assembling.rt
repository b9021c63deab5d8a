//! The whole assembler.

ghost use Rattle.std.specs.Prelude.{◌≡◌, ◌<◌, ◌≤◌, ◌^◌, ◌++◌, length, IfOk, OnOk, None};
ghost use Rattle.std.specs.Str.Lines.{lines};
ghost use Rattle.sl_base.specs.Refusals.{Tells};
ghost use Rattle.elf_image.specs.Written.{IsWritable, written};
ghost use Rattle.asm_text.specs.declared.mnemonic.Section.TheVariants.{Text, Data};
ghost use Rattle.rv_asm.specs.Places.{start, place_after};
ghost use Rattle.rv_asm.specs.Lines.{line_cause, first_fault};
ghost use Rattle.rv_asm.specs.Output.{statement_bytes, line_bytes, of_section, bytes_in};
ghost use Rattle.rv_asm.specs.Assembly.{assembly};
ghost use Rattle.rv_asm.specs.Passes.{TellsCause, TellsFault};

use crate::causes::statement_cause;
use crate::image::{Program, image_from};
use crate::lines::first_line;
use crate::output::push_statement;
use crate::place::Place;
use crate::sizes::after_statement;
use crate::survey::survey;
use crate::table::Table;
use asm_text::{
    AsmCause, AsmFault, Section, Statement, operand_text, statement_of, statement_text,
};
use elf_image::Image;
use sl_base::Refused;
use std::alloc::{AllocError, Global};

/// The most bytes of a source.
const MOST_SOURCE: usize = 0x10_0000;

fn refusal(line: u32, cause: AsmCause) -> Refused<AsmFault>
    ensures { result ≡ Refused.Fault (record { line = line; cause = cause }) }
{
    Refused::Fault(AsmFault { line, cause })
}

/// Adds the bytes of a statement to its section.
fn push_in_section(
    program: &mut Program,
    table: &Table<'_>,
    place: Place,
    text: &[u8],
    statement: &Statement,
) -> Result<(), AllocError>
    requires start { table.now.data_start < 2 ^ 63 }
    requires text_fits { place.text_size ≤ 2 ^ 20 }
    requires data_fits { place.data_size ≤ 2 ^ 24 }
    ensures text_bytes { OnOk result (program.new.text_bytes.items ≡ program.old.text_bytes.items
        ++ of_section Text place.section (statement_bytes table.now place text.now statement.now)) }
    ensures data_bytes { OnOk result (program.new.data_bytes.items ≡ program.old.data_bytes.items
        ++ of_section Data place.section (statement_bytes table.now place text.now statement.now)) }
{
    match place.section {
        Section::Text => push_statement(&mut program.text_bytes, table, place, text, statement),
        Section::Data => push_statement(&mut program.data_bytes, table, place, text, statement),
    }
}

/// Adds the bytes of a line, and gives the place behind it.
#[tactic(auto, unfolding(crate::specs::Lines::line_cause, crate::specs::Lines::reading_cause, crate::specs::Places::place_after, crate::specs::Places::after_reading, crate::specs::Output::line_bytes, crate::specs::Output::reading_bytes))]
fn push_line(
    program: &mut Program,
    table: &Table<'_>,
    place: Place,
    number: u32,
    line: &[u8],
) -> Result<Place, Refused<AsmFault>>
    requires len { length line.now ≤ 2 ^ 20 }
    requires start { table.now.data_start < 2 ^ 63 }
    requires text_fits { place.text_size ≤ 2 ^ 20 }
    requires data_fits { place.data_size ≤ 2 ^ 24 }
    ensures cause { TellsCause result number (line_cause table.now place number line.now) }
    ensures next { IfOk result (λ next. next ≡ place_after place line.now) }
    ensures text_fits { OnOk result (program.new.text_bytes.items ≡ program.old.text_bytes.items
        ++ of_section Text place.section (line_bytes table.now place line.now)) }
    ensures data_fits { OnOk result (program.new.data_bytes.items ≡ program.old.data_bytes.items
        ++ of_section Data place.section (line_bytes table.now place line.now)) }
    ensures text_size { IfOk result (λ next. next.text_size ≤ 2 ^ 20) }
    ensures data_size { IfOk result (λ next. next.data_size ≤ 2 ^ 24) }
{
    let text = statement_text(line);
    let statement = match statement_of(text) {
        Ok(statement) => statement,
        Err(cause) => return Err(refusal(number, cause)),
    };
    let operands = operand_text(text);
    if let Some(cause) = statement_cause(table, place, number, operands, &statement) {
        return Err(refusal(number, cause));
    }
    push_in_section(program, table, place, operands, &statement)?;
    Ok(after_statement(place, operands, &statement))
}

/// The bytes of all lines, or the first fault.
fn assemble_lines(
    alloc: Global,
    table: &Table<'_>,
    source: &[u8],
) -> Result<Program, Refused<AsmFault>>
    requires len { length source.now ≤ 2 ^ 20 }
    requires start { table.now.data_start < 2 ^ 63 }
    ensures fault { TellsFault result (first_fault table.now start 1 (lines source.now)) }
    ensures text_fits { IfOk result (λ program. program.text_bytes.items
        ≡ bytes_in Text table.now start (lines source.now)) }
    ensures data_fits { IfOk result (λ program. program.data_bytes.items
        ≡ bytes_in Data table.now start (lines source.now)) }
{
    let mut program = Program {
        text_bytes: Vec::new(alloc),
        data_bytes: Vec::new(alloc),
    };
    let mut place = Place {
        section: Section::Text,
        text_size: 0,
        data_size: 0,
    };
    let mut number = 1;
    let mut rest = source;
    while !rest.is_empty() {
        let (line, after) = first_line(rest);
        place = push_line(&mut program, table, place, number, line)?;
        number += 1;
        rest = after;
    }
    Ok(program)
}

/// The image of a source: RV32IM instructions, short forms and directives, one a line. Its file has
/// at most 64 MiB.
///
/// # Errors
///
/// The first line that has a fault, with its least cause, or want of memory.
#[tactic(auto, unfolding(crate::specs::Assembly::assembly))]
pub fn assemble(alloc: Global, source: &[u8]) -> Result<Image, Refused<AsmFault>>
    ensures image { Tells result (assembly source.now) }
    ensures writable { IfOk result IsWritable }
    ensures small { IfOk result (λ image. length (written image) ≤ 2 ^ 26) }
{
    if source.len() > MOST_SOURCE {
        return Err(refusal(0, AsmCause::TooLarge));
    }
    let table = survey(alloc, source)?;
    let program = assemble_lines(alloc, &table, source)?;
    if program.text_bytes.as_slice().is_empty() {
        return Err(refusal(0, AsmCause::Section));
    }
    Ok(image_from(alloc, table, program)?)
}

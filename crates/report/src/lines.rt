//! The lines of a report: seven fields, with commas between them.

ghost use Rattle.std.specs.Prelude.{◌≡◌, ◌++◌, ◌∷◌, OnOk, decimal, if◌then◌else◌};
ghost use Rattle.std.specs.List.{join_with_byte};
ghost use Rattle.analysers.specs.Plain.{IsPlain};
ghost use Rattle.report.specs.Report.{words_text, register_text, register_texts, outcome_name, outcome_value, outcome_text, record_line, value_line, row_line, analysis_lines, end_kind, end_value, end_line, regs_line};
ghost use Rattle.report.specs.Table.{text_in, IsReady};

use crate::table::{Table, push_line};
use analysers::Row;
use call_log::End;
use sl_base::{DecimalText, Memory, decimal_text, word_text};
use std::alloc::{AllocError, Global};
use tracer_lang::{Record, TracerEnd};

/// Adds a piece, behind a separator where it is not the first.
fn push_piece(
    out: &mut Vec<u8>,
    separator: u8,
    is_first: bool,
    piece: &[u8],
) -> Result<(), AllocError>
    ensures { OnOk result (out.new.items
        ≡ out.old.items ++ (if is_first then piece.now else separator ∷ piece.now)) }
{
    if !is_first {
        out.push(separator)?;
    }
    out.extend_from_slice(piece)
}

/// Adds words with one space between two.
fn push_words(out: &mut Vec<u8>, words: &[u32]) -> Result<(), AllocError>
    ensures { OnOk result (out.new.items ≡ out.old.items ++ words_text words.now) }
{
    for (i, word) in words.iter().enumerate() {
        push_piece(out, b' ', i == 0, word_text(*word).as_bytes())?;
    }
    Ok(())
}

/// The name of an outcome.
fn outcome_name(outcome: &TracerEnd) -> &'static str
    ensures { result.now ≡ outcome_name outcome.now }
{
    match outcome {
        TracerEnd::Done => "Done",
        TracerEnd::OverBudget => "OverBudget",
        TracerEnd::TooDeep => "TooDeep",
        TracerEnd::LoadFault(_) => "LoadFault",
        TracerEnd::StoreFault(_) => "StoreFault",
        TracerEnd::TooManyStores => "TooManyStores",
        TracerEnd::TooManyWords => "TooManyWords",
        TracerEnd::Barred(_) => "Barred",
        TracerEnd::User(_) => "User",
    }
}

/// The value of an outcome that has one.
fn outcome_value(outcome: &TracerEnd) -> Option<u32>
    ensures { result ≡ outcome_value outcome.now }
{
    match outcome {
        TracerEnd::LoadFault(value)
        | TracerEnd::StoreFault(value)
        | TracerEnd::Barred(value)
        | TracerEnd::User(value) => Some(*value),
        _ => None,
    }
}

/// Adds an outcome's name, and its value behind a space where it has one.
fn push_outcome(out: &mut Vec<u8>, outcome: &TracerEnd) -> Result<(), AllocError>
    ensures { OnOk result (out.new.items ≡ out.old.items ++ outcome_text outcome.now) }
{
    out.extend_from_slice(outcome_name(outcome).as_bytes())?;
    if let Some(value) = outcome_value(outcome) {
        out.push(b' ')?;
        out.extend_from_slice(word_text(value).as_bytes())?;
    }
    Ok(())
}

/// Adds a register that is not 0, as `x2=0x7fffffe0`.
fn push_register(
    out: &mut Vec<u8>,
    is_first: bool,
    number: usize,
    value: u32,
) -> Result<(), AllocError>
    ensures { OnOk result (out.new.items ≡ out.old.items
        ++ (if is_first then register_text number value else 32 ∷ register_text number value)) }
{
    if !is_first {
        out.push(b' ')?;
    }
    out.push(b'x')?;
    out.extend_from_slice(decimal_text(number as u64).as_bytes())?;
    out.push(b'=')?;
    out.extend_from_slice(word_text(value).as_bytes())
}

/// Adds the registers that are not 0, with one space between two.
fn push_registers(out: &mut Vec<u8>, registers: &[u32; 32]) -> Result<(), AllocError>
    ensures { OnOk result (out.new.items
        ≡ out.old.items ++ join_with_byte 32 (register_texts 0 registers.now)) }
{
    let mut is_first = true;
    for (number, value) in registers.iter().enumerate() {
        if *value != 0 {
            push_register(out, is_first, number, *value)?;
            is_first = false;
        }
    }
    Ok(())
}

/// A number in decimal digits, which need no quotes.
fn number_text(n: u64) -> DecimalText
    ensures text { result ≡ decimal n }
    ensures plain { IsPlain (decimal n) }
{
    decimal_text(n)
}

/// Adds a record's line for an analysis, by the analysis's position from 1 and its word.
fn push_record_line(
    alloc: Global,
    out: &mut Table,
    position: u64,
    kind: &[u8],
    entry: &Record,
) -> Result<(), Memory>
    requires ready { IsReady out.old }
    requires plain { IsPlain kind.now }
    ensures ready { OnOk result (IsReady out.new) }
    ensures text { OnOk result
        (text_in out.new ≡ text_in out.old ++ record_line position kind.now entry.now) }
{
    let mut outcome = Vec::new(alloc);
    push_outcome(&mut outcome, &entry.outcome)?;
    let mut words = Vec::new(alloc);
    push_words(&mut words, entry.words.as_slice())?;
    push_line(
        out,
        &[
            number_text(position).as_bytes(),
            kind,
            number_text(entry.count).as_bytes(),
            number_text(u64::from(entry.point)).as_bytes(),
            word_text(entry.pc).as_bytes(),
            outcome.as_slice(),
            words.as_slice(),
        ],
    )
}

/// Adds a line that has a word or a number, and a count where there is one.
fn push_value_line<'a>(
    out: &mut Table,
    position: u64,
    kind: &'a [u8],
    count: &'a [u8],
    value: &'a [u8],
) -> Result<(), Memory>
    requires ready { IsReady out.old }
    requires plain { IsPlain kind.now }
    requires plain_count { IsPlain count.now }
    requires plain_value { IsPlain value.now }
    ensures ready { OnOk result (IsReady out.new) }
    ensures text { OnOk result (text_in out.new
        ≡ text_in out.old ++ value_line position kind.now count.now value.now) }
{
    push_line(
        out,
        &[
            number_text(position).as_bytes(),
            kind,
            count,
            b"",
            b"",
            b"",
            value,
        ],
    )
}

/// Adds a row's line for an analysis, by the analysis's position from 1 and its word.
fn push_row(
    alloc: Global,
    out: &mut Table,
    position: u64,
    kind: &[u8],
    row: &Row,
) -> Result<(), Memory>
    requires ready { IsReady out.old }
    requires plain { IsPlain kind.now }
    ensures ready { OnOk result (IsReady out.new) }
    ensures text { OnOk result
        (text_in out.new ≡ text_in out.old ++ row_line position kind.now row.now) }
{
    match row {
        Row::Of(entry) => push_record_line(alloc, out, position, kind, entry),
        Row::Number(n) => { push_value_line(out, position, kind, b"", number_text(*n).as_bytes()) }
        Row::Word(word) => {
            push_value_line(out, position, kind, b"", word_text(*word).as_bytes())
        }
        Row::Bin { value, count } => push_value_line(
            out,
            position,
            kind,
            number_text(*count).as_bytes(),
            word_text(*value).as_bytes(),
        ),
    }
}

/// Adds the lines of one analysis, by its position from 1 and its word.
pub fn push_analysis(
    alloc: Global,
    out: &mut Table,
    position: u64,
    kind: &[u8],
    rows: &[Row],
) -> Result<(), Memory>
    requires ready { IsReady out.old }
    requires plain { IsPlain kind.now }
    ensures ready { OnOk result (IsReady out.new) }
    ensures text { OnOk result
        (text_in out.new ≡ text_in out.old ++ analysis_lines position kind.now rows.now) }
{
    for row in rows {
        push_row(alloc, out, position, kind, row)?;
    }
    Ok(())
}

/// The kind of an end.
pub fn end_kind(end: &End) -> &'static str
    ensures { result.now ≡ end_kind end.now }
{
    match end {
        End::Exited(_) => "exited",
        End::Trapped(_) => "trapped",
        End::Stopped => "stopped",
    }
}

/// The code of an exit or the number of a trap, else 0.
pub fn end_value(end: &End) -> u32
    ensures { result ≡ end_value end.now }
{
    match end {
        End::Exited(value) | End::Trapped(value) => *value,
        End::Stopped => 0,
    }
}

/// Adds the line of the end, with the count and the program counter of the last state.
pub fn push_end_line(out: &mut Table, end: &End, count: u64, pc: u32) -> Result<(), Memory>
    requires ready { IsReady out.old }
    ensures ready { OnOk result (IsReady out.new) }
    ensures text { OnOk result
        (text_in out.new ≡ text_in out.old ++ end_line end.now count pc) }
{
    push_line(
        out,
        &[
            b"end",
            end_kind(end).as_bytes(),
            number_text(count).as_bytes(),
            b"",
            word_text(pc).as_bytes(),
            b"",
            word_text(end_value(end)).as_bytes(),
        ],
    )
}

/// Adds the line of the registers.
pub fn push_regs_line(alloc: Global, out: &mut Table, registers: &[u32; 32]) -> Result<(), Memory>
    requires ready { IsReady out.old }
    ensures ready { OnOk result (IsReady out.new) }
    ensures text { OnOk result (text_in out.new ≡ text_in out.old ++ regs_line registers.now) }
{
    let mut texts = Vec::new(alloc);
    push_registers(&mut texts, registers)?;
    push_line(out, &[b"regs", b"x", b"", b"", b"", b"", texts.as_slice()])
}

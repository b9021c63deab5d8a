//! The texts of commands: the report of a run, and what a check says.

ghost use Rattle.std.specs.Prelude.{◌≡◌, ◌++◌, length, OnOk, IfOk};
ghost use Rattle.report.specs.Report.{analyses_lines, report, checked_line, recorded_line};
ghost use Rattle.report.specs.Table.{text_in, IsReady};

use crate::lines::{end_kind, end_value, push_analysis, push_end_line, push_regs_line};
use crate::run_end::RunEnd;
use crate::table::{Table, new_table, text_of};
use analysers::{Kind, Merged, Row};
use rec_format::Recording;
use sl_base::{Memory, Seq, decimal_text, word_text};
use std::alloc::Global;

/// Adds the lines of all analyses.
fn push_analyses(
    alloc: Global,
    out: &mut Table,
    kinds: &[Kind],
    all: &[Seq<Row>],
) -> Result<(), Memory>
    requires ready { IsReady out.old }
    requires each { length all.now ≡ length kinds.now }
    ensures ready { OnOk result (IsReady out.new) }
    ensures text { OnOk result
        (text_in out.new ≡ text_in out.old ++ analyses_lines 1 kinds.now all.now) }
{
    for (i, kind) in kinds.iter().enumerate() {
        let position = i as u64 + 1;
        push_analysis(
            alloc,
            out,
            position,
            kind.word.as_slice(),
            all[i].as_slice(),
        )?;
    }
    Ok(())
}

/// The report: the lines of each analysis in order, and how the run ended. The rows are those of
/// the kinds.
pub fn report_text(
    alloc: Global,
    merged: &Merged,
    kinds: &[Kind],
    last: &RunEnd,
) -> Result<Vec<u8>, Memory>
    requires { length merged.now.rows ≡ length kinds.now }
    ensures { IfOk result (λ text. text.items
        ≡ report (analyses_lines 1 kinds.now merged.now.rows) last.now) }
{
    let mut out = new_table(alloc);
    push_analyses(alloc, &mut out, kinds, merged.rows.as_slice())?;
    push_end_line(&mut out, &last.end, last.count, last.pc)?;
    push_regs_line(alloc, &mut out, &last.x)?;
    text_of(out)
}

/// What a check of a recording says: how many calls and checkpoints before the end it has, and the
/// count of its end.
pub fn checked_text(alloc: Global, rec: &Recording) -> Result<Vec<u8>, Memory>
    ensures { IfOk result (λ text. text.items ≡ checked_line rec.now) }
{
    let mut out = Vec::new(alloc);
    out.extend_from_slice(b"checked ")?;
    out.extend_from_slice(decimal_text(rec.calls.len() as u64).as_bytes())?;
    out.extend_from_slice(b" calls, ")?;
    out.extend_from_slice(decimal_text(rec.checkpoints.len() as u64).as_bytes())?;
    out.extend_from_slice(b" checkpoints, end ")?;
    out.extend_from_slice(decimal_text(rec.last.count).as_bytes())?;
    out.push(b'\n')?;
    Ok(out)
}

/// What is said of a recording that is put: the count of its end, and how it ended.
pub fn recorded_text(alloc: Global, rec: &Recording) -> Result<Vec<u8>, Memory>
    ensures { IfOk result (λ text. text.items ≡ recorded_line rec.now) }
{
    let mut out = Vec::new(alloc);
    out.extend_from_slice(b"recorded ")?;
    out.extend_from_slice(decimal_text(rec.last.count).as_bytes())?;
    out.extend_from_slice(b" ")?;
    out.extend_from_slice(end_kind(&rec.end).as_bytes())?;
    out.extend_from_slice(b" ")?;
    out.extend_from_slice(word_text(end_value(&rec.end)).as_bytes())?;
    out.push(b'\n')?;
    Ok(out)
}

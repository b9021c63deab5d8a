//! Tables of comma-separated values.

ghost use Rattle.std.specs.Prelude.{◌≡◌, ◌++◌, ◌≤◌, [], All, length, map, IfOk, OnOk};
ghost use Rattle.analysers.specs.Plain.{IsPlain};
ghost use Rattle.report.specs.Report.{line};
ghost use Rattle.report.specs.Table.{text_in, IsReady};

use csv::{Writer, WriterBuilder};
use sl_base::Memory;
use std::alloc::Global;

/// A table that is being written.
pub type Table = Writer<Vec<u8>>;

/// A table without a line.
pub fn new_table(alloc: Global) -> Table
    ensures ready { IsReady result }
    ensures text { text_in result ≡ [] }
{
    WriterBuilder::new().from_writer(Vec::new(alloc))
}

/// Adds a line of these fields, none of which needs quotes. After an `Err` the table is given up.
pub fn push_line(table: &mut Table, fields: &[&[u8]]) -> Result<(), Memory>
    requires ready { IsReady table.old }
    requires plain { All IsPlain (map (λ field. field.now) fields.now) }
    requires several { 2 ≤ length fields.now }
    ensures ready { OnOk result (IsReady table.new) }
    ensures text { OnOk result
        (text_in table.new ≡ text_in table.old ++ line (map (λ field. field.now) fields.now)) }
{
    let Ok(()) = table.write_fields(fields) else {
        return Err(Memory);
    };
    Ok(())
}

/// The lines of a table.
pub fn text_of(table: Table) -> Result<Vec<u8>, Memory>
    ensures { IfOk result (λ text. text.items ≡ text_in table) }
{
    match table.into_inner() {
        Ok(text) => Ok(text),
        Err(_) => Err(Memory),
    }
}

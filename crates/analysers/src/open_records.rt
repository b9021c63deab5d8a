//! Records that are open.

ghost use Rattle.std.specs.Prelude.{◌≡◌, ◌++◌, ◌∷◌, [], map, nat_lt, length, OnOk};
ghost use Rattle.analysers.specs.declared.row.Row.TheVariants.{Of};
ghost use Rattle.analysers.specs.Streams.{without_last};

use crate::row::Row;
use sl_base::Memory;
use std::alloc::Global;
use std::marker::Model;
use tracer_lang::Record;

/// The open records, oldest first. It is seen as their list.
#[derive(Debug, Drop)]
pub struct OpenRecords {
    stack: Vec<Record>,
}

impl Model for OpenRecords {
    ghost use Rattle.std.specs.Prelude.{List};
    ghost use Rattle.tracer_lang.specs.declared.record.Record.{Record};

    ghost Value = { List Record };

    ghost view = { λ kept. kept.stack.items };
}

impl OpenRecords {
    /// None is open.
    pub fn new(alloc: Global) -> OpenRecords
        ensures { result ≡ [] }
    {
        OpenRecords {
            stack: Vec::new(alloc),
        }
    }

    /// Opens a record.
    pub fn push(&mut self, r: Record) -> Result<(), Memory>
        ensures { OnOk result (self.new ≡ self.old ++ r ∷ []) }
    {
        self.stack.push(r)?;
        Ok(())
    }

    /// Closes the youngest open record, and tells whether there was one.
    pub fn close(&mut self) -> bool
        ensures was { result ≡ nat_lt 0 (length self.old) }
        ensures now { self.new ≡ without_last self.old }
    {
        self.stack.pop().is_some()
    }

    /// Adds the open records to the rows, oldest first.
    pub fn push_rows(self, out: &mut Vec<Row>) -> Result<(), Memory>
        ensures { OnOk result (out.new.items ≡ out.old.items ++ map Of self) }
    {
        for r in self.stack {
            out.push(Row::Of(r))?;
        }
        Ok(())
    }
}

//! Analyses that are fed one record after the other.

ghost use Rattle.std.specs.Prelude.{◌≡◌, ◌++◌, IfOk, OnOk};

use crate::row::Row;
use sl_base::Memory;
use std::alloc::Global;
use tracer_lang::Record;

/// An analysis that is fed the records in order, and keeps a state of its own between two of them.
/// What it gives of a list of records is what it gives as they are fed from the start, and then
/// what it gives at the end.
pub trait Stream {
    /// What is kept between two records.
    type State: Drop;

    ghost use Rattle.std.specs.Prelude.{List};
    ghost use Rattle.tracer_lang.specs.declared.record.Record.{Record};
    ghost use Rattle.analysers.specs.declared.row.Row.{Row};

    /// The state before any record.
    ghost opening: { Self → Self.State };

    /// The state once a record was fed.
    ghost after: { Self → Self.State → Record → Self.State };

    /// The rows that a record gives as it is fed.
    ghost told: { Self → Self.State → Record → List Row };

    /// The rows that are given at the end.
    ghost rest: { Self → Self.State → List Row };

    /// The state before any record.
    fn start(&self, alloc: Global) -> Result<Self::State, Memory>
        ensures { IfOk result (λ s. s ≡ opening self.now) };

    /// Feeds a record, and adds the rows that it gives to `out`. After an `Err` the state and `out`
    /// are given up.
    fn feed(
        &self,
        alloc: Global,
        s: &mut Self::State,
        r: &Record,
        out: &mut Vec<Row>,
    ) -> Result<(), Memory>
        ensures state { OnOk result (s.new ≡ after self.now s.old r.now) }
        ensures rows { OnOk result (out.new.items ≡ out.old.items ++ told self.now s.old r.now) };

    /// Adds the rows that are given at the end. After an `Err` the state and `out` are given up.
    fn finish(&self, s: Self::State, out: &mut Vec<Row>) -> Result<(), Memory>
        ensures { OnOk result (out.new.items ≡ out.old.items ++ rest self.now s) };
}

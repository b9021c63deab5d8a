//! Analyses whose parts can be joined.

ghost use Rattle.std.specs.Prelude.{◌≡◌, IfOk};

use sl_base::Memory;
use std::alloc::Global;
use tracer_lang::Record;

/// An analysis that makes a value of records which stand one after the other, and joins the values
/// of two such lists to that of both. What it makes of a list is the left fold of its records'
/// leaves from the unit; by the laws it doesn't matter where the list is cut.
pub trait Tree {
    /// What is made of records.
    type Value: Drop;

    ghost use Rattle.std.specs.Prelude.{List};
    ghost use Rattle.tracer_lang.specs.declared.record.Record.{Record};

    /// Which values may be joined.
    ghost fits: { Self → Self.Value → Type 0 };

    /// The value of no records.
    ghost empty: { Self → Self.Value };

    /// The value of one record.
    ghost single: { Self → Record → Self.Value };

    /// The value of two lists of records together.
    ghost joined: { Self → Self.Value → Self.Value → Self.Value };

    /// The value of no records.
    fn unit(&self, alloc: Global) -> Result<Self::Value, Memory>
        ensures { IfOk result (λ v. v ≡ empty self.now) };

    /// The value of one record.
    fn leaf(&self, alloc: Global, r: &Record) -> Result<Self::Value, Memory>
        ensures { IfOk result (λ v. v ≡ single self.now r.now) };

    /// The value of two lists of records together, the left one standing first.
    fn join(
        &self,
        alloc: Global,
        left: Self::Value,
        right: Self::Value,
    ) -> Result<Self::Value, Memory>
        requires left { fits self.now left }
        requires right { fits self.now right }
        ensures { IfOk result (λ v. v ≡ joined self.now left right) };

    /// Each value that is made fits.
    ghost unit_fits: { (t : Self) → fits t (empty t) };

    ghost leaf_fits: { (t : Self) (r : Record) → fits t (single t r) };

    ghost join_fits: { (t : Self) (a b : Self.Value)
        → fits t a → fits t b → fits t (joined t a b) };

    /// No records on either side change nothing.
    ghost unit_left: { (t : Self) (a : Self.Value) → fits t a → joined t (empty t) a ≡ a };

    ghost unit_right: { (t : Self) (a : Self.Value) → fits t a → joined t a (empty t) ≡ a };

    /// It doesn't matter which two neighbours are joined first.
    ghost association: { (t : Self) (a b c : Self.Value)
        → fits t a → fits t b → fits t c
        → joined t (joined t a b) c ≡ joined t a (joined t b c) };
}

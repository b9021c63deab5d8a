//! Analyses that look at one record at a time.

ghost use Rattle.std.specs.Prelude.{◌≡◌};

use crate::record_words::word_at;
use tracer_lang::{Record, TracerEnd};

/// An analysis that gives each record which passes a test of its own.
pub trait Local {
    ghost use Rattle.std.specs.Prelude.{Bool};
    ghost use Rattle.tracer_lang.specs.declared.record.Record.{Record};

    /// Which records pass.
    ghost passing: { Self → Record → Bool };

    /// Whether a record passes.
    fn passes(&self, r: &Record) -> bool
        ensures { result ≡ passing self.now r.now };
}

/// The local kinds.
#[derive(Clone, Copy, Debug, PartialEq, Eq)]
pub enum LocalKind {
    /// Each record.
    All,
    /// Each record whose tracer ended as it should.
    Done,
    /// Each record of this tracepoint.
    Point(u32),
    /// Each record that has this word at this place.
    Word { place: u32, value: u32 },
}

impl Local for LocalKind {
    ghost use Rattle.analysers.specs.Locals.{passes};

    ghost passing = { passes };

    fn passes(&self, r: &Record) -> bool {
        match *self {
            LocalKind::All => true,
            LocalKind::Done => r.outcome == TracerEnd::Done,
            LocalKind::Point(point) => r.point == point,
            LocalKind::Word { place, value } => word_at(place, r) == Some(value),
        }
    }
}

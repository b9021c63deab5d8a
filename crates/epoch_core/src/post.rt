use analysers::Part;
use call_log::Break;
use sl_base::Seq;
use tracer_lang::Record;

/// What one epoch came to.
#[derive(Debug, Drop)]
pub struct Post {
    /// The epoch's number, from 0.
    pub epoch: u32,
    /// What it came to.
    pub value: PostValue,
}

/// What an epoch came to.
#[derive(Debug, Drop)]
pub enum PostValue {
    /// It ran to its end.
    Ran {
        /// What tracers left on it, in order.
        records: Seq<Record>,
        /// What each analysis that can be joined makes of them, in the order of the analyses.
        parts: Seq<Part>,
    },
    /// The replay first differs from the recording in this epoch.
    Broke(Break),
    /// It was not run, since a smaller epoch broke.
    Skipped {
        /// That epoch.
        below: u32,
    },
}

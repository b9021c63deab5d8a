//! The code of a script's tracers.

ghost use Rattle.std.specs.Prelude.{◌≤◌, ◌<◌, ◌^◌, length};
ghost use Rattle.sl_model.specs.declared.bank.TheConstants.{MOST_CODE_WORDS};

use sl_base::Seq;

/// The code of a script's tracers.
#[derive(Debug, Drop)]
pub struct TracerCode {
    /// The words of all tracers.
    pub words: Seq<u32>,
    /// For each tracepoint, in order of the script, which of the words is its tracer's first, from
    /// 0.
    pub places: Seq<u32>,
    /// A bound of the instructions that one run of a tracer takes.
    pub most: u64,
    ghost room: { length words ≤ MOST_CODE_WORDS },
    ghost bound: { most < 2 ^ 62 },
}

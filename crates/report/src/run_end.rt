//! The recorded end of a run.

ghost use Rattle.std.specs.Prelude.{◌≡◌};
ghost use Rattle.report.specs.RunEnd.{recorded_end};

use call_log::End;
use rec_format::Recording;

/// How a run ended, and the state that it ended with.
#[derive(Drop)]
pub struct RunEnd {
    pub end: End,
    /// The instructions that were done.
    pub count: u64,
    pub pc: u32,
    pub x: [u32; 32],
}

/// The recorded end.
pub fn recorded_end(rec: &Recording) -> RunEnd
    ensures { result ≡ recorded_end rec.now }
{
    let mut x = [0; 32];
    x[1..].copy_from_slice(&rec.last.x);
    RunEnd {
        end: rec.end,
        count: rec.last.count,
        pc: rec.last.pc,
        x,
    }
}

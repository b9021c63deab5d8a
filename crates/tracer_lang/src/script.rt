//! Scripts.

ghost use Rattle.tracer_lang.specs.Tree.{script_of};
ghost use Rattle.tracer_lang.specs.Limits.{IsWithinLimits};
ghost use Rattle.tracer_lang.specs.OneProof.{IsWithinLimits-prop};

use crate::tree::{Function, Tracepoint};
use sl_base::Seq;

/// A script as a tree, within the limits that its type keeps.
#[derive(Drop)]
pub struct Script {
    /// How many turns of loops and entries of functions one call of a tracer may take, 1 to
    /// 1,000,000.
    pub budget: u32,
    /// The functions, in order of the text.
    pub functions: Seq<Function>,
    /// The tracepoints, in order of the text: at most 64.
    pub tracepoints: Seq<Tracepoint>,
    ghost limits: { IsWithinLimits
        (script_of budget functions tracepoints) } by { IsWithinLimits-prop _ },
}

impl Script {
    ghost use Rattle.std.specs.Prelude.{◌≡◌, ◌≤◌, length};

    /// How many tracepoints there are.
    pub fn points(&self) -> u32
        ensures value { result ≡ length self.now.tracepoints }
        ensures few { result ≤ 64 }
    {
        self.tracepoints.len() as u32
    }
}

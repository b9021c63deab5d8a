//! The record of a tracer.

ghost use Rattle.std.specs.Prelude.{◌≡◌, ◌<◌, length, IfOk};
ghost use Rattle.rv_machine.specs.Machine.{state_of};
ghost use Rattle.tracer_lang.specs.Meaning.{record_of};
ghost use Rattle.tracer_lang.specs.Script.{tree_of};

use crate::progress::{Halt, Progress};
use crate::tracer::Tracer;
use page_frames::Frames;
use rv_machine::Machine;
use sl_base::{Memory, Seq};
use std::alloc::Global;
use tracer_lang::{Record, Script, TracerEnd};

/// How many calls of functions may be open at once.
const MOST_OPEN_CALLS: u32 = 32;

/// What the tracepoint of a number leaves at a state, of which machine and memory are copies.
pub fn run_on_copy(
    alloc: Global,
    m: Machine,
    f: Frames,
    script: &Script,
    point: u32,
) -> Result<Record, Memory>
    requires { point < length script.now.tracepoints }
    ensures { IfOk result (λ left.
        left ≡ record_of (tree_of script.now) point (state_of m f.pages)) }
{
    let tracepoint = &script.tracepoints.as_slice()[point as usize];
    let mut locals = Vec::new(alloc);
    locals.resize(tracepoint.locals as usize, 0)?;
    let mut p = Progress {
        memory: f,
        words: Seq::new(alloc),
        stores: 0,
        units: script.budget,
        brk: m.brk,
        locals,
    };
    let tracer = Tracer {
        machine: &m,
        script,
    };
    let outcome = match tracer.statements(alloc, &tracepoint.body, MOST_OPEN_CALLS, &mut p) {
        Ok(()) => TracerEnd::Done,
        Err(Halt::Returned(_value)) => TracerEnd::Done,
        Err(Halt::Ended(end)) => end,
        Err(Halt::Memory) => return Err(Memory),
    };
    Ok(Record {
        count: m.count,
        point,
        pc: m.pc,
        words: p.words,
        outcome,
    })
}

//! Whether a replay ended as its recording says.

ghost use Rattle.std.specs.Prelude.{◌≡◌};
ghost use Rattle.sl_model.specs.Pages.{Pages};
ghost use Rattle.sl_model.specs.Step.{step, trap_of};
ghost use Rattle.rv_machine.specs.Machine.{state_of};
ghost use Rattle.replay.specs.Breaks.{replayed_end, same_end, calls_left, end_break};

use call_log::{BreakKind, End};
use rec_format::Recording;
use rv_machine::{Machine, next_trap};
use sl_model::{Bus, RunState};

/// Whether two ends are one.
fn same_end(recorded: &End, replayed: &End) -> bool
    ensures { result ≡ same_end recorded.now replayed.now }
{
    match (recorded, replayed) {
        (End::Exited(a), End::Exited(b)) => *a == *b,
        (End::Trapped(a), End::Trapped(b)) => *a == *b,
        (End::Stopped, End::Stopped) => true,
        _ => false,
    }
}

/// How a replay ended, beside the recorded end: beside a trap by the trap of the next instruction.
fn replayed_end<B: Bus>(recorded: &End, m: &Machine, bus: &B) -> End
    ensures { let trap = trap_of (step (state_of m.now (B.pages bus.now))) in
        result ≡ replayed_end recorded.now m.now.status trap }
{
    match (m.status, recorded) {
        (RunState::Exited(code), _) => End::Exited(code),
        (RunState::Running, End::Trapped(_)) => match next_trap(m, bus) {
            Some(number) => End::Trapped(number),
            None => End::Stopped,
        },
        (RunState::Running, End::Exited(_) | End::Stopped) => End::Stopped,
    }
}

/// The break of a recorded call that was not made.
fn calls_left(rec: &Recording, m: &Machine) -> Option<BreakKind>
    ensures { (pages : Pages) → result ≡ calls_left rec.now (state_of m.now pages) }
{
    if (m.next_call as usize) < rec.calls.len() {
        return Some(BreakKind::CallsLeft { index: m.next_call });
    }
    None
}

/// The divergence at the recorded end, of the end or of a call that was not made. Nothing changes.
pub fn end_break<B: Bus>(rec: &Recording, m: &Machine, bus: &B) -> Option<BreakKind>
    ensures { result ≡ end_break rec.now (state_of m.now (B.pages bus.now)) }
{
    let replayed = replayed_end(&rec.end, m, bus);
    if !same_end(&rec.end, &replayed) {
        return Some(BreakKind::EndDiffers {
            recorded: rec.end,
            replayed,
        });
    }
    calls_left(rec, m)
}

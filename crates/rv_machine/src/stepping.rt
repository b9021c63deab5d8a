//! One step of the machine.

ghost use Rattle.std.specs.Prelude.{◌≡◌, ◌≢◌, ◌+◌, ◌<◌, ◌^◌};
ghost use Rattle.sl_model.specs.Marks.{MarksGoOn};
ghost use Rattle.sl_model.specs.Step as next;
ghost use Rattle.rv_machine.specs.Machine.{state_of, WentOn};

use crate::execute::execute;
use crate::machine::{Machine, Outcome};
use rv_decode::decode;
use sl_base::Steps;
use sl_model::{Bus, FETCH, ILLEGAL, MISALIGNED, RunState};
use std::sync::ledger::Ledger;

/// Does the instruction at pc, without a count.
#[inline(always)]
#[tactic(auto, unfolding(sl_model::specs::Step::step))]
fn do_next<B: Bus>(m: &mut Machine, bus: &mut B) -> Outcome
    requires running { m.old.status ≡ RunState.Running }
    requires count { m.old.count < 2 ^ 62 }
    ensures next { WentOn (next.step (state_of m.old (B.pages bus.old)))
        m.old (B.pages bus.old) result m.new (B.pages bus.new) }
    ensures marking { B.is_marking bus.new ≡ B.is_marking bus.old }
    ensures fixed { B.fixed bus.new ≡ B.fixed bus.old }
    ensures marks { MarksGoOn (B.is_marking bus.old)
        (B.pages bus.old) (B.marked bus.old) (B.pages bus.new) (B.marked bus.new) }
    ensures kept { result ≢ Outcome.Stepped → B.marked bus.new ≡ B.marked bus.old }
    ensures count { result ≡ Outcome.Stepped → m.new.count ≡ m.old.count + 1 }
{
    if m.pc % 4 != 0 {
        return Outcome::Trap(MISALIGNED);
    }
    let Some(word) = bus.load(m.pc, 4) else {
        return Outcome::Trap(FETCH);
    };
    match decode(word) {
        Some(instr) => execute(m, bus, instr),
        None => Outcome::Trap(ILLEGAL),
    }
}

/// Does the instruction at pc.
///
/// `Stepped` counts one step. After `Call`, which is an ECALL, and after `Trap` nothing has
/// changed.
#[inline(always)]
pub fn step<B: Bus, L: Ledger>(m: &mut Machine, bus: &mut B, steps: &mut Steps<L>) -> Outcome
    requires running { m.old.status ≡ RunState.Running }
    requires count { m.old.count < 2 ^ 62 }
    ensures next { WentOn (next.step (state_of m.old (B.pages bus.old)))
        m.old (B.pages bus.old) result m.new (B.pages bus.new) }
    ensures marking { B.is_marking bus.new ≡ B.is_marking bus.old }
    ensures fixed { B.fixed bus.new ≡ B.fixed bus.old }
    ensures marks { MarksGoOn (B.is_marking bus.old)
        (B.pages bus.old) (B.marked bus.old) (B.pages bus.new) (B.marked bus.new) }
    ensures kept { result ≢ Outcome.Stepped → B.marked bus.new ≡ B.marked bus.old }
    ensures count { result ≡ Outcome.Stepped → m.new.count ≡ m.old.count + 1 }
    ensures counted { result ≡ Outcome.Stepped → steps.new ≡ steps.old + 1 }
    ensures uncounted { result ≢ Outcome.Stepped → steps.new ≡ steps.old }
{
    let outcome = do_next(m, bus);
    if outcome == Outcome::Stepped {
        steps.tick();
    }
    outcome
}

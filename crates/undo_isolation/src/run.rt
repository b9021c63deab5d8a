//! A run of the machine to its end.

ghost use Rattle.std.specs.Prelude.{◌≡◌, ℕ, ◌+◌, ◌≤◌, ◌<◌, ◌^◌};
ghost use Rattle.sl_model.specs.Marks.{MarksGoOn};
ghost use Rattle.sl_model.specs.Runs.{EndsAfter};
ghost use Rattle.rv_machine.specs.Machine.{state_of};
ghost use Rattle.undo_isolation.specs.Run.{CameTo};

use rv_machine::{Machine, Outcome, step};
use sl_base::Steps;
use sl_model::{Bus, RunState};
use std::sync::ledger::Ledger;

/// Does instructions up to the first that is a call or traps, and at most so many. A run that ends
/// within them comes to its end.
pub(crate) fn run_to_end<B: Bus, L: Ledger>(
    m: &mut Machine,
    bus: &mut B,
    most: u64,
    steps: &mut Steps<L>,
)
    requires running { m.old.status ≡ RunState.Running }
    requires count { m.old.count + most ≤ 2 ^ 62 }
    ensures end { (count : ℕ) → count ≤ most
        → EndsAfter count (state_of m.old (B.pages bus.old))
        → CameTo count (state_of m.old (B.pages bus.old)) (state_of m.new (B.pages bus.new))
        steps.old steps.new }
    ensures marking { B.is_marking bus.new ≡ B.is_marking bus.old }
    ensures fixed { B.fixed bus.new ≡ B.fixed bus.old }
    ensures marks { MarksGoOn (B.is_marking bus.old)
        (B.pages bus.old) (B.marked bus.old) (B.pages bus.new) (B.marked bus.new) }
{
    for _ in 0..most {
        if step(m, bus, steps) != Outcome::Stepped {
            return;
        }
    }
}

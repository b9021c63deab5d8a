//! Memory that is borrowed in two parts.

ghost use Rattle.std.specs.Prelude.{◌≡◌, ◌≢◌, ◌<◌, ◌^◌, ◌∷◌, [], true, if◌then◌else◌};
ghost use Rattle.std.specs.FinMap.{empty, insert};
ghost use Rattle.std.specs.Borrow.{GName};
ghost use Rattle.sl_model.specs.Marks.{MarksGoOn};
ghost use Rattle.sl_model.specs.Step as next;
ghost use Rattle.rv_machine.specs.Machine.{state_of, WentOn};

use super::one_page::OnePage;
use crate::{Machine, Outcome, step};
use sl_base::Steps;
use sl_model::{Bus, RunState};
use std::marker::Brand;
use std::sync::ledger::{Blank, Ledger};

/// One page, and whether it is marked, which stand in two places.
#[derive(Drop)]
struct MarkedPage<'a> {
    page: &'a mut OnePage,
    is_marked: &'a mut bool,
}

impl Bus for MarkedPage<'_> {
    ghost pages = { λ memory. insert empty 16 memory.page.now.bytes };

    ghost marked = { λ memory. if memory.is_marked.now then 16 ∷ [] else [] };

    ghost is_marking = { λ _. true };

    ghost Fixed = { GName × GName };

    ghost fixed = { λ memory. (memory.page.ghost_name, memory.is_marked.ghost_name) };

    fn load(&self, addr: u32, width: u8) -> Option<u32> {
        self.page.load(addr, width)
    }

    fn store(&mut self, addr: u32, width: u8, value: u32) -> bool {
        let is_mapped = self.page.store(addr, width, value);
        if is_mapped {
            *self.is_marked = true;
        }
        is_mapped
    }
}

/// One step over a page and its mark, on a count of its own. Both come back as the step left them.
fn step_on<L: Ledger>(
    m: &mut Machine,
    page: &mut OnePage,
    is_marked: &mut bool,
    blank: Blank,
) -> Outcome
    requires name { blank.name ≡ L.name }
    requires parts { blank.parts ≡ L.parts }
    requires some_parts { 0 < blank.parts }
    requires running { m.old.status ≡ RunState.Running }
    requires count { m.old.count < 2 ^ 62 }
    ensures next { let before = insert empty 16 page.old.bytes in
        WentOn (next.step (state_of m.old before))
        m.old before result m.new (insert empty 16 page.new.bytes) }
    ensures marks { MarksGoOn true
        (insert empty 16 page.old.bytes) (if is_marked.old then 16 ∷ [] else [])
        (insert empty 16 page.new.bytes) (if is_marked.new then 16 ∷ [] else []) }
    ensures kept { result ≢ Outcome.Stepped → is_marked.new ≡ is_marked.old }
{
    let mut steps = Steps::<L>::new(blank);
    step(m, &mut MarkedPage { page, is_marked }, &mut steps)
}

pub(super) fn one_step(m: &mut Machine, page: &mut OnePage, is_marked: &mut bool) -> Outcome
    requires running { m.old.status ≡ RunState.Running }
    requires count { m.old.count < 2 ^ 62 }
{
    step_on::<Brand>(m, page, is_marked, Blank::new(1))
}

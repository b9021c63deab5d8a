//! The state that a checkpoint records.

ghost use Rattle.std.specs.Prelude.{◌≡◌, ℕ, ◌<◌, ◌≤◌, [], OnOk};
ghost use Rattle.sl_model.specs.Pages.{Pages};
ghost use Rattle.rv_machine.specs.Machine.{state_of};
ghost use Rattle.rec_format.specs.declared.recording.Recording.{Recording};
ghost use Rattle.rec_format.specs.Recorded.{end_place, recorded_end, recorded_pages, recorded_state_of, recorded_state};
ghost use Rattle.checkpoints.specs.RecordedRun.{opened_of};

use crate::kept::Checkpoints;
use page_frames::Frames;
use rec_format::CheckpointData;
use rv_machine::Machine;
use sl_base::Memory;
use sl_model::RunState;

/// The heap end that a checkpoint records, as far as it can be one.
fn recorded_end(opening: &Machine, brk_end: u32) -> u32
    ensures { (pages : Pages) → result ≡ recorded_end (state_of opening.now pages) brk_end }
{
    let layout = &opening.layout;
    layout
        .brk_start
        .max(layout.heap_limit.min(brk_end / 4096 * 4096))
}

/// The machine of a checkpoint: a program that runs.
fn machine_of(opening: &Machine, checkpoint: &CheckpointData) -> Machine
    ensures end { (opened : Pages)
        → result.brk_end ≡ recorded_end (state_of opening.now opened) checkpoint.now.brk_end }
    ensures state { (rec : Recording) (k : ℕ) (opened pages : Pages)
        → pages ≡ recorded_pages rec (state_of opening.now opened) k result.brk_end
        → state_of result pages
        ≡ recorded_state_of rec (state_of opening.now opened) k checkpoint.now }
{
    let mut x = [0; 32];
    x[1..].copy_from_slice(&checkpoint.x);
    Machine {
        pc: checkpoint.pc,
        x,
        brk: checkpoint.brk,
        brk_end: recorded_end(opening, checkpoint.brk_end),
        next_call: checkpoint.next_call,
        status: RunState::Running,
        count: checkpoint.count,
        layout: opening.layout,
    }
}

impl Checkpoints {
    /// The machine at checkpoint `k`.
    fn machine_at(&self, k: u32) -> Machine
        ensures from { self.now.machine.layout.brk_start ≤ result.brk_end }
        ensures to { result.brk_end ≤ self.now.machine.layout.heap_limit }
        ensures state { (pages : Pages)
            → pages ≡ recorded_pages self.now.rec (opened_of self.now) k result.brk_end
            → state_of result pages ≡ recorded_state self.now.rec (opened_of self.now) k }
    {
        if k == 0 {
            return self.machine;
        }
        machine_of(&self.machine, self.checkpoint(k))
    }

    /// Makes the memory of checkpoint `k`, with this heap end.
    fn fill_pages(&self, k: u32, end: u32, f: &mut Frames) -> Result<(), Memory>
        requires within { k ≤ end_place self.now.rec }
        requires from { self.now.machine.layout.brk_start ≤ end }
        requires to { end ≤ self.now.machine.layout.heap_limit }
        ensures { OnOk result
            (f.new.pages ≡ recorded_pages self.now.rec (opened_of self.now) k end) }
    {
        f.copy_from(&self.opening)?;
        let start = self.machine.layout.brk_start;
        f.map_pages(start / 4096, (end - start) / 4096)?;
        self.put_lists(f, k);
        Ok(())
    }

    /// Makes the state that checkpoint `k` records, with no page marked as changed: the opening
    /// state for 0, and else a program that runs.
    ///
    /// # Errors
    ///
    /// Want of memory. The machine and the memory are then given up.
    pub fn state_at(&self, k: u32, m: &mut Machine, f: &mut Frames) -> Result<(), Memory>
        requires { k ≤ end_place self.now.rec }
        ensures state { let opened = opened_of self.now in
            OnOk result (state_of m.new f.new.pages ≡ recorded_state self.now.rec opened k) }
        ensures clean { OnOk result (f.new.dirty ≡ []) }
    {
        let machine = self.machine_at(k);
        self.fill_pages(k, machine.brk_end, f)?;
        f.clear_dirty();
        *m = machine;
        Ok(())
    }
}

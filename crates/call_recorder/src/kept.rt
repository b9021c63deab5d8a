//! The checkpoints of a run as it goes on.

ghost use Rattle.std.specs.Prelude.{◌≡◌, ◌≤◌, ◌+◌, ◌-◌, ◌*◌, ◌^◌, ◌&&◌, ℕ, List, [], ◌∷◌, ◌++◌, length, map, nat_lt, nat_le, true, false, None, IfOk, OnOk};
ghost use Rattle.std.specs.List.{AllByRecursion};
ghost use Rattle.sl_model.specs.Pages.{Pages};
ghost use Rattle.sl_model.specs.State.{State};
ghost use Rattle.rec_format.specs.Rules.{IsListedPage, Rise, number_of, IsCheckpoint};
ghost use Rattle.rv_machine.specs.Machine.{state_of};
ghost use Rattle.call_recorder.specs.Listing.{checkpoint_with};
ghost use Rattle.rec_format.specs.Recorded.{last_listing};
ghost use Rattle.page_frames.specs.MarkedPages.{MarkedPages};
ghost use Rattle.call_recorder.specs.Kept.{recorded_in, EndsAt, AreKept, AreFinished};

use crate::changes::changed_pages;
use crate::memory::RecordedMemory;
use page_frames::Frames;
use rec_format::{CheckpointData, ListedPage};
use rv_machine::Machine;
use sl_base::{Memory, Seq};
use std::alloc::Global;
use std::collections::BTreeMap;

/// The most checkpoints before the end.
const MOST_CHECKPOINTS: usize = 4_095;

/// The most bytes that they take in a recording.
const MOST_CHECKPOINT_BYTES: u32 = 134_217_728;

/// The checkpoints of a run so far, as far as their number and their bytes go.
#[derive(Drop)]
pub(crate) struct Kept {
    pub(crate) memory: RecordedMemory,
    pub(crate) checkpoints: Seq<CheckpointData>,
    /// How many bytes further ones may take.
    pub(crate) room: u32,
    /// Whether one had no room, after which none is kept.
    pub(crate) is_full: bool,
}

/// The checkpoints of a run that has ended: those before the end, and the one of the end.
pub(crate) struct Finished {
    pub(crate) checkpoints: Seq<CheckpointData>,
    pub(crate) last: CheckpointData,
}

/// A state as the checkpoint that lists these pages.
fn checkpoint_with(m: &Machine, pages: Seq<ListedPage>) -> CheckpointData
    ensures data { (memory : Pages) → result ≡ checkpoint_with (state_of m.now memory) pages }
    ensures is { m.now.count ≤ 2 ^ 40 → AllByRecursion IsListedPage pages
        → length pages ≤ 16384 → Rise None (map number_of pages) → IsCheckpoint result }
{
    let mut x = [0; 31];
    x.copy_from_slice(&m.x[1..]);
    CheckpointData {
        count: m.count,
        pc: m.pc,
        x,
        brk: m.brk,
        brk_end: m.brk_end,
        next_call: m.next_call,
        pages,
    }
}

/// How many bytes a checkpoint takes in a recording.
fn size_of(checkpoint: &CheckpointData) -> u32
    requires { length checkpoint.now.pages ≤ 16384 }
    ensures { result ≡ 152 + 4100 * length checkpoint.now.pages }
{
    152 + 4100 * checkpoint.pages.len() as u32
}

impl Kept {
    /// No checkpoint so far, of a program that opens with this memory.
    pub(crate) fn new(alloc: Global, opening: Frames) -> Kept
        ensures { (f : MarkedPages) → f.pages ≡ opening.pages → AreKept opening.pages [] result f }
    {
        Kept {
            memory: RecordedMemory {
                opening,
                listed: BTreeMap::new(alloc),
            },
            checkpoints: Seq::new(alloc),
            room: MOST_CHECKPOINT_BYTES,
            is_full: false,
        }
    }

    /// Whether there is room for a checkpoint.
    fn has_room(&self, checkpoint: &CheckpointData) -> bool
        requires { length checkpoint.now.pages ≤ 16384 }
        ensures { result ≡ (nat_lt (length self.now.checkpoints) 4095
            && nat_le (152 + 4100 * length checkpoint.now.pages) self.now.room) }
    {
        self.checkpoints.len() < MOST_CHECKPOINTS && size_of(checkpoint) <= self.room
    }

    /// Adds a checkpoint.
    fn add(&mut self, alloc: Global, checkpoint: CheckpointData) -> Result<(), Memory>
        requires few { length checkpoint.pages ≤ 16384 }
        requires room { 152 + 4100 * length checkpoint.pages ≤ self.old.room }
        ensures memory { OnOk result ((q : ℕ) → recorded_in self.new.memory q
            ≡ last_listing (recorded_in self.old.memory q) checkpoint.pages q) }
        ensures added { OnOk result
            (self.new.checkpoints ≡ self.old.checkpoints ++ checkpoint ∷ []) }
        ensures room { OnOk result
            (self.new.room ≡ self.old.room - (152 + 4100 * length checkpoint.pages)) }
        ensures going { OnOk result (self.new.is_full ≡ self.old.is_full) }
    {
        self.memory.list_all(alloc, checkpoint.pages.as_slice())?;
        self.room -= size_of(&checkpoint);
        self.checkpoints.push(checkpoint)?;
        Ok(())
    }

    /// Keeps a state as the next checkpoint, where there is room for it. Then no page is dirty afterwards.
    pub(crate) fn offer(&mut self, alloc: Global, m: &Machine, f: &mut Frames) -> Result<(), Memory>
        requires { m.now.count ≤ 2 ^ 40 }
        ensures kept { OnOk result ((opened : Pages) (states : List State)
            → AreKept opened states self.old f.old
            → AreKept opened (states ++ state_of m.now f.old.pages ∷ []) self.new f.new) }
        ensures pages { f.new.pages ≡ f.old.pages }
    {
        if self.is_full {
            return Ok(());
        }
        let _kept = f.dirty_len();
        let checkpoint = checkpoint_with(m, changed_pages(alloc, f, &self.memory)?);
        if !self.has_room(&checkpoint) {
            self.is_full = true;
            return Ok(());
        }
        self.add(alloc, checkpoint)?;
        f.clear_dirty();
        Ok(())
    }

    /// Whether the last checkpoint is at this count.
    fn is_at(&self, count: u64) -> bool
        ensures yes { result ≡ true → EndsAt self.now.checkpoints count }
        ensures no { result ≡ false → EndsAt self.now.checkpoints count → ⊥ }
    {
        match self.checkpoints.as_slice().last() {
            Some(last) => last.count == count,
            None => false,
        }
    }

    /// The checkpoints of a run that ends with this state. Where the last one is at its count, it is that of the end.
    pub(crate) fn finish(self, alloc: Global, m: &Machine, f: &Frames) -> Result<Finished, Memory>
        requires { m.now.count ≤ 2 ^ 40 }
        ensures { IfOk result (λ done. (opened : Pages) (states : List State)
            → AreKept opened states self f.now
            → AreFinished opened states (state_of m.now f.now.pages) done) }
    {
        if self.is_at(m.count) {
            let mut checkpoints = self.checkpoints.into_vec();
            let Some(last) = checkpoints.pop() else {
                unreachable!()
            };
            let checkpoints = Seq::from_vec(checkpoints);
            return Ok(Finished { checkpoints, last });
        }
        let last = checkpoint_with(m, changed_pages(alloc, f, &self.memory)?);
        Ok(Finished {
            checkpoints: self.checkpoints,
            last,
        })
    }
}

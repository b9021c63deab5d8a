//! The listings of a recording.

ghost use Rattle.std.specs.Prelude.{◌≡◌, ◌+◌, ◌<◌, ◌≤◌, ◌^◌, List, [], ◌∷◌, ◌++◌, length, vec_len, IfOk, OnOk};
ghost use Rattle.rec_format.specs.declared.recording.Recording.{Recording as Recorded};
ghost use Rattle.rec_format.specs.declared.recording.ListedPage.{ListedPage as Listed};
ghost use Rattle.rec_format.specs.Rules.{IsRecordingValue};
ghost use Rattle.rec_format.specs.Recorded.{checkpoint_at};
ghost use Rattle.checkpoints.specs.Versions.{IsChain, AreListings, AreVersions};

use crate::versions::Versions;
use rec_format::{CheckpointData, ListedPage, Recording};
use sl_base::Memory;
use std::alloc::Global;

/// Checkpoint `k` of those from 1 on, and that of the end for every number behind it.
pub(crate) fn checkpoint_of(rec: &Recording, k: u32) -> &CheckpointData
    requires { 0 < k }
    ensures { result.now ≡ checkpoint_at rec.now k }
{
    match rec.checkpoints.as_slice().get(k as usize - 1) {
        Some(checkpoint) => checkpoint,
        None => &rec.last,
    }
}

impl Versions {
    /// Adds the listings of one checkpoint.
    fn add_list(&mut self, at: u32, listed: &[ListedPage]) -> Result<(), Memory>
        requires chain { IsChain self.old.heads self.old.items.items }
        requires few { vec_len self.old.items + length listed.now ≤ 2 ^ 32 }
        ensures chain { IsChain self.new.heads self.new.items.items }
        ensures counts { self.new.counts ≡ self.old.counts }
        ensures listed { (rec : Recorded) (before : List Listed) → 0 < at
            → listed.now ≡ (checkpoint_at rec at).pages
            → AreListings rec self.old.items.items before
            → OnOk result (AreListings rec self.new.items.items (before ++ listed.now)) }
    {
        for (place, page) in listed.iter().enumerate() {
            self.add(page.number, at, place as u32)?;
        }
        Ok(())
    }

    /// Counts the listings that are there, for a further checkpoint.
    fn add_count(&mut self) -> Result<(), Memory>
        requires few { vec_len self.old.items < 2 ^ 32 }
        ensures heads { self.new.heads ≡ self.old.heads }
        ensures items { self.new.items ≡ self.old.items }
        ensures counts { let count = length self.old.items.items in
            OnOk result (self.new.counts.items ≡ self.old.counts.items ++ count ∷ []) }
    {
        self.counts.reserve(1)?;
        self.counts.push_reserved(self.items.len() as u32);
        Ok(())
    }

    /// The listings of a recording.
    pub(crate) fn of(alloc: Global, rec: &Recording) -> Result<Versions, Memory>
        requires { IsRecordingValue rec.now }
        ensures { IfOk result (AreVersions rec.now) }
    {
        let mut versions = Versions::new(alloc);
        versions.add_count()?;
        for k in 0..rec.checkpoints.len() as u32 + 1 {
            versions.add_list(k + 1, checkpoint_of(rec, k + 1).pages.as_slice())?;
            versions.add_count()?;
        }
        Ok(versions)
    }
}

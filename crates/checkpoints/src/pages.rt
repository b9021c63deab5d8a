//! The checkpoints by their numbers, and the pages that they record.

ghost use Rattle.std.specs.Prelude.{◌≡◌, ◌<◌, ◌≤◌, length, IfOk};
ghost use Rattle.sl_model.specs.Mapping.{zero_page};
ghost use Rattle.rv_machine.specs.Machine.{state_of};
ghost use Rattle.rec_format.specs.Rules.{IsRecordingValue};
ghost use Rattle.rec_format.specs.Recorded.{end_place, checkpoint_at, recorded_page};
ghost use Rattle.sl_model.specs.State.{IsOpening};

use crate::kept::Checkpoints;
use crate::version_lists::checkpoint_of;
use crate::versions::Versions;
use page_frames::Frames;
use rec_format::{CheckpointData, Recording};
use rv_machine::Machine;
use sl_base::Memory;
use std::alloc::Global;

/// The bytes of `zeros`.
static ZEROS: [u8; 4096] = [0; 4096];

/// A page of zeros.
fn zeros() -> &'static [u8]
    ensures { result.now ≡ zero_page }
{
    &ZEROS
}

impl Checkpoints {
    /// The checkpoints of a recording that opens with this state. No page is copied.
    ///
    /// # Errors
    ///
    /// Want of memory.
    pub fn new(
        alloc: Global,
        rec: Recording,
        machine: Machine,
        opening: Frames,
    ) -> Result<Checkpoints, Memory>
        requires recording { IsRecordingValue rec }
        requires opening { IsOpening (state_of machine opening.pages) }
        ensures recording { IfOk result (λ checkpoints. checkpoints.rec ≡ rec) }
        ensures machine { IfOk result (λ checkpoints. checkpoints.machine ≡ machine) }
        ensures memory { IfOk result (λ checkpoints. checkpoints.opening ≡ opening) }
    {
        let versions = Versions::of(alloc, &rec)?;
        Ok(Checkpoints {
            alloc,
            rec,
            machine,
            opening,
            versions,
        })
    }

    /// How many intervals lie between neighbouring checkpoints, from the opening state to the end.
    pub fn segments(&self) -> u32
        ensures { result ≡ end_place self.now.rec }
    {
        self.rec.checkpoints.len() as u32 + 1
    }

    /// Checkpoint `k` of those from 1 on, and that of the end for every number behind it.
    pub fn checkpoint(&self, k: u32) -> &CheckpointData
        requires { 0 < k }
        ensures { result.now ≡ checkpoint_at self.now.rec k }
    {
        checkpoint_of(&self.rec, k)
    }

    /// The page that checkpoint `k` records: its last listing up to there, else its opening content, else zeros.
    pub fn page_at(&self, k: u32, page: u32) -> &[u8]
        requires { k ≤ end_place self.now.rec }
        ensures page { result.now ≡ recorded_page self.now.opening.pages self.now.rec k page }
        ensures whole { length result.now ≡ 4096 }
    {
        if let Some(bytes) = self.last_listed(k, page) {
            return bytes;
        }
        match self.opening.page(page) {
            Some(bytes) => bytes,
            None => zeros(),
        }
    }
}

//! A recording with the state that it opens with.

ghost use Rattle.rv_machine.specs.Machine.{state_of};
ghost use Rattle.rec_format.specs.Rules.{IsRecordingValue};
ghost use Rattle.rec_format.specs.OneProof.{IsRecordingValue-prop};
ghost use Rattle.sl_model.specs.State.{IsOpening};
ghost use Rattle.checkpoints.specs.Opening.{IsOpening-prop};
ghost use Rattle.checkpoints.specs.Versions.{AreVersions};
ghost use Rattle.checkpoints.specs.OneProof.{AreVersions-prop};

use crate::versions::Versions;
use page_frames::Frames;
use rec_format::Recording;
use rv_machine::Machine;
use std::alloc::Global;

/// What the checkpoints of a recording record. Checkpoint 0 is the opening state, those from 1 on are the recording's,
/// and the last is that of its end. The recording is kept here, once.
#[derive(Drop)]
pub struct Checkpoints {
    pub(crate) alloc: Global,
    pub rec: Recording,
    /// The opening state.
    pub machine: Machine,
    /// Its memory.
    pub opening: Frames,
    /// Its listings, so that the last one of a page is found.
    pub(crate) versions: Versions,
    ghost is_value: { IsRecordingValue rec } by { IsRecordingValue-prop rec },
    ghost opens: { IsOpening (state_of machine opening.pages) } by { IsOpening-prop _ },
    ghost listings: { AreVersions rec versions } by { AreVersions-prop rec versions },
}

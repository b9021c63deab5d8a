//! What epochs are run of.

ghost use Rattle.std.specs.Prelude.{◌≡◌};
ghost use Rattle.rec_format.specs.Recorded.{end_place};
ghost use Rattle.epoch_cut.specs.Places.{IsCutting};
ghost use Rattle.tracer_lang.specs.Script.{tree_of};
ghost use Rattle.epoch_run.specs.EpochLaws.{epochs_of};
ghost use Rattle.epoch_run.specs.Images.{IsImageOf, IsImageOf-prop};
ghost use Rattle.epoch_run.specs.Loaded.{IsLoaded, IsLoaded-prop};
ghost use Rattle.epoch_run.specs.Symbols.{IsOver, IsOver-prop};
ghost use Rattle.epoch_run.specs.Watched.{AreWatched, AreWatched-prop};

use crate::compiled::CompiledScript;
use analysers::Kind;
use checkpoints::Checkpoints;
use elf_image::Image;
use epoch_cut::Cutting;
use sl_base::Seq;
use tracepoints::Points;

/// A recording, cut into epochs, with the script whose tracers run on them and the analyses of what
/// they leave.
#[derive(Drop)]
pub struct Plan {
    /// The image of the recording, which the program is loaded from.
    pub image: Image,
    /// The recording with its checkpoints, and the opening state of the image with the recorded
    /// arguments.
    pub checkpoints: Checkpoints,
    /// The places where the intervals between checkpoints are cut.
    pub cutting: Cutting,
    /// The tracers, as a script over the symbols of the image and as code.
    pub tracers: CompiledScript,
    /// The points of the script, at which they fire.
    pub points: Points,
    /// The analyses.
    pub kinds: Seq<Kind>,
    ghost spelled: { IsImageOf image checkpoints.rec } by { IsImageOf-prop image checkpoints.rec },
    ghost loaded: { IsLoaded image checkpoints } by { IsLoaded-prop image checkpoints },
    ghost cuts: { IsCutting (end_place checkpoints.rec) cutting },
    ghost over: { IsOver image.symbols (tree_of tracers.script) } by { IsOver-prop image.symbols (tree_of tracers.script) },
    ghost watched: { AreWatched points tracers.script } by { AreWatched-prop points tracers.script },
}

impl Plan {
    /// How many epochs it has, at least one.
    pub fn epochs(&self) -> u32
        ensures { result ≡ epochs_of self.now.cutting }
    {
        (self.cutting.places().len() - 1) as u32
    }
}

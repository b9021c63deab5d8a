//! How a command ends.

use asm_text::AsmFault;
use call_log::Break;
use elf_image::ImageFault;
use rec_format::RecFault;
use sl_base::Seq;
use tracer_text::ScriptFault;

/// Why a command was refused: by its words, by a file, or by what a file says. Nothing was written
/// to the first output then, and nothing was put.
#[derive(Debug, Drop)]
pub enum Refusal {
    /// The words name no command.
    Usage,
    /// There is no file of this name.
    Absent { name: Seq<u8> },
    /// The file of this name has more than `limit` bytes.
    TooLong { limit: u64, name: Seq<u8> },
    /// The bytes are no recording, by their first fault.
    RecordingBroken(RecFault),
    /// The bytes are no image, by their first fault.
    ImageBroken(ImageFault),
    /// The text is no script of the image, by its first fault.
    ScriptRefused(ScriptFault),
    /// The word at this position, from 1, names no analysis.
    AnalysisRefused(u64),
    /// The replay first differs from the recording by a call or by its end.
    ReplayBroken(Break),
    /// The replay first differs from the recording at a checkpoint.
    CheckpointDiffers(Break),
    /// The text is no source of the assembler, by its first fault.
    AsmRefused(AsmFault),
    /// The recording that was to be put has so many bytes, more than a recording may have.
    TooLarge { length: u64 },
}

/// How a command ended. Each ending but `Ok` has one line on the second output.
#[derive(Debug, Drop)]
pub enum Status {
    /// The command was done whole.
    Ok,
    /// The command was refused.
    Refused(Refusal),
    /// The store failed.
    StoreFault,
    /// The first output failed. What was written to it is a prefix of the command's text.
    SinkFault,
    /// Memory could not be had.
    Memory,
}

impl Refusal {
    ghost use Rattle.std.specs.Prelude.{◌≡◌};
    ghost use Rattle.report.specs.Status.{refusal_code};

    /// The number that the program ends with.
    pub fn code(&self) -> u8
        ensures { result ≡ refusal_code self.now }
    {
        match self {
            Refusal::Usage => 1,
            Refusal::Absent { .. } => 2,
            Refusal::TooLong { .. } => 3,
            Refusal::RecordingBroken(_) => 4,
            Refusal::ImageBroken(_) => 5,
            Refusal::ScriptRefused(_) => 6,
            Refusal::AnalysisRefused(_) => 7,
            Refusal::ReplayBroken(_) => 8,
            Refusal::CheckpointDiffers(_) => 9,
            Refusal::AsmRefused(_) => 13,
            Refusal::TooLarge { .. } => 14,
        }
    }
}

impl Status {
    ghost use Rattle.std.specs.Prelude.{◌≡◌};
    ghost use Rattle.report.specs.Status.{code_of};

    /// The number that the program ends with.
    pub fn code(&self) -> u8
        ensures { result ≡ code_of self.now }
    {
        match self {
            Status::Ok => 0,
            Status::Refused(why) => why.code(),
            Status::StoreFault => 10,
            Status::SinkFault => 11,
            Status::Memory => 12,
        }
    }
}

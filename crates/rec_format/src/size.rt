//! How many bytes a recording takes.

ghost use Rattle.std.specs.Prelude.{◌≡◌, ◌+◌, ◌*◌, ◌<◌, ◌≤◌, ◌^◌, length};
ghost use Rattle.std.specs.List.{AllByRecursion};
ghost use Rattle.rec_format.specs.Rules.{AreArguments, IsCallEntry, IsCheckpoint, IsRecordingValue};
ghost use Rattle.rec_format.specs.Spelling.{sized, counted, call, checkpoint, spelling};

use crate::limits::MOST_IMAGE_BYTES;
use crate::recording::{CheckpointData, Recording};
use call_log::CallEntry;
use sl_base::Seq;

fn sized_size(bytes: &[u8]) -> u64
    requires { length bytes.now ≤ MOST_IMAGE_BYTES }
    ensures exact { result ≡ length (sized bytes.now) }
    ensures small { result < 2 ^ 27 }
{
    4 + bytes.len() as u64
}

fn args_size(args: &[Seq<u8>]) -> u64
    requires { AreArguments args.now }
    ensures exact { result ≡ length (counted sized args.now) }
    ensures small { result < 2 ^ 60 }
{
    let mut size = 4;
    for arg in args {
        size += sized_size(arg.as_slice());
    }
    size
}

fn call_size(entry: &CallEntry) -> u64
    requires { IsCallEntry entry.now }
    ensures exact { result ≡ length (call entry.now) }
    ensures small { result < 2 ^ 17 }
{
    36 + entry.bytes.len() as u64
}

fn calls_size(calls: &[CallEntry]) -> u64
    requires number { length calls.now < 2 ^ 32 }
    requires each { AllByRecursion IsCallEntry calls.now }
    ensures exact { result ≡ length (counted call calls.now) }
    ensures small { result < 2 ^ 60 }
{
    let mut size = 4;
    for entry in calls {
        size += call_size(entry);
    }
    size
}

fn checkpoint_size(saved: &CheckpointData) -> u64
    requires { IsCheckpoint saved.now }
    ensures exact { result ≡ length (checkpoint saved.now) }
    ensures small { result < 2 ^ 27 }
{
    152 + 4100 * saved.pages.len() as u64
}

fn checkpoints_size(checkpoints: &[CheckpointData]) -> u64
    requires number { length checkpoints.now < 2 ^ 32 }
    requires each { AllByRecursion IsCheckpoint checkpoints.now }
    ensures exact { result ≡ length (counted checkpoint checkpoints.now) }
    ensures small { result < 2 ^ 60 }
{
    let mut size = 4;
    for saved in checkpoints {
        size += checkpoint_size(saved);
    }
    size
}

/// The length of the spelling.
pub fn recording_size(rec: &Recording) -> u64
    requires { IsRecordingValue rec.now }
    ensures { result ≡ length (spelling rec.now) }
{
    let image = sized_size(rec.image.as_slice());
    let args = args_size(rec.args.as_slice());
    let calls = calls_size(rec.calls.as_slice());
    let checkpoints = checkpoints_size(rec.checkpoints.as_slice());
    let last = checkpoint_size(&rec.last);
    24 + image + args + calls + checkpoints + last
}

//! Writes recordings.

ghost use Rattle.std.specs.Prelude.{◌≡◌, ◌<◌, ◌≤◌, ◌^◌, ◌++◌, length, OnOk, IfOk, IfErr, Ok};
ghost use Rattle.std.specs.List.{AllByRecursion, flat_map};
ghost use Rattle.rec_format.specs.Rules.{AreArguments, IsCallEntry, IsListedPage, IsCheckpoint, IsRecordingValue};
ghost use Rattle.rec_format.specs.Spelling.{word, double_word, sized, counted, call, listed_page, checkpoint, end_of_run, spelling, IsRecording};
ghost use Rattle.rec_format.specs.Reading.{reading};
ghost use Rattle.rec_format.specs.Writing.{IsRefusedFor};

use crate::fault::TooLarge;
use crate::limits::MOST_BYTES;
use crate::recording::{CheckpointData, ListedPage, Recording};
use crate::size::recording_size;
use byteorder::{ByteOrder, LittleEndian};
use call_log::{CallEntry, End};
use sl_base::{Refused, Seq};
use std::alloc::{AllocError, Global};

#[tactic(auto, unfolding(crate::specs::Spelling::word))]
fn put_word(out: &mut Vec<u8>, n: u32) -> Result<(), AllocError>
    ensures { OnOk result (out.new.items ≡ out.old.items ++ word n) }
{
    let mut bytes = [0; 4];
    LittleEndian::write_u32(&mut bytes, n);
    out.extend_from_slice(&bytes)
}

#[tactic(auto, unfolding(crate::specs::Spelling::double_word))]
fn put_double_word(out: &mut Vec<u8>, n: u64) -> Result<(), AllocError>
    ensures { OnOk result (out.new.items ≡ out.old.items ++ double_word n) }
{
    let mut bytes = [0; 8];
    LittleEndian::write_u64(&mut bytes, n);
    out.extend_from_slice(&bytes)
}

/// Bytes after their number.
#[tactic(auto, unfolding(crate::specs::Spelling::sized))]
fn put_sized(out: &mut Vec<u8>, bytes: &[u8]) -> Result<(), AllocError>
    requires { length bytes.now < 2 ^ 32 }
    ensures { OnOk result (out.new.items ≡ out.old.items ++ sized bytes.now) }
{
    put_word(out, bytes.len() as u32)?;
    out.extend_from_slice(bytes)
}

fn put_words(out: &mut Vec<u8>, words: &[u32]) -> Result<(), AllocError>
    ensures { OnOk result (out.new.items ≡ out.old.items ++ flat_map word words.now) }
{
    for n in words {
        put_word(out, *n)?;
    }
    Ok(())
}

#[tactic(auto, unfolding(crate::specs::Spelling::call))]
fn put_call(out: &mut Vec<u8>, entry: &CallEntry) -> Result<(), AllocError>
    requires { IsCallEntry entry.now }
    ensures { OnOk result (out.new.items ≡ out.old.items ++ call entry.now) }
{
    put_word(out, entry.call.number)?;
    put_words(out, &entry.call.args)?;
    put_word(out, entry.result)?;
    put_sized(out, entry.bytes.as_slice())
}

#[tactic(auto, unfolding(crate::specs::Spelling::listed_page))]
fn put_page(out: &mut Vec<u8>, page: &ListedPage) -> Result<(), AllocError>
    ensures { OnOk result (out.new.items ≡ out.old.items ++ listed_page page.now) }
{
    put_word(out, page.number)?;
    out.extend_from_slice(page.bytes.as_slice())
}

#[tactic(auto, unfolding(crate::specs::Spelling::end_of_run))]
fn put_end(out: &mut Vec<u8>, end: End) -> Result<(), AllocError>
    ensures { OnOk result (out.new.items ≡ out.old.items ++ end_of_run end) }
{
    let (kind, value) = match end {
        End::Exited(code) => (0, code),
        End::Trapped(trap) => (1, trap),
        End::Stopped => (2, 0),
    };
    put_word(out, kind)?;
    put_word(out, value)
}

/// The arguments, after their number.
#[tactic(auto, unfolding(crate::specs::Spelling::counted))]
fn put_args(out: &mut Vec<u8>, args: &[Seq<u8>]) -> Result<(), AllocError>
    requires { AreArguments args.now }
    ensures { OnOk result (out.new.items ≡ out.old.items ++ counted sized args.now) }
{
    put_word(out, args.len() as u32)?;
    for arg in args {
        put_sized(out, arg.as_slice())?;
    }
    Ok(())
}

/// The calls, after their number.
#[tactic(auto, unfolding(crate::specs::Spelling::counted))]
fn put_calls(out: &mut Vec<u8>, calls: &[CallEntry]) -> Result<(), AllocError>
    requires number { length calls.now < 2 ^ 32 }
    requires each { AllByRecursion IsCallEntry calls.now }
    ensures { OnOk result (out.new.items ≡ out.old.items ++ counted call calls.now) }
{
    put_word(out, calls.len() as u32)?;
    for entry in calls {
        put_call(out, entry)?;
    }
    Ok(())
}

/// The pages, after their number.
#[tactic(auto, unfolding(crate::specs::Spelling::counted))]
fn put_pages(out: &mut Vec<u8>, pages: &[ListedPage]) -> Result<(), AllocError>
    requires { length pages.now < 2 ^ 32 }
    ensures { OnOk result (out.new.items ≡ out.old.items ++ counted listed_page pages.now) }
{
    put_word(out, pages.len() as u32)?;
    for page in pages {
        put_page(out, page)?;
    }
    Ok(())
}

#[tactic(auto, unfolding(crate::specs::Spelling::checkpoint))]
fn put_checkpoint(out: &mut Vec<u8>, saved: &CheckpointData) -> Result<(), AllocError>
    requires { IsCheckpoint saved.now }
    ensures { OnOk result (out.new.items ≡ out.old.items ++ checkpoint saved.now) }
{
    put_double_word(out, saved.count)?;
    put_word(out, saved.pc)?;
    put_words(out, &saved.x)?;
    put_word(out, saved.brk)?;
    put_word(out, saved.brk_end)?;
    put_word(out, saved.next_call)?;
    put_pages(out, saved.pages.as_slice())
}

/// The checkpoints, after their number.
#[tactic(auto, unfolding(crate::specs::Spelling::counted))]
fn put_checkpoints(out: &mut Vec<u8>, checkpoints: &[CheckpointData]) -> Result<(), AllocError>
    requires number { length checkpoints.now < 2 ^ 32 }
    requires each { AllByRecursion IsCheckpoint checkpoints.now }
    ensures { OnOk result (out.new.items ≡ out.old.items ++ counted checkpoint checkpoints.now) }
{
    put_word(out, checkpoints.len() as u32)?;
    for saved in checkpoints {
        put_checkpoint(out, saved)?;
    }
    Ok(())
}

#[tactic(auto, unfolding(crate::specs::Spelling::spelling, crate::specs::Spelling::name, crate::specs::Spelling::version))]
fn put_recording(out: &mut Vec<u8>, rec: &Recording) -> Result<(), AllocError>
    requires { IsRecordingValue rec.now }
    ensures { OnOk result (out.new.items ≡ out.old.items ++ spelling rec.now) }
{
    out.extend_from_slice(b"SLDGREC1")?;
    put_word(out, rec.kind)?;
    put_word(out, rec.load_addr)?;
    put_sized(out, rec.image.as_slice())?;
    put_args(out, rec.args.as_slice())?;
    put_calls(out, rec.calls.as_slice())?;
    put_checkpoints(out, rec.checkpoints.as_slice())?;
    put_end(out, rec.end)?;
    put_checkpoint(out, &rec.last)
}

/// The bytes of a recording, its one spelling.
///
/// # Errors
///
/// `TooLarge` with the length of the spelling exactly where it has more than 268,435,456 bytes;
/// nothing of it is made then. Want of memory.
#[tactic(auto, using(crate::proofs::RecordingLaws::reading_again))]
pub fn write_recording(alloc: Global, rec: &Recording) -> Result<Vec<u8>, Refused<TooLarge>>
    requires { IsRecordingValue rec.now }

    ensures written { IfOk result (λ bytes. IsRecording bytes.items rec.now) }
    ensures read_again { IfOk result (λ bytes. reading bytes.items ≡ Ok rec.now) }
    ensures refused { IfErr result (IsRefusedFor rec.now) }
{
    let length = recording_size(rec);
    if length > MOST_BYTES {
        return Err(Refused::Fault(TooLarge { length }));
    }
    let mut out = Vec::with_capacity(alloc, length as usize)?;
    put_recording(&mut out, rec)?;
    Ok(out)
}

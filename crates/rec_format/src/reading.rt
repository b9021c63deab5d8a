//! Reads recordings.

ghost use Rattle.std.specs.Prelude.{◌≡◌, ℕ, List, IfOk, Ok};
ghost use Rattle.rec_format.specs.Spelling.{IsRecording};
ghost use Rattle.sl_base.specs.Refusals.{Tells};
ghost use Rattle.rec_format.specs.Reading.{Gives, recording_at, reading};
ghost use Rattle.rec_format.specs.declared.recording.Recording.{Recording};

use crate::calls::{args, calls, end, kept};
use crate::checkpoints::{checkpoint, checkpoints, last_count};
use crate::cursor::Cursor;
use crate::fault::{RecCause, RecFault, refused};
use crate::limits::{HIGHEST_KIND, MOST_BYTES, MOST_IMAGE_BYTES};
use crate::listings::Listings;
use crate::recording::Recording;
use sl_base::Refused;
use std::alloc::Global;

#[tactic(auto, unfolding(crate::specs::Reading::recording_at, crate::specs::Spelling::name, crate::specs::Spelling::version))]
fn recording(alloc: Global, cursor: &mut Cursor<'_>) -> Result<Recording, Refused<RecFault>>
    ensures { Gives (λ rec. rec) result cursor.new (recording_at cursor.old) }
{
    cursor.text(b"SLDGREC", RecCause::Magic)?;
    cursor.text(b"1", RecCause::Version)?;
    let kind = cursor.word_up_to(HIGHEST_KIND)?;
    let load_addr = cursor.word_up_to(if kind == 0 { u32::MAX } else { 0 })?;
    let image = kept(alloc, cursor.sized_up_to(MOST_IMAGE_BYTES)?)?;
    let args = args(alloc, cursor)?;
    let calls = calls(alloc, cursor)?;
    let mut listings = Listings::new(alloc);
    let checkpoints = checkpoints(alloc, cursor, &mut listings)?;
    let end = end(cursor)?;
    let last_count = last_count(checkpoints.as_slice());
    let last = checkpoint(alloc, cursor, last_count, &mut listings)?;
    Ok(Recording {
        kind,
        load_addr,
        image,
        args,
        calls,
        checkpoints,
        end,
        last,
    })
}

/// Reads all of the bytes.
#[tactic(auto, unfolding(crate::specs::Reading::reading))]
fn whole(alloc: Global, bytes: &[u8]) -> Result<Recording, Refused<RecFault>>
    ensures { Tells result (reading bytes.now) }
{
    if bytes.len() as u64 > MOST_BYTES {
        return Err(refused(MOST_BYTES, RecCause::TooLarge));
    }
    let mut cursor = Cursor::new(bytes);
    let recording = recording(alloc, &mut cursor)?;
    if !cursor.is_at_end() {
        return Err(refused(cursor.place(), RecCause::Trailing));
    }
    Ok(recording)
}

/// The recording that the bytes spell, or their first fault.
///
/// # Errors
///
/// The first rule that the bytes break, going from left to right, with the place of its field; or
/// want of memory.
pub fn read_recording(alloc: Global, bytes: &[u8]) -> Result<Recording, Refused<RecFault>>
    // What is read is spelled so and meets the rules.
    ensures found { IfOk result (IsRecording bytes.now) }

    // What is spelled so and meets the rules is read, unless memory runs out.
    ensures only { (rec : Recording) → IsRecording bytes.now rec → Tells result (Ok rec) }

    // Which fault it is.
    ensures exact { Tells result (reading bytes.now) }
{
    whole(alloc, bytes)
}

/// A law: no two recordings have one spelling.
pub fn spelled_apart()
    ensures { (bytes : List ℕ) (a b : Recording)
        → IsRecording bytes a → IsRecording bytes b → a ≡ b }
{}

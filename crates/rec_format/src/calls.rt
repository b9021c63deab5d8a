//! Reads the arguments, the calls and the end of a recorded run.

ghost use Rattle.std.specs.Prelude.{◌≡◌, ◌+◌, ◌≤◌, length, IfOk};
ghost use Rattle.rec_format.specs.Rules.{is_trap};
ghost use Rattle.rec_format.specs.Sure.{IsSure};
ghost use Rattle.rec_format.specs.Reading.{Gives, arg_at, args_at, call_at, calls_at, end_at, end_of_kind};

use crate::cursor::Cursor;
use crate::fault::{RecCause, RecFault, refused};
use crate::limits::{MOST_ARG_BYTES, MOST_ARGS, MOST_CALL_BYTES, STOPPED};
use call_log::{CallEntry, End};
use sl_base::{Call, Refused, Seq};
use std::alloc::{AllocError, Global};

/// A copy of some bytes.
pub fn kept(alloc: Global, bytes: &[u8]) -> Result<Seq<u8>, AllocError>
    ensures { IfOk result (λ kept. kept ≡ bytes.now) }
{
    Ok(Seq::from_vec(Vec::from_slice(alloc, bytes)?))
}

/// An argument, after some that take `used` bytes.
#[tactic(auto, unfolding(crate::specs::Reading::arg_at))]
fn arg(alloc: Global, cursor: &mut Cursor<'_>, used: u64) -> Result<Seq<u8>, Refused<RecFault>>
    requires { used ≤ MOST_ARG_BYTES }
    ensures read { Gives (λ arg. arg) result cursor.new (arg_at used cursor.old) }
    ensures room { IfOk result (λ arg. used + length arg + 1 ≤ MOST_ARG_BYTES) }
{
    let place = cursor.place();
    let len = cursor.word()?;
    if used + u64::from(len) + 1 > MOST_ARG_BYTES {
        return Err(refused(place, RecCause::Range));
    }
    let arg = cursor.run(len as usize)?;
    if arg.contains(&0) {
        return Err(refused(place, RecCause::Range));
    }
    Ok(kept(alloc, arg)?)
}

/// The arguments, after their number.
#[tactic(auto, unfolding(crate::specs::Reading::args_at))]
pub fn args(alloc: Global, cursor: &mut Cursor<'_>) -> Result<Seq<Seq<u8>>, Refused<RecFault>>
    ensures { Gives (λ args. args) result cursor.new (args_at cursor.old) }
{
    let number = cursor.word_up_to(MOST_ARGS)?;
    let mut args = Seq::new(alloc);
    let mut used = 0;
    for _ in 0..number {
        let arg = arg(alloc, cursor, used)?;
        used += arg.len() as u64 + 1;
        args.push(arg)?;
    }
    Ok(args)
}

#[tactic(auto, unfolding(crate::specs::Reading::call_at))]
fn call(alloc: Global, cursor: &mut Cursor<'_>) -> Result<CallEntry, Refused<RecFault>>
    ensures { Gives (λ entry. entry) result cursor.new (call_at cursor.old) }
{
    let number = cursor.word()?;
    let args = cursor.words::<6>()?;
    let result = cursor.word()?;
    let bytes = cursor.sized_up_to(MOST_CALL_BYTES)?;
    Ok(CallEntry {
        call: Call { number, args },
        result,
        bytes: kept(alloc, bytes)?,
    })
}

/// The calls, after their number.
#[tactic(auto, unfolding(crate::specs::Reading::calls_at))]
pub fn calls(alloc: Global, cursor: &mut Cursor<'_>) -> Result<Seq<CallEntry>, Refused<RecFault>>
    ensures { Gives (λ calls. calls) result cursor.new (calls_at cursor.old) }
{
    let number = cursor.word()?;
    let mut calls = Seq::new(alloc);
    for _ in 0..number {
        calls.push(call(alloc, cursor)?)?;
    }
    Ok(calls)
}

/// The end of a kind with a value, if there is one.
fn end_of(kind: u32, value: u32) -> Option<End>
    ensures { result ≡ end_of_kind kind value }
{
    match kind {
        0 => Some(End::Exited(value)),
        1 => match value {
            0..=3 | 5 | 7 => Some(End::Trapped(value)),
            _ => None,
        },
        _ => { if value == 0 { Some(End::Stopped) } else { None } }
    }
}

/// How the run ended.
#[tactic(auto, unfolding(crate::specs::Reading::end_at))]
pub fn end(cursor: &mut Cursor<'_>) -> Result<End, Refused<RecFault>>
    ensures read { Gives (λ end. end) result cursor.new (end_at cursor.old) }
    ensures sure { IsSure result }
{
    let kind = cursor.word_up_to(STOPPED)?;
    let place = cursor.place();
    let value = cursor.word()?;
    match end_of(kind, value) {
        Some(end) => Ok(end),
        None => Err(refused(place, RecCause::Range)),
    }
}

//! The answer to a call of a program that is recorded.

ghost use Rattle.std.specs.Prelude.{◌≡◌, ◌<◌, ◌≤◌, length, take, None, Some, true, false, if◌then◌else◌, IfOk};
ghost use Rattle.sl_base.specs.Calls.{is_error, is_write};
ghost use Rattle.call_log.specs.Differences.{first_difference};
ghost use Rattle.rec_format.specs.Rules.{IsCallEntry};
ghost use Rattle.call_recorder.specs.Answered.{heard_of};
ghost use Rattle.call_recorder.specs.Lives.{IsAsk, AnswersAsk};

use call_log::{Ask, CallEntry};
use outside::World;
use sl_base::{Call, LEAST_ERROR, Memory, Seq, WRITE};
use std::alloc::{AllocError, Global};

/// The bytes that an answer to a read brought: as many of the room as a count says, and none with an error.
fn taken(alloc: Global, room: &[u8], answer: u32) -> Result<Seq<u8>, AllocError>
    requires { (length room.now < answer) → is_error answer ≡ true }
    ensures { IfOk result
        (λ bytes. bytes ≡ take (if is_error answer then 0 else answer) room.now) }
{
    if answer >= LEAST_ERROR {
        return Ok(Seq::new(alloc));
    }
    Ok(Seq::from_vec(Vec::from_slice(alloc, &room[..answer as usize])?))
}

/// A recorded call.
fn entry_of(call: Call, answer: u32, bytes: Seq<u8>) -> CallEntry
    requires { length bytes ≤ 65536 }
    ensures is { IsCallEntry result }
    ensures parts { result ≡ record { call = call; result = answer; bytes = bytes } }
{
    CallEntry {
        call,
        result: answer,
        bytes,
    }
}

/// The recorded write with the answer of the world.
fn written<W: World>(ask: Ask, world: &mut W) -> CallEntry
    requires asks { IsAsk ask }
    requires outside { ask.fixed ≡ None }
    requires writes { is_write ask.call ≡ true }
    ensures due { first_difference result ask ≡ None }
    ensures is { IsCallEntry result }
    ensures heard { W.hears world.old (heard_of ask result) world.new }
{
    let Ask {
        call,
        give,
        room: _,
        fixed: _,
    } = ask;
    let answer = world.answer(&call, give.as_slice(), &mut []);
    entry_of(call, answer, give)
}

/// The recorded read, or call for random bytes, with the answer of the world.
fn brought<W: World>(alloc: Global, ask: Ask, world: &mut W) -> Result<CallEntry, Memory>
    requires asks { IsAsk ask }
    requires outside { ask.fixed ≡ None }
    requires reads { is_write ask.call ≡ false }
    ensures due { IfOk result (λ entry. first_difference entry ask ≡ None) }
    ensures is { IfOk result IsCallEntry }
    ensures heard { IfOk result
        (λ entry. W.hears world.old (heard_of ask entry) world.new) }
{
    let Ask {
        call,
        give,
        room: size,
        fixed: _,
    } = ask;
    let mut room = vec![in alloc; 0; size as usize]?;
    let answer = world.answer(&call, give.as_slice(), &mut room);
    let bytes = taken(alloc, &room, answer)?;
    Ok(entry_of(call, answer, bytes))
}

/// The recorded call with the answer of the world.
fn answered_by<W: World>(alloc: Global, ask: Ask, world: &mut W) -> Result<CallEntry, Memory>
    requires asks { IsAsk ask }
    requires outside { ask.fixed ≡ None }
    ensures due { IfOk result (λ entry. first_difference entry ask ≡ None) }
    ensures is { IfOk result IsCallEntry }
    ensures heard { IfOk result
        (λ entry. W.hears world.old (heard_of ask entry) world.new) }
{
    if ask.call.number == WRITE {
        return Ok(written(ask, world));
    }
    brought(alloc, ask, world)
}

/// The recorded call with the result that the machine decides.
fn decided(alloc: Global, ask: Ask, answer: u32) -> CallEntry
    requires { ask.fixed ≡ Some answer }
    ensures due { first_difference result ask ≡ None }
    ensures is { IsCallEntry result }
{
    entry_of(ask.call, answer, Seq::new(alloc))
}

/// The recorded call: with the result that the machine decides, and else with the answer of the world, which is asked
/// for no other.
pub(crate) fn answer<W: World>(alloc: Global, ask: Ask, world: &mut W) -> Result<CallEntry, Memory>
    requires { IsAsk ask }
    ensures due { IfOk result (λ entry. first_difference entry ask ≡ None) }
    ensures is { IfOk result IsCallEntry }
    ensures heard { IfOk result (AnswersAsk W.hears ask.fixed world.old world.new ask) }
{
    match ask.fixed {
        Some(result) => Ok(decided(alloc, ask, result)),
        None => answered_by(alloc, ask, world),
    }
}

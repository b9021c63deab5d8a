//! What a program asks by a system call.

ghost use Rattle.std.specs.Prelude.{◌≡◌, ◌≤◌, Some, IsSome, IfOk};
ghost use Rattle.sl_model.specs.Pages.{Pages, bytes_at};
ghost use Rattle.rv_machine.specs.Machine.{state_of};
ghost use Rattle.sl_model.specs.Heap.{brk_answer};
ghost use Rattle.replay.specs.Calls.{call_of, is_exit, is_outside, buffer, room, fixed_result, given, ask_of};

use crate::copying::bytes_in;
use call_log::Ask;
use page_frames::Frames;
use rv_machine::Machine;
use sl_base::{Call, GETRANDOM, Memory, READ, Seq, WRITE};
use std::alloc::Global;

/// The number of the call that exits.
const EXIT: u32 = 93;

/// The number of the call that exits all threads.
const EXIT_GROUP: u32 = 94;

/// The number of the call that moves the break.
pub const BRK: u32 = 214;

/// The result that says that a byte of the buffer is not mapped: error number 14.
const BAD_ADDRESS: u32 = 0xFFFF_FFF2;

/// The result that says that there is no such call: error number 38.
const NO_CALL: u32 = 0xFFFF_FFDA;

/// The most bytes that one call gives or takes.
const MOST_BYTES: u32 = 65_536;

/// The call at an ECALL: its number stands in a7, its arguments in a0 to a5.
pub fn call_of(m: &Machine) -> Call
    ensures { (pages : Pages) → result ≡ call_of (state_of m.now pages) }
{
    let x = &m.x;
    Call {
        number: x[17],
        args: [x[10], x[11], x[12], x[13], x[14], x[15]],
    }
}

/// Whether a call is an exit.
pub fn is_exit(call: &Call) -> bool
    ensures { result ≡ is_exit call.now }
{
    call.number == EXIT || call.number == EXIT_GROUP
}

/// Whether the outside answers a call.
pub fn is_outside(call: &Call) -> bool
    ensures { result ≡ is_outside call.now }
{
    call.number == READ || call.number == WRITE || call.number == GETRANDOM
}

/// Where the bytes of such a call stand.
pub fn buffer(call: &Call) -> u32
    ensures { result ≡ buffer call.now }
{
    if call.number == GETRANDOM {
        call.args[0]
    } else {
        call.args[1]
    }
}

/// How many bytes it has at most.
fn room(call: &Call) -> u32
    ensures value { result ≡ room call.now }
    ensures few { result ≤ 65536 }
{
    let asked = if call.number == GETRANDOM {
        call.args[1]
    } else {
        call.args[2]
    };
    asked.min(MOST_BYTES)
}

/// What a call that moves the break answers.
pub fn brk_answer(m: &Machine, address: u32) -> u32
    ensures { (pages : Pages) → result ≡ brk_answer (state_of m.now pages) address }
{
    if m.layout.brk_start <= address && address <= m.layout.heap_limit {
        address
    } else {
        m.brk
    }
}

/// The result that the machine decides, and `None` where it is the outside's.
fn fixed_result(m: &Machine, f: &Frames, call: &Call) -> Option<u32>
    ensures { result ≡ fixed_result (state_of m.now f.now.pages) call.now }
{
    if is_outside(call) {
        if f.is_mapped(buffer(call), room(call)) {
            return None;
        }
        return Some(BAD_ADDRESS);
    }
    if call.number == BRK {
        return Some(brk_answer(m, call.args[0]));
    }
    Some(NO_CALL)
}

/// The bytes that a write gives, and none of another call.
fn given(alloc: Global, f: &Frames, call: &Call) -> Result<Seq<u8>, Memory>
    requires { IsSome (bytes_at f.now.pages (buffer call.now) (room call.now)) }
    ensures { IfOk result
        (λ bytes. (m : Machine) → bytes ≡ given (state_of m f.now.pages) call.now) }
{
    if call.number != WRITE {
        return Ok(Seq::new(alloc));
    }
    bytes_in(alloc, f, buffer(call), room(call))
}

/// What the program asks, where an ECALL is its next instruction: `None` for an exit, which is not
/// recorded.
pub fn ask(alloc: Global, m: &Machine, f: &Frames) -> Result<Option<Ask>, Memory>
    ensures { IfOk result (λ ask. ask ≡ ask_of (state_of m.now f.now.pages)) }
{
    let call = call_of(m);
    if is_exit(&call) {
        return Ok(None);
    }
    let fixed = fixed_result(m, f, &call);
    if fixed.is_some() {
        return Ok(Some(Ask {
            call,
            give: Seq::new(alloc),
            room: 0,
            fixed,
        }));
    }
    let give = given(alloc, f, &call)?;
    let room = room(&call);
    Ok(Some(Ask {
        call,
        give,
        room,
        fixed,
    }))
}

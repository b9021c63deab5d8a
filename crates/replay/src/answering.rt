//! What a program finds after a system call.

ghost use Rattle.std.specs.Prelude.{◌≡◌, ◌+◌, ◌<◌, ◌≤◌, ◌^◌, ◌==◌, ℕ, length, true, false, IsSome, OnOk};
ghost use Rattle.sl_model.specs.Marks.{MarksGoOn};
ghost use Rattle.sl_model.specs.Pages.{Pages, bytes_at};
ghost use Rattle.sl_model.specs.State.{Fits};
ghost use Rattle.rv_machine.specs.Machine.{state_of};
ghost use Rattle.replay.specs.Calls.{call_of, is_outside, buffer, brk_mapped_end, brk_done, call_done, exited, moved_on, answered, IsDue};

use crate::asking::{BRK, brk_answer, buffer, call_of, is_outside};
use call_log::CallEntry;
use page_frames::Frames;
use rv_machine::Machine;
use sl_base::{Call, Memory, WRITE};
use sl_model::RunState;

/// Does an exit.
pub fn exit(m: &mut Machine)
    requires { m.old.count < 2 ^ 62 }
    ensures state { (pages : Pages) → state_of m.new pages ≡ exited (state_of m.old pages) }
    ensures count { m.new.count ≡ m.old.count + 1 }
{
    m.status = RunState::Exited(m.x[10]);
    m.pc = m.pc.wrapping_add(4);
    m.count += 1;
}

/// The heap end after the break was moved.
fn heap_end(m: &Machine, address: u32) -> u32
    requires { m.now.layout.heap_limit ≤ 0xBFFFF000 }
    ensures { (pages : Pages) → result ≡ brk_mapped_end (state_of m.now pages) address }
{
    if m.layout.brk_start <= address && address <= m.layout.heap_limit {
        m.brk_end.max((address + 4095) / 4096 * 4096)
    } else {
        m.brk_end
    }
}

/// Moves the break, and maps zeros up to it. After an `Err` machine and memory are given up.
fn move_break(m: &mut Machine, f: &mut Frames, address: u32) -> Result<(), Memory>
    requires fits { Fits (state_of m.old f.old.pages) }
    ensures state { let s = state_of m.old f.old.pages in
        OnOk result (state_of m.new f.new.pages ≡ brk_done s address) }
    ensures marks { OnOk result
        (MarksGoOn true f.old.pages f.old.dirty f.new.pages f.new.dirty) }
    ensures count { m.new.count ≡ m.old.count }
    ensures next_call { m.new.next_call ≡ m.old.next_call }
{
    let end = heap_end(m, address);
    let first = m.brk_end / 4096;
    f.map_pages(first, end / 4096 - first)?;
    m.brk = brk_answer(m, address);
    m.brk_end = end;
    Ok(())
}

/// Does what a call changes beside a0 and the place. After an `Err` machine and memory are given
/// up.
fn do_call(call: &Call, bytes: &[u8], m: &mut Machine, f: &mut Frames) -> Result<(), Memory>
    requires fits { Fits (state_of m.old f.old.pages) }
    requires data { is_outside call.now ≡ true → (call.now.number == 64) ≡ false
        → IsSome (bytes_at f.old.pages (buffer call.now) (length bytes.now)) }
    ensures state { let s = state_of m.old f.old.pages in
        OnOk result (state_of m.new f.new.pages ≡ call_done s call.now bytes.now) }
    ensures marks { OnOk result
        (MarksGoOn true f.old.pages f.old.dirty f.new.pages f.new.dirty) }
    ensures count { m.new.count ≡ m.old.count }
    ensures next_call { m.new.next_call ≡ m.old.next_call }
{
    if is_outside(call) {
        if call.number != WRITE {
            f.copy_in(buffer(call), bytes);
        }
        return Ok(());
    }
    if call.number == BRK {
        return move_break(m, f, call.args[0]);
    }
    Ok(())
}

/// Puts a call's result into a0 and goes on behind the call.
fn move_on(m: &mut Machine, value: u32)
    requires count { m.old.count < 2 ^ 62 }
    requires next_call { m.old.next_call + 1 < 2 ^ 32 }
    ensures state { (pages : Pages)
        → state_of m.new pages ≡ moved_on (state_of m.old pages) value }
    ensures count { m.new.count ≡ m.old.count + 1 }
{
    m.x[10] = value;
    m.pc = m.pc.wrapping_add(4);
    m.count += 1;
    m.next_call += 1;
}

/// Does a call with its recorded answer, which does not differ from what the program asks. After an
/// `Err` machine and memory are given up.
pub fn apply(entry: &CallEntry, m: &mut Machine, f: &mut Frames) -> Result<(), Memory>
    requires fits { Fits (state_of m.old f.old.pages) }
    requires count { m.old.count < 2 ^ 62 }
    requires next_call { m.old.next_call + 1 < 2 ^ 32 }
    requires due { IsDue (state_of m.old f.old.pages) entry.now }
    ensures state { let s = state_of m.old f.old.pages in
        OnOk result (state_of m.new f.new.pages ≡ answered s entry.now) }
    ensures count { OnOk result (m.new.count ≡ m.old.count + 1) }
    ensures marks { OnOk result
        (MarksGoOn true f.old.pages f.old.dirty f.new.pages f.new.dirty) }
{
    let call = call_of(m);
    do_call(&call, entry.bytes.as_slice(), m, f)?;
    move_on(m, entry.result);
    Ok(())
}

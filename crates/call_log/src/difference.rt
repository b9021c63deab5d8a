//! Where a recorded call differs from the one that a program makes.

ghost use Rattle.std.specs.Prelude.{◌≡◌, ◌<◌, ◌^◌, length};
ghost use Rattle.call_log.specs.Differences.{due_length, due_result, field_diff, fields_diff, bytes_diff, call_diff, answer_diff};
ghost use Rattle.call_log.specs.Differences.{first_difference as difference};

use crate::ask::{Ask, CallDiff};
use crate::entry::CallEntry;
use sl_base::{Call, LEAST_ERROR, WRITE};

/// A field, where it differs.
fn field_difference(field: u32, recorded: u32, due: u32) -> Option<CallDiff>
    ensures { result ≡ field_diff field recorded due }
{
    if recorded == due {
        return None;
    }
    Some(CallDiff {
        field,
        recorded,
        due,
    })
}

/// The first argument that differs. The first one has number 1.
fn argument_difference(recorded: &[u32; 6], due: &[u32; 6]) -> Option<CallDiff>
    ensures { result ≡ fields_diff 1 recorded.now due.now }
{
    for i in 0..6 {
        if let Some(found) = field_difference(i as u32 + 1, recorded[i], due[i]) {
            return Some(found);
        }
    }
    None
}

/// The first byte that differs.
fn byte_difference(recorded: &[u8], due: &[u8]) -> Option<CallDiff>
    ensures { result ≡ bytes_diff recorded.now due.now }
{
    let len = recorded.len().min(due.len());
    for i in 0..len {
        if recorded[i] != due[i] {
            return field_difference(9, u32::from(recorded[i]), u32::from(due[i]));
        }
    }
    None
}

/// The result that a call needs, where this one is recorded.
fn result_due(ask: &Ask, recorded: u32) -> u32
    ensures { result ≡ due_result ask.now recorded }
{
    match ask.fixed {
        Some(fixed) => fixed,
        None if recorded <= ask.room || recorded >= LEAST_ERROR => recorded,
        None => ask.room,
    }
}

/// How many data bytes a call needs, where this result is recorded.
fn length_due(ask: &Ask, recorded: u32) -> u32
    ensures { result ≡ due_length ask.now recorded }
{
    if ask.fixed.is_some() {
        0
    } else if ask.call.number == WRITE {
        ask.room
    } else if recorded >= LEAST_ERROR {
        0
    } else {
        recorded
    }
}

/// The number or the first argument that differs.
fn call_difference(recorded: &Call, due: &Call) -> Option<CallDiff>
    ensures { result ≡ call_diff recorded.now due.now }
{
    match field_difference(0, recorded.number, due.number) {
        None => argument_difference(&recorded.args, &due.args),
        found => found,
    }
}

/// The result, the length of the data or a byte of it that differs.
fn answer_difference(entry: &CallEntry, ask: &Ask) -> Option<CallDiff>
    requires { length entry.now.bytes < 2 ^ 32 }
    ensures { result ≡ answer_diff entry.now ask.now }
{
    if let Some(found) = field_difference(7, entry.result, result_due(ask, entry.result)) {
        return Some(found);
    }
    let len = entry.bytes.len() as u32;
    if let Some(found) = field_difference(8, len, length_due(ask, entry.result)) {
        return Some(found);
    }
    if ask.call.number == WRITE {
        byte_difference(entry.bytes.as_slice(), ask.give.as_slice())
    } else {
        None
    }
}

/// The least field of a recorded call that differs from what the program asks, and `None` exactly
/// where none does.
pub fn first_difference(entry: &CallEntry, ask: &Ask) -> Option<CallDiff>
    requires { length entry.now.bytes < 2 ^ 32 }
    ensures { result ≡ difference entry.now ask.now }
{
    match call_difference(&entry.call, &ask.call) {
        None => answer_difference(entry, ask),
        found => found,
    }
}

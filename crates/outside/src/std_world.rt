//! The outside as the process has it: stdin, stdout and stderr, and the system's random bytes.

ghost use Rattle.std.specs.Prelude.{◌≡◌, ◌≢◌, ◌≤◌, ◌⊎◌, ◌==◌, IfOk, IfSome, IfNone, length, drop};
ghost use Rattle.std.specs.Io.KnownBytes.{Consumes};
ghost use Rattle.outside.specs.Written.{Adds};
ghost use Rattle.sl_base.specs.Calls.{IsAsked, getrandom_number};
ghost use Rattle.outside.specs.World.{IsAnswer, KeepsRest, HasDescriptor, IsByProcess, heard_by, failure, no_descriptor};

use crate::retried::read_once;
use crate::world::{FAILURE, World};
use sl_base::{Call, Memory, READ, WRITE};
use std::alloc::Global;
use std::fs;
use std::io::{Read, Write};
use std::marker::Model;
use std::rt::Files;

/// The most bytes that a call takes.
const MOST_BYTES: usize = 65_536;

/// Error 9: there is no such descriptor.
const NO_DESCRIPTOR: u32 = 0xffff_fff7;

/// The world of a process. Descriptor 0 is read from its stdin by one read, which may give fewer
/// bytes than there is room. 1 and 2 are written to its stdout and stderr, whole. Random bytes are
/// read from `/dev/urandom`, as many as there is room. What a signal interrupts is tried again. It
/// counts each failure. Contracts see the count, and what was written where the outputs tell it.
#[derive(Drop)]
pub struct StdWorld<'a, F, I, O: Write, E: Write> {
    files: &'a F,
    input: I,
    output: O,
    error_output: E,
    buffer: Vec<u8>,
    failures: u64,
}

impl<'a, F, I, O: Write, E: Write> Model for StdWorld<'a, F, I, O, E> {
    ghost use Rattle.outside.specs.World.{ProcessWorld};

    ghost Value = { ProcessWorld };

    ghost view = { λ world. record {
      failures = world.failures;
      output = O.contents world.output;
      errors = E.contents world.error_output;
    } };
}

impl<'a, F, I, O: Write, E: Write> StdWorld<'a, F, I, O, E> {
    /// The world over these, as `rt.stdin()`, `rt.stdout()` and `rt.stderr()`.
    pub fn new(
        alloc: Global,
        files: &'a F,
        input: I,
        output: O,
        error_output: E,
    ) -> Result<StdWorld<'a, F, I, O, E>, Memory>
    where
        I: Drop,
        O: Drop,
        E: Drop,
        ensures { IfOk result (λ world. world ≡ record {
          failures = 0;
          output = O.contents output;
          errors = E.contents error_output;
        }) }
    {
        Ok(StdWorld {
            files,
            input,
            output,
            error_output,
            buffer: vec![in alloc; 0; MOST_BYTES]?,
            failures: 0,
        })
    }
}

impl<F: Files, I: Read, O: Write, E: Write> World for StdWorld<'_, F, I, O, E> {
    ghost use Rattle.outside.specs.World.{IsByProcess};

    ghost hears = { IsByProcess };

    fn answer(&mut self, call: &Call, give: &[u8], take: &mut [u8]) -> u32
        requires asked { IsAsked call.now }
        requires give { length give.now ≤ 65536 }
        requires take { length take.old ≤ 65536 }
        ensures range { IsAnswer call.now (length give.now) (length take.old) result }
        ensures rest { KeepsRest call.now result take.old take.new }
        ensures heard { IsByProcess self.old
            (heard_by call.now give.now (length take.old) result take.new) self.new }

        // Only other descriptors are unknown, and random bytes fill the room.
        ensures known { HasDescriptor call.now → result ≢ no_descriptor }
        ensures unknown { ¬ HasDescriptor call.now → result ≡ no_descriptor }
        ensures random { call.now.number ≡ getrandom_number
            → (result ≡ length take.old) ⊎ (result ≡ failure) }
    {
        let count = match (call.number, call.args[0]) {
            (READ, 0) => read_some(&mut self.input, &mut self.buffer, take),
            (WRITE, 1) => write_whole(&mut self.output, give),
            (WRITE, 2) => write_whole(&mut self.error_output, give),
            (READ | WRITE, _) => return NO_DESCRIPTOR,
            _ => match fs::open(self.files, "/dev/urandom") {
                Ok(mut random) => read_whole(&mut random, &mut self.buffer, take),
                Err(_) => None,
            },
        };
        match count {
            Some(count) => count,
            None => {
                self.failures = self.failures.saturating_add(1);
                FAILURE
            }
        }
    }
}

/// One read. The bytes go through the buffer, since a reader may spoil its room past what it says.
fn read_some<R: Read>(reader: &mut R, buffer: &mut [u8], take: &mut [u8]) -> Option<u32>
    requires { length take.old ≤ 65536 }
    ensures count { IfSome result (λ count. count ≤ length take.old) }
    ensures rest { IfSome result (λ count. drop count take.new ≡ drop count take.old) }
    ensures none { IfNone result (take.new ≡ take.old) }
{
    let room = take.len().min(buffer.len());
    let count = read_once(reader, &mut buffer[..room]).ok()?;
    take[..count].copy_from_slice(&buffer[..count]);
    Some(count as u32)
}

/// As many reads as fill the room, and `None` where the reader ends or fails before.
pub fn read_whole<R: Read>(reader: &mut R, buffer: &mut [u8], take: &mut [u8]) -> Option<u32>
    requires { length take.old ≤ 65536 }
    ensures count { IfSome result (λ count. count ≡ length take.old) }
    ensures bytes { IfSome result
        (λ _. Consumes (R.remaining reader.old) (R.remaining reader.new) take.new) }
    ensures none { IfNone result (take.new ≡ take.old) }
{
    let room = take.len();
    if room > buffer.len() {
        return None;
    }
    reader.read_exact(&mut buffer[..room]).ok()?;
    take.copy_from_slice(&buffer[..room]);
    Some(room as u32)
}

/// Writes all the bytes.
fn write_whole<W: Write>(writer: &mut W, bytes: &[u8]) -> Option<u32>
    requires { length bytes.now ≤ 65536 }
    ensures count { IfSome result (λ count. count ≡ length bytes.now) }
    ensures written { IfSome result
        (λ _. Adds (W.contents writer.old) (W.contents writer.new) bytes.now) }
{
    writer.write_all(bytes).ok()?;
    Some(bytes.len() as u32)
}

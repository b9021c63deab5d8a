//! The outside of a program that is recorded by a command of a guide.

ghost use Rattle.std.specs.Prelude.{◌≡◌, ◌≤◌, ◌⊎◌, length, drop};
ghost use Rattle.outside.specs.World.{failure};

use outside::{FAILURE, World};
use sl_base::{Call, READ, WRITE};
use std::alloc::Global;

/// An outside whose input are these bytes, and that keeps what is written to descriptors 1 and 2.
/// It has no random bytes.
#[derive(Debug, Drop)]
pub struct Outside {
    input: Vec<u8>,
    /// How many bytes of the input were read.
    read: usize,
    written: Vec<u8>,
}

impl Outside {
    pub fn new(alloc: Global, input: Vec<u8>) -> Outside {
        Outside {
            input,
            read: 0,
            written: Vec::new(alloc),
        }
    }

    /// What was written, in the order in which it was.
    pub fn written(&self) -> &[u8] {
        &self.written
    }

    /// Reads as many bytes as there are, up to the room.
    fn read_input(&mut self, room: &mut [u8]) -> u32
        requires { length room.old ≤ 65536 }
        ensures count { result ≤ length room.old }
        ensures rest { drop result room.new ≡ drop result room.old }
    {
        let Some(rest) = self.input.get(self.read..) else {
            return 0;
        };
        let count = rest.len().min(room.len());
        room[..count].copy_from_slice(&rest[..count]);
        self.read += count;
        count as u32
    }

    /// Keeps all bytes, or none where memory can't be had.
    fn keep(&mut self, bytes: &[u8]) -> u32
        requires { length bytes.now ≤ 65536 }
        ensures { (result ≡ length bytes.now) ⊎ (result ≡ failure) }
    {
        match self.written.extend_from_slice(bytes) {
            Ok(()) => bytes.len() as u32,
            Err(_) => FAILURE,
        }
    }
}

impl World for Outside {
    ghost use Rattle.std.specs.Prelude.{⊤};

    ghost hears = { λ _ _ _. ⊤ };

    fn answer(&mut self, call: &Call, give: &[u8], take: &mut [u8]) -> u32 {
        match (call.number, call.args[0]) {
            (READ, 0) => self.read_input(take),
            (WRITE, 1 | 2) => self.keep(give),
            _ => FAILURE,
        }
    }
}

//! What a program asks of the outside, and its answers.

ghost use Rattle.std.specs.Prelude.{◌≤◌, length};

use sl_base::{Call, Seq};

/// The outside failed: error 5, an error of input or output.
pub const FAILURE: u32 = 0xffff_fffb;

/// An answer of the outside to a read, a write or a call for random bytes, before it is cut to the
/// call.
#[derive(Debug, PartialEq, Eq, Drop)]
pub struct Reply {
    /// How many bytes were read or written, or 2^32 - n for error number n, from 1 to 4095.
    pub result: u32,
    /// The bytes that were read.
    pub bytes: Seq<u8>,
}

/// The outside of a program: it answers the calls 63 (read), 64 (write) and 278 (getrandom), and says
/// what each of them makes of it.
pub trait World {
    ghost use Rattle.outside.specs.World.{IsAnswer, KeepsRest, Heard, heard_by};
    ghost use Rattle.sl_base.specs.Calls.{IsAsked};

    /// What the outside was before a call, the call with its answer, and what it is afterwards.
    ghost hears: { Self → Heard → Self → Type 0 };

    /// Answers a call. `give` are the bytes of a write, and `take` is the room of the others, whose
    /// first bytes are those that were read. The answer is a number of bytes, or an error. A
    /// failure of the outside is error 5.
    fn answer(&mut self, call: &Call, give: &[u8], take: &mut [u8]) -> u32
        requires asked { IsAsked call.now }
        requires give { length give.now ≤ 65536 }
        requires take { length take.old ≤ 65536 }
        ensures range { IsAnswer call.now (length give.now) (length take.old) result }
        ensures rest { KeepsRest call.now result take.old take.new }
        ensures heard { hears self.old
            (heard_by call.now give.now (length take.old) result take.new) self.new };
}

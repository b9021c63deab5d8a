//! The word of an instruction.

ghost use Rattle.std.specs.Prelude.{◌≡◌};
ghost use Rattle.rv_asm.specs.Encoding.{word_for};

use rv_decode::{Instr, encode};

/// The word of an instruction.
pub fn word_for(instr: &Instr) -> u32
    ensures { result ≡ word_for instr.now }
{
    encode(instr)
}

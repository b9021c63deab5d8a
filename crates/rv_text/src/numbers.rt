//! Immediates as numbers with a sign: the highest bit of each is its sign.

ghost use Rattle.std.specs.Prelude.{◌≡◌};
ghost use Rattle.sl_model.specs.Arithmetic.{signed, immediate_word, branch_word, jump_word};

use rv_decode::Bits;

/// The number of an imm[11:0].
pub fn immediate(imm: Bits<12>) -> i32
    ensures { result ≡ signed (immediate_word imm) }
{
    let imm = imm.value() as i32;
    if imm < 0x800 { imm } else { imm - 0x1000 }
}

/// The offset of a branch, of which imm[12:1] is half.
pub fn branch_offset(half_offset: Bits<12>) -> i32
    ensures { result ≡ signed (branch_word half_offset) }
{
    let offset = half_offset.value() as i32 * 2;
    if offset < 0x1000 {
        offset
    } else {
        offset - 0x2000
    }
}

/// The offset of a jump, of which imm[20:1] is half.
pub fn jump_offset(half_offset: Bits<20>) -> i32
    ensures { result ≡ signed (jump_word half_offset) }
{
    let offset = half_offset.value() as i32 * 2;
    if offset < 0x10_0000 {
        offset
    } else {
        offset - 0x20_0000
    }
}

//! The fields of a word, by the formats of the RISC-V Unprivileged ISA ("Base Instruction Formats"
//! and "Immediate Encoding Variants").

ghost use Rattle.std.specs.Prelude.{◌≡◌, ◌+◌, ◌*◌, ◌^◌, ◌<◌, ◌≤◌};
ghost use Rattle.sl_model.specs.Words.{bits, opcode as opcode_of, funct3 as funct3_of, funct7 as funct7_of, rd_of, rs1_of, rs2_of, i_immediate, s_immediate, b_immediate, u_immediate, j_immediate};

use sl_model::{Bits, Register};

/// Bits 6 to 0.
#[inline(always)]
pub fn opcode(word: u32) -> u32
    ensures { result ≡ opcode_of word }
{
    word & 0x7f
}

/// Bits 14 to 12.
#[inline(always)]
pub fn funct3(word: u32) -> u32
    ensures { result ≡ funct3_of word }
{
    word >> 12 & 0x7
}

/// Bits 31 to 25.
#[inline(always)]
pub fn funct7(word: u32) -> u32
    ensures { result ≡ funct7_of word }
{
    word >> 25
}

/// Bits 11 to 7: the register that is written.
#[inline(always)]
pub fn rd(word: u32) -> Register
    ensures { result ≡ rd_of word }
{
    Bits::<5>::low(word >> 7)
}

/// Bits 19 to 15: the first register that is read.
#[inline(always)]
pub fn rs1(word: u32) -> Register
    ensures { result ≡ rs1_of word }
{
    Bits::<5>::low(word >> 15)
}

/// Bits 24 to 20: the second register that is read, or the amount of a shift.
#[inline(always)]
pub fn rs2(word: u32) -> Register
    ensures { result ≡ rs2_of word }
{
    Bits::<5>::low(word >> 20)
}

/// imm[11:0] of the I format, in bits 31 to 20.
#[inline(always)]
pub fn immediate(word: u32) -> Bits<12>
    ensures { result ≡ i_immediate word }
{
    Bits::<12>::low(word >> 20)
}

/// imm[31:12] of the U format, in bits 31 to 12.
#[inline(always)]
pub fn upper_immediate(word: u32) -> Bits<20>
    ensures { result ≡ u_immediate word }
{
    Bits::<20>::low(word >> 12)
}

/// Bits 31 to 15, which FENCE keeps.
#[inline(always)]
pub fn fence_fields(word: u32) -> Bits<17>
    ensures { result ≡ bits 31 15 word }
{
    Bits::<17>::low(word >> 15)
}

/// A number of 32 bits whose low `width` bits are `low` and whose other bits are `high`.
#[inline(always)]
pub fn joined(high: u32, low: u32, width: u32) -> u32
    requires narrow { width < 32 }
    requires low { low < 2 ^ width }
    requires high { high * 2 ^ width < 2 ^ 32 }
    ensures { result ≡ high * 2 ^ width + low }
{
    high << width | low
}

/// imm[11:0] of the S format: imm[11:5] in bits 31 to 25, imm[4:0] in bits 11 to 7.
#[inline(always)]
pub fn store_offset(word: u32) -> Bits<12>
    ensures { result ≡ s_immediate word }
{
    Bits::<12>::low(joined(word >> 25, word >> 7 & 0x1f, 5))
}

/// imm[12:1] of the B format: imm[12] in bit 31, imm[11] in bit 7, imm[10:5] in bits 30 to 25,
/// imm[4:1] in bits 11 to 8.
#[inline(always)]
pub fn branch_half_offset(word: u32) -> Bits<12>
    ensures { result ≡ b_immediate word }
{
    let sign = joined(word >> 31, word >> 7 & 0x1, 1);
    let high = joined(sign, word >> 25 & 0x3f, 6);
    Bits::<12>::low(joined(high, word >> 8 & 0xf, 4))
}

/// imm[20:1] of the J format: imm[20] in bit 31, imm[19:12] in bits 19 to 12, imm[11] in bit 20,
/// imm[10:1] in bits 30 to 21.
#[inline(always)]
pub fn jump_half_offset(word: u32) -> Bits<20>
    ensures { result ≡ j_immediate word }
{
    let sign = joined(word >> 31, word >> 12 & 0xff, 8);
    let high = joined(sign, word >> 20 & 0x1, 1);
    Bits::<20>::low(joined(high, word >> 21 & 0x3ff, 10))
}

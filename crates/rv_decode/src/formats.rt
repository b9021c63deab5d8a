//! The words of each format, from their fields ("Base Instruction Formats" and "Immediate Encoding
//! Variants" of the RISC-V Unprivileged ISA).

ghost use Rattle.std.specs.Prelude.{◌≡◌, ◌^◌, ◌<◌};
ghost use Rattle.sl_model.specs.Words.{bits, opcode as opcode_of, funct3 as funct3_of, funct7 as funct7_of, rd_of, rs1_of, rs2_of, i_immediate, s_immediate, b_immediate, u_immediate, j_immediate};

use crate::fields::joined;
use sl_model::{Bits, Register};

/// A word of the R format.
pub fn register_format(
    opcode: u32,
    funct3: u32,
    funct7: u32,
    rd: Register,
    rs1: Register,
    rs2: Register,
) -> u32
    requires opcode { opcode < 2 ^ 7 }
    requires funct3 { funct3 < 2 ^ 3 }
    requires funct7 { funct7 < 2 ^ 7 }
    ensures opcode { opcode_of result ≡ opcode }
    ensures funct3 { funct3_of result ≡ funct3 }
    ensures funct7 { funct7_of result ≡ funct7 }
    ensures rd { rd_of result ≡ rd }
    ensures rs1 { rs1_of result ≡ rs1 }
    ensures rs2 { rs2_of result ≡ rs2 }
{
    let word = joined(funct7, rs2.value(), 5);
    let word = joined(word, rs1.value(), 5);
    let word = joined(word, funct3, 3);
    let word = joined(word, rd.value(), 5);
    joined(word, opcode, 7)
}

/// A word of the I format.
pub fn immediate_format(opcode: u32, funct3: u32, rd: Register, rs1: Register, imm: Bits<12>) -> u32
    requires opcode { opcode < 2 ^ 7 }
    requires funct3 { funct3 < 2 ^ 3 }
    ensures opcode { opcode_of result ≡ opcode }
    ensures funct3 { funct3_of result ≡ funct3 }
    ensures rd { rd_of result ≡ rd }
    ensures rs1 { rs1_of result ≡ rs1 }
    ensures imm { i_immediate result ≡ imm }
{
    let word = joined(imm.value(), rs1.value(), 5);
    let word = joined(word, funct3, 3);
    let word = joined(word, rd.value(), 5);
    joined(word, opcode, 7)
}

/// A word of the S format: imm[11:5] goes to bits 31 to 25, imm[4:0] to bits 11 to 7.
pub fn store_format(opcode: u32, funct3: u32, rs1: Register, rs2: Register, offset: Bits<12>) -> u32
    requires opcode { opcode < 2 ^ 7 }
    requires funct3 { funct3 < 2 ^ 3 }
    ensures opcode { opcode_of result ≡ opcode }
    ensures funct3 { funct3_of result ≡ funct3 }
    ensures rs1 { rs1_of result ≡ rs1 }
    ensures rs2 { rs2_of result ≡ rs2 }
    ensures offset { s_immediate result ≡ offset }
{
    let offset = offset.value();
    let word = joined(offset >> 5, rs2.value(), 5);
    let word = joined(word, rs1.value(), 5);
    let word = joined(word, funct3, 3);
    let word = joined(word, offset & 0x1f, 5);
    joined(word, opcode, 7)
}

/// A word of the B format: imm[12] goes to bit 31, imm[10:5] to bits 30 to 25, imm[4:1] to bits 11
/// to 8, imm[11] to bit 7.
pub fn branch_format(
    opcode: u32,
    funct3: u32,
    rs1: Register,
    rs2: Register,
    half_offset: Bits<12>,
) -> u32
    requires opcode { opcode < 2 ^ 7 }
    requires funct3 { funct3 < 2 ^ 3 }
    ensures opcode { opcode_of result ≡ opcode }
    ensures funct3 { funct3_of result ≡ funct3 }
    ensures rs1 { rs1_of result ≡ rs1 }
    ensures rs2 { rs2_of result ≡ rs2 }
    ensures half_offset { b_immediate result ≡ half_offset }
{
    let half_offset = half_offset.value();
    let word = joined(half_offset >> 11, half_offset >> 4 & 0x3f, 6);
    let word = joined(word, rs2.value(), 5);
    let word = joined(word, rs1.value(), 5);
    let word = joined(word, funct3, 3);
    let word = joined(word, half_offset & 0xf, 4);
    let word = joined(word, half_offset >> 10 & 0x1, 1);
    joined(word, opcode, 7)
}

/// A word of the U format.
pub fn upper_format(opcode: u32, rd: Register, imm: Bits<20>) -> u32
    requires { opcode < 2 ^ 7 }
    ensures opcode { opcode_of result ≡ opcode }
    ensures rd { rd_of result ≡ rd }
    ensures imm { u_immediate result ≡ imm }
{
    let word = joined(imm.value(), rd.value(), 5);
    joined(word, opcode, 7)
}

/// A word of the J format: imm[20] goes to bit 31, imm[10:1] to bits 30 to 21, imm[11] to bit 20,
/// imm[19:12] to bits 19 to 12.
pub fn jump_format(opcode: u32, rd: Register, half_offset: Bits<20>) -> u32
    requires { opcode < 2 ^ 7 }
    ensures opcode { opcode_of result ≡ opcode }
    ensures rd { rd_of result ≡ rd }
    ensures half_offset { j_immediate result ≡ half_offset }
{
    let half_offset = half_offset.value();
    let word = joined(half_offset >> 19, half_offset & 0x3ff, 10);
    let word = joined(word, half_offset >> 10 & 0x1, 1);
    let word = joined(word, half_offset >> 11 & 0xff, 8);
    let word = joined(word, rd.value(), 5);
    joined(word, opcode, 7)
}

/// A word of FENCE, with what stands in its other fields.
pub fn fence_format(opcode: u32, high: Bits<17>, rd: Register) -> u32
    requires { opcode < 2 ^ 7 }
    ensures opcode { opcode_of result ≡ opcode }
    ensures funct3 { funct3_of result ≡ 0b000 }
    ensures high { bits 31 15 result ≡ high }
    ensures rd { rd_of result ≡ rd }
{
    let word = joined(high.value(), 0b000, 3);
    let word = joined(word, rd.value(), 5);
    joined(word, opcode, 7)
}

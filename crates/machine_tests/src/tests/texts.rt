//! Words and their texts, as LLVM's `llvm-mc` prints them without aliases. It prints the fields of
//! FENCE too.

use rv_decode::decode;
use rv_text::print_instr;
use std::alloc::Global;
use std::process::Abort;

fn check(rt: &impl Abort, alloc: Global, word: u32, text: &str) {
    let instr = decode(word).expect(rt, "an instruction");
    let printed = print_instr(alloc, &instr).expect(rt, "memory");
    assert_eq!(rt; printed.as_str(), text, "{word:#010x}");
}

#[test]
fn texts_of_words(rt: HostRuntime) {
    for (word, text) in [
        (0x0001_0537, "lui a0, 16"),
        (0xffff_ffb7, "lui t6, 1048575"),
        (0x0000_0017, "auipc zero, 0"),
        (0x8000_0097, "auipc ra, 524288"),
        (0x0100_00ef, "jal ra, 16"),
        (0xffff_f06f, "jal zero, -2"),
        (0x4000_056f, "jal a0, 1024"),
        (0x0010_05ef, "jal a1, 2048"),
        (0x0000_166f, "jal a2, 4096"),
        (0x7fff_ffef, "jal t6, 1048574"),
        (0x8000_0def, "jal s11, -1048576"),
        (0x0005_00e7, "jalr ra, 0(a0)"),
        (0xffff_8067, "jalr zero, -1(t6)"),
        (0x7ff0_8567, "jalr a0, 2047(ra)"),
        (0x8000_0fe7, "jalr t6, -2048(zero)"),
        (0xfeb5_0ce3, "beq a0, a1, -8"),
        (0x01f0_1863, "bne zero, t6, 16"),
        (0x400f_c063, "blt t6, zero, 1024"),
        (0x00a5_50e3, "bge a0, a0, 2048"),
        (0x7f14_efe3, "bltu s1, a7, 4094"),
        (0x8098_f063, "bgeu a7, s1, -4096"),
        (0x800f_8503, "lb a0, -2048(t6)"),
        (0x7ff5_1003, "lh zero, 2047(a0)"),
        (0x0081_2503, "lw a0, 8(sp)"),
        (0xfff0_4f83, "lbu t6, -1(zero)"),
        (0x0004_d403, "lhu s0, 0(s1)"),
        (0x80af_8023, "sb a0, -2048(t6)"),
        (0x7e05_1fa3, "sh zero, 2047(a0)"),
        (0x00a1_2423, "sw a0, 8(sp)"),
        (0xfff0_2fa3, "sw t6, -1(zero)"),
        (0x00b6_2fa3, "sw a1, 31(a2)"),
        (0x02b6_2023, "sw a1, 32(a2)"),
        (0xffb5_8513, "addi a0, a1, -5"),
        (0x7fff_a013, "slti zero, t6, 2047"),
        (0x8000_3f93, "sltiu t6, zero, -2048"),
        (0xfff5_4513, "xori a0, a0, -1"),
        (0x0019_e913, "ori s2, s3, 1"),
        (0x0ffe_fe13, "andi t3, t4, 255"),
        (0x0035_9513, "slli a0, a1, 3"),
        (0x01f0_5f93, "srli t6, zero, 31"),
        (0x41ff_d013, "srai zero, t6, 31"),
        (0x0006_d613, "srli a2, a3, 0"),
        (0x4006_d613, "srai a2, a3, 0"),
        (0x00c5_8533, "add a0, a1, a2"),
        (0x41e0_0fb3, "sub t6, zero, t5"),
        (0x00af_9033, "sll zero, t6, a0"),
        (0x0124_a433, "slt s0, s1, s2"),
        (0x00c5_b533, "sltu a0, a1, a2"),
        (0x01e0_4fb3, "xor t6, zero, t5"),
        (0x00af_d033, "srl zero, t6, a0"),
        (0x4124_d433, "sra s0, s1, s2"),
        (0x00c5_e533, "or a0, a1, a2"),
        (0x01e0_7fb3, "and t6, zero, t5"),
        (0x02c5_8533, "mul a0, a1, a2"),
        (0x03e0_1fb3, "mulh t6, zero, t5"),
        (0x02af_a033, "mulhsu zero, t6, a0"),
        (0x0324_b433, "mulhu s0, s1, s2"),
        (0x02c5_c533, "div a0, a1, a2"),
        (0x03e0_5fb3, "divu t6, zero, t5"),
        (0x02af_e033, "rem zero, t6, a0"),
        (0x0324_f433, "remu s0, s1, s2"),
        (0x0ff0_000f, "fence"),
        (0x8330_000f, "fence"),
        (0xffff_8f8f, "fence"),
        (0x0000_0073, "ecall"),
        (0x0010_0073, "ebreak"),
    ] {
        check(&rt, rt.alloc(), word, text);
    }
}

#[test]
fn names_of_registers(rt: HostRuntime) {
    for (word, text) in [
        (0x0000_0037, "lui zero, 0"),
        (0x0000_00b7, "lui ra, 0"),
        (0x0000_0137, "lui sp, 0"),
        (0x0000_01b7, "lui gp, 0"),
        (0x0000_0237, "lui tp, 0"),
        (0x0000_02b7, "lui t0, 0"),
        (0x0000_0337, "lui t1, 0"),
        (0x0000_03b7, "lui t2, 0"),
        (0x0000_0437, "lui s0, 0"),
        (0x0000_04b7, "lui s1, 0"),
        (0x0000_0537, "lui a0, 0"),
        (0x0000_05b7, "lui a1, 0"),
        (0x0000_0637, "lui a2, 0"),
        (0x0000_06b7, "lui a3, 0"),
        (0x0000_0737, "lui a4, 0"),
        (0x0000_07b7, "lui a5, 0"),
        (0x0000_0837, "lui a6, 0"),
        (0x0000_08b7, "lui a7, 0"),
        (0x0000_0937, "lui s2, 0"),
        (0x0000_09b7, "lui s3, 0"),
        (0x0000_0a37, "lui s4, 0"),
        (0x0000_0ab7, "lui s5, 0"),
        (0x0000_0b37, "lui s6, 0"),
        (0x0000_0bb7, "lui s7, 0"),
        (0x0000_0c37, "lui s8, 0"),
        (0x0000_0cb7, "lui s9, 0"),
        (0x0000_0d37, "lui s10, 0"),
        (0x0000_0db7, "lui s11, 0"),
        (0x0000_0e37, "lui t3, 0"),
        (0x0000_0eb7, "lui t4, 0"),
        (0x0000_0f37, "lui t5, 0"),
        (0x0000_0fb7, "lui t6, 0"),
    ] {
        check(&rt, rt.alloc(), word, text);
    }
}

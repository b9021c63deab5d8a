//! Words and their instructions: the words are those that LLVM's `llvm-mc` makes of the assembly
//! text, and the fields are those of the text. The illegal words are the neighbors of these, and
//! instructions of other extensions.

use rv_decode::{
    Bits, BranchOp, ImmediateOp, Instr, LoadOp, MulDivOp, Register, RegisterOp, ShiftOp, StoreOp,
    decode, encode,
};
use std::process::Abort;

fn check(rt: &impl Abort, word: u32, instr: Instr) {
    assert_eq!(rt; decode(word), Some(instr), "{word:#010x}");
    assert_eq!(rt; encode(&instr), word, "{word:#010x}");
}

fn register(number: u32) -> Register {
    Bits::<5>::low(number)
}

fn upper(rt: &impl Abort) {
    for (word, rd, imm) in [(0x0001_0537, 10, 0x00010), (0xffff_ffb7, 31, 0xfffff)] {
        let rd = register(rd);
        let imm = Bits::<20>::low(imm);
        check(rt, word, Instr::Lui { rd, imm });
    }
    for (word, rd, imm) in [(0x0000_0017, 0, 0x00000), (0x8000_0097, 1, 0x80000)] {
        let rd = register(rd);
        let imm = Bits::<20>::low(imm);
        check(rt, word, Instr::Auipc { rd, imm });
    }
}

fn jumps(rt: &impl Abort) {
    for (word, rd, half_offset) in [
        (0x0100_00ef, 1, 0x00008),
        (0xffff_f06f, 0, 0xfffff),
        (0x4000_056f, 10, 0x00200),
        (0x0010_05ef, 11, 0x00400),
        (0x0000_166f, 12, 0x00800),
        (0x7fff_ffef, 31, 0x7ffff),
        (0x8000_0def, 27, 0x80000),
    ] {
        let rd = register(rd);
        let half_offset = Bits::<20>::low(half_offset);
        check(rt, word, Instr::Jal { rd, half_offset });
    }
}

fn register_jumps(rt: &impl Abort) {
    for (word, rd, rs1, offset) in [
        (0x0005_00e7, 1, 10, 0x000),
        (0xffff_8067, 0, 31, 0xfff),
        (0x7ff0_8567, 10, 1, 0x7ff),
        (0x8000_0fe7, 31, 0, 0x800),
    ] {
        let rd = register(rd);
        let rs1 = register(rs1);
        let offset = Bits::<12>::low(offset);
        check(rt, word, Instr::Jalr { rd, rs1, offset });
    }
}

fn branches(rt: &impl Abort) {
    for (word, op, rs1, rs2, half_offset) in [
        (0xfeb5_0ce3, BranchOp::Beq, 10, 11, 0xffc),
        (0x01f0_1863, BranchOp::Bne, 0, 31, 0x008),
        (0x400f_c063, BranchOp::Blt, 31, 0, 0x200),
        (0x00a5_50e3, BranchOp::Bge, 10, 10, 0x400),
        (0x7f14_efe3, BranchOp::Bltu, 9, 17, 0x7ff),
        (0x8098_f063, BranchOp::Bgeu, 17, 9, 0x800),
    ] {
        let rs1 = register(rs1);
        let rs2 = register(rs2);
        let half_offset = Bits::<12>::low(half_offset);
        check(
            rt,
            word,
            Instr::Branch {
                op,
                rs1,
                rs2,
                half_offset,
            },
        );
    }
}

fn loads(rt: &impl Abort) {
    for (word, op, rd, rs1, offset) in [
        (0x800f_8503, LoadOp::Lb, 10, 31, 0x800),
        (0x7ff5_1003, LoadOp::Lh, 0, 10, 0x7ff),
        (0x0081_2503, LoadOp::Lw, 10, 2, 0x008),
        (0xfff0_4f83, LoadOp::Lbu, 31, 0, 0xfff),
        (0x0004_d403, LoadOp::Lhu, 8, 9, 0x000),
    ] {
        let rd = register(rd);
        let rs1 = register(rs1);
        let offset = Bits::<12>::low(offset);
        check(
            rt,
            word,
            Instr::Load {
                op,
                rd,
                rs1,
                offset,
            },
        );
    }
}

fn stores(rt: &impl Abort) {
    for (word, op, rs1, rs2, offset) in [
        (0x80af_8023, StoreOp::Sb, 31, 10, 0x800),
        (0x7e05_1fa3, StoreOp::Sh, 10, 0, 0x7ff),
        (0x00a1_2423, StoreOp::Sw, 2, 10, 0x008),
        (0xfff0_2fa3, StoreOp::Sw, 0, 31, 0xfff),
        (0x00b6_2fa3, StoreOp::Sw, 12, 11, 0x01f),
        (0x02b6_2023, StoreOp::Sw, 12, 11, 0x020),
    ] {
        let rs1 = register(rs1);
        let rs2 = register(rs2);
        let offset = Bits::<12>::low(offset);
        check(
            rt,
            word,
            Instr::Store {
                op,
                rs1,
                rs2,
                offset,
            },
        );
    }
}

fn immediates(rt: &impl Abort) {
    for (word, op, rd, rs1, imm) in [
        (0xffb5_8513, ImmediateOp::Addi, 10, 11, 0xffb),
        (0x7fff_a013, ImmediateOp::Slti, 0, 31, 0x7ff),
        (0x8000_3f93, ImmediateOp::Sltiu, 31, 0, 0x800),
        (0xfff5_4513, ImmediateOp::Xori, 10, 10, 0xfff),
        (0x0019_e913, ImmediateOp::Ori, 18, 19, 0x001),
        (0x0ffe_fe13, ImmediateOp::Andi, 28, 29, 0x0ff),
    ] {
        let rd = register(rd);
        let rs1 = register(rs1);
        let imm = Bits::<12>::low(imm);
        check(rt, word, Instr::OpImm { op, rd, rs1, imm });
    }
}

fn shifts(rt: &impl Abort) {
    for (word, op, rd, rs1, amount) in [
        (0x0035_9513, ShiftOp::Slli, 10, 11, 3),
        (0x01f0_5f93, ShiftOp::Srli, 31, 0, 31),
        (0x41ff_d013, ShiftOp::Srai, 0, 31, 31),
        (0x0006_d613, ShiftOp::Srli, 12, 13, 0),
        (0x4006_d613, ShiftOp::Srai, 12, 13, 0),
    ] {
        let rd = register(rd);
        let rs1 = register(rs1);
        let amount = register(amount);
        check(
            rt,
            word,
            Instr::Shift {
                op,
                rd,
                rs1,
                amount,
            },
        );
    }
}

fn operations(rt: &impl Abort) {
    for (word, op, rd, rs1, rs2) in [
        (0x00c5_8533, RegisterOp::Add, 10, 11, 12),
        (0x41e0_0fb3, RegisterOp::Sub, 31, 0, 30),
        (0x00af_9033, RegisterOp::Sll, 0, 31, 10),
        (0x0124_a433, RegisterOp::Slt, 8, 9, 18),
        (0x00c5_b533, RegisterOp::Sltu, 10, 11, 12),
        (0x01e0_4fb3, RegisterOp::Xor, 31, 0, 30),
        (0x00af_d033, RegisterOp::Srl, 0, 31, 10),
        (0x4124_d433, RegisterOp::Sra, 8, 9, 18),
        (0x00c5_e533, RegisterOp::Or, 10, 11, 12),
        (0x01e0_7fb3, RegisterOp::And, 31, 0, 30),
    ] {
        let rd = register(rd);
        let rs1 = register(rs1);
        let rs2 = register(rs2);
        check(rt, word, Instr::Op { op, rd, rs1, rs2 });
    }
}

fn multiplies(rt: &impl Abort) {
    for (word, op, rd, rs1, rs2) in [
        (0x02c5_8533, MulDivOp::Mul, 10, 11, 12),
        (0x03e0_1fb3, MulDivOp::Mulh, 31, 0, 30),
        (0x02af_a033, MulDivOp::Mulhsu, 0, 31, 10),
        (0x0324_b433, MulDivOp::Mulhu, 8, 9, 18),
        (0x02c5_c533, MulDivOp::Div, 10, 11, 12),
        (0x03e0_5fb3, MulDivOp::Divu, 31, 0, 30),
        (0x02af_e033, MulDivOp::Rem, 0, 31, 10),
        (0x0324_f433, MulDivOp::Remu, 8, 9, 18),
    ] {
        let rd = register(rd);
        let rs1 = register(rs1);
        let rs2 = register(rs2);
        check(rt, word, Instr::MulDiv { op, rd, rs1, rs2 });
    }
}

// FENCE IORW, IORW; FENCE.TSO; PAUSE; and one with every other bit set.
fn fences(rt: &impl Abort) {
    for (word, high, rd) in [
        (0x0ff0_000f, 0x01fe0, 0),
        (0x8330_000f, 0x10660, 0),
        (0x0100_000f, 0x00200, 0),
        (0xffff_8f8f, 0x1ffff, 31),
    ] {
        let high = Bits::<17>::low(high);
        let rd = register(rd);
        check(rt, word, Instr::Fence { high, rd });
    }
}

// Words beside the instructions, of other extensions and of none.
fn illegal(rt: &impl Abort) {
    for word in [
        0x0000_0000, // all zeros
        0xffff_ffff, // all ones
        0x0000_100f, // FENCE.I
        0x0000_1067, // JALR, funct3 001
        0x0000_2063, // branches, funct3 010 and 011
        0x0000_3063,
        0x0000_3003, // LD
        0x0000_6003, // LWU
        0x0000_7003, // loads, funct3 111
        0x0000_3023, // SD
        0x0000_4023, // stores, funct3 100
        0x0200_1013, // SLLI with an amount of 32
        0x4000_1013, // SLLI, funct7 0100000
        0x0200_5013, // SRLI with an amount of 32
        0x6000_5013, // RORI of "B"
        0x4000_1033, // SLL, funct7 0100000
        0x4000_4033, // XNOR of "B"
        0x4200_0033, // MUL, funct7 0100001
        0x0400_0033, // funct7 0000010
        0x3005_9573, // CSRRW
        0xc000_2573, // RDCYCLE
        0x304f_f073, // CSRRCI
        0x0020_0073, // URET
        0x3020_0073, // MRET
        0x1050_0073, // WFI
        0x0000_00f3, // ECALL, rd 1
        0x0000_8073, // ECALL, rs1 1
        0x0000_1073, // ECALL, funct3 001
        0x0010_00f3, // EBREAK, rd 1
        0x0000_001b, // ADDIW
        0x0000_003b, // ADDW
        0x1000_202f, // LR.W
        0x0000_2007, // FLW
        0x0000_0001, // C.NOP
        0x0000_4501, // C.LI
        0x0000_8082, // C.JR
        0x0000_006b, // an opcode that is reserved
    ] {
        assert_eq!(rt; decode(word), None, "{word:#010x}");
    }
}

#[test]
fn words_and_instructions(rt: HostRuntime) {
    upper(&rt);
    jumps(&rt);
    register_jumps(&rt);
    branches(&rt);
    loads(&rt);
    stores(&rt);
    immediates(&rt);
    shifts(&rt);
    operations(&rt);
    multiplies(&rt);
    fences(&rt);
    check(&rt, 0x0000_0073, Instr::Ecall);
    check(&rt, 0x0010_0073, Instr::Ebreak);
    illegal(&rt);
}

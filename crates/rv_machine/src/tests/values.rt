//! The values of operations: zero, the greatest values, the edge of the sign, and what divides by
//! zero.

use super::one_page::OnePage;
use super::{LEAST, ONES, PLACE, run, value, x};
use crate::Outcome;
use sl_model::{Bits, ImmediateOp, Instr, MulDivOp, RegisterOp, ShiftOp};
use std::test::Fail;

const GREATEST: u32 = 0x7fff_ffff;

#[test]
fn registers(rt: HostRuntime) -> Result<(), Fail> {
    let mut page = OnePage::zeros();
    let memory = &mut page;
    for (op, first, second, expected) in [
        (RegisterOp::Add, 0, 0, 0),
        (RegisterOp::Add, ONES, 1, 0),
        (RegisterOp::Add, GREATEST, 1, LEAST),
        (RegisterOp::Sub, 0, 1, ONES),
        (RegisterOp::Sub, LEAST, 1, GREATEST),
        (RegisterOp::Sub, ONES, ONES, 0),
        (RegisterOp::Sll, 1, 31, LEAST),
        (RegisterOp::Sll, 1, 32, 1),
        (RegisterOp::Sll, ONES, ONES, LEAST),
        (RegisterOp::Slt, LEAST, GREATEST, 1),
        (RegisterOp::Slt, GREATEST, LEAST, 0),
        (RegisterOp::Slt, ONES, 0, 1),
        (RegisterOp::Slt, 0, 0, 0),
        (RegisterOp::Sltu, GREATEST, LEAST, 1),
        (RegisterOp::Sltu, ONES, 0, 0),
        (RegisterOp::Sltu, 0, 0, 0),
        (RegisterOp::Xor, ONES, LEAST, GREATEST),
        (RegisterOp::Xor, 0, 0, 0),
        (RegisterOp::Srl, LEAST, 31, 1),
        (RegisterOp::Srl, LEAST, 32, LEAST),
        (RegisterOp::Srl, ONES, 0x24, 0x0fff_ffff),
        (RegisterOp::Sra, LEAST, 31, ONES),
        (RegisterOp::Sra, LEAST, 0x24, 0xf800_0000),
        (RegisterOp::Sra, GREATEST, 31, 0),
        (RegisterOp::Sra, ONES, 1, ONES),
        (RegisterOp::Or, LEAST, GREATEST, ONES),
        (RegisterOp::Or, 0, 0, 0),
        (RegisterOp::And, ONES, LEAST, LEAST),
        (RegisterOp::And, LEAST, GREATEST, 0),
    ] {
        let instr = Instr::Op {
            op,
            rd: x(3),
            rs1: x(1),
            rs2: x(2),
        };
        assert_eq!(rt; value(&rt, memory, instr, first, second), expected);
    }
    Ok(())
}

#[test]
fn products(rt: HostRuntime) -> Result<(), Fail> {
    let mut page = OnePage::zeros();
    let memory = &mut page;
    for (op, first, second, expected) in [
        (MulDivOp::Mul, 0, ONES, 0),
        (MulDivOp::Mul, ONES, ONES, 1),
        (MulDivOp::Mul, LEAST, ONES, LEAST),
        (MulDivOp::Mul, GREATEST, 2, 0xffff_fffe),
        (MulDivOp::Mulh, ONES, ONES, 0),
        (MulDivOp::Mulh, LEAST, LEAST, 0x4000_0000),
        (MulDivOp::Mulh, LEAST, GREATEST, 0xc000_0000),
        (MulDivOp::Mulh, ONES, 1, ONES),
        (MulDivOp::Mulh, GREATEST, GREATEST, 0x3fff_ffff),
        (MulDivOp::Mulhsu, ONES, ONES, ONES),
        (MulDivOp::Mulhsu, LEAST, ONES, LEAST),
        (MulDivOp::Mulhsu, GREATEST, ONES, 0x7fff_fffe),
        (MulDivOp::Mulhsu, 1, LEAST, 0),
        (MulDivOp::Mulhu, ONES, ONES, 0xffff_fffe),
        (MulDivOp::Mulhu, LEAST, LEAST, 0x4000_0000),
        (MulDivOp::Mulhu, 1, ONES, 0),
        (MulDivOp::Mulhu, 0, 0, 0),
    ] {
        let instr = Instr::MulDiv {
            op,
            rd: x(3),
            rs1: x(1),
            rs2: x(2),
        };
        assert_eq!(rt; value(&rt, memory, instr, first, second), expected);
    }
    Ok(())
}

#[test]
fn quotients(rt: HostRuntime) -> Result<(), Fail> {
    let mut page = OnePage::zeros();
    let memory = &mut page;
    for (op, first, second, expected) in [
        (MulDivOp::Div, LEAST, ONES, LEAST),
        (MulDivOp::Div, LEAST, 0, ONES),
        (MulDivOp::Div, 0, 0, ONES),
        (MulDivOp::Div, 0xffff_fff9, 2, 0xffff_fffd),
        (MulDivOp::Div, 7, 0xffff_fffe, 0xffff_fffd),
        (MulDivOp::Div, LEAST, 1, LEAST),
        (MulDivOp::Divu, LEAST, ONES, 0),
        (MulDivOp::Divu, ONES, 0, ONES),
        (MulDivOp::Divu, ONES, 1, ONES),
        (MulDivOp::Divu, ONES, LEAST, 1),
        (MulDivOp::Rem, LEAST, ONES, 0),
        (MulDivOp::Rem, LEAST, 0, LEAST),
        (MulDivOp::Rem, 0xffff_fff9, 2, ONES),
        (MulDivOp::Rem, 7, 0xffff_fffe, 1),
        (MulDivOp::Remu, LEAST, ONES, LEAST),
        (MulDivOp::Remu, ONES, 0, ONES),
        (MulDivOp::Remu, ONES, LEAST, GREATEST),
    ] {
        let instr = Instr::MulDiv {
            op,
            rd: x(3),
            rs1: x(1),
            rs2: x(2),
        };
        assert_eq!(rt; value(&rt, memory, instr, first, second), expected);
    }
    Ok(())
}

#[test]
fn immediates(rt: HostRuntime) -> Result<(), Fail> {
    let mut page = OnePage::zeros();
    let memory = &mut page;
    for (op, first, imm, expected) in [
        (ImmediateOp::Addi, 0, 0, 0),
        (ImmediateOp::Addi, 0, 0xfff, ONES),
        (ImmediateOp::Addi, ONES, 1, 0),
        (ImmediateOp::Addi, GREATEST, 0x7ff, 0x8000_07fe),
        (ImmediateOp::Addi, 0, 0x800, 0xffff_f800),
        (ImmediateOp::Slti, LEAST, 0x800, 1),
        (ImmediateOp::Slti, ONES, 0xfff, 0),
        (ImmediateOp::Slti, 0, 0x7ff, 1),
        (ImmediateOp::Sltiu, 5, 0xfff, 1),
        (ImmediateOp::Sltiu, ONES, 0xfff, 0),
        (ImmediateOp::Sltiu, 0, 1, 1),
        (ImmediateOp::Xori, ONES, 0xfff, 0),
        (ImmediateOp::Xori, 0, 0x7ff, 0x7ff),
        (ImmediateOp::Ori, LEAST, 0x7ff, 0x8000_07ff),
        (ImmediateOp::Ori, 0, 0x800, 0xffff_f800),
        (ImmediateOp::Andi, ONES, 0x800, 0xffff_f800),
        (ImmediateOp::Andi, ONES, 0, 0),
    ] {
        let imm = Bits::<12>::low(imm);
        let instr = Instr::OpImm {
            op,
            rd: x(3),
            rs1: x(1),
            imm,
        };
        assert_eq!(rt; value(&rt, memory, instr, first, 0), expected);
    }
    for (op, first, amount, expected) in [
        (ShiftOp::Slli, 1, 31, LEAST),
        (ShiftOp::Slli, ONES, 0, ONES),
        (ShiftOp::Srli, LEAST, 31, 1),
        (ShiftOp::Srli, ONES, 0, ONES),
        (ShiftOp::Srai, LEAST, 31, ONES),
        (ShiftOp::Srai, GREATEST, 30, 1),
        (ShiftOp::Srai, LEAST, 0, LEAST),
    ] {
        let amount = Bits::<5>::low(amount);
        let instr = Instr::Shift {
            op,
            rd: x(3),
            rs1: x(1),
            amount,
        };
        assert_eq!(rt; value(&rt, memory, instr, first, 0), expected);
    }
    Ok(())
}

#[test]
fn upper_immediates_and_fences(rt: HostRuntime) -> Result<(), Fail> {
    let mut page = OnePage::zeros();
    let memory = &mut page;
    for (imm, upper, from_pc) in [
        (0, 0, PLACE),
        (0xfffff, 0xffff_f000, 0xf000),
        (0x80000, LEAST, 0x8001_0000),
    ] {
        let imm = Bits::<20>::low(imm);
        assert_eq!(rt;
            value(&rt, memory, Instr::Lui { rd: x(3), imm }, 0, 0),
            upper
        );
        assert_eq!(rt;
            value(&rt, memory, Instr::Auipc { rd: x(3), imm }, 0, 0),
            from_pc
        );
    }
    let fence = Instr::Fence {
        high: Bits::<17>::low(0x1ff),
        rd: x(3),
    };
    assert_eq!(rt; value(&rt, memory, fence, 0, 0), 0);

    // x0 stays 0
    let (outcome, m) = run(
        memory,
        Instr::Lui {
            rd: x(0),
            imm: Bits::<20>::low(1),
        },
        0,
        0,
    );
    assert_eq!(rt; (outcome, m.x[0]), (Outcome::Stepped, 0));
    Ok(())
}

//! Single steps, with the values that the RISC-V manual gives.

ghost use Rattle.std.specs.Prelude.{◌≡◌, ◌<◌, ◌^◌};

use crate::{Machine, Outcome, next_trap, step, store_of};
use rv_decode::encode;
use sl_base::Steps;
use sl_model::{
    Bits, BranchOp, Bus, ImmediateOp, Instr, Layout, LoadOp, MulDivOp, Register, RegisterOp,
    RunState, ShiftOp, StoreOp,
};
use std::marker::Brand;
use std::process::Abort;
use std::sync::ledger::{Blank, Ledger};
use std::test::Fail;

mod marked_page;
mod one_page;
mod values;

use one_page::OnePage;

/// Where the instruction stands, at the start of the page.
const PLACE: u32 = 0x10000;

/// The greatest word, which is -1, and the least number with a sign.
const ONES: u32 = 0xffff_ffff;

const LEAST: u32 = 0x8000_0000;

/// A machine at some place, with these values in x1 and x2.
fn machine_at(pc: u32, first: u32, second: u32) -> Machine
    ensures running { result.status ≡ RunState.Running }
    ensures count { result.count ≡ 7 }
{
    let mut x = [0; 32];
    x[1] = first;
    x[2] = second;
    Machine {
        pc,
        x,
        brk: 0x12000,
        brk_end: 0x12000,
        next_call: 0,
        status: RunState::Running,
        count: 7,
        layout: Layout {
            brk_start: 0x12000,
            heap_limit: 0x12000,
        },
    }
}

/// One step, on a count of its own.
fn step_on<L: Ledger>(m: &mut Machine, memory: &mut OnePage, blank: Blank) -> Outcome
    requires name { blank.name ≡ L.name }
    requires parts { blank.parts ≡ L.parts }
    requires some_parts { 0 < blank.parts }
    requires running { m.old.status ≡ RunState.Running }
    requires count { m.old.count < 2 ^ 62 }
{
    let mut steps = Steps::<L>::new(blank);
    step(m, memory, &mut steps)
}

fn one_step(m: &mut Machine, memory: &mut OnePage) -> Outcome
    requires running { m.old.status ≡ RunState.Running }
    requires count { m.old.count < 2 ^ 62 }
{
    step_on::<Brand>(m, memory, Blank::new(1))
}

/// What an instruction does, with these values in x1 and x2.
fn run(memory: &mut OnePage, instr: Instr, first: u32, second: u32) -> (Outcome, Machine) {
    let _ = memory.store(PLACE, 4, encode(&instr));
    let mut m = machine_at(PLACE, first, second);
    let outcome = one_step(&mut m, memory);
    (outcome, m)
}

/// The value that an instruction puts into x3.
fn value(rt: &impl Abort, memory: &mut OnePage, instr: Instr, first: u32, second: u32) -> u32 {
    let (outcome, m) = run(memory, instr, first, second);
    assert_eq!(rt; outcome, Outcome::Stepped);
    assert_eq!(rt; (m.pc, m.count), (PLACE + 4, 8));
    m.x[3]
}

/// Where a jump or a branch goes, and what it leaves in x3.
fn target(
    rt: &impl Abort,
    memory: &mut OnePage,
    instr: Instr,
    first: u32,
    second: u32,
) -> (u32, u32) {
    let (outcome, m) = run(memory, instr, first, second);
    assert_eq!(rt; outcome, Outcome::Stepped);
    (m.pc, m.x[3])
}

/// An instruction that changes nothing.
fn changes_nothing(
    rt: &impl Abort,
    memory: &mut OnePage,
    word: u32,
    first: u32,
    expected: Outcome,
) {
    let _ = memory.store(PLACE, 4, word);
    let before = machine_at(PLACE, first, 0);
    let mut m = before;
    let trap = match expected {
        Outcome::Trap(number) => Some(number),
        _ => None,
    };
    assert_eq!(rt; next_trap(&before, memory), trap);
    assert_eq!(rt; one_step(&mut m, memory), expected);
    assert_eq!(rt; m, before);
}

fn x(number: u32) -> Register {
    Bits::<5>::low(number)
}

#[test]
fn jumps_and_branches(rt: HostRuntime) -> Result<(), Fail> {
    let mut page = OnePage::zeros();
    let memory = &mut page;

    // jal by half an offset; jalr from x1 with bit 0 cleared, also where it writes x1 itself
    for (half_offset, to) in [
        (4, 0x10008),
        (0xffffc, 0xfff8),
        (0x80000, 0xfff1_0000),
        (0x7fffe, 0x0010_fffc),
    ] {
        let jal = Instr::Jal {
            rd: x(3),
            half_offset: Bits::<20>::low(half_offset),
        };
        assert_eq!(rt; target(&rt, memory, jal, 0, 0), (to, 0x10004));
    }
    for (base, offset, to) in [
        (0x20000, 5, 0x20004),
        (0, 0xffc, 0xffff_fffc),
        (ONES, 1, 0),
        (0x20800, 0x800, 0x20000),
    ] {
        let jalr = Instr::Jalr {
            rd: x(1),
            rs1: x(1),
            offset: Bits::<12>::low(offset),
        };
        let (outcome, m) = run(memory, jalr, base, 0);
        assert_eq!(rt; outcome, Outcome::Stepped);
        assert_eq!(rt; (m.pc, m.x[1]), (to, 0x10004));
    }

    // where a branch is taken
    for (op, first, second, is_taken) in [
        (BranchOp::Beq, ONES, ONES, true),
        (BranchOp::Beq, 0, 1, false),
        (BranchOp::Bne, 0, 1, true),
        (BranchOp::Bne, LEAST, LEAST, false),
        (BranchOp::Blt, LEAST, 0x7fff_ffff, true),
        (BranchOp::Blt, 0, ONES, false),
        (BranchOp::Blt, 0, 0, false),
        (BranchOp::Bge, 0x7fff_ffff, LEAST, true),
        (BranchOp::Bge, 0, 0, true),
        (BranchOp::Bge, ONES, 0, false),
        (BranchOp::Bltu, 0x7fff_ffff, LEAST, true),
        (BranchOp::Bltu, 0, 0, false),
        (BranchOp::Bgeu, ONES, 0, true),
        (BranchOp::Bgeu, 0, ONES, false),
    ] {
        let branch = Instr::Branch {
            op,
            rs1: x(1),
            rs2: x(2),
            half_offset: Bits::<12>::low(0xffc),
        };
        let to = if is_taken { 0xfff8 } else { 0x10004 };
        assert_eq!(rt; target(&rt, memory, branch, first, second), (to, 0));
    }
    Ok(())
}

#[test]
fn misaligned_targets(rt: HostRuntime) -> Result<(), Fail> {
    let mut page = OnePage::zeros();
    let memory = &mut page;
    let branch = Instr::Branch {
        op: BranchOp::Beq,
        rs1: x(1),
        rs2: x(0),
        half_offset: Bits::<12>::low(1),
    };
    let jal = Instr::Jal {
        rd: x(1),
        half_offset: Bits::<20>::low(1),
    };
    let jalr = Instr::Jalr {
        rd: x(1),
        rs1: x(0),
        offset: Bits::<12>::low(2),
    };
    changes_nothing(&rt, memory, encode(&branch), 0, Outcome::Trap(0));
    changes_nothing(&rt, memory, encode(&jal), 0, Outcome::Trap(0));
    changes_nothing(&rt, memory, encode(&jalr), 0, Outcome::Trap(0));

    // a branch that is not taken goes on
    assert_eq!(rt; next_trap(&machine_at(PLACE, 1, 0), memory), Some(0));
    assert_eq!(rt; target(&rt, memory, branch, 1, 0), (0x10004, 0));
    assert_eq!(rt; next_trap(&machine_at(PLACE, 1, 0), memory), None);
    Ok(())
}

#[test]
fn loads_and_stores(rt: HostRuntime) -> Result<(), Fail> {
    let mut page = OnePage::zeros();
    let memory = &mut page;
    let _ = memory.store(0x10100, 4, 0x80ff_7f81);

    // from x1 - 1
    for (op, base, expected) in [
        (LoadOp::Lb, 0x10101, 0xffff_ff81),
        (LoadOp::Lbu, 0x10101, 0x81),
        (LoadOp::Lb, 0x10102, 0x7f),
        (LoadOp::Lh, 0x10101, 0x7f81),
        (LoadOp::Lh, 0x10103, 0xffff_80ff),
        (LoadOp::Lhu, 0x10103, 0x80ff),
        (LoadOp::Lw, 0x10101, 0x80ff_7f81),
        (LoadOp::Lw, 0x10102, 0x0080_ff7f),
    ] {
        let load = Instr::Load {
            op,
            rd: x(3),
            rs1: x(1),
            offset: Bits::<12>::low(0xfff),
        };
        assert_eq!(rt; value(&rt, memory, load, base, 0), expected);
    }

    // to x1 + 1
    for (op, base, stored) in [
        (StoreOp::Sb, 0x100ff, 0x80ff_7f44),
        (StoreOp::Sh, 0x10100, 0x8033_4444),
        (StoreOp::Sw, 0x100ff, 0x1122_3344),
    ] {
        let store = Instr::Store {
            op,
            rs1: x(1),
            rs2: x(2),
            offset: Bits::<12>::low(1),
        };
        assert_eq!(rt; value(&rt, memory, store, base, 0x1122_3344), 0);
        assert_eq!(rt; memory.load(0x10100, 4), Some(stored));
    }

    // a page that is not mapped, in part, and beyond 2 ^ 32
    for base in [0x0fffe, 0x10ffe, 0xffff_fffe] {
        let load = Instr::Load {
            op: LoadOp::Lw,
            rd: x(3),
            rs1: x(1),
            offset: Bits::<12>::low(0),
        };
        let store = Instr::Store {
            op: StoreOp::Sw,
            rs1: x(1),
            rs2: x(1),
            offset: Bits::<12>::low(0),
        };
        changes_nothing(&rt, memory, encode(&load), base, Outcome::Trap(5));
        changes_nothing(&rt, memory, encode(&store), base, Outcome::Trap(7));
        assert_eq!(rt;
            store_of(&machine_at(PLACE, base, 0), memory),
            Some((base, 4))
        );
    }
    assert_eq!(rt; memory.load(0x10ffe, 2), Some(0));
    Ok(())
}

#[test]
fn calls_and_other_traps(rt: HostRuntime) -> Result<(), Fail> {
    let mut page = OnePage::zeros();
    let memory = &mut page;
    changes_nothing(&rt, memory, 0x0000_0073, 0, Outcome::Call);
    changes_nothing(&rt, memory, 0x0010_0073, 0, Outcome::Trap(3));
    changes_nothing(&rt, memory, 0x0000_0000, 0, Outcome::Trap(2));
    changes_nothing(&rt, memory, 0x0000_100f, 0, Outcome::Trap(2));
    changes_nothing(&rt, memory, 0xffff_ffff, 0, Outcome::Trap(2));
    assert_eq!(rt; store_of(&machine_at(PLACE, 0, 0), memory), None);

    // a pc where nothing is mapped, one at a page's end, and one that is no multiple of 4
    for (pc, trap) in [(0x11000, 1), (0xffff_fffc, 1), (0x10002, 0), (0x11001, 0)] {
        let mut m = machine_at(pc, 0, 0);
        assert_eq!(rt; next_trap(&m, memory), Some(trap));
        assert_eq!(rt; one_step(&mut m, memory), Outcome::Trap(trap));
        assert_eq!(rt; m, machine_at(pc, 0, 0));
        assert_eq!(rt; store_of(&m, memory), None);
    }
    Ok(())
}

#[test]
fn borrowed_parts_come_back(rt: HostRuntime) -> Result<(), Fail> {
    let mut page = OnePage::zeros();
    let mut is_marked = false;
    let store = Instr::Store {
        op: StoreOp::Sw,
        rs1: x(1),
        rs2: x(2),
        offset: Bits::<12>::low(0x100),
    };
    assert!(rt; page.store(PLACE, 4, encode(&store)));
    let mut m = machine_at(PLACE, PLACE, ONES);
    let outcome = marked_page::one_step(&mut m, &mut page, &mut is_marked);
    assert_eq!(rt; outcome, Outcome::Stepped);
    assert!(rt; is_marked);
    assert_eq!(rt; page.load(PLACE + 0x100, 4), Some(ONES));
    Ok(())
}

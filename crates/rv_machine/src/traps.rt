//! The trap that a machine stands before.

ghost use Rattle.std.specs.Prelude.{◌≡◌, ◌%◌, ◌==◌, if◌then◌else◌};
ghost use Rattle.sl_model.specs.Step as next;
ghost use Rattle.rv_machine.specs.Machine.{state_of};

use crate::arithmetic;
use crate::execute::{address, register};
use crate::machine::Machine;
use rv_decode::decode;
use sl_model::{BREAKPOINT, Bus, FETCH, ILLEGAL, Instr, LOAD_FAULT, MISALIGNED, STORE_FAULT};

/// The trap of a jump to a place, where that is no multiple of 4.
fn trap_of_jump(target: u32) -> Option<u32>
    ensures { result ≡ (if target % 4 == 0 then None else Some MISALIGNED) }
{
    if target % 4 != 0 {
        Some(MISALIGNED)
    } else {
        None
    }
}

/// The trap of one instruction, or `None` where it has none.
#[tactic(auto, unfolding(sl_model::specs::Step::execute, sl_model::specs::Pages::load_at, sl_model::specs::Pages::store_at))]
fn trap_of_instr<B: Bus>(m: &Machine, bus: &B, instr: Instr) -> Option<u32>
    ensures { result ≡ next.trap_of (next.execute (state_of m.now (B.pages bus.now)) instr) }
{
    match instr {
        Instr::Jal { half_offset, .. } => {
            trap_of_jump(m.pc.wrapping_add(arithmetic::jump_word(half_offset)))
        }
        Instr::Jalr { rs1, offset, .. } => {
            let target = address(m, rs1, offset);
            trap_of_jump(target - target % 2)
        }
        Instr::Branch {
            op,
            rs1,
            rs2,
            half_offset,
        } => {
            if arithmetic::is_taken(op, register(m, rs1), register(m, rs2)) {
                trap_of_jump(m.pc.wrapping_add(arithmetic::branch_word(half_offset)))
            } else {
                None
            }
        }
        Instr::Load {
            op,
            rs1,
            offset,
            ..
        } => match bus.load(address(m, rs1, offset), arithmetic::load_width(op)) {
            Some(_) => None,
            None => Some(LOAD_FAULT),
        },
        Instr::Store {
            op,
            rs1,
            offset,
            ..
        } => match bus.load(address(m, rs1, offset), arithmetic::store_width(op)) {
            Some(_) => None,
            None => Some(STORE_FAULT),
        },
        Instr::Ebreak => Some(BREAKPOINT),
        _ => None,
    }
}

/// The trap of the instruction at pc, as the next step of a machine that runs would meet it, or
/// `None` where that step is done or is a system call. Nothing changes.
#[tactic(auto, unfolding(sl_model::specs::Step::step))]
pub fn next_trap<B: Bus>(m: &Machine, bus: &B) -> Option<u32>
    ensures { result ≡ next.trap_of (next.step (state_of m.now (B.pages bus.now))) }
{
    if m.pc % 4 != 0 {
        return Some(MISALIGNED);
    }
    let Some(word) = bus.load(m.pc, 4) else {
        return Some(FETCH);
    };
    match decode(word) {
        Some(instr) => trap_of_instr(m, bus, instr),
        None => Some(ILLEGAL),
    }
}

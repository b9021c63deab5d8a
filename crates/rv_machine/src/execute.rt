//! What an instruction does.

ghost use Rattle.std.specs.Prelude.{◌≡◌, ◌≢◌, ◌+◌, ◌<◌, ◌^◌, slice_index};
ghost use Rattle.sl_model.specs.Marks.{MarksGoOn};
ghost use Rattle.sl_model.specs.Pages.{Pages};
ghost use Rattle.sl_model.specs.Step as next;
ghost use Rattle.rv_machine.specs.Machine.{state_of, WentOn, WentTo};
ghost use Rattle.sl_model.specs.Arithmetic.{word_add, immediate_word};
ghost use Rattle.sl_model.specs.State.{set_register};

use crate::arithmetic;
use crate::machine::{Machine, Outcome};
use sl_model::{
    BREAKPOINT, Bits, Bus, Instr, LOAD_FAULT, LoadOp, MISALIGNED, Register, STORE_FAULT, StoreOp,
};

/// The value of a register.
#[inline(always)]
pub(crate) fn register(m: &Machine, r: Register) -> u32
    ensures { result ≡ slice_index m.now.x r }
{
    m.x[r.value() as usize]
}

/// Goes to another place, with one more instruction done.
#[inline(always)]
fn go_to(m: &mut Machine, pc: u32)
    requires { m.old.count < 2 ^ 62 }
    ensures { WentTo m.old pc m.old.x m.new }
{
    m.pc = pc;
    m.count += 1;
}

/// Writes a register, but never x0, and goes to another place.
#[inline(always)]
fn write_and_go_to(m: &mut Machine, rd: Register, value: u32, pc: u32)
    requires { m.old.count < 2 ^ 62 }
    ensures { WentTo m.old pc (set_register m.old.x rd value) m.new }
{
    if rd.value() != 0 {
        m.x[rd.value() as usize] = value;
    }
    go_to(m, pc);
}

/// The address of a load, of a store and of JALR.
#[inline(always)]
pub(crate) fn address(m: &Machine, rs1: Register, offset: Bits<12>) -> u32
    ensures { result ≡ word_add (slice_index m.now.x rs1) (immediate_word offset) }
{
    register(m, rs1).wrapping_add(arithmetic::immediate_word(offset))
}

/// Goes to the next place, with a value in a register.
#[inline(always)]
fn advance(m: &mut Machine, rd: Register, value: u32) -> Outcome
    requires { m.old.count < 2 ^ 62 }
    ensures went_on { (pages : Pages)
        → WentOn (next.advance (state_of m.old pages) rd value) m.old pages result m.new pages }
    ensures count { result ≡ Outcome.Stepped → m.new.count ≡ m.old.count + 1 }
{
    let after = m.pc.wrapping_add(4);
    write_and_go_to(m, rd, value, after);
    Outcome::Stepped
}

/// Jumps, and leaves the place after the jump in a register.
#[inline(always)]
fn jump(m: &mut Machine, rd: Register, target: u32) -> Outcome
    requires { m.old.count < 2 ^ 62 }
    ensures went_on { (pages : Pages)
        → WentOn (next.jump (state_of m.old pages) rd target) m.old pages result m.new pages }
    ensures count { result ≡ Outcome.Stepped → m.new.count ≡ m.old.count + 1 }
{
    if target % 4 != 0 {
        return Outcome::Trap(MISALIGNED);
    }
    let after = m.pc.wrapping_add(4);
    write_and_go_to(m, rd, after, target);
    Outcome::Stepped
}

/// Jumps, as a branch that is taken does.
#[inline(always)]
fn branch(m: &mut Machine, target: u32) -> Outcome
    requires { m.old.count < 2 ^ 62 }
    ensures went_on { (pages : Pages)
        → WentOn (next.branch (state_of m.old pages) target) m.old pages result m.new pages }
    ensures count { result ≡ Outcome.Stepped → m.new.count ≡ m.old.count + 1 }
{
    if target % 4 != 0 {
        return Outcome::Trap(MISALIGNED);
    }
    go_to(m, target);
    Outcome::Stepped
}

/// Goes to the next place.
#[inline(always)]
fn pass(m: &mut Machine)
    requires { m.old.count < 2 ^ 62 }
    ensures { WentTo m.old (word_add m.old.pc 4) m.old.x m.new }
{
    let after = m.pc.wrapping_add(4);
    go_to(m, after);
}

/// Loads into a register.
#[inline(always)]
fn load<B: Bus>(m: &mut Machine, bus: &B, op: LoadOp, rd: Register, addr: u32) -> Outcome
    requires { m.old.count < 2 ^ 62 }
    ensures went_on { let pages = B.pages bus.now in
        WentOn (next.load (state_of m.old pages) op rd addr) m.old pages result m.new pages }
    ensures count { result ≡ Outcome.Stepped → m.new.count ≡ m.old.count + 1 }
{
    match bus.load(addr, arithmetic::load_width(op)) {
        None => Outcome::Trap(LOAD_FAULT),
        Some(n) => advance(m, rd, arithmetic::load_value(op, n)),
    }
}

/// Stores the low bytes of a value.
#[inline(always)]
fn store<B: Bus>(m: &mut Machine, bus: &mut B, op: StoreOp, addr: u32, value: u32) -> Outcome
    requires { m.old.count < 2 ^ 62 }
    ensures went_on { WentOn (next.store (state_of m.old (B.pages bus.old)) op addr value)
        m.old (B.pages bus.old) result m.new (B.pages bus.new) }
    ensures marking { B.is_marking bus.new ≡ B.is_marking bus.old }
    ensures fixed { B.fixed bus.new ≡ B.fixed bus.old }
    ensures marks { MarksGoOn (B.is_marking bus.old)
        (B.pages bus.old) (B.marked bus.old) (B.pages bus.new) (B.marked bus.new) }
    ensures kept { result ≢ Outcome.Stepped → B.marked bus.new ≡ B.marked bus.old }
    ensures count { result ≡ Outcome.Stepped → m.new.count ≡ m.old.count + 1 }
{
    if bus.store(addr, arithmetic::store_width(op), value) {
        pass(m);
        Outcome::Stepped
    } else {
        Outcome::Trap(STORE_FAULT)
    }
}

/// Does one instruction.
#[inline(always)]
#[tactic(auto, unfolding(sl_model::specs::Step::execute))]
pub fn execute<B: Bus>(m: &mut Machine, bus: &mut B, instr: Instr) -> Outcome
    requires { m.old.count < 2 ^ 62 }
    ensures went_on { WentOn (next.execute (state_of m.old (B.pages bus.old)) instr)
        m.old (B.pages bus.old) result m.new (B.pages bus.new) }
    ensures marking { B.is_marking bus.new ≡ B.is_marking bus.old }
    ensures fixed { B.fixed bus.new ≡ B.fixed bus.old }
    ensures marks { MarksGoOn (B.is_marking bus.old)
        (B.pages bus.old) (B.marked bus.old) (B.pages bus.new) (B.marked bus.new) }
    ensures kept { result ≢ Outcome.Stepped → B.marked bus.new ≡ B.marked bus.old }
    ensures count { result ≡ Outcome.Stepped → m.new.count ≡ m.old.count + 1 }
{
    match instr {
        Instr::Lui { rd, imm } => advance(m, rd, arithmetic::upper_word(imm)),
        Instr::Auipc { rd, imm } => {
            let value = m.pc.wrapping_add(arithmetic::upper_word(imm));
            advance(m, rd, value)
        }
        Instr::Jal { rd, half_offset } => {
            let target = m.pc.wrapping_add(arithmetic::jump_word(half_offset));
            jump(m, rd, target)
        }
        Instr::Jalr { rd, rs1, offset } => {
            let target = address(m, rs1, offset);
            jump(m, rd, target - target % 2)
        }
        Instr::Branch {
            op,
            rs1,
            rs2,
            half_offset,
        } => {
            if arithmetic::is_taken(op, register(m, rs1), register(m, rs2)) {
                let target = m.pc.wrapping_add(arithmetic::branch_word(half_offset));
                branch(m, target)
            } else {
                pass(m);
                Outcome::Stepped
            }
        }
        Instr::Load {
            op,
            rd,
            rs1,
            offset,
        } => {
            let addr = address(m, rs1, offset);
            load(m, bus, op, rd, addr)
        }
        Instr::Store {
            op,
            rs1,
            rs2,
            offset,
        } => {
            let addr = address(m, rs1, offset);
            let value = register(m, rs2);
            store(m, bus, op, addr, value)
        }
        Instr::OpImm { op, rd, rs1, imm } => {
            let value = arithmetic::immediate_value(
                op,
                register(m, rs1),
                arithmetic::immediate_word(imm),
            );
            advance(m, rd, value)
        }
        Instr::Shift {
            op,
            rd,
            rs1,
            amount,
        } => {
            let value = arithmetic::shift_value(op, register(m, rs1), amount.value());
            advance(m, rd, value)
        }
        Instr::Op { op, rd, rs1, rs2 } => {
            let value = arithmetic::register_value(op, register(m, rs1), register(m, rs2));
            advance(m, rd, value)
        }
        Instr::MulDiv { op, rd, rs1, rs2 } => {
            let value = arithmetic::mul_div_value(op, register(m, rs1), register(m, rs2));
            advance(m, rd, value)
        }
        Instr::Fence { .. } => {
            pass(m);
            Outcome::Stepped
        }
        Instr::Ecall => Outcome::Call,
        Instr::Ebreak => Outcome::Trap(BREAKPOINT),
    }
}

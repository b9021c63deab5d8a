//! The blocks of instructions that the code of tracers is made of, each added at the end of code.

ghost use Rattle.std.specs.Prelude.{◌≡◌, ◌*◌, ◌%◌, ◌^◌, ◌++◌, OnOk};
ghost use Rattle.sl_model.specs.Arithmetic.{store_width};
ghost use Rattle.tracer_compile.specs.Blocks as blocks;

use crate::instructions::{
    add, add_number, high_number, jump_to, load_at_role, load_word, load_word_before, multiply,
    skip_if, store_at_role, store_word, take_number, times_four,
};
use crate::roles::{Role, register};
use sl_base::Memory;
use sl_model::{
    Bits, BranchOp, CODE_START, COPIED_WORDS, ENTRY_SIZE, FRAMES_START, Instr, LOG_START, LoadOp,
    MEMORY_END, MOST_ENTRIES, MOST_OUTPUT_WORDS, OUTPUT_START, StoreOp,
};
use tracer_code::outcomes;
use tracer_lang::Operator;

/// The number of the system call that asks for a break.
const BREAK_CALL: u32 = 214;

/// The bytes of so many words, of which instructions take the low twelve bits.
fn bytes(words: u32) -> u32
    ensures { result ≡ 4 * (words % 2 ^ 10) }
{
    4 * (words % 1024)
}

/// Any number.
#[tactic(auto, unfolding(crate::specs::Blocks::constant))]
pub fn constant(code: &mut Vec<Instr>, rd: Role, n: u32) -> Result<(), Memory>
    ensures { OnOk result (code.new.items ≡ code.old.items ++ blocks.constant rd n) }
{
    let upper = Instr::Lui {
        rd: register(rd),
        imm: Bits::low((n >> 12) + (n >> 11) % 2),
    };
    code.extend_from_slice(&[upper, add_number(rd, rd, n)])?;
    Ok(())
}

/// A register becomes the topmost temporary.
#[tactic(auto, unfolding(crate::specs::Blocks::push))]
pub fn push(code: &mut Vec<Instr>, rs2: Role) -> Result<(), Memory>
    ensures { OnOk result (code.new.items ≡ code.old.items ++ blocks.push rs2) }
{
    code.extend_from_slice(&[
        store_word(rs2, Role::Top, 0),
        add_number(Role::Top, Role::Top, 4),
    ])?;
    Ok(())
}

/// The topmost temporary goes into a register.
#[tactic(auto, unfolding(crate::specs::Blocks::pop))]
pub fn pop(code: &mut Vec<Instr>, rd: Role) -> Result<(), Memory>
    ensures { OnOk result (code.new.items ≡ code.old.items ++ blocks.pop rd) }
{
    code.extend_from_slice(&[
        load_word_before(rd, Role::Top, 4),
        take_number(Role::Top, Role::Top, 4),
    ])?;
    Ok(())
}

/// So many temporaries that are 0.
#[tactic(auto, unfolding(crate::specs::Blocks::zeros))]
pub fn zeros(code: &mut Vec<Instr>, count: u32) -> Result<(), Memory>
    ensures { OnOk result (code.new.items ≡ code.old.items ++ blocks.zeros count) }
{
    for _ in 0..count {
        push(code, Role::Zero)?;
    }
    Ok(())
}

/// The end with an outcome whose value is there already.
#[tactic(auto, unfolding(crate::specs::Blocks::end_with))]
pub fn end_with(code: &mut Vec<Instr>, number: u32) -> Result<(), Memory>
    ensures { OnOk result (code.new.items ≡ code.old.items ++ blocks.end_with number) }
{
    code.extend_from_slice(&[add_number(Role::Value, Role::Zero, number), Instr::Ecall])?;
    Ok(())
}

/// The end with an outcome that has no value.
#[tactic(auto, unfolding(crate::specs::Blocks::end_without))]
pub fn end_without(code: &mut Vec<Instr>, number: u32) -> Result<(), Memory>
    ensures { OnOk result (code.new.items ≡ code.old.items ++ blocks.end_without number) }
{
    code.push(add_number(Role::Detail, Role::Zero, 0))?;
    end_with(code, number)
}

/// One of the words of the machine that stand copied at the head of the frames.
#[tactic(auto, unfolding(crate::specs::Blocks::copied_block))]
pub fn copied(code: &mut Vec<Instr>, index: u32) -> Result<(), Memory>
    ensures { OnOk result (code.new.items ≡ code.old.items ++ blocks.copied_block index) }
{
    code.extend_from_slice(&[
        high_number(Role::First, FRAMES_START),
        load_word(Role::Value, Role::First, bytes(index)),
    ])?;
    Ok(())
}

/// A local.
#[tactic(auto, unfolding(crate::specs::Blocks::local_block))]
pub fn local(code: &mut Vec<Instr>, index: u32) -> Result<(), Memory>
    ensures { OnOk result (code.new.items ≡ code.old.items ++ blocks.local_block index) }
{
    code.push(load_word(Role::Value, Role::Frame, bytes(index)))?;
    Ok(())
}

/// The end with a fault, where an address is beyond the program's memory.
#[tactic(auto, unfolding(crate::specs::Blocks::guard_block))]
fn guard(code: &mut Vec<Instr>, fault: u32) -> Result<(), Memory>
    ensures { OnOk result (code.new.items ≡ code.old.items ++ blocks.guard_block fault) }
{
    code.extend_from_slice(&[
        add_number(Role::Value, Role::Zero, fault),
        high_number(Role::First, MEMORY_END),
        skip_if(BranchOp::Bltu, Role::Detail, Role::First, 2),
        Instr::Ecall,
    ])?;
    Ok(())
}

/// The value at an address.
#[tactic(auto, unfolding(crate::specs::Blocks::load_block))]
pub fn load(code: &mut Vec<Instr>, op: LoadOp) -> Result<(), Memory>
    ensures { OnOk result (code.new.items ≡ code.old.items ++ blocks.load_block op) }
{
    code.push(add_number(Role::Detail, Role::Value, 0))?;
    guard(code, outcomes::LOAD_FAULT)?;
    code.push(load_at_role(op, Role::Value, Role::Detail))?;
    Ok(())
}

/// 1 where a condition of two registers holds, else 0.
#[tactic(auto, unfolding(crate::specs::Blocks::truth_block))]
pub fn truth(code: &mut Vec<Instr>, op: BranchOp, rs1: Role, rs2: Role) -> Result<(), Memory>
    ensures { OnOk result (code.new.items ≡ code.old.items ++ blocks.truth_block op rs1 rs2) }
{
    code.extend_from_slice(&[
        add_number(Role::Second, Role::Zero, 1),
        skip_if(op, rs1, rs2, 2),
        add_number(Role::Second, Role::Zero, 0),
        add_number(Role::Value, Role::Second, 0),
    ])?;
    Ok(())
}

/// What an operator makes of x5 and the value.
#[tactic(auto, unfolding(crate::specs::Blocks::operator_block))]
pub fn operator(code: &mut Vec<Instr>, operator: Operator) -> Result<(), Memory>
    ensures { OnOk result (code.new.items ≡ code.old.items ++ blocks.operator_block operator) }
{
    let rd = register(Role::Value);
    let rs1 = register(Role::First);
    let rs2 = register(Role::Value);
    match operator {
        Operator::Register(op) => code.push(Instr::Op { op, rd, rs1, rs2 })?,
        Operator::MulDiv(op) => code.push(Instr::MulDiv { op, rd, rs1, rs2 })?,
        Operator::Branch(op) => truth(code, op, Role::First, Role::Value)?,
        Operator::Exchanged(op) => truth(code, op, Role::Value, Role::First)?,
    }
    Ok(())
}

/// The end where a system call is barred.
#[tactic(auto, unfolding(crate::specs::Blocks::barred_block))]
pub fn barred(code: &mut Vec<Instr>) -> Result<(), Memory>
    ensures { OnOk result (code.new.items ≡ code.old.items ++ blocks.barred_block) }
{
    code.extend_from_slice(&[
        add_number(Role::First, Role::Zero, BREAK_CALL),
        skip_if(BranchOp::Beq, Role::Detail, Role::First, 3),
    ])?;
    end_with(code, outcomes::BARRED)
}

/// What the break call gives for the value.
#[tactic(auto, unfolding(crate::specs::Blocks::break_block))]
pub fn break_call(code: &mut Vec<Instr>) -> Result<(), Memory>
    ensures { OnOk result (code.new.items ≡ code.old.items ++ blocks.break_block) }
{
    code.extend_from_slice(&[
        high_number(Role::First, FRAMES_START),
        load_word(Role::Second, Role::First, 132),
        load_word(Role::Third, Role::First, 136),
        load_word(Role::Fourth, Role::First, 144),
        skip_if(BranchOp::Bltu, Role::Value, Role::Second, 6),
        skip_if(BranchOp::Bltu, Role::Third, Role::Value, 5),
        skip_if(BranchOp::Bgeu, Role::Fourth, Role::Value, 3),
    ])?;
    end_with(code, outcomes::BARRED)?;
    code.extend_from_slice(&[
        add_number(Role::Break, Role::Value, 0),
        add_number(Role::Value, Role::Break, 0),
    ])?;
    Ok(())
}

/// Takes a unit of the budget, or is the end where none is left.
#[tactic(auto, unfolding(crate::specs::Blocks::unit_block))]
pub fn unit(code: &mut Vec<Instr>) -> Result<(), Memory>
    ensures { OnOk result (code.new.items ≡ code.old.items ++ blocks.unit_block) }
{
    code.push(skip_if(BranchOp::Bne, Role::Units, Role::Zero, 4))?;
    end_without(code, outcomes::OVER_BUDGET)?;
    code.push(take_number(Role::Units, Role::Units, 1))?;
    Ok(())
}

/// The end where no further call may be open.
#[tactic(auto, unfolding(crate::specs::Blocks::depth_block))]
pub fn depth(code: &mut Vec<Instr>) -> Result<(), Memory>
    ensures { OnOk result (code.new.items ≡ code.old.items ++ blocks.depth_block) }
{
    code.push(skip_if(BranchOp::Bne, Role::Calls, Role::Zero, 4))?;
    end_without(code, outcomes::TOO_DEEP)
}

/// Enters a body of so many locals, which are the topmost temporaries, at an address.
#[tactic(auto, unfolding(crate::specs::Blocks::enter_block))]
pub fn enter(code: &mut Vec<Instr>, locals: u32, address: u32) -> Result<(), Memory>
    ensures { OnOk result (code.new.items ≡ code.old.items ++ blocks.enter_block locals address) }
{
    let here = Instr::Auipc {
        rd: register(Role::Link),
        imm: Bits::low(0),
    };
    code.extend_from_slice(&[
        here,
        add_number(Role::Link, Role::Link, 40),
        store_word(Role::Link, Role::Top, 0),
        store_word(Role::Frame, Role::Top, 4),
        take_number(Role::Frame, Role::Top, bytes(locals)),
        add_number(Role::Top, Role::Top, 8),
        take_number(Role::Calls, Role::Calls, 1),
    ])?;
    constant(code, Role::First, address)?;
    code.extend_from_slice(&[
        jump_to(Role::First),
        add_number(Role::Calls, Role::Calls, 1),
    ])?;
    Ok(())
}

/// Leaves a body of so many locals with the value.
#[tactic(auto, unfolding(crate::specs::Blocks::return_block))]
pub fn leave(code: &mut Vec<Instr>, locals: u32) -> Result<(), Memory>
    ensures { OnOk result (code.new.items ≡ code.old.items ++ blocks.return_block locals) }
{
    code.extend_from_slice(&[
        load_word(Role::Link, Role::Frame, bytes(locals)),
        load_word(Role::First, Role::Frame, bytes(locals) + 4),
        add_number(Role::Top, Role::Frame, 0),
        add_number(Role::Frame, Role::First, 0),
        jump_to(Role::Link),
    ])?;
    Ok(())
}

/// The value becomes a local.
#[tactic(auto, unfolding(crate::specs::Blocks::set_block))]
pub fn set(code: &mut Vec<Instr>, index: u32) -> Result<(), Memory>
    ensures { OnOk result (code.new.items ≡ code.old.items ++ blocks.set_block index) }
{
    code.push(store_word(Role::Value, Role::Frame, bytes(index)))?;
    Ok(())
}

/// Emits the value, or is the end where no further word may be emitted.
#[tactic(auto, unfolding(crate::specs::Blocks::emit_block))]
pub fn emit(code: &mut Vec<Instr>) -> Result<(), Memory>
    ensures { OnOk result (code.new.items ≡ code.old.items ++ blocks.emit_block) }
{
    code.extend_from_slice(&[
        high_number(Role::First, OUTPUT_START),
        load_word(Role::Second, Role::First, 0),
        add_number(Role::Third, Role::Zero, MOST_OUTPUT_WORDS),
        skip_if(BranchOp::Bltu, Role::Second, Role::Third, 4),
    ])?;
    end_without(code, outcomes::TOO_MANY_WORDS)?;
    code.extend_from_slice(&[
        times_four(Role::Third, Role::Second),
        add(Role::Third, Role::Third, Role::First),
        store_word(Role::Value, Role::Third, 4),
        add_number(Role::Second, Role::Second, 1),
        store_word(Role::Second, Role::First, 0),
    ])?;
    Ok(())
}

/// The load of what a store of the same width overwrites.
fn old_load(op: StoreOp) -> LoadOp
    ensures { result ≡ blocks.old_load op }
{
    match op {
        StoreOp::Sb => LoadOp::Lbu,
        StoreOp::Sh => LoadOp::Lhu,
        StoreOp::Sw => LoadOp::Lw,
    }
}

/// How many bytes a store writes.
fn store_width(op: StoreOp) -> u32
    ensures { result ≡ store_width op }
{
    match op {
        StoreOp::Sb => 1,
        StoreOp::Sh => 2,
        StoreOp::Sw => 4,
    }
}

/// The end where no further store may be done.
#[tactic(auto, unfolding(crate::specs::Blocks::room_block))]
fn room(code: &mut Vec<Instr>) -> Result<(), Memory>
    ensures { OnOk result (code.new.items ≡ code.old.items ++ blocks.room_block) }
{
    code.extend_from_slice(&[
        high_number(Role::First, LOG_START),
        load_word(Role::Fourth, Role::First, 0),
        high_number(Role::Fifth, MOST_ENTRIES),
        skip_if(BranchOp::Bltu, Role::Fourth, Role::Fifth, 4),
    ])?;
    end_without(code, outcomes::TOO_MANY_STORES)
}

/// Writes an entry of the log whole, and then counts it.
#[tactic(auto, unfolding(crate::specs::Blocks::log_block))]
fn log(code: &mut Vec<Instr>, width: u32) -> Result<(), Memory>
    ensures { OnOk result (code.new.items ≡ code.old.items ++ blocks.log_block width) }
{
    code.extend_from_slice(&[
        add_number(Role::Fifth, Role::Zero, ENTRY_SIZE),
        multiply(Role::Fifth, Role::Fifth, Role::Fourth),
        add(Role::Fifth, Role::Fifth, Role::First),
        store_word(Role::Detail, Role::Fifth, 4),
        add_number(Role::Sixth, Role::Zero, width),
        store_word(Role::Sixth, Role::Fifth, 8),
        store_word(Role::Third, Role::Fifth, 12),
        add_number(Role::Fourth, Role::Fourth, 1),
        store_word(Role::Fourth, Role::First, 0),
    ])?;
    Ok(())
}

/// Memory at the address in x11 becomes the value, and what stood there goes into the log before.
#[tactic(auto, unfolding(crate::specs::Blocks::store_block))]
pub fn store(code: &mut Vec<Instr>, op: StoreOp) -> Result<(), Memory>
    ensures { OnOk result (code.new.items ≡ code.old.items ++ blocks.store_block op) }
{
    code.push(add_number(Role::Second, Role::Value, 0))?;
    guard(code, outcomes::STORE_FAULT)?;
    code.push(load_at_role(old_load(op), Role::Third, Role::Detail))?;
    room(code)?;
    log(code, store_width(op))?;
    code.push(store_at_role(op, Role::Second, Role::Detail))?;
    Ok(())
}

/// Ends with the value.
#[tactic(auto, unfolding(crate::specs::Blocks::stop_block))]
pub fn stop(code: &mut Vec<Instr>) -> Result<(), Memory>
    ensures { OnOk result (code.new.items ≡ code.old.items ++ blocks.stop_block) }
{
    code.push(add_number(Role::Detail, Role::Value, 0))?;
    end_with(code, outcomes::USER)
}

/// Begins a tracer before its body of so many locals.
#[tactic(auto, unfolding(crate::specs::Blocks::opening_block))]
pub fn opening(code: &mut Vec<Instr>, budget: u32, locals: u32) -> Result<(), Memory>
    ensures { OnOk result (code.new.items ≡ code.old.items ++ blocks.opening_block budget locals) }
{
    constant(code, Role::Units, budget)?;
    code.extend_from_slice(&[
        add_number(Role::Calls, Role::Zero, 32),
        high_number(Role::First, FRAMES_START),
        load_word(Role::Break, Role::First, 140),
        add_number(Role::Frame, Role::First, 4 * COPIED_WORDS),
        add_number(Role::Top, Role::Frame, bytes(locals) + 8),
        high_number(Role::Link, CODE_START),
        store_word(Role::Link, Role::Frame, bytes(locals)),
    ])?;
    Ok(())
}

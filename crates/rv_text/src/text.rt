//! The text of an instruction.

ghost use Rattle.std.specs.Prelude.{◌≡◌, ◌++◌, IfOk, string_bytes};
ghost use Rattle.std.specs.Fmt.{signed_decimal};
ghost use Rattle.sl_model.specs.declared.instr.Instr.TheVariants.{Jal, Branch, Load, Store, OpImm, Shift, Op, MulDiv};
ghost use Rattle.rv_text.specs.Text.{instr_text, two_operands, three_operands, address, register_name};
ghost use Rattle.sl_model.specs.Arithmetic.{immediate_word};

use crate::{names, numbers};
use rv_decode::{
    Bits, BranchOp, ImmediateOp, Instr, LoadOp, MulDivOp, Register, RegisterOp, ShiftOp, StoreOp,
};
use sl_base::Memory;
use std::alloc::{AllocError, Global};

/// A mnemonic and three registers.
fn three_registers(
    alloc: Global,
    name: &str,
    a: Register,
    b: Register,
    c: Register,
) -> Result<String, AllocError>
    ensures { IfOk result (λ text. string_bytes text
        ≡ three_operands name.now (register_name a) (register_name b) (register_name c)) }
{
    let a = names::register(a);
    let b = names::register(b);
    let c = names::register(c);
    format!(in alloc; "{name} {a}, {b}, {c}")
}

/// A mnemonic, two registers and a number.
fn registers_and_number(
    alloc: Global,
    name: &str,
    a: Register,
    b: Register,
    number: i32,
) -> Result<String, AllocError>
    ensures { IfOk result (λ text. string_bytes text
        ≡ three_operands name.now (register_name a) (register_name b) (signed_decimal number)) }
{
    let a = names::register(a);
    let b = names::register(b);
    format!(in alloc; "{name} {a}, {b}, {number}")
}

/// A mnemonic, a register and a number.
fn register_and_number(
    alloc: Global,
    name: &str,
    a: Register,
    number: i32,
) -> Result<String, AllocError>
    ensures { IfOk result (λ text. string_bytes text
        ≡ two_operands name.now (register_name a) (signed_decimal number)) }
{
    let a = names::register(a);
    format!(in alloc; "{name} {a}, {number}")
}

/// A mnemonic, a register and an address.
fn register_and_address(
    alloc: Global,
    name: &str,
    a: Register,
    offset: Bits<12>,
    base: Register,
) -> Result<String, AllocError>
    ensures { IfOk result (λ text. string_bytes text
        ≡ two_operands name.now (register_name a) (address (immediate_word offset) base)) }
{
    let a = names::register(a);
    let offset = numbers::immediate(offset);
    let base = names::register(base);
    format!(in alloc; "{name} {a}, {offset}({base})")
}

fn jump(alloc: Global, rd: Register, half_offset: Bits<20>) -> Result<String, AllocError>
    ensures { IfOk result (λ text. string_bytes text ≡ instr_text (Jal rd half_offset)) }
{
    register_and_number(alloc, "jal", rd, numbers::jump_offset(half_offset))
}

fn branch(
    alloc: Global,
    op: BranchOp,
    rs1: Register,
    rs2: Register,
    half_offset: Bits<12>,
) -> Result<String, AllocError>
    ensures { IfOk result (λ text. string_bytes text ≡ instr_text (Branch op rs1 rs2 half_offset)) }
{
    let offset = numbers::branch_offset(half_offset);
    registers_and_number(alloc, names::branch(op), rs1, rs2, offset)
}

fn load(
    alloc: Global,
    op: LoadOp,
    rd: Register,
    rs1: Register,
    offset: Bits<12>,
) -> Result<String, AllocError>
    ensures { IfOk result (λ text. string_bytes text ≡ instr_text (Load op rd rs1 offset)) }
{
    register_and_address(alloc, names::load(op), rd, offset, rs1)
}

fn store(
    alloc: Global,
    op: StoreOp,
    rs1: Register,
    rs2: Register,
    offset: Bits<12>,
) -> Result<String, AllocError>
    ensures { IfOk result (λ text. string_bytes text ≡ instr_text (Store op rs1 rs2 offset)) }
{
    register_and_address(alloc, names::store(op), rs2, offset, rs1)
}

fn immediate(
    alloc: Global,
    op: ImmediateOp,
    rd: Register,
    rs1: Register,
    imm: Bits<12>,
) -> Result<String, AllocError>
    ensures { IfOk result (λ text. string_bytes text ≡ instr_text (OpImm op rd rs1 imm)) }
{
    let imm = numbers::immediate(imm);
    registers_and_number(alloc, names::immediate(op), rd, rs1, imm)
}

fn shift(
    alloc: Global,
    op: ShiftOp,
    rd: Register,
    rs1: Register,
    amount: Bits<5>,
) -> Result<String, AllocError>
    ensures { IfOk result (λ text. string_bytes text ≡ instr_text (Shift op rd rs1 amount)) }
{
    let amount = amount.value() as i32;
    registers_and_number(alloc, names::shift(op), rd, rs1, amount)
}

fn operation(
    alloc: Global,
    op: RegisterOp,
    rd: Register,
    rs1: Register,
    rs2: Register,
) -> Result<String, AllocError>
    ensures { IfOk result (λ text. string_bytes text ≡ instr_text (Op op rd rs1 rs2)) }
{
    three_registers(alloc, names::operation(op), rd, rs1, rs2)
}

fn multiply(
    alloc: Global,
    op: MulDivOp,
    rd: Register,
    rs1: Register,
    rs2: Register,
) -> Result<String, AllocError>
    ensures { IfOk result (λ text. string_bytes text ≡ instr_text (MulDiv op rd rs1 rs2)) }
{
    three_registers(alloc, names::multiply(op), rd, rs1, rs2)
}

/// The text, by the variant.
fn by_variant(alloc: Global, instr: &Instr) -> Result<String, AllocError>
    ensures { IfOk result (λ text. string_bytes text ≡ instr_text instr.now) }
{
    match *instr {
        Instr::Lui { rd, imm } => register_and_number(alloc, "lui", rd, imm.value() as i32),
        Instr::Auipc { rd, imm } => register_and_number(alloc, "auipc", rd, imm.value() as i32),
        Instr::Jal { rd, half_offset } => jump(alloc, rd, half_offset),
        Instr::Jalr { rd, rs1, offset } => register_and_address(alloc, "jalr", rd, offset, rs1),
        Instr::Branch {
            op,
            rs1,
            rs2,
            half_offset,
        } => branch(alloc, op, rs1, rs2, half_offset),
        Instr::Load {
            op,
            rd,
            rs1,
            offset,
        } => load(alloc, op, rd, rs1, offset),
        Instr::Store {
            op,
            rs1,
            rs2,
            offset,
        } => store(alloc, op, rs1, rs2, offset),
        Instr::OpImm { op, rd, rs1, imm } => immediate(alloc, op, rd, rs1, imm),
        Instr::Shift {
            op,
            rd,
            rs1,
            amount,
        } => shift(alloc, op, rd, rs1, amount),
        Instr::Op { op, rd, rs1, rs2 } => operation(alloc, op, rd, rs1, rs2),
        Instr::MulDiv { op, rd, rs1, rs2 } => multiply(alloc, op, rd, rs1, rs2),
        Instr::Fence { .. } => String::from_str(alloc, "fence"),
        Instr::Ecall => String::from_str(alloc, "ecall"),
        Instr::Ebreak => String::from_str(alloc, "ebreak"),
    }
}

/// The text of an instruction in assembly language: the mnemonic, and behind a space its operands,
/// set apart by a comma and a space. Registers have their names of the calling convention, and
/// numbers are decimal, with `-` where they are negative.
pub fn print_instr(alloc: Global, instr: &Instr) -> Result<String, Memory>
    ensures { IfOk result (λ text. string_bytes text ≡ instr_text instr.now) }
{
    Ok(by_variant(alloc, instr)?)
}

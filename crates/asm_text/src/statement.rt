//! What a line says, but for what depends on labels.

ghost use Rattle.std.specs.Prelude.{◌≡◌};
ghost use Rattle.asm_text.specs.Statements.{ranged, immediate, operation_statement, mul_div_statement, immediate_statement, shift_statement, load_statement, store_statement, jalr_statement, lui_statement, auipc_statement, branch_statement, jal_statement, move_statement, jump_statement, branch_zero_statement, upper_part, lower_part, loaded, load_immediate_statement, load_address_statement, alone, one_number, space_statement, aligned_to, align_statement, global_statement, statement_for, is_apart, with_operands, statement_of};

use crate::bytes::{is_all_blank, is_blank, is_name, name_len};
use crate::fault::AsmCause;
use crate::line::operand_text;
use crate::mnemonic::{Alignment, Mnemonic, Section, Width};
use crate::number::Number;
use crate::operand::{
    Target, label, number, one, register_and_address, register_and_label, register_and_number,
    register_and_target, registers_and_number, registers_and_target, three_registers,
    two_registers,
};
use crate::table::mnemonic_named;
use crate::values::values_statement;
use rv_decode::{
    Bits, BranchOp, ImmediateOp, Instr, LoadOp, MulDivOp, Register, RegisterOp, ShiftOp, StoreOp,
};

/// How far a branch reaches back.
pub const BRANCH_REACH: u64 = 0x1000;

/// How far `jal` reaches back.
pub const JUMP_REACH: u64 = 0x10_0000;

/// What a line says behind its labels.
#[derive(Clone, Copy, Debug, PartialEq, Eq)]
pub enum Statement {
    /// Nothing that makes bytes.
    Nothing,
    /// An instruction.
    One(Instr),
    /// Two instructions.
    Two(Instr, Instr),
    /// `jal` with a target.
    Jump {
        rd: Register,
        target: Target,
    },
    /// A branch with a target.
    Branch {
        op: BranchOp,
        rs1: Register,
        rs2: Register,
        target: Target,
    },
    /// The two instructions that load the address of the label that the last operand names.
    Address {
        rd: Register,
    },
    /// What follows stands in this section.
    Enter(Section),
    /// A value of this width for each operand.
    Values(Width),
    /// So many zero bytes.
    Space {
        size: u32,
    },
    /// Zero bytes up to a multiple of 1, 2, 4, 8 or 16.
    Align(Alignment),
}

/// The word of a number from -low to high.
fn ranged(low: u32, high: u32, number: Number) -> Result<u32, AsmCause>
    ensures { result ≡ ranged low high number }
{
    let most = if number.is_negative { low } else { high };
    if number.magnitude > u64::from(most) {
        return Err(AsmCause::Range);
    }
    let magnitude = number.magnitude as u32;
    if number.is_negative {
        Ok(0u32.wrapping_sub(magnitude))
    } else {
        Ok(magnitude)
    }
}

/// The low 12 bits of a signed number that has so many.
fn immediate(number: Number) -> Result<Bits<12>, AsmCause>
    ensures { result ≡ immediate number }
{
    let word = ranged(2048, 2047, number)?;
    Ok(Bits::low(word))
}

#[tactic(auto, unfolding(crate::specs::Statements::operation_statement))]
fn operation_statement(op: RegisterOp, text: &[u8]) -> Result<Statement, AsmCause>
    ensures { result ≡ operation_statement op text.now }
{
    let (rd, rs1, rs2) = three_registers(text)?;
    Ok(Statement::One(Instr::Op { op, rd, rs1, rs2 }))
}

#[tactic(auto, unfolding(crate::specs::Statements::mul_div_statement))]
fn mul_div_statement(op: MulDivOp, text: &[u8]) -> Result<Statement, AsmCause>
    ensures { result ≡ mul_div_statement op text.now }
{
    let (rd, rs1, rs2) = three_registers(text)?;
    Ok(Statement::One(Instr::MulDiv { op, rd, rs1, rs2 }))
}

#[tactic(auto, unfolding(crate::specs::Statements::immediate_statement))]
fn immediate_statement(op: ImmediateOp, text: &[u8]) -> Result<Statement, AsmCause>
    ensures { result ≡ immediate_statement op text.now }
{
    let (rd, rs1, number) = registers_and_number(text)?;
    let imm = immediate(number)?;
    Ok(Statement::One(Instr::OpImm { op, rd, rs1, imm }))
}

#[tactic(auto, unfolding(crate::specs::Statements::shift_statement))]
fn shift_statement(op: ShiftOp, text: &[u8]) -> Result<Statement, AsmCause>
    ensures { result ≡ shift_statement op text.now }
{
    let (rd, rs1, number) = registers_and_number(text)?;
    let amount = Bits::low(ranged(0, 31, number)?);
    Ok(Statement::One(Instr::Shift {
        op,
        rd,
        rs1,
        amount,
    }))
}

#[tactic(auto, unfolding(crate::specs::Statements::load_statement))]
fn load_statement(op: LoadOp, text: &[u8]) -> Result<Statement, AsmCause>
    ensures { result ≡ load_statement op text.now }
{
    let (rd, number, rs1) = register_and_address(text)?;
    let offset = immediate(number)?;
    Ok(Statement::One(Instr::Load {
        op,
        rd,
        rs1,
        offset,
    }))
}

#[tactic(auto, unfolding(crate::specs::Statements::store_statement))]
fn store_statement(op: StoreOp, text: &[u8]) -> Result<Statement, AsmCause>
    ensures { result ≡ store_statement op text.now }
{
    let (rs2, number, rs1) = register_and_address(text)?;
    let offset = immediate(number)?;
    Ok(Statement::One(Instr::Store {
        op,
        rs1,
        rs2,
        offset,
    }))
}

#[tactic(auto, unfolding(crate::specs::Statements::jalr_statement))]
fn jalr_statement(text: &[u8]) -> Result<Statement, AsmCause>
    ensures { result ≡ jalr_statement text.now }
{
    let (rd, number, rs1) = register_and_address(text)?;
    let offset = immediate(number)?;
    Ok(Statement::One(Instr::Jalr { rd, rs1, offset }))
}

#[tactic(auto, unfolding(crate::specs::Statements::lui_statement))]
fn lui_statement(text: &[u8]) -> Result<Statement, AsmCause>
    ensures { result ≡ lui_statement text.now }
{
    let (rd, number) = register_and_number(text)?;
    let imm = Bits::low(ranged(0, 0xf_ffff, number)?);
    Ok(Statement::One(Instr::Lui { rd, imm }))
}

#[tactic(auto, unfolding(crate::specs::Statements::auipc_statement))]
fn auipc_statement(text: &[u8]) -> Result<Statement, AsmCause>
    ensures { result ≡ auipc_statement text.now }
{
    let (rd, number) = register_and_number(text)?;
    let imm = Bits::low(ranged(0, 0xf_ffff, number)?);
    Ok(Statement::One(Instr::Auipc { rd, imm }))
}

#[tactic(auto, unfolding(crate::specs::Statements::branch_statement))]
fn branch_statement(op: BranchOp, text: &[u8]) -> Result<Statement, AsmCause>
    ensures { result ≡ branch_statement op text.now }
{
    let (rs1, rs2, target) = registers_and_target(BRANCH_REACH, text)?;
    Ok(Statement::Branch {
        op,
        rs1,
        rs2,
        target,
    })
}

#[tactic(auto, unfolding(crate::specs::Statements::jal_statement))]
fn jal_statement(text: &[u8]) -> Result<Statement, AsmCause>
    ensures { result ≡ jal_statement text.now }
{
    let (rd, target) = register_and_target(JUMP_REACH, text)?;
    Ok(Statement::Jump { rd, target })
}

/// `mv rd, rs`: addi rd, rs, 0.
#[tactic(auto, unfolding(crate::specs::Statements::move_statement))]
fn move_statement(text: &[u8]) -> Result<Statement, AsmCause>
    ensures { result ≡ move_statement text.now }
{
    let (rd, rs1) = two_registers(text)?;
    Ok(Statement::One(Instr::OpImm {
        op: ImmediateOp::Addi,
        rd,
        rs1,
        imm: Bits::low(0),
    }))
}

/// `j L` and `call L`: jal rd, L.
#[tactic(auto, unfolding(crate::specs::Statements::jump_statement))]
fn jump_statement(rd: Register, text: &[u8]) -> Result<Statement, AsmCause>
    ensures { result ≡ jump_statement rd text.now }
{
    let target = label(one(text)?)?;
    Ok(Statement::Jump { rd, target })
}

/// `beqz rs, L` and `bnez rs, L`: a branch against zero.
#[tactic(auto, unfolding(crate::specs::Statements::branch_zero_statement))]
fn branch_zero_statement(op: BranchOp, text: &[u8]) -> Result<Statement, AsmCause>
    ensures { result ≡ branch_zero_statement op text.now }
{
    let (rs1, target) = register_and_label(text)?;
    Ok(Statement::Branch {
        op,
        rs1,
        rs2: Bits::low(0),
        target,
    })
}

/// The upper 20 bits of a word, corrected for the sign of the lower 12.
pub fn upper_part(word: u32) -> Bits<20>
    ensures { result ≡ upper_part word }
{
    Bits::low(((u64::from(word) + 0x800) / 0x1000 % 0x10_0000) as u32)
}

/// The lower 12 bits of a word.
pub fn lower_part(word: u32) -> Bits<12>
    ensures { result ≡ lower_part word }
{
    Bits::low(word)
}

/// A word put into a register.
fn loaded(rd: Register, word: u32) -> Statement
    ensures { result ≡ loaded rd word }
{
    let op = ImmediateOp::Addi;
    let imm = lower_part(word);
    if word < 0x800 || word >= 0xffff_f800 {
        let rs1 = Bits::low(0);
        Statement::One(Instr::OpImm { op, rd, rs1, imm })
    } else {
        let upper = Instr::Lui {
            rd,
            imm: upper_part(word),
        };
        let rs1 = rd;
        Statement::Two(upper, Instr::OpImm { op, rd, rs1, imm })
    }
}

/// `li rd, n`.
#[tactic(auto, unfolding(crate::specs::Statements::load_immediate_statement))]
fn load_immediate_statement(text: &[u8]) -> Result<Statement, AsmCause>
    ensures { result ≡ load_immediate_statement text.now }
{
    let (rd, number) = register_and_number(text)?;
    let word = ranged(0x8000_0000, 0xffff_ffff, number)?;
    Ok(loaded(rd, word))
}

/// `la rd, L`.
#[tactic(auto, unfolding(crate::specs::Statements::load_address_statement))]
fn load_address_statement(text: &[u8]) -> Result<Statement, AsmCause>
    ensures { result ≡ load_address_statement text.now }
{
    let (rd, _) = register_and_label(text)?;
    Ok(Statement::Address { rd })
}

/// What has no operands.
fn alone(text: &[u8], said: Statement) -> Result<Statement, AsmCause>
    ensures { result ≡ alone text.now said }
{
    if is_all_blank(text) {
        Ok(said)
    } else {
        Err(AsmCause::Operand)
    }
}

fn one_number(text: &[u8]) -> Result<Number, AsmCause>
    ensures { result ≡ one_number text.now }
{
    number(one(text)?)
}

/// `.space n`.
#[tactic(auto, unfolding(crate::specs::Statements::space_statement))]
fn space_statement(text: &[u8]) -> Result<Statement, AsmCause>
    ensures { result ≡ space_statement text.now }
{
    let number = one_number(text)?;
    let size = ranged(0, 0xffff_ffff, number)?;
    Ok(Statement::Space { size })
}

fn aligned_to(alignment: u32) -> Result<Statement, AsmCause>
    ensures { result ≡ aligned_to alignment }
{
    match alignment {
        1 => Ok(Statement::Align(Alignment::One)),
        2 => Ok(Statement::Align(Alignment::Two)),
        4 => Ok(Statement::Align(Alignment::Four)),
        8 => Ok(Statement::Align(Alignment::Eight)),
        16 => Ok(Statement::Align(Alignment::Sixteen)),
        _ => Err(AsmCause::Range),
    }
}

/// `.balign n`.
#[tactic(auto, unfolding(crate::specs::Statements::align_statement))]
fn align_statement(text: &[u8]) -> Result<Statement, AsmCause>
    ensures { result ≡ align_statement text.now }
{
    let number = one_number(text)?;
    let alignment = ranged(0, 16, number)?;
    aligned_to(alignment)
}

/// `.globl NAME`, which says nothing.
#[tactic(auto, unfolding(crate::specs::Statements::global_statement))]
fn global_statement(text: &[u8]) -> Result<Statement, AsmCause>
    ensures { result ≡ global_statement text.now }
{
    if is_name(one(text)?) {
        Ok(Statement::Nothing)
    } else {
        Err(AsmCause::Operand)
    }
}

/// What a mnemonic says with its operands.
#[tactic(auto, unfolding(crate::specs::Statements::statement_for))]
fn statement_for(mnemonic: Mnemonic, text: &[u8]) -> Result<Statement, AsmCause>
    ensures { result ≡ statement_for mnemonic text.now }
{
    match mnemonic {
        Mnemonic::Lui => lui_statement(text),
        Mnemonic::Auipc => auipc_statement(text),
        Mnemonic::Jal => jal_statement(text),
        Mnemonic::Jalr => jalr_statement(text),
        Mnemonic::Branch(op) => branch_statement(op, text),
        Mnemonic::Load(op) => load_statement(op, text),
        Mnemonic::Store(op) => store_statement(op, text),
        Mnemonic::Immediate(op) => immediate_statement(op, text),
        Mnemonic::Shift(op) => shift_statement(op, text),
        Mnemonic::Operation(op) => operation_statement(op, text),
        Mnemonic::MulDiv(op) => mul_div_statement(op, text),
        Mnemonic::Alone(instr) => alone(text, Statement::One(instr)),
        Mnemonic::Move => move_statement(text),
        Mnemonic::JumpTo(rd) => jump_statement(rd, text),
        Mnemonic::BranchZero(op) => branch_zero_statement(op, text),
        Mnemonic::LoadImmediate => load_immediate_statement(text),
        Mnemonic::LoadAddress => load_address_statement(text),
        Mnemonic::Enter(section) => alone(text, Statement::Enter(section)),
        Mnemonic::Values(width) => values_statement(width, text),
        Mnemonic::Space => space_statement(text),
        Mnemonic::Align => align_statement(text),
        Mnemonic::Global => global_statement(text),
    }
}

/// Whether nothing or a blank stands between a name and its operands.
fn is_apart(text: &[u8]) -> bool
    ensures { result ≡ is_apart text.now }
{
    match text {
        [] => true,
        [first, ..] => is_blank(*first),
    }
}

/// What a mnemonic says with what stands behind it.
fn with_operands(mnemonic: Mnemonic, text: &[u8]) -> Result<Statement, AsmCause>
    ensures { result ≡ with_operands mnemonic text.now }
{
    if is_apart(text) {
        statement_for(mnemonic, text)
    } else {
        Err(AsmCause::Operand)
    }
}

/// What a line says behind its labels, or its least cause that depends on no label.
#[tactic(auto, unfolding(crate::specs::Statements::statement_of))]
pub fn statement_of(text: &[u8]) -> Result<Statement, AsmCause>
    ensures { result ≡ statement_of text.now }
{
    if text.is_empty() {
        return Ok(Statement::Nothing);
    }
    let len = name_len(text);
    if len == 0 {
        return Err(AsmCause::Operand);
    }
    match mnemonic_named(&text[..len]) {
        Some(mnemonic) => with_operands(mnemonic, operand_text(text)),
        None => Err(AsmCause::Mnemonic),
    }
}

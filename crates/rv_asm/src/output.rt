//! The second pass: the bytes of lines.

ghost use Rattle.std.specs.Prelude.{◌≡◌, ◌+◌, ◌/◌, ◌%◌, ◌<◌, ◌≤◌, ◌^◌, ◌++◌, length, replicate, OnOk};
ghost use Rattle.std.specs.Int.{w32, to_le_bytes};
ghost use Rattle.std.specs.List.{flat_map};
ghost use Rattle.sl_model.specs.declared.instr.Instr.TheVariants.{Jal, Branch};
ghost use Rattle.asm_text.specs.Numbers.{number_of};
ghost use Rattle.asm_text.specs.Operands.{pieces};
ghost use Rattle.rv_asm.specs.Places.{offset};
ghost use Rattle.rv_asm.specs.Lines.{jump_offset};
ghost use Rattle.rv_asm.specs.Output.{code, offset_word, value_word_of, low_bytes, value_bytes, address_code, statement_bytes};

use crate::causes::jump_offset;
use crate::encoding::word_for;
use crate::place::Place;
use crate::sizes::{offset, padding_size};
use crate::table::Table;
use asm_text::{
    Number, Statement, Target, Width, first_piece, last_piece, lower_part, number_of, upper_part,
    value_word,
};
use rv_decode::{Bits, BranchOp, ImmediateOp, Instr, Register};
use std::alloc::AllocError;

/// A word, its lowest byte first.
fn push_word(out: &mut Vec<u8>, word: u32) -> Result<(), AllocError>
    ensures { OnOk result (out.new.items ≡ out.old.items ++ to_le_bytes w32 word) }
{
    out.extend_from_slice(&word.to_le_bytes())
}

fn push_code(out: &mut Vec<u8>, instr: &Instr) -> Result<(), AllocError>
    ensures { OnOk result (out.new.items ≡ out.old.items ++ code instr.now) }
{
    push_word(out, word_for(instr))
}

fn push_zeros(out: &mut Vec<u8>, count: u64) -> Result<(), AllocError>
    ensures { OnOk result (out.new.items ≡ out.old.items ++ replicate count 0) }
{
    for _ in 0..count {
        out.push(0)?;
    }
    Ok(())
}

/// The word of an offset that is there.
fn offset_word(offset: Option<Number>) -> u32
    ensures { result ≡ offset_word offset }
{
    match offset {
        Some(number) => value_word(number),
        None => 0,
    }
}

fn push_jump(out: &mut Vec<u8>, rd: Register, offset: Option<Number>) -> Result<(), AllocError>
    ensures { OnOk result (out.new.items
        ≡ out.old.items ++ code (Jal rd (offset_word offset / 2 % 2 ^ 20))) }
{
    let half_offset = Bits::low(offset_word(offset) / 2);
    push_code(out, &Instr::Jal { rd, half_offset })
}

fn push_branch(
    out: &mut Vec<u8>,
    op: BranchOp,
    rs1: Register,
    rs2: Register,
    offset: Option<Number>,
) -> Result<(), AllocError>
    ensures { OnOk result (out.new.items
        ≡ out.old.items ++ code (Branch op rs1 rs2 (offset_word offset / 2 % 2 ^ 12))) }
{
    let half_offset = Bits::low(offset_word(offset) / 2);
    push_code(
        out,
        &Instr::Branch {
            op,
            rs1,
            rs2,
            half_offset,
        },
    )
}

/// The two instructions that put a word into a register.
fn push_address(out: &mut Vec<u8>, rd: Register, word: u32) -> Result<(), AllocError>
    ensures { OnOk result (out.new.items ≡ out.old.items ++ address_code rd word) }
{
    let imm = upper_part(word);
    push_code(out, &Instr::Lui { rd, imm })?;
    let (op, rs1, imm) = (ImmediateOp::Addi, rd, lower_part(word));
    push_code(out, &Instr::OpImm { op, rd, rs1, imm })
}

/// The word of a number, or of a label's value.
fn value_word_of(table: &Table<'_>, piece: &[u8]) -> u32
    requires { table.now.data_start < 2 ^ 63 }
    ensures { result ≡ value_word_of table.now (number_of piece.now) piece.now }
{
    match number_of(piece) {
        Some(number) => value_word(number),
        None => table.label_word(piece),
    }
}

/// The low bytes of a word, the lowest first.
fn push_low_bytes(out: &mut Vec<u8>, width: Width, word: u32) -> Result<(), AllocError>
    ensures { OnOk result (out.new.items ≡ out.old.items ++ low_bytes width word) }
{
    match width {
        Width::Word => push_word(out, word),
        Width::Half => out.extend_from_slice(&((word % 0x1_0000) as u16).to_le_bytes()),
        Width::Byte => out.extend_from_slice(&[(word % 0x100) as u8]),
    }
}

/// The values of a directive.
fn push_values(
    out: &mut Vec<u8>,
    table: &Table<'_>,
    width: Width,
    text: &[u8],
) -> Result<(), AllocError>
    requires { table.now.data_start < 2 ^ 63 }
    ensures { OnOk result (out.new.items
        ≡ out.old.items ++ flat_map (value_bytes table.now width) (pieces text.now)) }
{
    let mut rest = text;
    loop {
        let (piece, after) = first_piece(rest);
        push_low_bytes(out, width, value_word_of(table, piece))?;
        match after {
            Some(after) => rest = after,
            None => return Ok(()),
        }
    }
}

/// The bytes of a statement.
#[tactic(auto, unfolding(crate::specs::Output::statement_bytes))]
pub fn push_statement(
    out: &mut Vec<u8>,
    table: &Table<'_>,
    place: Place,
    text: &[u8],
    statement: &Statement,
) -> Result<(), AllocError>
    requires start { table.now.data_start < 2 ^ 63 }
    requires offset { offset place < 2 ^ 62 }
    ensures { OnOk result (out.new.items
        ≡ out.old.items ++ statement_bytes table.now place text.now statement.now) }
{
    match statement {
        Statement::Nothing | Statement::Enter(_) => Ok(()),
        Statement::One(instr) => push_code(out, instr),
        Statement::Two(first, second) => {
            push_code(out, first)?;
            push_code(out, second)
        }
        Statement::Jump { rd, target } => {
            push_jump(out, *rd, jump_offset(table, place, text, *target))
        }
        Statement::Branch {
            op,
            rs1,
            rs2,
            target,
        } => push_branch(
            out,
            *op,
            *rs1,
            *rs2,
            jump_offset(table, place, text, *target),
        ),
        Statement::Address { rd } => push_address(out, *rd, table.label_word(last_piece(text))),
        Statement::Values(width) => push_values(out, table, *width, text),
        Statement::Space { size } => push_zeros(out, u64::from(*size)),
        Statement::Align(alignment) => push_zeros(out, padding_size(*alignment, offset(place))),
    }
}

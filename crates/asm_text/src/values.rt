//! `.word`, `.half` and `.byte`.

ghost use Rattle.std.specs.Prelude.{◌≡◌};
ghost use Rattle.asm_text.specs.Numbers.{word_of};
ghost use Rattle.asm_text.specs.Statements.{lowest, highest, is_malformed_as, is_beyond, values_statement};

use crate::bytes::is_name;
use crate::fault::AsmCause;
use crate::mnemonic::Width;
use crate::number::{Number, number_of};
use crate::operand::first_piece;
use crate::statement::Statement;

/// The lowest number of a width, without its sign.
fn lowest(width: Width) -> u64
    ensures { result ≡ lowest width }
{
    match width {
        Width::Word => 0x8000_0000,
        Width::Half => 0x8000,
        Width::Byte => 0x80,
    }
}

/// The highest number of a width.
fn highest(width: Width) -> u64
    ensures { result ≡ highest width }
{
    match width {
        Width::Word => 0xffff_ffff,
        Width::Half => 0xffff,
        Width::Byte => 0xff,
    }
}

/// Whether an operand is no number, and no label where one may stand.
fn is_malformed(width: Width, number: Option<Number>, piece: &[u8]) -> bool
    ensures { result ≡ is_malformed_as width number piece.now }
{
    match (width, number) {
        (_, Some(_)) => false,
        (Width::Word, None) => !is_name(piece),
        (_, None) => true,
    }
}

/// Whether a number is none that a width takes.
fn is_beyond(width: Width, number: Option<Number>) -> bool
    ensures { result ≡ is_beyond width number }
{
    match number {
        Some(number) if number.is_negative => number.magnitude > lowest(width),
        Some(number) => number.magnitude > highest(width),
        None => false,
    }
}

/// A directive's values.
#[tactic(auto, unfolding(crate::specs::Statements::values_statement))]
pub fn values_statement(width: Width, text: &[u8]) -> Result<Statement, AsmCause>
    ensures { result ≡ values_statement width text.now }
{
    let mut rest = text;
    let mut is_out_of_range = false;
    loop {
        let (piece, after) = first_piece(rest);
        let number = number_of(piece);
        if is_malformed(width, number, piece) {
            return Err(AsmCause::Operand);
        }
        is_out_of_range = is_out_of_range || is_beyond(width, number);
        match after {
            Some(after) => rest = after,
            None if is_out_of_range => return Err(AsmCause::Range),
            None => return Ok(Statement::Values(width)),
        }
    }
}

/// The word of a number modulo 2^32, in two's complement.
pub fn value_word(number: Number) -> u32
    ensures { result ≡ word_of number }
{
    let magnitude = (number.magnitude % 0x1_0000_0000) as u32;
    if number.is_negative {
        0u32.wrapping_sub(magnitude)
    } else {
        magnitude
    }
}

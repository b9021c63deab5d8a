//! The text of assembly sources: the parts of a line, the names, numbers and operands in them, and
//! what a line says but for what depends on its labels.
#![tactic(auto)]

mod bytes;
mod fault;
mod line;
mod mnemonic;
mod number;
mod operand;
mod register;
mod statement;
mod table;
mod values;

pub use fault::{AsmCause, AsmFault};
pub use line::{code_of, first_label, operand_text, statement_text};
pub use mnemonic::{Alignment, Section, Width};
pub use number::{Number, is_offset, number_of};
pub use operand::{Target, first_piece, last_piece, piece_count};
pub use statement::{BRANCH_REACH, JUMP_REACH, Statement, lower_part, statement_of, upper_part};
pub use values::value_word;

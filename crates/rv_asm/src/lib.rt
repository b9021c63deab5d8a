//! The assembler: from a source to the image of a program.
#![tactic(auto)]

mod assembling;
mod causes;
mod encoding;
mod image;
mod labels;
mod lines;
mod output;
mod place;
mod sizes;
mod survey;
mod table;

pub use asm_text::{AsmCause, AsmFault};
pub use assembling::assemble;

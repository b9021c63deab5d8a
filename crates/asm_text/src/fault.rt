//! Why a source is refused.

use thiserror::Error;

/// A rule of sources that a line breaks. The order is that in which a line's causes are told.
#[derive(Clone, Copy, Debug, PartialEq, Eq, Error)]
pub enum AsmCause {
    /// A name is that of no instruction and of no directive.
    #[error("Mnemonic")]
    Mnemonic,
    /// The operands have another number or another form than their place wants, or a byte fits
    /// nothing.
    #[error("Operand")]
    Operand,
    /// A number or an offset is none that its place takes.
    #[error("Range")]
    Range,
    /// No label has this name.
    #[error("Unknown label")]
    UnknownLabel,
    /// An earlier label has this name.
    #[error("Doubled label")]
    DoubledLabel,
    /// An instruction stands in data, or a directive of data in text.
    #[error("Section")]
    Section,
    /// The source, its text or its data is too large.
    #[error("Too large")]
    TooLarge,
}

/// The first fault of a source that is refused.
#[derive(Clone, Copy, Debug, PartialEq, Eq, Error)]
#[error("{cause} at line {line}")]
pub struct AsmFault {
    /// The line, counted from 1, or 0 for the source as a whole.
    pub line: u32,
    /// The rule that is broken there.
    pub cause: AsmCause,
}

//! Why bytes are no image.

use thiserror::Error;

/// A rule of images that bytes break.
#[derive(Clone, Copy, Debug, PartialEq, Eq, Error)]
pub enum ImageCause {
    /// Part of the file lies past its end.
    #[error("Short")]
    Short,
    /// It is no ELF file.
    #[error("Magic")]
    Magic,
    /// The file's class, data or version is another than that of 32-bit little-endian files of
    /// version 1.
    #[error("Class")]
    Class,
    /// The file is for another machine than RISC-V.
    #[error("Machine")]
    Machine,
    /// The file is no executable.
    #[error("Type")]
    WrongType,
    /// The program uses compressed instructions.
    #[error("Compressed")]
    Compressed,
    /// The program passes floats in registers.
    #[error("FloatAbi")]
    FloatAbi,
    /// The program asks for an interpreter.
    #[error("Interp")]
    Interp,
    /// A segment has no place in memory.
    #[error("Segment range")]
    SegmentRange,
    /// Two segments, or a segment and the stack, share memory.
    #[error("Overlap")]
    Overlap,
    /// The symbol table is broken.
    #[error("Symbol table")]
    SymbolTable,
}

/// The first fault of bytes that are no image.
#[derive(Clone, Copy, Debug, PartialEq, Eq, Error)]
#[error("{cause} at {place}")]
pub struct ImageFault {
    /// The place of the fault, in bytes from the image's start.
    pub place: u32,
    /// The rule that is broken there.
    pub cause: ImageCause,
}

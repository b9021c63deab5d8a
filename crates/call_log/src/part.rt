//! The parts of a checkpoint, by the numbers under which a divergence tells them.

/// The program counter.
pub const PC: u32 = 0;

/// The register x1. Those up to x31 follow it.
pub const FIRST_REGISTER: u32 = 1;

/// The break.
pub const BREAK: u32 = 32;

/// The end of the heap's mapped pages.
pub const HEAP_END: u32 = 33;

/// The index of the next call.
pub const NEXT_CALL: u32 = 34;

/// A byte of memory.
pub const BYTE: u32 = 35;

/// Whether a page is mapped.
pub const PAGE: u32 = 36;

//! The numbers of traps, each the code of its exception in the RISC-V Privileged ISA ("Machine
//! Cause Register").

/// pc, or the target of a jump that is taken, is no multiple of 4.
pub const MISALIGNED: u32 = 0;

/// A byte at pc is not mapped.
pub const FETCH: u32 = 1;

/// The word at pc means no instruction.
pub const ILLEGAL: u32 = 2;

/// EBREAK.
pub const BREAKPOINT: u32 = 3;

/// A load touches a byte that is not mapped.
pub const LOAD_FAULT: u32 = 5;

/// A store touches a byte that is not mapped.
pub const STORE_FAULT: u32 = 7;

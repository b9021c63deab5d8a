//! The machine without its memory.

ghost use Rattle.std.specs.Prelude.{◌≡◌, ◌+◌, ◌<◌, ◌^◌, slice_index};

use sl_model::{Bits, Layout, Register, RunState};

/// The state of a program but for its memory.
#[derive(Clone, Copy, Debug, PartialEq, Eq)]
pub struct Machine {
    /// The address of the next instruction.
    pub pc: u32,
    /// The registers x0 to x31.
    pub x: [u32; 32],
    /// The break.
    pub brk: u32,
    /// The end of the heap's mapped pages.
    pub brk_end: u32,
    /// How many calls were answered from the recording.
    pub next_call: u32,
    pub status: RunState,
    /// How many instructions were done.
    pub count: u64,
    pub layout: Layout,
    ghost zero: { slice_index x 0 ≡ 0 },
}

/// What came of one instruction.
#[derive(Clone, Copy, Debug, PartialEq, Eq)]
pub enum Outcome {
    /// It was done.
    Stepped,
    /// It is a system call, and nothing changed.
    Call,
    /// It traps with this number, and nothing changed.
    Trap(u32),
}

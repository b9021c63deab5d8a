use sl_base::{Call, Seq};

/// A system call of the recorded run, and what the outside answered.
#[derive(Debug, Drop)]
pub struct CallEntry {
    /// The call's number and its six arguments.
    pub call: Call,
    /// What the call left in register a0.
    pub result: u32,
    /// The data of the call: what a read brought into memory, or what a write took from it.
    pub bytes: Seq<u8>,
}

/// How a run ended.
#[derive(Clone, Copy, Debug, PartialEq, Eq)]
pub enum End {
    /// The program ended itself with this code, the whole word of register a0.
    Exited(u32),
    /// The next instruction traps with this number: 0 misaligned, 1 fetch, 2 illegal instruction, 3
    /// breakpoint, 5 load, 7 store.
    Trapped(u32),
    /// The recorder stopped while the program still ran.
    Stopped,
}

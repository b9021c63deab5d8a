use sl_base::{Call, Seq};

/// A system call that a program makes, and what a recorded call needs to be one of it.
#[derive(Debug, Drop)]
pub struct Ask {
    /// The call's number and its six arguments.
    pub call: Call,
    /// The bytes of a write, where they are mapped.
    pub give: Seq<u8>,
    /// How many bytes a read, a write or random bytes have at most.
    pub room: u32,
    /// The result, where the machine decides it.
    pub fixed: Option<u32>,
}

/// The least field of a recorded call that differs from the program's.
#[derive(Clone, Copy, Debug, PartialEq, Eq)]
pub struct CallDiff {
    /// 0 the number, 1 to 6 the arguments, 7 the result, 8 the length of the data, 9 a byte of the
    /// data.
    pub field: u32,
    /// The recorded value.
    pub recorded: u32,
    /// The value that the program's call needs.
    pub due: u32,
}

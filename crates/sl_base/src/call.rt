//! System calls, by their numbers and arguments.

/// The number of the call `read`.
pub const READ: u32 = 63;

/// The number of the call `write`.
pub const WRITE: u32 = 64;

/// The number of the call `getrandom`.
pub const GETRANDOM: u32 = 278;

/// The least result that says an error, which is error 4095.
pub const LEAST_ERROR: u32 = 0xffff_f001;

/// A system call that a program makes.
#[derive(Clone, Copy, Debug, PartialEq, Eq)]
pub struct Call {
    /// The call's number, of register a7.
    pub number: u32,
    /// The six arguments, of registers a0 to a5.
    pub args: [u32; 6],
}

//! Whether a program goes on.

/// Whether a program goes on.
#[derive(Clone, Copy, Debug, PartialEq, Eq)]
pub enum RunState {
    Running,
    /// It has exited, with the whole word of register a0 as its code.
    Exited(u32),
}

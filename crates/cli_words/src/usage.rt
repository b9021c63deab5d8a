//! Words that name no command.

/// The words name no command.
#[derive(Clone, Copy, Debug, PartialEq, Eq)]
pub struct Usage;

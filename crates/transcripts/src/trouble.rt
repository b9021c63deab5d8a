//! Why a page can't be run.

use sl_base::Memory;
use std::alloc::AllocError;

/// Why a page can't be run.
#[derive(Debug, Drop)]
pub enum Trouble {
    /// No text or no bytes can be read under this name.
    Unreadable(String),
    /// The parts of a file of bytes are none.
    Parts,
    /// Out of memory.
    Memory,
}

impl From<Memory> for Trouble {
    fn from(_error: Memory) -> Trouble {
        Trouble::Memory
    }
}

impl From<AllocError> for Trouble {
    fn from(_error: AllocError) -> Trouble {
        Trouble::Memory
    }
}

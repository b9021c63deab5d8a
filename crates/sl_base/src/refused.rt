//! Why a call gives no value.

ghost use Rattle.std.specs.Prelude.{◌≡◌};
ghost use Rattle.sl_base.specs.declared.refused.Refused.TheVariants.{Memory as out_of_memory};

use std::alloc::{AllocError, AllocFailed};

/// Memory could not be had.
#[derive(Clone, Copy, Debug, PartialEq, Eq)]
pub struct Memory;

impl From<AllocError> for Memory {
    fn from(_error: AllocError) -> Memory {
        Memory
    }
}

impl<T: Drop> From<AllocFailed<T>> for Memory {
    fn from(_error: AllocFailed<T>) -> Memory {
        Memory
    }
}

/// A fault of what was given, or want of memory.
#[derive(Clone, Copy, Debug, PartialEq, Eq)]
pub enum Refused<F> {
    /// What was given has this fault.
    Fault(F),
    /// Memory could not be had.
    Memory,
}

impl<F> From<Memory> for Refused<F> {
    ghost from_gives = { λ _ e. e ≡ out_of_memory };

    fn from(_error: Memory) -> Refused<F> {
        Refused::Memory
    }
}

impl<F> From<AllocError> for Refused<F> {
    ghost from_gives = { λ _ e. e ≡ out_of_memory };

    fn from(_error: AllocError) -> Refused<F> {
        Refused::Memory
    }
}

impl<F, T: Drop> From<AllocFailed<T>> for Refused<F> {
    ghost from_gives = { λ _ e. e ≡ out_of_memory };

    fn from(_error: AllocFailed<T>) -> Refused<F> {
        Refused::Memory
    }
}

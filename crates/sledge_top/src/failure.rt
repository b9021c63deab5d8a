//! Why a part of a command gave nothing.

use report::Refusal;
use sl_base::{Memory, Refused};
use std::alloc::AllocError;

/// Why a part of a command gave nothing.
#[derive(Debug, Drop)]
pub enum Failure {
    /// The command is refused.
    Refused(Refusal),
    /// The store failed.
    StoreFault,
    /// Memory could not be had.
    Memory,
}

impl From<Refused<Refusal>> for Failure {
    ghost use Rattle.std.specs.Prelude.{◌≡◌};
    ghost use Rattle.sledge_top.specs.Views.{failure_of};

    ghost from_gives = { λ refused e. e ≡ failure_of refused };

    fn from(refused: Refused<Refusal>) -> Failure {
        match refused {
            Refused::Fault(why) => Failure::Refused(why),
            Refused::Memory => Failure::Memory,
        }
    }
}

impl From<Memory> for Failure {
    ghost use Rattle.std.specs.Prelude.{◌≡◌};
    ghost use Rattle.sledge_top.specs.declared.failure.Failure.TheVariants.{Memory as out_of_memory};

    ghost from_gives = { λ _ e. e ≡ out_of_memory };

    fn from(_error: Memory) -> Failure {
        Failure::Memory
    }
}

impl From<AllocError> for Failure {
    ghost use Rattle.std.specs.Prelude.{◌≡◌};
    ghost use Rattle.sledge_top.specs.declared.failure.Failure.TheVariants.{Memory as out_of_memory};

    ghost from_gives = { λ _ e. e ≡ out_of_memory };

    fn from(_error: AllocError) -> Failure {
        Failure::Memory
    }
}

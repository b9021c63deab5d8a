//! Checks in an order.

ghost use Rattle.elf_image.specs.Checks.{check, Tells, TellsUnlessMemory, IsSure};
ghost use Rattle.std.specs.Prelude.{◌≡◌};

use crate::fault::{ImageCause, ImageFault};
use sl_base::Refused;

/// What a file passes or fails, with the fault that is told where it fails.
#[derive(Clone, Copy)]
pub struct Check {
    pub passes: bool,
    pub fault: ImageFault,
}

impl Check {
    /// A check with the place and the cause of its fault.
    pub fn new(passes: bool, place: u32, cause: ImageCause) -> Check
        ensures { result ≡ check passes place cause }
    {
        Check {
            passes,
            fault: ImageFault { place, cause },
        }
    }
}

/// Nothing where all checks pass, and else the fault of the first that fails.
pub fn all_pass(checks: &[Check]) -> Result<(), ImageFault>
    ensures { Tells result checks.now }
{
    for check in checks {
        if !check.passes {
            return Err(check.fault);
        }
    }
    Ok(())
}

/// The same as a refusal.
pub fn ensure(checks: &[Check]) -> Result<(), Refused<ImageFault>>
    ensures told { TellsUnlessMemory result checks.now }
    ensures sure { IsSure result }
{
    all_pass(checks).map_err(Refused::Fault)
}

//! How the end of a run tells an outcome: x10 holds its number and x11 its value, or 0 where it has
//! none.

ghost use Rattle.std.specs.Prelude.{◌≡◌};
ghost use Rattle.tracer_code.specs.Outcomes.{outcome_of};

use tracer_lang::TracerEnd;

/// The number of `Done`.
pub const DONE: u32 = 0;

/// The number of `OverBudget`.
pub const OVER_BUDGET: u32 = 1;

/// The number of `TooDeep`.
pub const TOO_DEEP: u32 = 2;

/// The number of `LoadFault`, whose value is the address.
pub const LOAD_FAULT: u32 = 3;

/// The number of `StoreFault`, whose value is the address.
pub const STORE_FAULT: u32 = 4;

/// The number of `TooManyStores`.
pub const TOO_MANY_STORES: u32 = 5;

/// The number of `TooManyWords`.
pub const TOO_MANY_WORDS: u32 = 6;

/// The number of `Barred`, whose value is the number of the system call.
pub const BARRED: u32 = 7;

/// The number of `User`, whose value is the script's.
pub const USER: u32 = 8;

/// The outcome that a number from 0 to 8 and a value tell.
pub fn outcome_of(number: u32, value: u32) -> TracerEnd
    ensures { result ≡ outcome_of number value }
{
    match number {
        DONE => TracerEnd::Done,
        OVER_BUDGET => TracerEnd::OverBudget,
        TOO_DEEP => TracerEnd::TooDeep,
        LOAD_FAULT => TracerEnd::LoadFault(value),
        STORE_FAULT => TracerEnd::StoreFault(value),
        TOO_MANY_STORES => TracerEnd::TooManyStores,
        TOO_MANY_WORDS => TracerEnd::TooManyWords,
        BARRED => TracerEnd::Barred(value),
        _ => TracerEnd::User(value),
    }
}

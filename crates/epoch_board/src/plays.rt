//! The rule of a board's table, and what each step tells the seat that takes it.

ghost use Rattle.std.specs.Prelude.{◌≡◌, ◌<◌, false, All};
ghost use Rattle.epoch_board.specs.Rule.{IsBoard};
ghost use Rattle.epoch_board.specs.Views.{new_view, spent, claimed, looked, lowered, kept, given, merged};

use crate::view::{Size, View};
use atomic_table::{Join, Play, Split, TableRule};

/// The rule.
pub(crate) struct Claims;

impl TableRule<(), View, Size> for Claims {
    ghost holds = { λ size. IsBoard size.epochs size.seats };

    ghost first = { λ size. new_view size.epochs size.seats size.seats false };
}

/// A number is drawn: it is above each earlier claim of the seat.
pub(crate) struct Claim;

impl Play<(), View> for Claim {
    ghost then = { λ step before drawn after.
        (after ≡ (claimed before.0 drawn, before.1)) × All (λ c. c < drawn) before.0.claims };
}

/// The least break is read.
pub(crate) struct Look;

impl Play<(), View> for Look {
    ghost then = { λ step before word after. after ≡ (looked before.0 word, before.1) };
}

/// An epoch broke.
pub(crate) struct Lower;

impl Play<(), View> for Lower {
    ghost then = { λ step before word after. after ≡ (lowered before.0 step.first, before.1) };
}

/// One seat becomes two.
pub(crate) struct Parted;

impl Split<View> for Parted {
    ghost left = { kept };

    ghost right = { given };
}

/// Two seats become one.
pub(crate) struct Merged;

impl Join<View> for Merged {
    ghost both = { merged };

    ghost spent = { spent };
}

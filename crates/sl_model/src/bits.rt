//! Numbers of a few bits.

ghost use Rattle.std.specs.Prelude.{◌≡◌, ◌<◌, ◌%◌, ◌^◌, ℕ};

use std::marker::Model;

/// A number of `N` bits, from 0 to 2^N - 1.
#[derive(Clone, Copy, Debug, PartialEq, Eq)]
pub struct Bits<const N: u32> {
    value: u32,
}

impl<const N: u32> Model for Bits<N> {
    ghost Value = { ℕ };

    ghost view = { λ b. b.value };

    ghost invariant = { λ b. b.value < 2 ^ N };

    ghost inverse = { λ n. record { value = n } };
}

impl<const N: u32> Bits<N> {
    /// The low `N` bits of a word.
    #[inline(always)]
    pub fn low(word: u32) -> Self
        requires { N < 32 }
        ensures { result ≡ word % 2 ^ N }
    {
        Bits {
            value: word % (1 << N),
        }
    }

    /// The number itself.
    #[inline(always)]
    pub fn value(self) -> u32
        ensures value { result ≡ self.entry }
        ensures fits { result < 2 ^ N }
    {
        self.value
    }
}

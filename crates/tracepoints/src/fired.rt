//! The tracepoints that fire at one place.

ghost use Rattle.std.specs.Prelude.{◌≡◌, ◌<◌, ◌≤◌, ◌↔◌, IsTrue, [], ◌∷◌, ◌++◌, length, take};

use std::marker::Model;

/// Numbers of tracepoints, at most 64. They take no memory.
#[derive(Drop)]
pub struct Fired {
    numbers: [u32; 64],
    len: usize,
}

impl Model for Fired {
    ghost use Rattle.std.specs.Prelude.{List, ℕ, take, ◌≤◌};

    ghost Value = { List ℕ };

    ghost view = { λ a. take a.len a.numbers };

    ghost invariant = { λ a. a.len ≤ 64 };
}

impl Fired {
    /// No number.
    pub fn new() -> Fired
        ensures { result ≡ [] }
    {
        Fired {
            numbers: [0; 64],
            len: 0,
        }
    }

    /// Whether there is no number.
    #[inline(always)]
    pub fn is_empty(&self) -> bool
        ensures { IsTrue result ↔ (self.now ≡ []) }
    {
        self.len == 0
    }

    /// The numbers, in order.
    pub fn as_slice(&self) -> &[u32]
        ensures numbers { result.now ≡ self.now }
        ensures few { length self.now ≤ 64 }
    {
        &self.numbers[..self.len]
    }

    /// No number is left.
    pub(crate) fn clear(&mut self)
        ensures { self.new ≡ [] }
    {
        self.len = 0;
    }

    /// Adds a number at the end.
    pub(crate) fn push(&mut self, number: u32)
        requires { length self.old < 64 }
        ensures { self.new ≡ self.old ++ number ∷ [] }
    {
        self.numbers[self.len] = number;
        self.len += 1;
    }
}

//! Memory as a step sees it.

ghost use Rattle.std.specs.Prelude.{◌≡◌, ℕ, ◌<◌, ◌^◌, List, Bool, IfSome, is_some, unwrap_or};
ghost use Rattle.std.specs.Bool.{OnFalse};
ghost use Rattle.sl_model.specs.Pages.{Pages, IsWidth, load_at, store_at};
ghost use Rattle.sl_model.specs.Marks.{MarksGoOn};

/// Memory in pages of 4,096 bytes, some of them marked as changed.
pub trait Bus {
    /// The mapped pages.
    ghost pages: { Self → Pages };

    /// The pages that are marked, the first marked one first.
    ghost marked: { Self → List ℕ };

    /// Whether what changes is marked.
    ghost is_marking: { Self → Bool };

    /// The type of `fixed`, with one value where an `impl` says nothing.
    ghost Fixed: { Type 0 } = { Unit {0} };

    /// What no store changes. A bus over borrowed memory gives the ghost names of its borrows, so
    /// that the lender knows that each of them ends as the bus left it, and whatever else of them
    /// stays.
    ghost fixed: { Self → Fixed };

    /// The little-endian number in the `width` bytes at an address, with no sign; `None` exactly
    /// where one of them is not mapped.
    fn load(&self, addr: u32, width: u8) -> Option<u32>
        requires { IsWidth width }
        ensures value { result ≡ load_at (pages self.now) addr width }
        ensures fits { IfSome result (λ n. n < 256 ^ width) };

    /// Writes the low `width` bytes of a value at an address, the lowest first. `false` comes
    /// exactly where one of them is not mapped, and then nothing changed.
    fn store(&mut self, addr: u32, width: u8, value: u32) -> bool
        requires { IsWidth width }
        ensures mapped { result ≡ is_some (store_at (pages self.old) addr width value) }
        ensures bytes { pages self.new
            ≡ unwrap_or (store_at (pages self.old) addr width value) (pages self.old) }
        ensures unmapped { OnFalse result (marked self.new ≡ marked self.old) }
        ensures marking { is_marking self.new ≡ is_marking self.old }
        ensures fixed { fixed self.new ≡ fixed self.old }
        ensures marks { MarksGoOn (is_marking self.old)
            (pages self.old) (marked self.old) (pages self.new) (marked self.new) };
}

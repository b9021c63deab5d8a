//! A bank and a program's memory together.

ghost use Rattle.std.specs.Prelude.{ℕ, length, true};
ghost use Rattle.std.specs.Borrow.{GName};
ghost use Rattle.undo_bank.specs.Areas.{AreAreas, areas_over};
ghost use Rattle.page_frames.specs.MarkedPages.{IsKept};

use crate::Bank;
use page_frames::Frames;
use sl_model::{Bus, CODE_START};

/// The memory that a compiled tracer runs over: a bank, and the memory of a program.
#[derive(Drop)]
pub struct BankBus<'a> {
    pub bank: &'a mut Bank,
    pub frames: &'a mut Frames,
}

impl BankBus<'_> {
    /// Tells a proof what holds of every bank and of every program's memory, and does nothing.
    #[inline(always)]
    fn known(&self)
        ensures areas { AreAreas self.now.bank.now }
        ensures pages { IsKept self.now.frames.now }
    {
        self.bank.known();
        self.frames.dirty_len();
    }
}

impl Bus for BankBus<'_> {
    ghost pages = { λ b. areas_over b.bank.now b.frames.now.pages };

    ghost marked = { λ b. b.frames.now.dirty };

    ghost is_marking = { λ _. true };

    ghost Fixed = { GName × GName × ℕ };

    ghost fixed = { λ b. (b.bank.ghost_name, b.frames.ghost_name, length b.bank.now.code) };

    #[inline(always)]
    fn load(&self, addr: u32, width: u8) -> Option<u32> {
        self.known();
        if addr < CODE_START {
            self.frames.load(addr, width)
        } else {
            self.bank.load(addr, width)
        }
    }

    #[inline(always)]
    fn store(&mut self, addr: u32, width: u8, value: u32) -> bool {
        self.known();
        if addr < CODE_START {
            self.frames.store(addr, width, value)
        } else {
            self.bank.store(addr, width, value)
        }
    }
}

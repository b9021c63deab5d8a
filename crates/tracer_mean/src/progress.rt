//! How far a tracer has come, and what it does to its copy of the memory.

ghost use Rattle.std.specs.Prelude.{◌≡◌, ◌≤◌, IfOk, IfErr, OnOk};
ghost use Rattle.tracer_lang.specs.Meaning.{Goes, load_meaning, store_meaning, emit_meaning, system_call_meaning};
ghost use Rattle.tracer_mean.specs.Evaluated.{now_of, at_machine, HaltsAt, KeepsBody};
ghost use Rattle.tracer_mean.specs.declared.progress.Halt.TheVariants.{Memory as out_of_memory};

use page_frames::Frames;
use rv_machine::{Machine, load_value, load_width, store_width};
use sl_base::Seq;
use sl_model::{Bus, LoadOp, StoreOp};
use std::alloc::{AllocError, AllocFailed};
use tracer_lang::TracerEnd;

/// The most words that a tracer's call emits.
pub(crate) const MOST_WORDS: usize = 256;

/// The most stores that a tracer's call does.
pub(crate) const MOST_STORES: u32 = 4096;

/// The number of the system call that asks for a break.
const BRK: u32 = 214;

/// How far a tracer has come.
#[derive(Drop)]
pub(crate) struct Progress {
    /// The copy's memory.
    pub(crate) memory: Frames,
    /// The words emitted so far.
    pub(crate) words: Seq<u32>,
    /// How many stores were done.
    pub(crate) stores: u32,
    /// How many turns of loops and entries of functions may follow.
    pub(crate) units: u32,
    /// The break of this call of the tracer.
    pub(crate) brk: u32,
    /// The locals of the body that runs.
    pub(crate) locals: Vec<u32>,
}

/// Why an evaluation goes no further.
#[derive(Drop)]
pub(crate) enum Halt {
    /// The function that runs returns a value.
    Returned(u32),
    /// The tracer ends.
    Ended(TracerEnd),
    /// Memory could not be had.
    Memory,
}

impl From<AllocError> for Halt {
    ghost from_gives = { λ _ h. h ≡ out_of_memory };

    fn from(_error: AllocError) -> Halt {
        Halt::Memory
    }
}

impl<T: Drop> From<AllocFailed<T>> for Halt {
    ghost from_gives = { λ _ h. h ≡ out_of_memory };

    fn from(_error: AllocFailed<T>) -> Halt {
        Halt::Memory
    }
}

impl Progress {
    /// What memory holds at an address.
    pub(crate) fn load(&self, op: LoadOp, address: u32) -> Result<u32, Halt>
        ensures value { IfOk result (λ v.
            load_meaning op address (now_of self.now) ≡ Goes v (now_of self.now)) }
        ensures halt { IfErr result (λ h.
            HaltsAt (load_meaning op address (now_of self.now)) h (now_of self.now)) }
    {
        match self.memory.load(address, load_width(op)) {
            Some(n) => Ok(load_value(op, n)),
            None => Err(Halt::Ended(TracerEnd::LoadFault(address))),
        }
    }

    /// Memory at an address becomes the low bytes of a value.
    pub(crate) fn store(&mut self, op: StoreOp, address: u32, value: u32) -> Result<(), Halt>
        ensures done { OnOk result
            (store_meaning op address value (now_of self.old) ≡ Goes 0 (now_of self.new)) }
        ensures halt { IfErr result (λ h.
            HaltsAt (store_meaning op address value (now_of self.old)) h (now_of self.new)) }
        ensures kept { KeepsBody self.old self.new }
    {
        let width = store_width(op);
        if !self.memory.is_mapped(address, u32::from(width)) {
            return Err(Halt::Ended(TracerEnd::StoreFault(address)));
        }
        if self.stores >= MOST_STORES {
            return Err(Halt::Ended(TracerEnd::TooManyStores));
        }
        self.memory.store(address, width, value);
        self.stores += 1;
        Ok(())
    }

    /// Emits a word.
    pub(crate) fn emit(&mut self, word: u32) -> Result<(), Halt>
        ensures done { OnOk result
            (emit_meaning word (now_of self.old) ≡ Goes 0 (now_of self.new)) }
        ensures halt { IfErr result (λ h.
            HaltsAt (emit_meaning word (now_of self.old)) h (now_of self.new)) }
        ensures kept { KeepsBody self.old self.new }
    {
        if self.words.len() >= MOST_WORDS {
            return Err(Halt::Ended(TracerEnd::TooManyWords));
        }
        self.words.push(word)?;
        Ok(())
    }

    /// What a system call gives.
    pub(crate) fn system_call(&mut self, m: &Machine, code: u32, value: u32) -> Result<u32, Halt>
        ensures value { IfOk result (λ v.
            system_call_meaning (at_machine m.now) code value (now_of self.old)
            ≡ Goes v (now_of self.new)) }
        ensures halt { IfErr result (λ h.
            HaltsAt (system_call_meaning (at_machine m.now) code value (now_of self.old)) h
            (now_of self.new)) }
        ensures kept { KeepsBody self.old self.new }
    {
        if code != BRK {
            return Err(Halt::Ended(TracerEnd::Barred(code)));
        }
        if value < m.layout.brk_start || value > m.layout.heap_limit {
            return Ok(self.brk);
        }
        if value > m.brk_end {
            return Err(Halt::Ended(TracerEnd::Barred(BRK)));
        }
        self.brk = value;
        Ok(value)
    }
}

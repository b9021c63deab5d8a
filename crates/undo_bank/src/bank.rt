//! The bank.

ghost use Rattle.std.specs.Prelude.{◌≡◌, ◌+◌, ◌*◌, ◌<◌, ◌≤◌, ◌∷◌, [], ℕ, ◌^◌, length, nat_lt, true, false, IfOk, IfSome, is_some, unwrap_or, ◌≢◌};
ghost use Rattle.std.specs.Bool.{OnTrue, OnFalse};
ghost use Rattle.sl_model.specs.Pages.{IsWidth, load_at, store_at};
ghost use Rattle.sl_model.specs.Marks.{MarksGoOn};
ghost use Rattle.sl_model.specs.Undo.{put_back, undone, entry_at, log_count, log_of, word_at};
ghost use Rattle.sl_model.specs.Bank.{output_count};
ghost use Rattle.undo_bank.specs.Areas.{AreAreas, IsMadeFrom, IsStarted, bank_pages, load_from, store_to};

use crate::area::Area;
use crate::regions::{CODE, FRAMES, LOG, OUTPUT, REGION};
use page_frames::Frames;
use sl_base::Memory;
use sl_model::{
    Bus, ENTRY_SIZE, FRAMES_SIZE, LOG_SIZE, MOST_CODE_WORDS, MOST_ENTRIES, MOST_OUTPUT_WORDS,
    OUTPUT_SIZE, OUTPUT_START, PAGE_SIZE,
};
use std::alloc::Global;
use std::marker::Model;

/// The memory that compiled tracers run in, one after the other: an area each for their code, their
/// frames, the log of what they stored over, and their output.
///
/// A caller sees the bytes of the four areas, and how many entries the last undo put back. Only
/// `new` takes memory.
#[derive(Drop)]
pub struct Bank {
    code: Area,
    frames: Area,
    log: Area,
    output: Area,
    last_log_len: u32,
}

impl Model for Bank {
    ghost use Rattle.undo_bank.specs.Areas.{Areas, areas_code};

    ghost Value = { Areas };

    ghost coded = { areas_code };

    ghost use Rattle.undo_bank.specs.Fields.{areas_of, AreFields};

    ghost view = { areas_of };

    ghost invariant = { AreFields };
}

impl Bank {
    /// A bank whose code is made from these words, with frames, log and output that are 0.
    pub fn new(alloc: Global, words: &[u32]) -> Result<Bank, Memory>
        requires { length words.now ≤ MOST_CODE_WORDS }
        ensures code { IfOk result (IsMadeFrom words.now) }
        ensures rest { IfOk result (IsStarted []) }
        ensures last { IfOk result (λ bank. bank.last_log_len ≡ 0) }
        ensures kept { IfOk result AreAreas }
    {
        let size = (4 * words.len() as u32).next_multiple_of(PAGE_SIZE);
        let mut code = Area::new(alloc, size)?;
        code.restart(words);
        Ok(Bank {
            code,
            frames: Area::new(alloc, FRAMES_SIZE)?,
            log: Area::new(alloc, LOG_SIZE)?,
            output: Area::new(alloc, OUTPUT_SIZE)?,
            last_log_len: 0,
        })
    }

    /// Readies the bank for a tracer: its frames begin with the words that a tracer reads of a
    /// machine, and every other byte of frames, log and output is 0. It costs what the tracer
    /// before it wrote.
    pub fn start(&mut self, copies: &[u32; 37])
        ensures started { IsStarted copies.now self.new }
        ensures code { self.new.code ≡ self.old.code }
        ensures last { self.new.last_log_len ≡ self.old.last_log_len }
        ensures kept { AreAreas self.new }
    {
        self.frames.restart(copies);
        self.log.restart(&[]);
        self.output.restart(&[]);
    }

    /// Adds an entry to the log: the old value of `width` bytes from an address on. `false` comes
    /// exactly where the log is full, and then nothing changed.
    pub fn push_undo(&mut self, addr: u32, width: u8, old: u32) -> bool
        requires width { IsWidth width }
        requires few { log_count (bank_pages self.old) ≤ MOST_ENTRIES }
        ensures room { result ≡ nat_lt (log_count (bank_pages self.old)) MOST_ENTRIES }
        ensures full { OnFalse result (self.new ≡ self.old) }
        ensures added { OnTrue result (log_of (bank_pages self.new)
            ≡ record { address = addr; width = width; old = old } ∷ log_of (bank_pages self.old)) }
        ensures others { (index : ℕ) → index < MOST_ENTRIES
            → index ≢ log_count (bank_pages self.old)
            → entry_at (bank_pages self.new) index ≡ entry_at (bank_pages self.old) index }
        ensures rest { self.new ≡ record self.old { log = self.new.log } }
    {
        let count = self.log_len();
        if count == MOST_ENTRIES {
            return false;
        }
        let entry = 4 + ENTRY_SIZE * count;
        self.log.store(entry, 4, addr);
        self.log.store(entry + 4, 4, u32::from(width));
        self.log.store(entry + 8, 4, old);
        self.log.store(0, 4, count + 1);
        true
    }

    /// Puts the old values of the log's entries back into a program's memory, the newest first, and
    /// empties the log. An entry of a width other than 1, 2 and 4 changes nothing, and neither does
    /// one with a byte that is not the program's.
    pub fn undo_into(&mut self, f: &mut Frames)
        requires { log_count (bank_pages self.old) ≤ MOST_ENTRIES }
        ensures pages { f.new.pages ≡ undone (log_of (bank_pages self.old)) f.old.pages }
        ensures marks { MarksGoOn true f.old.pages f.old.dirty f.new.pages f.new.dirty }
        ensures emptied { log_of (bank_pages self.new) ≡ [] }
        ensures last { self.new.last_log_len ≡ log_count (bank_pages self.old) }
        ensures rest { self.new ≡ record self.old {
          log = self.new.log;
          last_log_len = self.new.last_log_len;
        } }
    {
        let count = self.log_len();
        for index in (0..count).rev() {
            self.put_back(index, f);
        }
        self.log.store(0, 4, 0);
        self.last_log_len = count;
    }

    /// Puts the old value of one entry back.
    fn put_back(&self, index: u32, f: &mut Frames)
        requires { index < MOST_ENTRIES }
        ensures pages { f.new.pages ≡ put_back (entry_at (bank_pages self.now) index) f.old.pages }
        ensures marks { MarksGoOn true f.old.pages f.old.dirty f.new.pages f.new.dirty }
    {
        let entry = 4 + ENTRY_SIZE * index;
        let addr = self.log.word(entry);
        let width = self.log.word(entry + 4);
        let old = self.log.word(entry + 8);
        if width == 1 || width == 2 || width == 4 {
            f.store(addr, width as u8, old);
        }
    }

    /// The word at the head of the output: how many words of output there are.
    pub fn out_len(&self) -> u32
        ensures count { result ≡ output_count (bank_pages self.now) }
        ensures kept { AreAreas self.now }
    {
        self.output.word(0)
    }

    /// A word of output; `None` exactly where its number is not below 256.
    pub fn out_word(&self, index: u32) -> Option<u32>
        ensures some { is_some result ≡ nat_lt index MOST_OUTPUT_WORDS }
        ensures word { IfSome result (λ word.
            word ≡ word_at (bank_pages self.now) (OUTPUT_START + 4 + 4 * index)) }
    {
        if index >= MOST_OUTPUT_WORDS {
            return None;
        }
        self.output.load(4 + 4 * index, 4)
    }

    /// How many entries the log has.
    pub fn log_len(&self) -> u32
        ensures count { result ≡ log_count (bank_pages self.now) }
        ensures kept { AreAreas self.now }
    {
        self.log.word(0)
    }

    /// How many entries the last `undo_into` put back; 0 where there was none.
    pub fn last_log_len(&self) -> u32
        ensures { result ≡ self.now.last_log_len }
    {
        self.last_log_len
    }
}

impl Bank {
    /// Tells a proof what holds of every bank, and does nothing.
    #[inline(always)]
    pub(crate) fn known(&self)
        ensures { AreAreas self.now }
    {
        let _ = &self.code;
    }

    /// A load from the area in whose region the address lies.
    #[inline(always)]
    #[tactic(auto, unfolding(crate::specs::Areas::load_from))]
    fn load_from(&self, addr: u32, width: u8) -> Option<u32>
        requires { IsWidth width }
        ensures areas { result ≡ load_from self.now addr width }
        ensures fits { IfSome result (λ n. n < 256 ^ width) }
        ensures kept { AreAreas self.now }
    {
        let offset = addr % REGION;
        match addr / REGION {
            CODE => self.code.load(offset, width),
            FRAMES => self.frames.load(offset, width),
            LOG => self.log.load(offset, width),
            OUTPUT => self.output.load(offset, width),
            _ => None,
        }
    }

    /// A store to the area in whose region the address lies.
    #[inline(always)]
    fn store_to(&mut self, addr: u32, width: u8, value: u32) -> bool
        requires { IsWidth width }
        ensures done { result ≡ is_some (store_to self.old addr width value) }
        ensures areas { self.new ≡ unwrap_or (store_to self.old addr width value) self.old }
        ensures fixed { length self.new.code ≡ length self.old.code }
        ensures kept { AreAreas self.old }
    {
        let offset = addr % REGION;
        match addr / REGION {
            CODE => self.code.store(offset, width, value),
            FRAMES => self.frames.store(offset, width, value),
            LOG => self.log.store(offset, width, value),
            OUTPUT => self.output.store(offset, width, value),
            _ => false,
        }
    }
}

impl Bus for Bank {
    ghost use Rattle.undo_bank.specs.Areas.{bank_pages};

    ghost pages = { bank_pages };

    ghost marked = { λ _. [] };

    ghost is_marking = { λ _. false };

    ghost Fixed = { ℕ };

    ghost fixed = { λ bank. length bank.code };

    #[inline(always)]
    fn load(&self, addr: u32, width: u8) -> Option<u32>
        requires { IsWidth width }
        ensures value { result ≡ load_at (bank_pages self.now) addr width }
        ensures fits { IfSome result (λ n. n < 256 ^ width) }
        ensures areas { result ≡ load_from self.now addr width }
        ensures kept { AreAreas self.now }
    {
        self.load_from(addr, width)
    }

    #[inline(always)]
    fn store(&mut self, addr: u32, width: u8, value: u32) -> bool
        requires { IsWidth width }
        ensures mapped { result ≡ is_some (store_at (bank_pages self.old) addr width value) }
        ensures bytes { bank_pages self.new
            ≡ unwrap_or (store_at (bank_pages self.old) addr width value) (bank_pages self.old) }
        ensures fixed { length self.new.code ≡ length self.old.code }
        ensures done { result ≡ is_some (store_to self.old addr width value) }
        ensures areas { self.new ≡ unwrap_or (store_to self.old addr width value) self.old }
        ensures kept { AreAreas self.old }
    {
        self.store_to(addr, width, value)
    }
}

//! A place in the bytes of a recording, and the fields that are read there.

use crate::fault::{RecCause, RecFault, refused};
use byteorder::{ByteOrder, LittleEndian};
use sl_base::Refused;
use std::marker::Model;

/// A place in a file, and the bytes from there on.
#[derive(Drop)]
pub struct Cursor<'a> {
    place: u64,
    rest: &'a [u8],
}

impl<'a> Model for Cursor<'a> {
    ghost use Rattle.std.specs.Prelude.{◌+◌, ◌≤◌, ◌^◌, length};
    ghost use Rattle.rec_format.specs.Place.{Rest};

    ghost Value = { Rest };

    ghost view = { λ c. record { place = c.place; bytes = c.rest.now } };

    ghost invariant = { λ c. c.place + length c.rest.now ≤ 2 ^ 32 };
}

impl<'a> Cursor<'a> {
    ghost use Rattle.std.specs.Prelude.{◌≡◌, ◌+◌, ◌≤◌, ◌<◌, ◌^◌, length, IfOk, IsTrue, ◌↔◌};
    ghost use Rattle.rec_format.specs.Place.{start};
    ghost use Rattle.rec_format.specs.Sure.{IsSure};
    ghost use Rattle.rec_format.specs.Reading.{Gives, run_at, text_at, word_at, double_word_at, word_up_to, sized_up_to, words_at};

    /// The start of a file.
    pub fn new(bytes: &'a [u8]) -> Cursor<'a>
        requires { length bytes.now ≤ 2 ^ 32 }
        ensures { result ≡ start bytes.now }
    {
        Cursor {
            place: 0,
            rest: bytes,
        }
    }

    /// How many bytes stand before.
    pub fn place(&self) -> u64
        ensures { result ≡ self.now.place }
    {
        self.place
    }

    /// Whether the file has ended.
    pub fn is_at_end(&self) -> bool
        ensures { IsTrue result ↔ (length self.now.bytes ≡ 0) }
    {
        self.rest.is_empty()
    }

    /// So many bytes.
    #[tactic(auto, unfolding(crate::specs::Reading::run_at))]
    pub fn run(&mut self, len: usize) -> Result<&'a [u8], Refused<RecFault>>
        ensures read { Gives (λ run. run.now) result self.new (run_at len self.old) }
        ensures len { IfOk result (λ run. length run.now ≡ len) }
        ensures sure { IsSure result }
    {
        if self.rest.len() < len {
            return Err(refused(self.place, RecCause::Short));
        }
        let (run, rest) = self.rest.split_at(len);
        self.place += len as u64;
        self.rest = rest;
        Ok(run)
    }

    /// These very bytes.
    #[tactic(auto, unfolding(crate::specs::Reading::text_at))]
    pub fn text(&mut self, text: &[u8], cause: RecCause) -> Result<&'a [u8], Refused<RecFault>>
        ensures read { Gives (λ run. run.now) result self.new (text_at text.now cause self.old) }
        ensures sure { IsSure result }
    {
        let place = self.place();
        let run = self.run(text.len())?;
        if run == text {
            Ok(run)
        } else {
            Err(refused(place, cause))
        }
    }

    /// A number of four bytes.
    #[tactic(auto, unfolding(crate::specs::Reading::word_at))]
    pub fn word(&mut self) -> Result<u32, Refused<RecFault>>
        ensures read { Gives (λ n. n) result self.new (word_at self.old) }
        ensures sure { IsSure result }
    {
        let run = self.run(4)?;
        Ok(LittleEndian::read_u32(run))
    }

    /// A number of eight bytes.
    #[tactic(auto, unfolding(crate::specs::Reading::double_word_at))]
    pub fn double_word(&mut self) -> Result<u64, Refused<RecFault>>
        ensures read { Gives (λ n. n) result self.new (double_word_at self.old) }
        ensures sure { IsSure result }
    {
        let run = self.run(8)?;
        Ok(LittleEndian::read_u64(run))
    }

    /// A number of four bytes that is at most `most`.
    #[tactic(auto, unfolding(crate::specs::Reading::word_up_to))]
    pub fn word_up_to(&mut self, most: u32) -> Result<u32, Refused<RecFault>>
        ensures read { Gives (λ n. n) result self.new (word_up_to most self.old) }
        ensures sure { IsSure result }
    {
        let place = self.place();
        let n = self.word()?;
        if n > most {
            return Err(refused(place, RecCause::Range));
        }
        Ok(n)
    }

    /// At most `most` bytes, after their number.
    #[tactic(auto, unfolding(crate::specs::Reading::sized_up_to))]
    pub fn sized_up_to(&mut self, most: u32) -> Result<&'a [u8], Refused<RecFault>>
        ensures read { Gives (λ run. run.now) result self.new (sized_up_to most self.old) }
        ensures sure { IsSure result }
    {
        let len = self.word_up_to(most)?;
        self.run(len as usize)
    }

    /// `N` numbers of four bytes.
    pub fn words<const N: usize>(&mut self) -> Result<[u32; N], Refused<RecFault>>
        ensures read { Gives (λ words. words) result self.new (words_at N self.old) }
        ensures sure { IsSure result }
    {
        let mut words = [0; N];
        for i in 0..N {
            words[i] = self.word()?;
        }
        Ok(words)
    }
}

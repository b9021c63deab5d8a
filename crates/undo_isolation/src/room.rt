//! Room for the record of a tracer.

ghost use Rattle.std.specs.Prelude.{◌≡◌, ◌<◌, ◌≤◌, ◌∷◌, ◌++◌, [], length, IfOk};

use sl_base::{Memory, Seq};
use sl_model::MOST_OUTPUT_WORDS;
use std::alloc::Global;
use std::marker::Model;
use tracer_lang::{Record, TracerEnd};

/// A record of at most 256 words, in room that is taken once. It is seen as the record.
#[derive(Drop)]
pub struct RecordRoom {
    count: u64,
    point: u32,
    pc: u32,
    words: Vec<u32>,
    outcome: TracerEnd,
}

impl Model for RecordRoom {
    ghost use Rattle.std.specs.Prelude.{◌≤◌, length, vec_capacity};
    ghost use Rattle.tracer_lang.specs.declared.record.Record.{Record};
    ghost use Rattle.sl_model.specs.declared.bank.TheConstants.{MOST_OUTPUT_WORDS};

    ghost Value = { Record };

    ghost view = { λ room. record {
      count = room.count;
      point = room.point;
      pc = room.pc;
      words = room.words.items;
      outcome = room.outcome;
    } };

    ghost invariant = { λ room.
        (length room.words.items ≤ MOST_OUTPUT_WORDS) × (MOST_OUTPUT_WORDS ≤ vec_capacity room.words) };
}

impl RecordRoom {
    /// Takes the room. The record has no words, the outcome `Done`, and 0 for every number.
    ///
    /// # Errors
    ///
    /// Want of memory.
    pub fn new(alloc: Global) -> Result<RecordRoom, Memory>
        ensures { IfOk result (λ room. room ≡ record {
          count = 0;
          point = 0;
          pc = 0;
          words = [];
          outcome = TracerEnd.Done;
        }) }
    {
        Ok(RecordRoom {
            count: 0,
            point: 0,
            pc: 0,
            words: Vec::with_capacity(alloc, MOST_OUTPUT_WORDS as usize)?,
            outcome: TracerEnd::Done,
        })
    }

    /// An equal record, which stands alone.
    ///
    /// # Errors
    ///
    /// Want of memory.
    pub fn to_record(&self, alloc: Global) -> Result<Record, Memory>
        ensures { IfOk result (λ left. left ≡ self.now) }
    {
        Ok(Record {
            count: self.count,
            point: self.point,
            pc: self.pc,
            words: Seq::from_vec(Vec::from_slice(alloc, &self.words)?),
            outcome: self.outcome,
        })
    }

    /// Begins a record: its head, and no words yet.
    pub(crate) fn begin(&mut self, count: u64, point: u32, pc: u32, outcome: TracerEnd)
        ensures { self.new ≡ record {
          count = count;
          point = point;
          pc = pc;
          words = [];
          outcome = outcome;
        } }
    {
        self.count = count;
        self.point = point;
        self.pc = pc;
        self.words.clear();
        self.outcome = outcome;
    }

    /// Adds a word at the end.
    pub(crate) fn push(&mut self, word: u32)
        requires { length self.old.words < MOST_OUTPUT_WORDS }
        ensures { self.new ≡ record self.old { words = self.old.words ++ word ∷ [] } }
    {
        self.words.push_reserved(word);
    }
}

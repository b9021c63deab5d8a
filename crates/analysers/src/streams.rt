//! The kinds that are fed one record after the other.

ghost use Rattle.std.specs.Prelude.{◌≡◌, ◌++◌, ◌∷◌, OnOk, IfOk, Some, if◌then◌else◌};
ghost use Rattle.analysers.specs.Streams.{differs, is_above, row_where};

use crate::open_records::OpenRecords;
use crate::record_words::{copy_of, greater, word_at};
use crate::row::Row;
use crate::stream::Stream;
use sl_base::Memory;
use std::alloc::Global;
use tracer_lang::Record;

/// Each record whose word at this place differs from that of the last record before it that had
/// one, and the first that has one. The state is that last word.
#[derive(Clone, Copy, Debug, PartialEq, Eq)]
pub struct Changes {
    pub place: u32,
}

/// Each record whose word at this place is above all earlier ones, and the first that has one. The
/// state is the greatest word so far.
#[derive(Clone, Copy, Debug, PartialEq, Eq)]
pub struct Rising {
    pub place: u32,
}

/// A record of the tracepoint `opens` opens. Any other of the tracepoint `closes` closes the
/// youngest one that is open, and is given where none is open. At the end the open ones are given,
/// oldest first. The state are the open ones.
#[derive(Clone, Copy, Debug, PartialEq, Eq)]
pub struct Open {
    pub opens: u32,
    pub closes: u32,
}

/// Whether there is a word that is not the last one.
fn differs(last: Option<u32>, word: Option<u32>) -> bool
    ensures { result ≡ differs last word }
{
    word.is_some() && word != last
}

/// Whether there is a word above the greatest one.
fn is_above(most: Option<u32>, word: Option<u32>) -> bool
    ensures { result ≡ is_above most word }
{
    match (most, word) {
        (_, None) => false,
        (None, Some(_)) => true,
        (Some(most), Some(word)) => most < word,
    }
}

/// Adds a copy of a record, where it is told.
fn push_where(alloc: Global, is_told: bool, r: &Record, out: &mut Vec<Row>) -> Result<(), Memory>
    ensures { OnOk result (out.new.items ≡ out.old.items ++ row_where is_told r.now) }
{
    if is_told {
        out.push(Row::Of(copy_of(alloc, r)?))?;
    }
    Ok(())
}

impl Stream for Changes {
    type State = Option<u32>;

    ghost use Rattle.std.specs.Prelude.{None, []};
    ghost use Rattle.analysers.specs.Streams.{last_word, changed};

    ghost opening = { λ _. None };

    ghost after = { λ c. last_word c.place };

    ghost told = { λ c. changed c.place };

    ghost rest = { λ _ _. [] };

    fn start(&self, _alloc: Global) -> Result<Option<u32>, Memory> {
        Ok(None)
    }

    fn feed(
        &self,
        alloc: Global,
        s: &mut Option<u32>,
        r: &Record,
        out: &mut Vec<Row>,
    ) -> Result<(), Memory> {
        let word = word_at(self.place, r);
        push_where(alloc, differs(*s, word), r, out)?;
        *s = word.or(*s);
        Ok(())
    }

    fn finish(&self, _s: Option<u32>, _out: &mut Vec<Row>) -> Result<(), Memory> {
        Ok(())
    }
}

impl Stream for Rising {
    type State = Option<u32>;

    ghost use Rattle.std.specs.Prelude.{None, []};
    ghost use Rattle.analysers.specs.Streams.{greatest_word, risen};

    ghost opening = { λ _. None };

    ghost after = { λ c. greatest_word c.place };

    ghost told = { λ c. risen c.place };

    ghost rest = { λ _ _. [] };

    fn start(&self, _alloc: Global) -> Result<Option<u32>, Memory> {
        Ok(None)
    }

    fn feed(
        &self,
        alloc: Global,
        s: &mut Option<u32>,
        r: &Record,
        out: &mut Vec<Row>,
    ) -> Result<(), Memory> {
        let word = word_at(self.place, r);
        push_where(alloc, is_above(*s, word), r, out)?;
        *s = greater(*s, word);
        Ok(())
    }

    fn finish(&self, _s: Option<u32>, _out: &mut Vec<Row>) -> Result<(), Memory> {
        Ok(())
    }
}

impl Stream for Open {
    type State = OpenRecords;

    ghost use Rattle.std.specs.Prelude.{[], map};
    ghost use Rattle.analysers.specs.declared.row.Row.TheVariants.{Of};
    ghost use Rattle.analysers.specs.Streams.{open_after, unopened};

    ghost opening = { λ _. [] };

    ghost after = { λ c. open_after c.opens c.closes };

    ghost told = { λ c. unopened c.opens c.closes };

    ghost rest = { λ _ kept. map Of kept };

    fn start(&self, alloc: Global) -> Result<OpenRecords, Memory> {
        Ok(OpenRecords::new(alloc))
    }

    fn feed(
        &self,
        alloc: Global,
        s: &mut OpenRecords,
        r: &Record,
        out: &mut Vec<Row>,
    ) -> Result<(), Memory> {
        if r.point == self.opens {
            return s.push(copy_of(alloc, r)?);
        }
        let is_unopened = r.point == self.closes && !s.close();
        push_where(alloc, is_unopened, r, out)
    }

    fn finish(&self, s: OpenRecords, out: &mut Vec<Row>) -> Result<(), Memory> {
        s.push_rows(out)
    }
}

//! The rows that an analysis gives of records which stand in pieces, one after the other.

ghost use Rattle.std.specs.Prelude.{◌≡◌, ◌++◌, map, filter, fold, true, None, OnOk, IfOk};
ghost use Rattle.analysers.specs.declared.row.Row.TheVariants.{Of};
ghost use Rattle.analysers.specs.Streams.{told_along, stream_rows};
ghost use Rattle.analysers.specs.Analyses.{analyse, rows_by};
ghost use Rattle.analysers.specs.Pieces.{in_one, tree_in, tree_of};

use crate::class::{Class, class_of};
use crate::folding::{feed_all, push_passing};
use crate::kind::KindOf;
use crate::local::Local;
use crate::row::Row;
use crate::stream::Stream;
use sl_base::{Memory, Seq};
use std::alloc::Global;
use std::mem;
use tracer_lang::Record;

/// Feeds pieces to a stream, and adds the rows that they give.
fn feed_pieces<S: Stream>(
    alloc: Global,
    stream: &S,
    s: &mut S::State,
    pieces: &[Seq<Record>],
    out: &mut Vec<Row>,
) -> Result<(), Memory>
    ensures state { OnOk result (s.new ≡ fold (S.after stream.now) s.old (in_one pieces.now)) }
    ensures rows { OnOk result (out.new.items ≡ out.old.items
        ++ told_along (S.after stream.now) (S.told stream.now) s.old (in_one pieces.now)) }
{
    for piece in pieces {
        feed_all(alloc, stream, s, piece.as_slice(), out)?;
    }
    Ok(())
}

/// Adds all the rows that a stream gives of pieces: it runs on from one to the next.
fn push_stream<S: Stream>(
    alloc: Global,
    stream: &S,
    pieces: &[Seq<Record>],
    out: &mut Vec<Row>,
) -> Result<(), Memory>
    ensures { OnOk result (out.new.items ≡ out.old.items
        ++ stream_rows (S.opening stream.now) (S.after stream.now) (S.told stream.now)
        (S.rest stream.now) (in_one pieces.now)) }
{
    let mut s = stream.start(alloc)?;
    feed_pieces(alloc, stream, &mut s, pieces, out)?;
    stream.finish(s, out)
}

/// Adds a row for each record that passes.
fn push_pieces<L: Local>(
    alloc: Global,
    local: &L,
    pieces: &[Seq<Record>],
    out: &mut Vec<Row>,
) -> Result<(), Memory>
    ensures { OnOk result (out.new.items
        ≡ out.old.items ++ map Of (filter (L.passing local.now) (in_one pieces.now))) }
{
    for piece in pieces {
        push_passing(alloc, local, piece.as_slice(), out)?;
    }
    Ok(())
}

/// Adds a row for each record that passes, which is moved.
fn move_passing<L: Local>(local: &L, records: Vec<Record>, out: &mut Vec<Row>) -> Result<(), Memory>
    ensures { OnOk result (out.new.items
        ≡ out.old.items ++ map Of (filter (L.passing local.now) records.items)) }
{
    for r in records {
        if local.passes(&r) {
            out.push(Row::Of(r))?;
        }
    }
    Ok(())
}

/// The same of pieces.
fn move_pieces<L: Local>(
    local: &L,
    pieces: Vec<Seq<Record>>,
    out: &mut Vec<Row>,
) -> Result<(), Memory>
    ensures { OnOk result (out.new.items
        ≡ out.old.items ++ map Of (filter (L.passing local.now) (in_one pieces.items))) }
{
    for piece in pieces {
        move_passing(local, piece.into_vec(), out)?;
    }
    Ok(())
}

/// Adds the rows of a kind that is worked out from the records themselves. Where they are not
/// needed any more, those that it gives are moved.
fn push_rows(
    alloc: Global,
    class: &Class,
    is_needed: bool,
    pieces: &mut Vec<Seq<Record>>,
    out: &mut Vec<Row>,
) -> Result<(), Memory>
    requires { tree_in class.now ≡ None }
    ensures rows { OnOk result (out.new.items
        ≡ out.old.items ++ rows_by class.now (in_one pieces.old.items)) }
    ensures kept { is_needed ≡ true → pieces.new.items ≡ pieces.old.items }
{
    match class {
        Class::Local(local) => {
            if is_needed {
                push_pieces(alloc, local, pieces, out)
            } else {
                move_pieces(local, mem::replace(pieces, Vec::new(alloc)), out)
            }
        }
        Class::Changes(changes) => push_stream(alloc, changes, pieces, out),
        Class::Rising(rising) => push_stream(alloc, rising, pieces, out),
        Class::Open(open) => push_stream(alloc, open, pieces, out),
        Class::Tree(_) => Ok(()),
    }
}

/// The rows of a kind that is worked out from the records themselves. Where they are not needed any
/// more, those that it gives are moved.
#[tactic(auto, unfolding(crate::specs::Analyses::analyse))]
pub fn piece_rows(
    alloc: Global,
    what: KindOf,
    is_needed: bool,
    pieces: &mut Vec<Seq<Record>>,
) -> Result<Seq<Row>, Memory>
    requires { tree_of what ≡ None }
    ensures rows { IfOk result (λ rows. rows ≡ analyse what (in_one pieces.old.items)) }
    ensures kept { is_needed ≡ true → pieces.new.items ≡ pieces.old.items }
{
    let mut out = Vec::new(alloc);
    push_rows(alloc, &class_of(what), is_needed, pieces, &mut out)?;
    Ok(Seq::from_vec(out))
}

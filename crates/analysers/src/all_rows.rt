//! What all analyses give of records that stand in pieces.

ghost use Rattle.std.specs.Prelude.{◌≡◌, ◌++◌, ◌∷◌, List, true, map, OnOk, IfOk};
ghost use Rattle.std.specs.List.{list_any};
ghost use Rattle.tracer_lang.specs.declared.record.Record.{Record as Left};
ghost use Rattle.analysers.specs.declared.part.Part.{Part as Joined};
ghost use Rattle.analysers.specs.Analyses.{part_rows, analyse};
ghost use Rattle.analysers.specs.Pieces.{reads_records, own_part, parts_of, in_one, rows_of, merged_of};

use crate::analysis::push_part;
use crate::class::tree_of;
use crate::joining::join_pieces;
use crate::kind::Kind;
use crate::merged::Merged;
use crate::part::Part;
use crate::piece_rows::piece_rows;
use crate::row::Row;
use sl_base::{Memory, Seq};
use std::alloc::Global;
use std::collections::VecDeque;
use tracer_lang::Record;

/// Whether a kind among these is worked out from the records themselves.
fn reads_records(kinds: &[Kind]) -> bool
    ensures { result ≡ list_any reads_records kinds.now }
{
    for kind in kinds {
        if tree_of(kind.what).is_none() {
            return true;
        }
    }
    false
}

/// The rows of the first part, which is taken.
fn first_rows(alloc: Global, parts: &mut VecDeque<Part>) -> Result<Seq<Row>, Memory>
    ensures rows { IfOk result (λ rows. (first : Joined) (rest : List Joined)
        → parts.old.items ≡ first ∷ rest → rows ≡ part_rows first) }
    ensures rest { (first : Joined) (rest : List Joined)
        → parts.old.items ≡ first ∷ rest → parts.new.items ≡ rest }
{
    let mut out = Vec::new(alloc);
    if let Some(part) = parts.pop_front() {
        push_part(part, &mut out)?;
    }
    Ok(Seq::from_vec(out))
}

/// The rows of a kind. Its part comes first among the parts, where it has one, and is taken.
fn kind_rows(
    alloc: Global,
    kind: &Kind,
    is_needed: bool,
    pieces: &mut Vec<Seq<Record>>,
    parts: &mut VecDeque<Part>,
) -> Result<Seq<Row>, Memory>
    ensures rows { (rs : List Left) (rest : List Joined)
        → parts.old.items ≡ own_part rs kind.now ++ rest
        → (reads_records kind.now ≡ true → in_one pieces.old.items ≡ rs)
        → IfOk result (λ rows. rows ≡ analyse kind.now.what rs) }
    ensures rest { (rs : List Left) (rest : List Joined)
        → parts.old.items ≡ own_part rs kind.now ++ rest → OnOk result (parts.new.items ≡ rest) }
    ensures kept { is_needed ≡ true → OnOk result (pieces.new.items ≡ pieces.old.items) }
{
    match tree_of(kind.what) {
        Some(_) => first_rows(alloc, parts),
        None => piece_rows(alloc, kind.what, is_needed, pieces),
    }
}

/// The rows of each kind, from the pieces and from the parts of all records.
fn each_rows(
    alloc: Global,
    kinds: &[Kind],
    mut pieces: Vec<Seq<Record>>,
    parts: Seq<Part>,
) -> Result<Vec<Seq<Row>>, Memory>
    requires { parts ≡ parts_of kinds.now (in_one pieces.items) }
    ensures { IfOk result (λ rows. rows.items ≡ rows_of kinds.now (in_one pieces.items)) }
{
    let mut parts = VecDeque::from_vec(parts.into_vec());
    let mut rows = Vec::new(alloc);
    for (i, kind) in kinds.iter().enumerate() {
        let is_needed = reads_records(&kinds[i + 1..]);
        rows.push(kind_rows(alloc, kind, is_needed, &mut pieces, &mut parts)?)?;
    }
    Ok(rows)
}

/// What each analysis gives of all records, from the pieces in which they stand and from the parts
/// that each piece made. A tree kind joins the parts and looks at no record. A record is copied
/// where more than one row has it, and else moved.
pub fn merge_pieces(
    alloc: Global,
    kinds: &[Kind],
    pieces: Vec<Seq<Record>>,
    parts: Vec<Seq<Part>>,
) -> Result<Merged, Memory>
    requires { parts.items ≡ map (parts_of kinds.now) pieces.items }
    ensures { IfOk result (λ merged. merged ≡ merged_of kinds.now (in_one pieces.items)) }
{
    let parts = join_pieces(alloc, kinds, parts)?;
    let rows = each_rows(alloc, kinds, pieces, parts)?;
    Ok(Merged {
        rows: Seq::from_vec(rows),
    })
}

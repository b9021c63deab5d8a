//! The parts that the tree kinds make of records, and how those of pieces are joined.

ghost use Rattle.std.specs.Prelude.{◌≡◌, List, map, All, IfOk};
ghost use Rattle.tracer_lang.specs.declared.record.Record.{Record as Left};
ghost use Rattle.analysers.specs.Parts.{IsSound};
ghost use Rattle.analysers.specs.Pieces.{parts_of, join_each, in_one};

use crate::class::tree_of;
use crate::folding::fold_records;
use crate::kind::Kind;
use crate::part::Part;
use crate::trees::join_parts;
use sl_base::{Memory, Seq};
use std::alloc::Global;
use tracer_lang::Record;

/// The parts that records make: one for each tree kind, in the order of the kinds.
#[tactic(auto, unfolding(crate::specs::Pieces::parts_of))]
pub fn parts_of(alloc: Global, kinds: &[Kind], records: &[Record]) -> Result<Seq<Part>, Memory>
    ensures { IfOk result (λ parts. parts ≡ parts_of kinds.now records.now) }
{
    let mut parts = Vec::new(alloc);
    for kind in kinds {
        if let Some(tree) = tree_of(kind.what) {
            parts.push(fold_records(alloc, &tree, records)?)?;
        }
    }
    Ok(Seq::from_vec(parts))
}

/// The parts of two lists of records together, from those of each.
fn join_each(alloc: Global, left: Seq<Part>, right: Seq<Part>) -> Result<Seq<Part>, Memory>
    requires left { All IsSound left }
    requires right { All IsSound right }
    ensures { IfOk result (λ parts. parts ≡ join_each left right) }
{
    let mut parts = Vec::new(alloc);
    for (a, b) in left.into_vec().into_iter().zip(right.into_vec()) {
        parts.push(join_parts(alloc, a, b)?)?;
    }
    Ok(Seq::from_vec(parts))
}

/// The parts of all records, from those of pieces that stand one after the other. It joins halves,
/// so that each piece is in few joins.
pub fn join_pieces(
    alloc: Global,
    kinds: &[Kind],
    mut lists: Vec<Seq<Part>>,
) -> Result<Seq<Part>, Memory>
    requires { (pieces : List (List Left)) × (lists.items ≡ map (parts_of kinds.now) pieces) }
    ensures { (pieces : List (List Left)) → lists.items ≡ map (parts_of kinds.now) pieces
        → IfOk result (λ parts. parts ≡ parts_of kinds.now (in_one pieces)) }
{
    if lists.len() > 1 {
        let back = lists.split_off(lists.len() / 2)?;
        let left = join_pieces(alloc, kinds, lists)?;
        let right = join_pieces(alloc, kinds, back)?;
        return join_each(alloc, left, right);
    }
    match lists.pop() {
        Some(parts) => Ok(parts),
        None => parts_of(alloc, kinds, &[]),
    }
}

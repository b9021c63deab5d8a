//! What analyses of each class give of a list of records.

ghost use Rattle.std.specs.Prelude.{◌≡◌, ◌++◌, map, filter, fold, All, OnOk, IfOk};
ghost use Rattle.analysers.specs.declared.row.Row.TheVariants.{Of};
ghost use Rattle.analysers.specs.Parts.{folded};
ghost use Rattle.analysers.specs.Streams.{told_along, stream_rows};

use crate::local::Local;
use crate::record_words::copy_of;
use crate::row::Row;
use crate::stream::Stream;
use crate::tree::Tree;
use sl_base::Memory;
use std::alloc::Global;
use tracer_lang::Record;

/// Adds a row for each record that passes.
pub fn push_passing<L: Local>(
    alloc: Global,
    local: &L,
    records: &[Record],
    out: &mut Vec<Row>,
) -> Result<(), Memory>
    ensures { OnOk result (out.new.items
        ≡ out.old.items ++ map Of (filter (L.passing local.now) records.now)) }
{
    for r in records {
        if local.passes(r) {
            out.push(Row::Of(copy_of(alloc, r)?))?;
        }
    }
    Ok(())
}

/// Feeds records to a stream, and adds the rows that they give.
pub fn feed_all<S: Stream>(
    alloc: Global,
    stream: &S,
    s: &mut S::State,
    records: &[Record],
    out: &mut Vec<Row>,
) -> Result<(), Memory>
    ensures state { OnOk result (s.new ≡ fold (S.after stream.now) s.old records.now) }
    ensures rows { OnOk result (out.new.items ≡ out.old.items
        ++ told_along (S.after stream.now) (S.told stream.now) s.old records.now) }
{
    for r in records {
        stream.feed(alloc, s, r, out)?;
    }
    Ok(())
}

/// Adds all the rows that a stream gives of records.
pub fn push_stream<S: Stream>(
    alloc: Global,
    stream: &S,
    records: &[Record],
    out: &mut Vec<Row>,
) -> Result<(), Memory>
    ensures { OnOk result (out.new.items ≡ out.old.items
        ++ stream_rows (S.opening stream.now) (S.after stream.now) (S.told stream.now)
        (S.rest stream.now) records.now) }
{
    let mut s = stream.start(alloc)?;
    feed_all(alloc, stream, &mut s, records, out)?;
    stream.finish(s, out)
}

/// The value of records: the left fold of their leaves from the unit. It joins halves, so that each
/// record is in few joins.
pub fn fold_records<T: Tree>(
    alloc: Global,
    tree: &T,
    records: &[Record],
) -> Result<T::Value, Memory>
    ensures fold { IfOk result (λ v. v
        ≡ folded (T.empty tree.now) (T.single tree.now) (T.joined tree.now) records.now) }
    ensures fits { IfOk result (T.fits tree.now) }
{
    match records {
        [] => tree.unit(alloc),
        [r] => tree.leaf(alloc, r),
        _ => {
            let (front, back) = records.split_at(records.len() / 2);
            let left = fold_records(alloc, tree, front)?;
            let right = fold_records(alloc, tree, back)?;
            tree.join(alloc, left, right)
        }
    }
}

/// The value of all the values of lists that stand one after the other: their left fold from the
/// unit. It joins halves.
pub fn join_values<T: Tree>(
    alloc: Global,
    tree: &T,
    mut values: Vec<T::Value>,
) -> Result<T::Value, Memory>
    requires { All (T.fits tree.now) values.items }
    ensures fold { IfOk result (λ v. v
        ≡ fold (T.joined tree.now) (T.empty tree.now) values.items) }
    ensures fits { IfOk result (T.fits tree.now) }
{
    if values.len() > 1 {
        let back = values.split_off(values.len() / 2)?;
        let left = join_values(alloc, tree, values)?;
        let right = join_values(alloc, tree, back)?;
        return tree.join(alloc, left, right);
    }
    match values.pop() {
        Some(value) => Ok(value),
        None => tree.unit(alloc),
    }
}

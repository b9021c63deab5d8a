//! Words with the numbers of their records, rising.

ghost use Rattle.std.specs.Prelude.{◌≡◌, IfOk};
ghost use Rattle.analysers.specs.Bins.{IsRising, join_bins};

use crate::part::Bin;
use sl_base::{Memory, Seq};
use std::alloc::Global;

/// The bins of both, rising. It takes one step for each bin.
pub fn merge_bins(alloc: Global, left: Seq<Bin>, right: Seq<Bin>) -> Result<Seq<Bin>, Memory>
    requires left { IsRising left }
    requires right { IsRising right }
    ensures { IfOk result (λ bins. bins ≡ join_bins left right) }
{
    let (left, right) = (left.as_slice(), right.as_slice());
    let mut bins = Vec::new(alloc);
    let (mut i, mut j) = (0, 0);
    while i < left.len() && j < right.len() {
        let (a, b) = (left[i], right[j]);
        if a.value < b.value {
            bins.push(a)?;
            i += 1;
        } else if b.value < a.value {
            bins.push(b)?;
            j += 1;
        } else {
            let count = a.count.wrapping_add(b.count);
            bins.push(Bin {
                value: a.value,
                count,
            })?;
            i += 1;
            j += 1;
        }
    }
    bins.extend_from_slice(&left[i..])?;
    bins.extend_from_slice(&right[j..])?;
    Ok(Seq::from_vec(bins))
}

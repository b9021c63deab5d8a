ghost use Rattle.std.specs.Prelude.{◌≡◌, List, All, length};
ghost use Rattle.epoch_core.specs.declared.post.PostValue.{PostValue as Value};
ghost use Rattle.epoch_core.specs.Posts.{Posted, HasParts};
ghost use Rattle.sl_base.specs.Refusals.{Tells};
ghost use Rattle.ordered_merge.specs.Merged.{merged};

use crate::least::least_break;
use crate::ordering::{by_epoch, left_by};
use analysers::{Kind, Merged, merge_pieces};
use call_log::Break;
use epoch_core::Post;
use sl_base::Refused;
use std::alloc::Global;

/// What analyses give of the records of so many epochs in their order, from one post for each
/// epoch. The posts may stand in any order.
///
/// # Errors
///
/// The first break of the least epoch that broke, whatever was skipped above it; or want of memory.
pub fn merge(
    alloc: Global,
    kinds: &[Kind],
    epochs: u32,
    posts: Vec<Post>,
) -> Result<Merged, Refused<Break>>
    // Each epoch has its one post, whatever the epochs came to, and one that ran has the parts of
    // these kinds.
    requires { (values : List Value) × (length values ≡ epochs) × Posted values posts.items
        × All (HasParts kinds.now) values }

    // What the epochs came to decides the answer; the order of the posts and what was skipped do
    // not.
    ensures { (values : List Value) → length values ≡ epochs → Posted values posts.items
        → Tells result (merged kinds.now values) }
{
    if let Some(broken) = least_break(&posts) {
        return Err(Refused::Fault(broken.first));
    }
    let values = by_epoch(alloc, epochs, posts)?;
    let left = left_by(alloc, values)?;
    Ok(merge_pieces(alloc, kinds, left.records, left.parts)?)
}

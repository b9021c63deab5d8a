//! What each epoch came to, in the order of the epochs.

ghost use Rattle.std.specs.Prelude.{◌≡◌, ◌<◌, replicate, All, IfOk};
ghost use Rattle.std.specs.List.{filter_map};
ghost use Rattle.epoch_core.specs.declared.post.PostValue.TheVariants.{Skipped};
ghost use Rattle.ordered_merge.specs.Ordered.{in_order, ran_records, ran_parts};

use analysers::Part;
use epoch_core::{Post, PostValue};
use sl_base::{Memory, Seq};
use std::alloc::Global;
use tracer_lang::Record;

/// A value that has nothing, for each of so many epochs.
fn no_values(alloc: Global, epochs: u32) -> Result<Vec<PostValue>, Memory>
    ensures { IfOk result (λ values. values.items ≡ replicate epochs (Skipped 0)) }
{
    let mut values = Vec::new(alloc);
    for _ in 0..epochs {
        values.push(PostValue::Skipped { below: 0 })?;
    }
    Ok(values)
}

/// What each epoch came to, at the place of its number.
pub fn by_epoch(alloc: Global, epochs: u32, posts: Vec<Post>) -> Result<Vec<PostValue>, Memory>
    requires { All (λ post. post.epoch < epochs) posts.items }
    ensures { IfOk result (λ values. values.items ≡ in_order epochs posts.items) }
{
    let mut values = no_values(alloc, epochs)?;
    for post in posts {
        values[post.epoch as usize] = post.value;
    }
    Ok(values)
}

/// What the epochs that ran left.
#[derive(Drop)]
pub struct Left {
    /// The records of each.
    pub records: Vec<Seq<Record>>,
    /// The parts of each.
    pub parts: Vec<Seq<Part>>,
}

/// What the epochs that ran left, epoch by epoch.
pub fn left_by(alloc: Global, values: Vec<PostValue>) -> Result<Left, Memory>
    ensures records { IfOk result (λ left. left.records.items
        ≡ filter_map ran_records values.items) }
    ensures parts { IfOk result (λ left. left.parts.items ≡ filter_map ran_parts values.items) }
{
    let mut left = Left {
        records: Vec::new(alloc),
        parts: Vec::new(alloc),
    };
    for value in values {
        match value {
            PostValue::Ran { records, parts } => {
                left.records.push(records)?;
                left.parts.push(parts)?;
            }
            PostValue::Broke(_) | PostValue::Skipped { .. } => {}
        }
    }
    Ok(left)
}

//! The least epoch that broke.

ghost use Rattle.std.specs.Prelude.{◌≡◌};
ghost use Rattle.ordered_merge.specs.Least.{lesser, IsLeast};

use call_log::Break;
use epoch_core::{Post, PostValue};

/// An epoch that broke.
#[derive(Clone, Copy, Debug, PartialEq, Eq)]
pub struct BrokenEpoch {
    /// The epoch's number.
    pub epoch: u32,
    /// Its first break.
    pub first: Break,
}

/// The lesser of an epoch that broke and that of a post, where it broke.
fn lesser(least: Option<BrokenEpoch>, post: &Post) -> Option<BrokenEpoch>
    ensures { result ≡ lesser least post.now }
{
    let PostValue::Broke(first) = &post.value else {
        return least;
    };
    match least {
        Some(broken) if broken.epoch <= post.epoch => least,
        _ => Some(BrokenEpoch {
            epoch: post.epoch,
            first: *first,
        }),
    }
}

/// The least epoch whose post says that it broke.
pub fn least_break(posts: &[Post]) -> Option<BrokenEpoch>
    ensures { IsLeast posts.now result }
{
    let mut least = None;
    for post in posts {
        least = lesser(least, post);
    }
    least
}

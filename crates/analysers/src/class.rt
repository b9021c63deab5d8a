//! How each kind is worked out.

ghost use Rattle.std.specs.Prelude.{◌≡◌};
ghost use Rattle.analysers.specs.Analyses.{class_of};
ghost use Rattle.analysers.specs.Pieces.{tree_of};

use crate::kind::KindOf;
use crate::local::LocalKind;
use crate::streams::{Changes, Open, Rising};
use crate::trees::TreeKind;

/// A kind, by the way in which it is worked out.
#[derive(Clone, Copy, Debug, PartialEq, Eq)]
pub enum Class {
    /// Each record by itself.
    Local(LocalKind),
    /// One record after the other.
    Changes(Changes),
    /// One record after the other.
    Rising(Rising),
    /// One record after the other.
    Open(Open),
    /// In parts that are joined.
    Tree(TreeKind),
}

/// How a kind is worked out.
pub fn class_of(what: KindOf) -> Class
    ensures { result ≡ class_of what }
{
    match what {
        KindOf::All => Class::Local(LocalKind::All),
        KindOf::Done => Class::Local(LocalKind::Done),
        KindOf::Point(point) => Class::Local(LocalKind::Point(point)),
        KindOf::Word { place, value } => Class::Local(LocalKind::Word { place, value }),
        KindOf::Changes(place) => Class::Changes(Changes { place }),
        KindOf::Rising(place) => Class::Rising(Rising { place }),
        KindOf::Open { opens, closes } => Class::Open(Open { opens, closes }),
        KindOf::Count => Class::Tree(TreeKind::Count),
        KindOf::Sum(place) => Class::Tree(TreeKind::Sum(place)),
        KindOf::Least(place) => Class::Tree(TreeKind::Least(place)),
        KindOf::Greatest(place) => Class::Tree(TreeKind::Greatest(place)),
        KindOf::Hist(place) => Class::Tree(TreeKind::Hist(place)),
        KindOf::First => Class::Tree(TreeKind::First),
        KindOf::Last => Class::Tree(TreeKind::Last),
    }
}

/// The tree of a kind that is worked out in parts.
pub fn tree_of(what: KindOf) -> Option<TreeKind>
    ensures { result ≡ tree_of what }
{
    match class_of(what) {
        Class::Local(_) | Class::Changes(_) | Class::Rising(_) | Class::Open(_) => None,
        Class::Tree(tree) => Some(tree),
    }
}

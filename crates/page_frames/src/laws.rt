//! Laws of the definitions, each the contract of a function that does nothing.

ghost use Rattle.page_frames.specs.DirtyWalk.{WalkIsList};

/// A walk by `next_dirty` from the start gives each dirty page once, in the order of marking, and
/// then ends.
pub fn walk_gives_each_dirty_page_once()
    ensures { WalkIsList }
{}

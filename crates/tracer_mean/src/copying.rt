//! Copies of a machine and its memory.

ghost use Rattle.std.specs.Prelude.{◌≡◌, [], IfOk};

use page_frames::Frames;
use rv_machine::Machine;
use sl_base::Memory;
use std::alloc::Global;

/// A copy of a machine and of its memory, in which no page is dirty.
///
/// # Errors
///
/// Want of memory.
pub fn copy_of(alloc: Global, m: &Machine, f: &Frames) -> Result<(Machine, Frames), Memory>
    ensures machine { IfOk result (λ copy. copy.0 ≡ m.now) }
    ensures pages { IfOk result (λ copy. copy.1.pages ≡ f.now.pages) }
    ensures clean { IfOk result (λ copy. copy.1.dirty ≡ []) }
{
    let mut frames = Frames::new(alloc)?;
    frames.copy_from(f)?;
    Ok((*m, frames))
}

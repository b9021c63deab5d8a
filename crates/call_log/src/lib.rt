//! What a recording keeps of a run beside its checkpoints: the answered system calls and how the
//! run ended. And what a replay tells where it first differs from the recording, and where a
//! recorded call first does.
#![tactic(auto)]

mod ask;
mod breaks;
mod difference;
mod entry;
pub mod part;

pub use ask::{Ask, CallDiff};
pub use breaks::{Break, BreakKind};
pub use difference::first_difference;
pub use entry::{CallEntry, End};
pub use sl_base::Call;

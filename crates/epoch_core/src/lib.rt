//! Epochs that workers claim, run and post, over every schedule of their actions.
#![tactic(auto)]

mod event;
mod laws;
mod machine;
mod post;
mod runs;
mod schedule;
mod seat;

pub use event::CoreEvent;
pub use laws::posts_are_whole;
pub use post::{Post, PostValue};
pub use runs::Runs;
pub use schedule::run_schedule;

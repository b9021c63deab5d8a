//! The run of a recorded program.
#![tactic(auto)]

mod advancing;
mod answering;
mod asking;
mod copying;
mod ending;
mod heap;
mod laws;
mod loading;
mod stack;

pub use advancing::advance_one;
pub use answering::{apply, exit};
pub use asking::{ask, call_of, is_exit};
pub use ending::end_break;
pub use laws::{programs_open, replays_keep_the_layout, replays_lead_to_states};
pub use loading::load;

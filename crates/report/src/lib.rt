//! How commands end, the line that says so, and the report of a run.
#![tactic(auto)]

mod fault_line;
mod laws;
mod lines;
mod run_end;
mod status;
mod table;
mod text;

pub use fault_line::write_fault;
pub use laws::reports_are_tables;
pub use run_end::{RunEnd, recorded_end};
pub use status::{Refusal, Status};
pub use text::{checked_text, recorded_text, report_text};

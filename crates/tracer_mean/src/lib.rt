//! What tracers do where they fire, on private copies of the machine and its memory.
#![tactic(auto)]

mod copying;
mod laws;
mod progress;
mod running;
#[cfg(test)]
mod tests;
mod tracer;

pub use copying::copy_of;
pub use laws::records_stand_apart;
pub use running::run_on_copy;

//! The outside of a command as traits, in memory and as the process has it: stores of files, outputs,
//! worlds that answer system calls, and gates that hold claims up.
#![tactic(auto)]

mod file_list;
mod file_store;
mod gate;
mod laws;
mod memory_sink;
mod memory_store;
mod memory_world;
mod planned_faults;
mod retried;
mod sink;
mod std_sink;
mod std_world;
mod store;
mod sure;
#[cfg(test)]
mod tests;
mod world;

pub use file_store::FileStore;
pub use gate::{Gate, NoGate};
pub use laws::{processes_write_in_order, replies_come_in_order};
pub use memory_sink::MemorySink;
pub use memory_store::MemoryStore;
pub use memory_world::MemoryWorld;
pub use sink::{Sink, SinkFailed, write_all};
pub use std_sink::StdSink;
pub use std_world::StdWorld;
pub use store::{GetFault, PutFault, Store};
pub use sure::{SureSink, SureStore};
pub use world::{FAILURE, Reply, World};

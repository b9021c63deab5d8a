//! Commands over stores in memory, with outputs that were worked by hand.

mod assembled;
mod epochs;
mod failing_calls;
mod generates;
mod laws;
mod recorded;
mod recordings;
mod refusals;
mod running;
mod workers;

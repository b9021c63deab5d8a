//! By what is done with epochs.

mod boards;
mod cuts;
mod merging;
mod schedules;
mod workers;

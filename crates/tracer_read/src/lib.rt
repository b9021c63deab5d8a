//! Reads tracer scripts: the tree of a text, or its first fault.
#![tactic(auto)]

mod context;
mod draft;
mod expressions;
mod heads;
mod laws;
mod numbers;
mod parts;
mod reading;
mod scripts;
mod statements;

pub use laws::{
    each_list_stays, each_statement_stays, first_fault_is_told, one_reading, reads_what_is_spelled,
    spells_what_is_read,
};
pub use reading::read_script;

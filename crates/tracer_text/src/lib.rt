//! The text of tracer scripts: its tokens, the first fault of its form, and its nodes.
#![tactic(auto)]

mod fault;
mod laws;
mod node;
mod pass;
mod token;

pub use fault::{ScriptCause, ScriptFault};
pub use laws::tokens_are_longest_runs;
pub use node::{Node, Nodes, nodes_of};
pub use pass::first_pass;
pub use token::Token;

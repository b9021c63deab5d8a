//! Tracers: scripts as trees, and what a tracer leaves where it fires.
#![tactic(auto)]

mod laws;
mod record;
mod script;
mod tree;

pub use laws::loops_unfold;
pub use record::{Record, TracerEnd};
pub use script::Script;
pub use tree::{Args, Block, Expr, Function, Operator, Point, Stmt, Tracepoint};

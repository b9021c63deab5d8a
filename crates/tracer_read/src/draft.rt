//! What is read of a script so far.

use sl_base::Seq;
use tracer_lang::{Function, Tracepoint};
use tracer_text::Token;

/// The lists of the top level that are read.
#[derive(Drop)]
pub struct Draft {
    /// The budget, if it is named.
    pub budget: Option<u32>,
    /// The names of the functions.
    pub names: Vec<Token>,
    /// The functions.
    pub functions: Seq<Function>,
    /// The tracepoints.
    pub tracepoints: Seq<Tracepoint>,
}

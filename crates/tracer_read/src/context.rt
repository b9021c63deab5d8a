//! What is the same for all of a script.

ghost use Rattle.std.specs.Prelude.{◌<◌, ◌^◌, length};

use sl_base::Symbol;
use tracer_text::{Nodes, Token};

/// A function that may be called.
#[derive(Clone, Copy)]
pub struct Signature<'a> {
    /// Its name.
    pub name: Token,
    /// Its parameters.
    pub parameters: &'a Nodes,
}

/// What a script's parts are read with.
#[derive(Drop)]
pub struct Context<'a> {
    /// The script's text.
    pub text: &'a [u8],
    /// The symbols of the program.
    pub symbols: &'a [Symbol],
    /// The functions of the script, in order.
    pub functions: &'a [Signature<'a>],
    ghost few: { length functions.now < 2 ^ 32 },
}

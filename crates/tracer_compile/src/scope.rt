//! What code of a body is made with.

ghost use Rattle.std.specs.Prelude.{◌≡◌, length};

use tracer_lang::Function;

/// What code of a body is made with.
#[derive(Clone, Copy)]
pub(crate) struct Scope<'a> {
    /// The functions of the script.
    pub(crate) functions: &'a [Function],
    /// The addresses of their code.
    pub(crate) addresses: &'a [u32],
    /// How many locals the body has.
    pub(crate) locals: u32,
    ghost addressed: { length addresses.now ≡ length functions.now },
}

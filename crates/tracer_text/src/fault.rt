//! Why a text is no script.

use thiserror::Error;

/// A rule of scripts that a text breaks.
#[derive(Clone, Copy, Debug, PartialEq, Eq, Error)]
pub enum ScriptCause {
    /// A byte outside comments can stand in no token.
    #[error("Byte")]
    Byte,
    /// A parenthesis has no partner.
    #[error("Paren")]
    Paren,
    /// A list or a token is no form of its place.
    #[error("Form")]
    Form,
    /// A local, a parameter or a function isn't there.
    #[error("Name unknown")]
    NameUnknown,
    /// A name is given a second time.
    #[error("Name doubled")]
    NameDoubled,
    /// A list has the wrong number of parts.
    #[error("Arity")]
    Arity,
    /// A number is malformed, or out of the range of its place.
    #[error("Number")]
    Number,
    /// A symbol isn't there.
    #[error("Symbol unknown")]
    SymbolUnknown,
    /// The text, its tracepoints or the locals of a body are too many.
    #[error("Too large")]
    TooLarge,
    /// Too many lists are open.
    #[error("Too deep")]
    TooDeep,
}

/// The first fault of a text that is no script.
#[derive(Clone, Copy, Debug, PartialEq, Eq, Error)]
#[error("{cause} at {place}")]
pub struct ScriptFault {
    /// The offset at which the fault is told.
    pub place: u32,
    /// The rule that is broken there.
    pub cause: ScriptCause,
}

//! Why bytes are no recording, and why a recording is not written.

ghost use Rattle.std.specs.Prelude.{◌≡◌};
ghost use Rattle.sl_base.specs.declared.refused.Refused.TheVariants.{Fault};

use sl_base::Refused;
use thiserror::Error;

/// A rule of the format that bytes break.
#[derive(Clone, Copy, Debug, PartialEq, Eq, Error)]
pub enum RecCause {
    /// A field passes the end of the bytes.
    #[error("Short")]
    Short,
    /// The bytes don't begin with the format's name.
    #[error("Magic")]
    Magic,
    /// The version is not 1.
    #[error("Version")]
    Version,
    /// A count or a page number is not above the one before.
    #[error("Order")]
    Order,
    /// A number is outside the range of its field.
    #[error("Range")]
    Range,
    /// A checkpoint lists a page twice.
    #[error("Page repeated")]
    PageRepeated,
    /// A page is listed with the bytes of its last listing before.
    #[error("Unneeded page")]
    UnneededPage,
    /// Bytes stand after the recording.
    #[error("Trailing")]
    Trailing,
    /// There are more bytes than a recording may have.
    #[error("Too large")]
    TooLarge,
}

/// The first fault of bytes that are no recording.
#[derive(Clone, Copy, Debug, PartialEq, Eq, Error)]
#[error("{cause} at {place}")]
pub struct RecFault {
    /// The place of the field with the fault, in bytes from the start.
    pub place: u64,
    /// The rule that is broken there.
    pub cause: RecCause,
}

/// A recording would have more bytes than a recording may have.
#[derive(Clone, Copy, Debug, PartialEq, Eq, Error)]
#[error("a recording of {length} bytes is too large")]
pub struct TooLarge {
    /// How many bytes it would have.
    pub length: u64,
}

/// The refusal with this fault.
pub fn refused(place: u64, cause: RecCause) -> Refused<RecFault>
    ensures { result ≡ Fault (record { place = place; cause = cause }) }
{
    Refused::Fault(RecFault { place, cause })
}

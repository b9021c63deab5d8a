//! Single reads and writes, tried again where a signal interrupts them.

ghost use Rattle.std.specs.Prelude.{◌≢◌, ◌≤◌, IfErr, IfOk, length};
ghost use Rattle.std.specs.IoError.{error_kind};

use std::io::{Error, ErrorKind, Read, Result, Write};

/// The error after as many interruptions as no run sees.
fn too_often() -> Error
    ensures { error_kind result ≢ ErrorKind.Interrupted }
{
    Error::from(ErrorKind::TimedOut)
}

/// One read, which may give fewer bytes than there is room.
pub fn read_once<R: Read>(reader: &mut R, room: &mut [u8]) -> Result<usize>
    ensures count { IfOk result (λ count. count ≤ length room.new) }
    ensures retried { IfErr result (λ error. error_kind error ≢ ErrorKind.Interrupted) }
{
    for _ in 0..u64::MAX {
        match reader.read(room) {
            Err(error) if error.kind() == ErrorKind::Interrupted => {}
            other => return other,
        }
    }
    Err(too_often())
}

/// One write, which may take fewer bytes than the piece has.
pub fn write_once<W: Write>(writer: &mut W, piece: &[u8]) -> Result<usize>
    ensures count { IfOk result (λ count. count ≤ length piece.now) }
    ensures retried { IfErr result (λ error. error_kind error ≢ ErrorKind.Interrupted) }
{
    for _ in 0..u64::MAX {
        match writer.write(piece) {
            Err(error) if error.kind() == ErrorKind::Interrupted => {}
            other => return other,
        }
    }
    Err(too_often())
}

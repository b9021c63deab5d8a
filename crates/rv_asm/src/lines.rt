//! The lines of a source.

ghost use Rattle.std.specs.Prelude.{◌≡◌, ◌<◌, ◌≤◌, ◌∷◌, length};
ghost use Rattle.std.specs.Str.Lines.{lines, strip_carriage_return};

use memchr::memchr;

/// Less the one CR at its end, if it has one.
fn without_carriage_return(line: &[u8]) -> &[u8]
    ensures value { result.now ≡ strip_carriage_return line.now }
    ensures within { length result.now ≤ length line.now }
{
    match line {
        [front @ .., b'\r'] => front,
        _ => line,
    }
}

/// The first line, and what stands behind its end. A CR before its LF is dropped, and the last LF
/// may be missing.
pub fn first_line(source: &[u8]) -> (&[u8], &[u8])
    requires { 0 < length source.now }
    ensures lines { lines source.now ≡ result.0.now ∷ lines result.1.now }
    ensures line { length result.0.now ≤ length source.now }
    ensures after { length result.1.now < length source.now }
{
    match memchr(b'\n', source) {
        Some(end) => (without_carriage_return(&source[..end]), &source[end + 1..]),
        None => (source, &[]),
    }
}

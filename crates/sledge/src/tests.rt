//! Lines that go out whole.

use crate::line_sink::LineSink;
use outside::{MemorySink, Sink, write_all};
use std::test::Fail;

/// A line of three pieces is one write: the second would fail.
#[test]
fn one_write_a_line(rt: HostRuntime) -> Result<(), Fail> {
    let alloc = rt.alloc();
    let below = MemorySink::new(alloc, 40, vec![in alloc; 2]?)?;
    let mut line = LineSink::new(below);
    for piece in ["sledge: ", "usage", "\n"] {
        assert!(rt; write_all(&mut line, piece.as_bytes()).is_ok());
    }
    assert!(rt; line.send().is_ok());
    assert_eq!(rt; line.under().bytes(), b"sledge: usage\n".as_slice());
    Ok(())
}

/// What is longer than the room goes out in pieces of it, and after a failure what is left can
/// be sent once more.
#[test]
fn longer_lines(rt: HostRuntime) -> Result<(), Fail> {
    let alloc = rt.alloc();
    let below = MemorySink::new(alloc, 9000, vec![in alloc; 2]?)?;
    let mut line = LineSink::new(below);
    let text = vec![in alloc; b'a'; 5000]?;
    assert!(rt; write_all(&mut line, &text).is_ok());
    assert_eq!(rt; line.under().bytes().len(), 4096);
    assert!(rt; line.send().is_err());
    assert_eq!(rt; line.under().bytes().len(), 4096);
    assert!(rt; line.send().is_ok());
    assert_eq!(rt; line.under().bytes(), text.as_slice());
    Ok(())
}

//! Stdout and stderr, or any other writer of std.

ghost use Rattle.std.specs.Prelude.{◌≡◌};

use crate::retried::write_once;
use crate::sink::{Sink, SinkFailed};
use std::io::Write;
use std::marker::Model;

/// A sink over a writer, as `rt.stdout()` or `rt.stderr()`. It counts each failure, and tells
/// nothing of what was written. A writer that takes nothing has failed, and a write that a signal
/// interrupts is tried again.
#[derive(Drop)]
pub struct StdSink<W> {
    writer: W,
    faults: u64,
}

impl<W> Model for StdSink<W> {
    ghost use Rattle.std.specs.Prelude.{ℕ};

    /// How often it has failed.
    ghost Value = { ℕ };

    ghost view = { λ sink. sink.faults };
}

impl<W> StdSink<W> {
    pub fn new(writer: W) -> StdSink<W>
        ensures { result ≡ 0 }
    {
        StdSink { writer, faults: 0 }
    }
}

impl<W: Write> Sink for StdSink<W> {
    ghost use Rattle.std.specs.Prelude.{None};

    ghost written = { λ _. None };

    ghost faults = { λ faults. faults };

    fn write(&mut self, piece: &[u8]) -> Result<usize, SinkFailed> {
        match write_once(&mut self.writer, piece) {
            Ok(taken) if taken > 0 => Ok(taken),
            _ => {
                self.faults = self.faults.saturating_add(1);
                Err(SinkFailed)
            }
        }
    }
}

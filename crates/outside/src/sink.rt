//! Where bytes are written to.

ghost use Rattle.std.specs.Prelude.{◌≡◌, ℕ, ◌<◌, ◌≤◌, List, Option, length, take, OnOk, OnErr, IfOk};
ghost use Rattle.outside.specs.Faults.{Rose};
ghost use Rattle.outside.specs.Written.{Adds, AddsPrefix};

/// A sink failed.
#[derive(Clone, Copy, Debug, PartialEq, Eq)]
pub struct SinkFailed;

/// Where bytes are written to. A sink may tell what was written, and counts its failures.
pub trait Sink {
    /// What was written, where it tells.
    ghost written: { Self → Option (List ℕ) };

    /// How often it has failed. The count never falls, and no caller can raise it.
    ghost faults: { Self → ℕ };

    /// Takes some bytes of the piece, from the first on, and gives their number, which is not 0.
    /// After an `Err` it has taken none. It takes no memory.
    fn write(&mut self, piece: &[u8]) -> Result<usize, SinkFailed>
        requires { 0 < length piece.now }
        ensures count { IfOk result (λ n. (0 < n) × (n ≤ length piece.now)) }
        ensures added { IfOk result
            (λ n. Adds (written self.old) (written self.new) (take n piece.now)) }
        ensures failed { OnErr result (Rose (faults self.old) (faults self.new)) }
        ensures kept { OnErr result (written self.new ≡ written self.old) }
        ensures later { faults self.old ≤ faults self.new };
}

/// Writes all the bytes, in as many pieces as the sink wants. After an `Err` it has written some of
/// them, from the first on. It takes no memory.
pub fn write_all<O: Sink>(out: &mut O, bytes: &[u8]) -> Result<(), SinkFailed>
    ensures added { OnOk result (Adds (O.written out.old) (O.written out.new) bytes.now) }
    ensures prefix { OnErr result (AddsPrefix (O.written out.old) (O.written out.new) bytes.now) }
    ensures failed { OnErr result (Rose (O.faults out.old) (O.faults out.new)) }
    ensures later { O.faults out.old ≤ O.faults out.new }
{
    let mut done = 0;
    while done < bytes.len() {
        done += out.write(&bytes[done..])?;
    }
    Ok(())
}

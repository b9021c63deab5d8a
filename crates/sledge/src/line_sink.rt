//! An output whose lines go out whole.

ghost use Rattle.std.specs.Prelude.{◌≡◌, ◌<◌, ◌≤◌, ◌+◌, ◌-◌, ◌++◌, [], length, take, drop, min, OnErr, OnOk};
ghost use Rattle.outside.specs.Faults.{Rose};
ghost use Rattle.outside.specs.Written.{Adds};
ghost use Rattle.sledge.specs.Gathering.{with_pending};

use outside::{Sink, SinkFailed};

/// How many bytes are gathered at most: as many as a pipe takes in one piece.
const ROOM: usize = 4096;

/// A sink that gathers bytes and hands them on to another sink when they are sent, or when its room
/// is full. So a line that fits goes out by one write, and no other program's line stands in its
/// middle. It takes no memory.
#[derive(Drop)]
pub struct LineSink<O> {
    out: O,
    room: [u8; ROOM],
    /// How many bytes of the room were gathered.
    used: usize,
    ghost within: { used ≤ 4096 },
}

/// Copies what fits of a piece into a room behind its first bytes, and gives its length.
fn copy_behind(room: &mut [u8], used: usize, piece: &[u8]) -> usize
    requires { used ≤ length room.old }
    ensures count { result ≡ min (length piece.now) (length room.old - used) }
    ensures bytes { take (used + result) room.new ≡ take used room.old ++ take result piece.now }
    ensures len { length room.new ≡ length room.old }
{
    let taken = piece.len().min(room.len() - used);
    room[used..used + taken].copy_from_slice(&piece[..taken]);
    taken
}

/// Moves the bytes behind the first `gone` of `used` bytes to the front.
fn move_up(room: &mut [u8], gone: usize, used: usize)
    requires gone { gone ≤ used }
    requires used { used ≤ length room.old }
    ensures bytes { take (used - gone) room.new ≡ drop gone (take used room.old) }
    ensures len { length room.new ≡ length room.old }
{
    room.copy_within(gone..used, 0);
}

impl<O> LineSink<O> {
    pub fn new(out: O) -> LineSink<O>
        ensures out { result.out ≡ out }
        ensures empty { result.used ≡ 0 }
    {
        LineSink {
            out,
            room: [0; ROOM],
            used: 0,
        }
    }
}

#[cfg(test)]
impl<O> LineSink<O> {
    /// The other sink.
    pub fn under(&self) -> &O
        ensures { result.now ≡ self.now.out }
    {
        &self.out
    }
}

impl<O: Sink> LineSink<O> {
    /// Hands on some of what was gathered, by one write.
    fn hand_on(&mut self) -> Result<(), SinkFailed>
        requires { 0 < self.old.used }
        ensures handed { OnOk result (self.new.used < self.old.used) }
        ensures written { OnOk result (Adds
            (with_pending (O.written self.old.out) (take self.old.used self.old.room))
            (with_pending (O.written self.new.out) (take self.new.used self.new.room))
            []) }
        ensures failed { OnErr result (Rose (O.faults self.old.out) (O.faults self.new.out)) }
        ensures kept { OnErr result (O.written self.new.out ≡ O.written self.old.out) }
        ensures kept_used { OnErr result (self.new.used ≡ self.old.used) }
        ensures kept_room { OnErr result (self.new.room ≡ self.old.room) }
        ensures later { O.faults self.old.out ≤ O.faults self.new.out }
    {
        let gone = self.out.write(&self.room[..self.used])?;
        move_up(&mut self.room, gone, self.used);
        self.used -= gone;
        Ok(())
    }

    /// Hands on all that was gathered. After an `Err` the rest is still there and can be sent later.
    pub fn send(&mut self) -> Result<(), SinkFailed>
        ensures sent { OnOk result (self.new.used ≡ 0) }
        ensures written { Adds
            (with_pending (O.written self.old.out) (take self.old.used self.old.room))
            (with_pending (O.written self.new.out) (take self.new.used self.new.room))
            [] }
        ensures failed { OnErr result (Rose (O.faults self.old.out) (O.faults self.new.out)) }
        ensures later { O.faults self.old.out ≤ O.faults self.new.out }
    {
        while self.used > 0 {
            self.hand_on()?;
        }
        Ok(())
    }
}

impl<O: Sink> Sink for LineSink<O> {
    ghost written = { λ sink. with_pending (O.written sink.out) (take sink.used sink.room) };

    ghost faults = { λ sink. O.faults sink.out };

    fn write(&mut self, piece: &[u8]) -> Result<usize, SinkFailed> {
        if self.used == ROOM {
            self.hand_on()?;
        }
        let taken = copy_behind(&mut self.room, self.used, piece);
        self.used += taken;
        Ok(taken)
    }
}

//! A sink in memory.

ghost use Rattle.std.specs.Prelude.{◌≡◌, ◌-◌, ◌<◌, ◌≤◌, ◌++◌, ◌||◌, [], true, false, min, length, take, is_err, nat_le, IfOk, OnErr};
ghost use Rattle.outside.specs.FaultPlan.{new_plan, fails_next, counted};

use crate::planned_faults::PlannedFaults;
use crate::sink::{Sink, SinkFailed};
use sl_base::Memory;
use std::alloc::Global;
use std::marker::Model;

/// A sink that keeps what is written, as long as there is room, and fails where it is planned to.
#[derive(Debug, Drop)]
pub struct MemorySink {
    bytes: Vec<u8>,
    room: usize,
    plan: PlannedFaults,
}

impl Model for MemorySink {
    ghost use Rattle.std.specs.Prelude.{◌≤◌, vec_capacity};
    ghost use Rattle.outside.specs.InMemory.{SinkState};

    ghost Value = { SinkState };

    ghost view = { λ sink. record {
      bytes = sink.bytes.items;
      room = sink.room;
      plan = sink.plan;
    } };

    ghost invariant = { λ sink. sink.room ≤ vec_capacity sink.bytes };
}

impl MemorySink {
    /// Takes room for so many bytes. The writes with these numbers are to fail, where the first
    /// write is 1.
    pub fn new(alloc: Global, room: usize, failing: Vec<u32>) -> Result<MemorySink, Memory>
        ensures { IfOk result
            (λ sink. sink ≡ record { bytes = []; room = room; plan = new_plan failing.items }) }
    {
        Ok(MemorySink {
            bytes: Vec::with_capacity(alloc, room)?,
            room,
            plan: PlannedFaults::new(failing),
        })
    }

    /// What was written.
    pub fn bytes(&self) -> &[u8]
        ensures { result.now ≡ self.now.bytes }
    {
        &self.bytes
    }
}

impl Sink for MemorySink {
    ghost use Rattle.std.specs.Prelude.{Some};

    ghost written = { λ sink. Some sink.bytes };

    ghost faults = { λ sink. sink.plan.faults };

    fn write(&mut self, piece: &[u8]) -> Result<usize, SinkFailed>
        requires { 0 < length piece.now }

        // A write fails where it is planned to, or where no room is left, and else takes what fits.
        ensures fails { is_err result
            ≡ (fails_next self.old.plan || nat_le self.old.room (length self.old.bytes)) }
        ensures takes { IfOk result
            (λ n. n ≡ min (length piece.now) (self.old.room - length self.old.bytes)) }
        ensures taken { IfOk result (λ n. self.new ≡ record self.old {
          bytes = self.old.bytes ++ take n piece.now;
          plan = counted self.old.plan false;
        }) }
        ensures nothing_taken { OnErr result
            (self.new ≡ record self.old { plan = counted self.old.plan true }) }
        ensures later { self.old.plan.faults ≤ self.new.plan.faults }
    {
        let left = self.room.saturating_sub(self.bytes.len());
        if self.plan.next_fails(left == 0) {
            return Err(SinkFailed);
        }
        let taken = piece.len().min(left);
        match self.bytes.extend_from_slice(&piece[..taken]) {
            Ok(()) => Ok(taken),
            Err(_) => unreachable!(),
        }
    }
}

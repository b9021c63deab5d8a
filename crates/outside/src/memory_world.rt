//! A world whose replies are given before.

ghost use Rattle.std.specs.Prelude.{◌≡◌, ◌≤◌, length, take};
ghost use Rattle.outside.specs.World.{cut, taken_of, IsAnswer, KeepsRest};

use crate::world::{FAILURE, Reply, World};
use sl_base::{Call, LEAST_ERROR, WRITE};
use std::marker::Model;

/// A world that gives these replies in order, each cut to its call, and fails when none is left.
#[derive(Debug, Drop)]
pub struct MemoryWorld {
    replies: Vec<Reply>,
    next: usize,
}

impl Model for MemoryWorld {
    ghost use Rattle.std.specs.Prelude.{List, drop, ◌≤◌, length};
    ghost use Rattle.outside.specs.declared.world.Reply.{Reply};

    ghost Value = { List Reply };

    ghost view = { λ world. drop world.next world.replies.items };

    ghost invariant = { λ world. world.next ≤ length world.replies.items };
}

impl MemoryWorld {
    /// A world with these replies. It takes no memory.
    pub fn new(replies: Vec<Reply>) -> MemoryWorld
        ensures { result ≡ replies.items }
    {
        MemoryWorld { replies, next: 0 }
    }
}

impl World for MemoryWorld {
    ghost use Rattle.outside.specs.World.{GetsReply};

    ghost hears = { GetsReply };

    fn answer(&mut self, call: &Call, give: &[u8], take: &mut [u8]) -> u32 {
        let Some(reply) = self.replies.get(self.next) else {
            return FAILURE;
        };
        let result = give_reply(reply, call, give.len(), take);
        self.next += 1;
        result
    }
}

/// Cuts a reply to a call that gives so many bytes and has this room.
fn give_reply(reply: &Reply, call: &Call, given: usize, room: &mut [u8]) -> u32
    requires given { given ≤ 65536 }
    requires room { length room.old ≤ 65536 }
    ensures cut { (result, take (taken_of call.now result) room.new)
        ≡ cut reply.now call.now given (length room.old) }
    ensures range { IsAnswer call.now given (length room.old) result }
    ensures rest { KeepsRest call.now result room.old room.new }
{
    if reply.result >= LEAST_ERROR {
        return reply.result;
    }
    if call.number == WRITE {
        return reply.result.min(given as u32);
    }
    let bytes = reply.bytes.as_slice();
    let count = (reply.result as usize).min(bytes.len()).min(room.len());
    room[..count].copy_from_slice(&bytes[..count]);
    count as u32
}

//! A compiled tracer, followed word by word, and the room for a record.

mod row;

ghost use Rattle.std.specs.Prelude.{◌≡◌};

use crate::RecordRoom;
use page_frames::Frames;
use rv_machine::Machine;
use sl_base::{Memory, Refused};
use sl_model::{Bus, Layout, RunState};
use std::alloc::Global;
use std::test::Fail;
use tracer_lang::{Script, TracerEnd};
use tracer_read::read_script;

/// The script of a text, or `None` where the text is none.
fn script_of(alloc: Global, text: &str) -> Result<Option<Script>, Memory> {
    match read_script(alloc, text.as_bytes(), &[]) {
        Ok(script) => Ok(Some(script)),
        Err(Refused::Fault(_fault)) => Ok(None),
        Err(Refused::Memory) => Err(Memory),
    }
}

/// The code of the worked program: it stores 0x01020304 at 0x11005 and exits.
const CODE: [u32; 7] = [
    0x0001_12b7,
    0x0002_8293,
    0x0102_0337,
    0x3043_0313,
    0x0062_a2a3,
    0x05d0_0893,
    0x0000_0073,
];

/// Its machine after five instructions, of which the last is the store.
fn machine() -> Machine
    ensures { result.status ≡ RunState.Running }
{
    let mut x = [0; 32];
    x[2] = 0x7fff_ffe0;
    x[5] = 0x11000;
    x[6] = 0x0102_0304;
    Machine {
        pc: 0x10014,
        x,
        brk: 0x12000,
        brk_end: 0x12000,
        next_call: 0,
        status: RunState::Running,
        count: 5,
        layout: Layout {
            brk_start: 0x12000,
            heap_limit: 0x0101_2000,
        },
    }
}

/// Its memory then: the pages of the code, of the buffer at 0x11000 and of the stack, of which the
/// store has changed that of the buffer.
fn memory(alloc: Global) -> Result<Frames, Memory> {
    let mut frames = Frames::new(alloc)?;
    frames.map_page(0x10)?;
    frames.map_page(0x11)?;
    frames.map_page(0x7ffff)?;
    let mut address = 0x10000;
    for word in CODE {
        frames.store(address, 4, word);
        address = u32::wrapping_add(address, 4);
    }
    frames.clear_dirty();
    frames.store(0x11005, 4, 0x0102_0304);
    Ok(frames)
}

/// The room of a record begins as a record without words.
#[test]
fn room_for_a_record(rt: HostRuntime) -> Result<(), Fail> {
    let room = RecordRoom::new(rt.alloc())?;
    let record = room.to_record(rt.alloc())?;
    assert_eq!(rt; record.count, 0);
    assert_eq!(rt; record.words.len(), 0);
    assert_eq!(rt; record.outcome, TracerEnd::Done);
    Ok(())
}

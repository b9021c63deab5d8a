//! Parts of a state that differ from a checkpoint.

ghost use Rattle.std.specs.Prelude.{◌≡◌, ◌+◌, ◌≤◌, ◌^◌, length, drop};
ghost use Rattle.sl_model.specs.Pages.{Pages};
ghost use Rattle.rv_machine.specs.Machine.{state_of};
ghost use Rattle.rec_format.specs.Compared.{part_diff, parts_diff, bytes_diff, machine_diff, as_checkpoint_break};

use call_log::{BreakKind, part};
use rec_format::CheckpointData;
use rv_machine::Machine;

/// A part that is no memory, where it differs.
fn part_break(index: u32, number: u32, recorded: u32, replayed: u32) -> Option<BreakKind>
    ensures { result ≡ as_checkpoint_break index (part_diff number recorded replayed) }
{
    if recorded == replayed {
        return None;
    }
    Some(BreakKind::CheckpointDiffers {
        index,
        part: number,
        at: 0,
        recorded,
        replayed,
    })
}

/// The first register that differs. The recorded ones are x1 to x31.
fn registers_break(index: u32, recorded: &[u32; 31], registers: &[u32; 32]) -> Option<BreakKind>
    ensures { let diff = parts_diff 1 recorded.now (drop 1 registers.now) in
        result ≡ as_checkpoint_break index diff }
{
    for (i, value) in recorded.iter().enumerate() {
        let number = part::FIRST_REGISTER + i as u32;
        let found = part_break(index, number, *value, registers[i + 1]);
        if found.is_some() {
            return found;
        }
    }
    None
}

/// The first part that differs but for memory.
#[tactic(auto, unfolding(rec_format::specs::Compared::machine_diff))]
pub fn machine_break(index: u32, checkpoint: &CheckpointData, m: &Machine) -> Option<BreakKind>
    ensures { (pages : Pages)
        → let diff = machine_diff checkpoint.now (state_of m.now pages) in
        result ≡ as_checkpoint_break index diff }
{
    part_break(index, part::PC, checkpoint.pc, m.pc)
        .or(registers_break(index, &checkpoint.x, &m.x))
        .or(part_break(index, part::BREAK, checkpoint.brk, m.brk))
        .or(part_break(index, part::HEAP_END, checkpoint.brk_end, m.brk_end))
        .or(part_break(index, part::NEXT_CALL, checkpoint.next_call, m.next_call))
}

/// The first byte that differs, from an address on.
pub fn bytes_break(index: u32, address: u32, recorded: &[u8], replayed: &[u8]) -> Option<BreakKind>
    requires same_length { length recorded.now ≡ length replayed.now }
    requires within { address + length recorded.now ≤ 2 ^ 32 }
    ensures { result ≡ as_checkpoint_break index (bytes_diff address recorded.now replayed.now) }
{
    if recorded == replayed {
        return None;
    }
    for (i, byte) in recorded.iter().enumerate() {
        if *byte != replayed[i] {
            return Some(BreakKind::CheckpointDiffers {
                index,
                part: part::BYTE,
                at: address + i as u32,
                recorded: u32::from(*byte),
                replayed: u32::from(replayed[i]),
            });
        }
    }
    None
}

//! Programs of a few instructions, recorded over a world in memory.

ghost use Rattle.std.specs.Prelude.{◌≤◌, ◌^◌, IfOk};
ghost use Rattle.rec_format.specs.Rules.{IsRecordingValue};

use call_log::End;
use call_recorder::{ImageSource, record_run, recut};
use elf_image::flat_image;
use outside::{MemoryWorld, Reply};
use rec_format::{Recording, write_recording};
use sl_base::{Memory, Seq};
use std::alloc::Global;
use std::test::Fail;

/// Where the programs start.
const PLACE: u32 = 0x10000;

/// The bytes of some words, the lowest of each first.
fn bytes_of(alloc: Global, words: &[u32]) -> Result<Vec<u8>, Memory> {
    let mut bytes = Vec::new(alloc);
    for word in words {
        bytes.extend_from_slice(&word.to_le_bytes())?;
    }
    Ok(bytes)
}

/// A world with these replies.
fn world_of(alloc: Global, rows: &[(u32, &[u8])]) -> Result<MemoryWorld, Memory> {
    let mut replies = Vec::new(alloc);
    for &(result, data) in rows {
        let mut bytes = Vec::new(alloc);
        bytes.extend_from_slice(data)?;
        replies.push(Reply {
            result,
            bytes: Seq::from_vec(bytes),
        })?;
    }
    Ok(MemoryWorld::new(replies))
}

/// The recording of a flat program; of the same run with other checkpoints, where another distance is given.
fn recorded(
    alloc: Global,
    words: &[u32],
    limit: u64,
    every: u64,
    again: Option<u64>,
    world: &mut MemoryWorld,
) -> Result<Recording, Fail>
    ensures { IfOk result IsRecordingValue }
{
    let bytes = bytes_of(alloc, words)?;
    if bytes.len() > 10_000 || limit == 0 || limit > 1 << 40 || every == 0 || every > 1 << 40 {
        return Err("a long program, or a distance of none".into());
    }
    let image = flat_image(alloc, PLACE, &bytes)?;
    let source = ImageSource {
        kind: 0,
        load_addr: PLACE,
        bytes: Seq::from_vec(bytes),
    };
    let rec = record_run(alloc, &image, source, Seq::new(alloc), limit, every, world)?;
    match again {
        Some(again) if again > 0 && again <= 1 << 40 => Ok(recut(alloc, rec, &image, again)?),
        _ => Ok(rec),
    }
}

/// The bytes of such a recording.
fn written(
    alloc: Global,
    words: &[u32],
    limit: u64,
    every: u64,
    again: Option<u64>,
    world: &mut MemoryWorld,
) -> Result<Vec<u8>, Fail> {
    let rec = recorded(alloc, words, limit, every, again, world)?;
    let Ok(bytes) = write_recording(alloc, &rec) else {
        return Err("a long recording".into());
    };
    Ok(bytes)
}

/// `li a0, 5`, `li a7, 93`, `ecall`.
const EXITS: &[u32] = &[0x0050_0513, 0x05D0_0893, 0x0000_0073];

/// `li a0, 5` and a word of zeros, which is no instruction.
const TRAPS: &[u32] = &[0x0050_0513, 0];

/// `j .`.
const GOES_ON: &[u32] = &[0x0000_006F];

#[test]
fn ends(rt: HostRuntime) -> Result<(), Fail> {
    let alloc = rt.alloc();
    let rows = [
        (EXITS, 1000, End::Exited(5), 3),
        (EXITS, 3, End::Exited(5), 3),
        (EXITS, 2, End::Stopped, 2),
        (EXITS, 1, End::Stopped, 1),
        (TRAPS, 1 << 40, End::Trapped(2), 1),
        (TRAPS, 2, End::Trapped(2), 1),
        (TRAPS, 1, End::Stopped, 1),
        (GOES_ON, 5, End::Stopped, 5),
    ];
    for (words, limit, end, count) in rows {
        for every in [1, 2, 3, 1 << 40] {
            let mut world = world_of(alloc, &[])?;
            let rec = recorded(alloc, words, limit, every, None, &mut world)?;
            assert_eq!(rt; rec.end, end);
            assert_eq!(rt; rec.last.count, count);
            assert_eq!(rt; rec.calls.len(), 0);
        }
    }
    Ok(())
}

/// Reads four bytes again and again.
const READS: &[u32] = &[
    0x0000_0513,
    0x0001_05B7,
    0x1005_8593,
    0x0040_0613,
    0x03F0_0893,
    0x0000_0073,
    0xFE9F_F06F,
];

#[test]
fn answers(rt: HostRuntime) -> Result<(), Fail> {
    let alloc = rt.alloc();
    let replies: [(u32, &[u8]); 4] = [
        (9, &[1, 2, 3, 4, 5, 6, 7, 8, 9]),
        (2, &[10, 11]),
        (0xFFFF_FFF5, &[12]),
        (3, &[13]),
    ];
    let calls: [(u32, &[u8]); 6] = [
        (4, &[1, 2, 3, 4]),
        (2, &[10, 11]),
        (0xFFFF_FFF5, &[]),
        (1, &[13]),
        (0xFFFF_FFFB, &[]),
        (0xFFFF_FFFB, &[]),
    ];
    let mut world = world_of(alloc, &replies)?;
    let rec = recorded(alloc, READS, 42, 5, None, &mut world)?;
    assert_eq!(rt; rec.end, End::Stopped);
    assert_eq!(rt; rec.calls.len(), 6);
    for (entry, (result, bytes)) in rec.calls.as_slice().iter().zip(calls) {
        assert_eq!(rt; entry.call.number, 63);
        assert_eq!(rt; entry.result, result);
        assert_eq!(rt; entry.bytes.as_slice(), bytes);
    }
    Ok(())
}

/// Changes a word, and changes it back.
const CHANGES: &[u32] = &[
    0x0001_0337,
    0x0012_8293,
    0x1053_2023,
    0x1003_2023,
    0x0000_006F,
];

#[test]
fn changed_pages_are_listed(rt: HostRuntime) -> Result<(), Fail> {
    let alloc = rt.alloc();
    let rows: [(u64, &[usize], usize); 5] = [
        (1, &[0, 0, 1, 1, 0], 0),
        (2, &[0, 0], 0),
        (3, &[1], 1),
        (6, &[], 0),
        (7, &[], 0),
    ];
    for (every, listed, last) in rows {
        let mut world = world_of(alloc, &[])?;
        let rec = recorded(alloc, CHANGES, 6, every, None, &mut world)?;
        assert_eq!(rt; rec.checkpoints.len(), listed.len());
        for (checkpoint, &pages) in rec.checkpoints.as_slice().iter().zip(listed) {
            assert_eq!(rt; checkpoint.pages.len(), pages);
        }
        assert_eq!(rt; rec.last.pages.len(), last);
    }
    Ok(())
}

#[test]
fn cut_anew(rt: HostRuntime) -> Result<(), Fail> {
    let alloc = rt.alloc();
    for words in [EXITS, TRAPS, GOES_ON, READS, CHANGES] {
        for every in [1, 3, 1000] {
            for again in [1, 2, 3, 7, 1 << 40] {
                let mut world = world_of(alloc, &[(4, &[1, 2, 3, 4]), (2, &[5, 6])])?;
                let cut = written(alloc, words, 42, every, Some(again), &mut world)?;
                let mut world = world_of(alloc, &[(4, &[1, 2, 3, 4]), (2, &[5, 6])])?;
                let recorded = written(alloc, words, 42, again, None, &mut world)?;
                assert!(rt; cut.as_slice() == recorded.as_slice());
            }
        }
    }
    for (every, size) in [(1, 508), (2, 356), (3, 204)] {
        let mut world = world_of(alloc, &[])?;
        assert_eq!(rt;
            written(alloc, EXITS, 3, every, None, &mut world)?.len(),
            size
        );
    }
    Ok(())
}

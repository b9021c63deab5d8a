//! Programs that are recorded, and recordings that are cut anew.

use super::recordings::words;
use super::running::told_over;
use call_log::CallEntry;
use outside::{MemoryStore, MemoryWorld, Reply};
use rec_format::{Recording, read_recording};
use sl_base::Seq;
use std::alloc::Global;
use std::process::Abort;
use std::test::Fail;
use std::thread::Threads;

/// A store with these files, whose calls with these numbers fail.
pub fn store_with(
    alloc: Global,
    rows: &[(&str, &[u8])],
    failing: &[u32],
) -> Result<MemoryStore, Fail> {
    let mut files = Vec::new(alloc);
    for (name, bytes) in rows {
        files.push((String::from_str(alloc, name)?, bytes.to_vec(alloc)?))?;
    }
    Ok(MemoryStore::new(files, Vec::from_slice(alloc, failing)?))
}

/// Runs commands one after the other over a store and a world. Each row is the words of a command,
/// and then the number that it ends with and what it writes, with `|` for each line feed.
fn run_all<R: Threads + Sync + Abort>(
    rt: &R,
    alloc: Global,
    store: &mut MemoryStore,
    world: &mut MemoryWorld,
    rows: &str,
) -> Result<(), Fail> {
    for row in rows.lines() {
        let (words, text) = row.split_once(" => ").ok_or("no row")?;
        let mut told = told_over(rt, alloc, store, world, words)?;
        for byte in &mut told {
            if *byte == b'\n' {
                *byte = b'|';
            }
        }
        assert_eq!(rt; told.as_slice(), text.as_bytes(), "{row}");
    }
    Ok(())
}

/// The recording in a file of a store.
fn recording_in(alloc: Global, store: &MemoryStore, name: &str) -> Result<Recording, Fail> {
    match read_recording(alloc, store.file(name).ok_or("no file")?) {
        Ok(rec) => Ok(rec),
        Err(_) => Err("no recording".into()),
    }
}

/// Loads 5 into a0 and exits.
pub const EXITS: &str = "00500513 05d00893 73";

/// Recordings that are cut anew.
const COMMANDS: &str = "\
record exits r1.rec --flat 10000 => 0 recorded 3 exited 0x00000005|
recut r1.rec r2.rec --every 2 => 0 recorded 3 exited 0x00000005|
record exits r3.rec --flat 0x10000 --every 2 => 0 recorded 3 exited 0x00000005|
recut r3.rec r4.rec => 0 recorded 3 exited 0x00000005|
";

/// What is recorded with checkpoints at a distance, and what is cut anew to it, are the same files.
#[test]
fn files_that_are_put(rt: HostRuntime) -> Result<(), Fail> {
    let alloc = rt.alloc();
    let exits = words(alloc, EXITS)?;
    let mut store = store_with(alloc, &[("exits", &exits)], &[])?;
    let mut world = MemoryWorld::new(Vec::new(alloc));
    run_all(&rt, alloc, &mut store, &mut world, COMMANDS)?;
    for (name, other, len) in [("r1.rec", "r4.rec", 204), ("r2.rec", "r3.rec", 356)] {
        assert_eq!(rt; store.file(name).map(<[u8]>::len), Some(len), "{name}");
        assert!(rt; store.file(name) == store.file(other), "{name}");
    }
    Ok(())
}

/// A put that fails leaves the other files, and may be tried again.
const FAILING: &str = "\
record exits r1.rec --flat 10000 => 10 sledge: store fault|
check r1.rec => 2 sledge: absent: r1.rec|
record exits r1.rec --flat 10000 => 0 recorded 3 exited 0x00000005|
recut r1.rec r2.rec --every 2 => 10 sledge: store fault|
check r1.rec => 0 checked 0 calls, 0 checkpoints, end 3|
check r2.rec => 2 sledge: absent: r2.rec|
recut r1.rec r2.rec --every 2 => 10 sledge: store fault|
recut r1.rec r2.rec --every 2 => 0 recorded 3 exited 0x00000005|
";

#[test]
fn puts_that_fail(rt: HostRuntime) -> Result<(), Fail> {
    let alloc = rt.alloc();
    let exits = words(alloc, EXITS)?;
    let mut store = store_with(alloc, &[("exits", &exits)], &[2, 7, 10])?;
    let mut world = MemoryWorld::new(Vec::new(alloc));
    run_all(&rt, alloc, &mut store, &mut world, FAILING)
}

/// A program as a small C library makes it.
const LIBRARY: &str = "\
_start: li a0, 1
la a1, buf
li a7, 80
ecall
li a0, 0
li a7, 214
ecall
lui t0, 1
add a0, a0, t0
ecall
call put
li a0, 0
li a7, 93
ecall
put: li a0, 1
la a1, msg
li a2, 3
li a7, 64
ecall
ret
.data
msg: .byte 104, 105, 10
.balign 4
buf: .space 128
";

const LIBRARY_COMMANDS: &str = "\
asm p.s p.elf => 0 assembled 556 bytes|
record p.elf p.rec => 0 recorded 22 exited 0x00000000|
check p.rec => 0 checked 4 calls, 0 checkpoints, end 22|
replay p.rec => 0 end,exited,22,,0x0001003c,,0x00000000|\
regs,x,,,,,x1=0x00010030 x2=0x7fffffe0 x5=0x00001000 x11=0x00011000 x12=0x00000003 x17=0x0000005d|
trace p.rec s.txt --analyse hist=0 => 0 1,hist=0,1,,,,0x00013000|end,exited,22,,0x0001003c,,0x00000000|\
regs,x,,,,,x1=0x00010030 x2=0x7fffffe0 x5=0x00001000 x11=0x00011000 x12=0x00000003 x17=0x0000005d|
";

/// A world that answers 3, and then nothing.
fn world_of_one(alloc: Global) -> Result<MemoryWorld, Fail> {
    let reply = Reply {
        result: 3,
        bytes: Seq::new(alloc),
    };
    Ok(MemoryWorld::new(vec![in alloc; reply]?))
}

/// Checks the calls of the program, with their results and the bytes that they wrote.
fn check_calls(rt: &impl Abort, entries: &[CallEntry]) {
    let calls: [(u32, u32, &[u8]); 4] = [
        (80, 0xffff_ffda, &[]),
        (214, 0x0001_2000, &[]),
        (214, 0x0001_3000, &[]),
        (64, 3, b"hi\n"),
    ];
    assert_eq!(rt; entries.len(), 4);
    for (entry, (number, result, bytes)) in entries.iter().zip(calls) {
        assert_eq!(rt; entry.call.number, number);
        assert_eq!(rt; entry.result, result);
        assert_eq!(rt; entry.bytes.as_slice(), bytes);
    }
}

#[test]
fn small_library(rt: HostRuntime) -> Result<(), Fail> {
    let alloc = rt.alloc();
    let script: &[u8] = b"(at (enter put) (emit (reg 10)))";
    let files = [("p.s", LIBRARY.as_bytes()), ("s.txt", script)];
    let mut store = store_with(alloc, &files, &[])?;
    let mut world = world_of_one(alloc)?;
    run_all(&rt, alloc, &mut store, &mut world, LIBRARY_COMMANDS)?;
    let rec = recording_in(alloc, &store, "p.rec")?;
    check_calls(&rt, rec.calls.as_slice());
    Ok(())
}

/// Writes 65,536 bytes 4,096 times.
const WRITES: &str = "\
_start: li s0, 4096
again: li a0, 1
la a1, buf
li a2, 65536
li a7, 64
ecall
addi s0, s0, -1
bnez s0, again
li a7, 93
ecall
.data
buf: .space 65536
";

const WRITES_COMMANDS: &str = "\
asm a.s a.elf => 0 assembled 65908 bytes|
record a.elf a.rec => 14 sledge: recording of 268649012 bytes is too large|
check a.rec => 2 sledge: absent: a.rec|
";

#[test]
fn too_large(rt: HostRuntime) -> Result<(), Fail> {
    let alloc = rt.alloc();
    let mut store = store_with(alloc, &[("a.s", WRITES.as_bytes())], &[])?;
    let mut world = MemoryWorld::new(Vec::new(alloc));
    run_all(&rt, alloc, &mut store, &mut world, WRITES_COMMANDS)
}

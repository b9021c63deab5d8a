//! Files that are not got, and outputs that fail.

use super::recordings::{EXITS, recording};
use super::running::{filled, store_of, told_in};
use outside::{GetFault, MemoryWorld, NoGate, PutFault, Store};
use std::alloc::Global;
use std::test::Fail;
use std::thread::Threads;

/// A store whose one file is longer than any limit.
#[derive(Drop)]
struct LongStore;

impl Store for LongStore {
    ghost use Rattle.std.specs.Prelude.{None};

    ghost told = { λ _. None };

    ghost faults = { λ _. 0 };

    fn get(&mut self, _alloc: Global, _name: &str, _limit: u64) -> Result<Vec<u8>, GetFault> {
        Err(GetFault::TooLong)
    }

    fn put(&mut self, _alloc: Global, _name: &str, _bytes: &[u8]) -> Result<(), PutFault> {
        Err(PutFault::Memory)
    }
}

/// The number and both outputs of a trace over a store, as one text.
fn traced_in<R: Threads + Sync, S: Store>(
    rt: &R,
    alloc: Global,
    store: &mut S,
) -> Result<Vec<u8>, Fail> {
    let mut world = MemoryWorld::new(Vec::new(alloc));
    told_in(
        rt,
        alloc,
        store,
        &mut world,
        "trace l.rec at 0",
        (100, 100),
        &NoGate,
    )
}

#[test]
fn files_that_are_not_got(rt: HostRuntime) -> Result<(), Fail> {
    let alloc = rt.alloc();
    let text = traced_in(&rt, alloc, &mut LongStore)?;
    let long = b"3 sledge: longer than 268435456 bytes: l.rec\n";
    assert_eq!(rt; text.as_slice(), long.as_slice());
    let text = traced_in(&rt, alloc, &mut store_of(alloc, "l.rec", &[], &[1])?)?;
    assert_eq!(rt; text.as_slice(), b"10 sledge: store fault\n".as_slice());
    Ok(())
}

/// Commands over a recording `a.rec` with so much room for the first and for the second output, and
/// how they end: at the first byte, the second, a later one and the last, nothing behind that byte
/// is written. `|` stands for the end of a line. The report has 129 bytes.
const FULL: &str = "\
0 100 trace a.rec at 10008 => 11 sledge: sink fault|
1 100 trace a.rec at 10008 => 11 1sledge: sink fault|
10 100 trace a.rec at 10008 => 11 1,all,2,0,sledge: sink fault|
128 100 trace a.rec at 10008 => 11 1,all,2,0,0x00010008,Done,0x00000005|end,exited,3,,0x0001000c,,0x00000005|regs,x,,,,,x2=0x7fffffe0 x10=0x00000005 x17=0x0000005dsledge: sink fault|
129 0 trace a.rec at 10008 => 0 1,all,2,0,0x00010008,Done,0x00000005|end,exited,3,,0x0001000c,,0x00000005|regs,x,,,,,x2=0x7fffffe0 x10=0x00000005 x17=0x0000005d|
0 0 trace a.rec at 10008 => 11 
0 1 trace a.rec at 10008 => 11 s
0 18 trace a.rec at 10008 => 11 sledge: sink fault
1 100 replay a.rec => 11 esledge: sink fault|
9 100 check a.rec => 11 checked 0sledge: sink fault|
0 100 recut a.rec b.rec => 11 sledge: sink fault|
8 100 recut a.rec b.rec => 11 recordedsledge: sink fault|
2 100 show a.rec 0 1 --flat 10000 => 11 0xsledge: sink fault|
1 100 gen 0 2 => 11 1sledge: sink fault|
0 0 trace none.rec at 0 => 2 
0 1 trace none.rec at 0 => 2 s
0 10 trace none.rec at 0 => 2 sledge: ab
0 24 trace none.rec at 0 => 2 sledge: absent: none.rec
0 25 trace none.rec at 0 => 2 sledge: absent: none.rec|
";

#[test]
fn outputs_that_fail(rt: HostRuntime) -> Result<(), Fail> {
    let alloc = rt.alloc();
    let bytes = recording(alloc, EXITS)?;
    for row in FULL.lines() {
        let (words, text) = row.split_once(" => ").ok_or("no row")?;
        let (first, words) = words.split_once(' ').ok_or("no first room")?;
        let (second, words) = words.split_once(' ').ok_or("no second room")?;
        let rooms = (first.parse()?, second.parse()?);
        let mut store = store_of(alloc, "a.rec", &bytes, &[])?;
        let mut world = MemoryWorld::new(Vec::new(alloc));
        let told = told_in(&rt, alloc, &mut store, &mut world, words, rooms, &NoGate)?;
        let text = filled(alloc, text, '|', "\n")?;
        assert_eq!(rt; told.as_slice(), text.as_bytes(), "{row}");
    }
    Ok(())
}

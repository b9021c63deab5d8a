//! Programs that are generated.

use super::running::{store_of, told_at};
use outside::{MemoryWorld, NoGate};
use std::alloc::Global;
use std::test::Fail;
use std::thread::Threads;

/// The report of a program of a thousand turns.
fn report<R: Threads + Sync>(rt: &R, alloc: Global) -> Result<Vec<u8>, Fail> {
    let mut store = store_of(alloc, "a", b"", &[])?;
    let mut world = MemoryWorld::new(Vec::new(alloc));
    told_at(
        rt,
        alloc,
        &mut store,
        &mut world,
        "gen 1 1000",
        600,
        &NoGate,
    )
}

#[test]
fn one_seed_has_one_report(rt: HostRuntime) -> Result<(), Fail> {
    let first = report(&rt, rt.alloc())?;
    let second = report(&rt, rt.alloc())?;
    assert_eq!(rt; first.as_slice(), second.as_slice());
    assert!(rt; first.starts_with(b"0 1,count,,,,,1000\n"));
    Ok(())
}

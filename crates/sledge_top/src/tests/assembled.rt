//! Puts of assembled files that fail.

use super::running::{store_of, told_over};
use outside::{MemoryStore, MemoryWorld};
use std::alloc::Global;
use std::test::Fail;
use std::thread::Threads;

/// The number and both outputs of a command over a store, as one text.
fn told<R: Threads + Sync>(
    rt: &R,
    alloc: Global,
    store: &mut MemoryStore,
    words: &str,
) -> Result<Vec<u8>, Fail> {
    let mut world = MemoryWorld::new(Vec::new(alloc));
    told_over(rt, alloc, store, &mut world, words)
}

#[test]
fn failing_puts(rt: HostRuntime) -> Result<(), Fail> {
    let alloc = rt.alloc();
    // The first call of the store reads the source, the second puts the file.
    for (failing, ending) in [
        (1, "10 sledge: store fault\n"),
        (2, "10 sledge: store fault\n"),
        (3, "0 assembled 228 bytes\n"),
    ] {
        let mut store = store_of(alloc, "a.s", b"nop", &[failing])?;
        let text = told(&rt, alloc, &mut store, "asm a.s a.elf")?;
        assert_eq!(rt; text.as_slice(), ending.as_bytes());
    }
    let mut store = store_of(alloc, "a.s", b"nop", &[])?;
    let text = told(&rt, alloc, &mut store, "asm none.s a.elf")?;
    assert_eq!(rt; text.as_slice(), b"2 sledge: absent: none.s\n".as_slice());
    Ok(())
}

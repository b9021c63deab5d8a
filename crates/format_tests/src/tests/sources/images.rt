//! Whole images.

use elf_image::Image;
use rv_asm::assemble;
use std::alloc::Global;
use std::process::Abort;
use std::test::Fail;

/// Checks where data starts and what its bytes are, and the entry.
fn check_data(
    rt: &impl Abort,
    alloc: Global,
    source: &[u8],
    start: u32,
    bytes: &[u8],
    entry: u32,
) -> Result<Image, Fail> {
    let image = assemble(alloc, source)?;
    let [text, data] = image.segments.as_slice() else {
        return Err("two segments".into());
    };
    assert_eq!(rt; text.vaddr, 0x10000);
    assert_eq!(rt; data.vaddr, start);
    assert_eq!(rt; data.memsz as usize, bytes.len());
    assert_eq!(rt; data.bytes.as_slice(), bytes);
    assert_eq!(rt; image.entry, entry);
    Ok(image)
}

#[test]
fn sections(rt: HostRuntime) -> Result<(), Fail> {
    let alloc = rt.alloc();
    let directives =
        b"a0: nop # \xff\0\r\n.data\r\n.byte 1, -1, 255\n.balign 4\nb: .half -32768, 65535\n\
        .word b, a0, -2147483648, 4294967295\n.text\n.globl anything\n.data\n_start: .space 2";
    let bytes = [
        1, 0xff, 0xff, 0, 0, 0x80, 0xff, 0xff, 4, 0x10, 1, 0, 0, 0, 1, 0, 0, 0, 0, 0x80, 0xff,
        0xff, 0xff, 0xff, 0, 0,
    ];
    let image = check_data(&rt, alloc, directives, 0x11000, &bytes, 0x11018)?;
    let [a0, b, start] = image.symbols.as_slice() else {
        return Err("three symbols".into());
    };
    assert_eq!(rt; a0.name.as_slice(), b"a0".as_slice());
    assert_eq!(rt;
        (a0.value, b.value, start.value),
        (0x10000, 0x11004, 0x11018)
    );
    // A label before a switch stands in the section before it.
    let switch = b"nop\na: .data\n.byte 7\nb: .text\nnop\nj a\nj c\nc:.data\n.word a, b";
    let bytes = [7, 4, 0, 1, 0, 1, 0x10, 1, 0];
    let image = check_data(&rt, alloc, switch, 0x11000, &bytes, 0x10000)?;
    let [a, b, c] = image.symbols.as_slice() else {
        return Err("three symbols".into());
    };
    assert_eq!(rt; (a.value, b.value, c.value), (0x10004, 0x11001, 0x10010));
    Ok(())
}

#[test]
fn text_of_a_page(rt: HostRuntime) -> Result<(), Fail> {
    let alloc = rt.alloc();
    let mut source = Vec::new(alloc);
    for _ in 0..1024 {
        source.extend_from_slice(b"nop\n")?;
    }
    source.extend_from_slice(b".data\nx: .byte 9\n")?;
    check_data(&rt, alloc, &source, 0x11000, &[9], 0x10000)?;
    Ok(())
}

//! The files that are written, byte by byte.

ghost use Rattle.elf_image.specs.Written.{IsWritable};
ghost use Rattle.std.specs.Prelude.{IfOk};

use crate::{Image, Segment, read_image, symbol, write_image};
use sl_base::{Seq, Symbol};
use std::alloc::Global;
use std::test::Fail;

/// Bytes of hexadecimal digits, in groups.
fn bytes(alloc: Global, text: &str) -> Result<Vec<u8>, Fail> {
    let mut out = Vec::new(alloc);
    for word in text.split_whitespace() {
        out.push(u8::from_str_radix(word, 16)?)?;
    }
    Ok(out)
}

/// Three bytes at 0x10000 and a byte of memory behind them, and a symbol.
fn small(alloc: Global) -> Result<Image, Fail>
    ensures { IfOk result IsWritable }
{
    let mut segments = Seq::new(alloc);
    segments.push(Segment {
        vaddr: 0x10000,
        memsz: 4,
        bytes: Seq::from_vec(Vec::from_slice(alloc, &[0xa, 0xb, 0xc])?),
    })?;
    let mut symbols = Seq::new(alloc);
    symbols.push(Symbol {
        name: Seq::from_vec(Vec::from_slice(alloc, b"go")?),
        value: 0x10002,
    })?;
    Ok(Image {
        entry: 0x10001,
        segments,
        symbols,
    })
}

#[test]
fn small_file(rt: HostRuntime) -> Result<(), Fail> {
    let alloc = rt.alloc();
    let want = bytes(
        alloc,
        "7f 45 4c 46 01 01 01 00 00 00 00 00 00 00 00 00
         02 00 f3 00 01 00 00 00 01 00 01 00 34 00 00 00 7c 00 00 00 00 00 00 00
         34 00 20 00 01 00 28 00 03 00 00 00
         01 00 00 00 54 00 00 00 00 00 01 00 00 00 01 00 03 00 00 00 04 00 00 00 07 00 00 00 01 00 00 00
         0a 0b 0c 00
         00 00 00 00 00 00 00 00 00 00 00 00 00 00 00 00
         01 00 00 00 02 00 01 00 00 00 00 00 10 00 f1 ff
         00 67 6f 00
         00 00 00 00 00 00 00 00 00 00 00 00 00 00 00 00 00 00 00 00
         00 00 00 00 00 00 00 00 00 00 00 00 00 00 00 00 00 00 00 00
         00 00 00 00 02 00 00 00 00 00 00 00 00 00 00 00 58 00 00 00
         20 00 00 00 02 00 00 00 01 00 00 00 04 00 00 00 10 00 00 00
         00 00 00 00 03 00 00 00 00 00 00 00 00 00 00 00 78 00 00 00
         04 00 00 00 00 00 00 00 00 00 00 00 01 00 00 00 00 00 00 00",
    )?;
    let file = write_image(alloc, &small(alloc)?)?;
    assert_eq!(rt; file, want);
    assert!(rt; file.len() < 1000);
    let image = read_image(alloc, &file)?;
    assert_eq!(rt; symbol(&image, b"go"), Some(0x10002));
    assert_eq!(rt; symbol(&image, b"g"), None);
    assert_eq!(rt; symbol(&image, b""), None);
    let ([segment], [named]) = (image.segments.as_slice(), image.symbols.as_slice()) else {
        return Err("one segment and one symbol".into());
    };
    assert_eq!(rt; image.entry, 0x10001);
    assert_eq!(rt; (segment.vaddr, segment.memsz), (0x10000, 4));
    assert_eq!(rt; segment.bytes.as_slice(), [0xa, 0xb, 0xc].as_slice());
    assert_eq!(rt; named.name.as_slice(), b"go".as_slice());
    assert_eq!(rt; named.value, 0x10002);
    Ok(())
}

//! Writes ELF32 files.

ghost use Rattle.elf_image.specs.Written.{half, word, halves, words, padding, ident, file_header, header_of, headers_of, entry_of, entries_of, entries, string_table, names, segment_bytes, symbols_section, strings_section, layout_of, program_part, written, IsWritable};
ghost use Rattle.elf_image.specs.Elf.{IsImage};
ghost use Rattle.std.specs.List.{flat_map};
ghost use Rattle.std.specs.Prelude.{◌≡◌, ◌+◌, ◌*◌, ◌<◌, ◌≤◌, ◌^◌, [], ◌++◌, length, replicate, IfOk, OnOk};

use crate::image::{Image, Segment};
use crate::layout::{FileLayout, layout_of, strings_size};
use byteorder::{ByteOrder, LittleEndian};
use sl_base::{Memory, Symbol};
use std::alloc::{AllocError, Global};

/// The first bytes of an ELF32 file with its lowest bytes first, of version 1.
const IDENT: [u8; 16] = [0x7f, b'E', b'L', b'F', 1, 1, 1, 0, 0, 0, 0, 0, 0, 0, 0, 0];

#[tactic(auto, unfolding(crate::specs::Written::half))]
fn put_half(out: &mut Vec<u8>, n: u16) -> Result<(), AllocError>
    ensures { OnOk result (out.new.items ≡ out.old.items ++ half n) }
{
    let mut bytes = [0; 2];
    LittleEndian::write_u16(&mut bytes, n);
    out.extend_from_slice(&bytes)
}

#[tactic(auto, unfolding(crate::specs::Written::word))]
fn put_word(out: &mut Vec<u8>, n: u32) -> Result<(), AllocError>
    ensures { OnOk result (out.new.items ≡ out.old.items ++ word n) }
{
    let mut bytes = [0; 4];
    LittleEndian::write_u32(&mut bytes, n);
    out.extend_from_slice(&bytes)
}

fn put_halves(out: &mut Vec<u8>, ns: &[u16]) -> Result<(), AllocError>
    ensures { OnOk result (out.new.items ≡ out.old.items ++ halves ns.now) }
{
    for n in ns {
        put_half(out, *n)?;
    }
    Ok(())
}

fn put_words(out: &mut Vec<u8>, ns: &[u32]) -> Result<(), AllocError>
    ensures { OnOk result (out.new.items ≡ out.old.items ++ words ns.now) }
{
    for n in ns {
        put_word(out, *n)?;
    }
    Ok(())
}

fn put_zeros(out: &mut Vec<u8>, count: usize) -> Result<(), AllocError>
    ensures { OnOk result (out.new.items ≡ out.old.items ++ replicate count 0) }
{
    for _ in 0..count {
        out.push(0)?;
    }
    Ok(())
}

/// Zero bytes up to a multiple of 4.
#[tactic(auto, unfolding(crate::specs::Written::padding))]
fn put_padding(out: &mut Vec<u8>) -> Result<(), AllocError>
    requires { length out.old.items < 2 ^ 32 }
    ensures { OnOk result (out.new.items ≡ out.old.items ++ padding (length out.old.items)) }
{
    let end = out.len().next_multiple_of(4);
    put_zeros(out, end - out.len())
}

#[tactic(auto, unfolding(crate::specs::Written::file_header))]
fn put_file_header(
    out: &mut Vec<u8>,
    entry: u32,
    sections: u32,
    phnum: u16,
) -> Result<(), AllocError>
    ensures { OnOk result (out.new.items ≡ out.old.items ++ file_header entry sections phnum) }
{
    out.extend_from_slice(&IDENT)?;
    put_halves(out, &[2, 243])?;
    put_words(out, &[1, entry, 52, sections, 0])?;
    put_halves(out, &[52, 32, phnum, 40, 3, 0])
}

/// The headers of segments whose bytes start at an offset.
#[tactic(auto, unfolding(crate::specs::Written::headers_of))]
fn put_headers(out: &mut Vec<u8>, start: u32, segments: &[Segment]) -> Result<(), AllocError>
    requires { start + length (segment_bytes segments.now) < 2 ^ 32 }
    ensures { OnOk result (out.new.items ≡ out.old.items ++ headers_of start segments.now) }
{
    let mut offset = start;
    for segment in segments {
        let len = segment.bytes.len() as u32;
        let (vaddr, memsz) = (segment.vaddr, segment.memsz);
        put_words(out, &[1, offset, vaddr, vaddr, len, memsz, 7, 1])?;
        offset += len;
    }
    Ok(())
}

fn put_segment_bytes(out: &mut Vec<u8>, segments: &[Segment]) -> Result<(), AllocError>
    ensures { OnOk result (out.new.items ≡ out.old.items ++ segment_bytes segments.now) }
{
    for segment in segments {
        out.extend_from_slice(segment.bytes.as_slice())?;
    }
    Ok(())
}

/// The entries of symbols whose names start at an offset of the string table.
#[tactic(auto, unfolding(crate::specs::Written::entries_of))]
fn put_entries(out: &mut Vec<u8>, start: u32, symbols: &[Symbol]) -> Result<(), AllocError>
    requires { start + length (names symbols.now) < 2 ^ 32 }
    ensures { OnOk result (out.new.items ≡ out.old.items ++ entries_of start symbols.now) }
{
    let mut name = start;
    for symbol in symbols {
        put_words(out, &[name, symbol.value, 0])?;
        out.extend_from_slice(&[0x10, 0])?;
        put_half(out, 0xfff1)?;
        name += symbol.name.len() as u32 + 1;
    }
    Ok(())
}

/// Names, each with a zero byte behind it.
fn put_names(out: &mut Vec<u8>, symbols: &[Symbol]) -> Result<(), AllocError>
    ensures { OnOk result (out.new.items ≡ out.old.items ++ names symbols.now) }
{
    for symbol in symbols {
        out.extend_from_slice(symbol.name.as_slice())?;
        out.push(0)?;
    }
    Ok(())
}

/// The section headers.
fn put_sections(out: &mut Vec<u8>, at: FileLayout, strings: u32) -> Result<(), AllocError>
    requires { at.symbols ≤ at.strings }
    ensures { OnOk result (out.new.items
        ≡ out.old.items ++ replicate 40 0
        ++ symbols_section at ++ strings_section at.strings strings) }
{
    put_zeros(out, 40)?;
    let size = at.strings - at.symbols;
    put_words(out, &[0, 2, 0, 0, at.symbols, size, 2, 1, 4, 16])?;
    put_words(out, &[0, 3, 0, 0, at.strings, strings, 0, 0, 1, 0])
}

/// The file header, the program headers and the segments' bytes.
fn put_program(out: &mut Vec<u8>, image: &Image, at: FileLayout) -> Result<(), AllocError>
    requires start { out.old.items ≡ [] }
    requires layout { at ≡ layout_of image.now }
    requires number { length image.now.segments < 2 ^ 16 }
    requires size { at.sections + 120 < 2 ^ 32 }
    ensures { OnOk result (out.new.items ≡ program_part image.now) }
{
    let segments = image.segments.as_slice();
    put_file_header(out, image.entry, at.sections, segments.len() as u16)?;
    put_headers(out, at.bytes, segments)?;
    put_segment_bytes(out, segments)?;
    put_padding(out)
}

/// The symbol table and the string table behind the program.
fn put_tables(out: &mut Vec<u8>, symbols: &[Symbol]) -> Result<(), AllocError>
    requires { length out.old.items + length (entries symbols.now)
        + length (string_table symbols.now) < 2 ^ 32 }
    ensures { let before = out.old.items ++ entries symbols.now ++ string_table symbols.now in
        OnOk result (out.new.items ≡ before ++ padding (length before)) }
{
    put_zeros(out, 16)?;
    put_entries(out, 1, symbols)?;
    out.push(0)?;
    put_names(out, symbols)?;
    put_padding(out)
}

/// The bytes of an ELF32 file of an image: the file header, a program header for each segment, the
/// segments' bytes, the symbol table, the string table and the section headers.
///
/// `read_image` of it gives the image back.
///
/// # Errors
///
/// Want of memory.
pub fn write_image(alloc: Global, image: &Image) -> Result<Vec<u8>, Memory>
    requires { IsWritable image.now }
    ensures written { IfOk result (λ file. file.items ≡ written image.now) }
    ensures read_back { IfOk result (λ file. IsImage file.items image.now) }
{
    let at = layout_of(image);
    let symbols = image.symbols.as_slice();
    let mut out = Vec::new(alloc);
    put_program(&mut out, image, at)?;
    put_tables(&mut out, symbols)?;
    put_sections(&mut out, at, strings_size(symbols))?;
    Ok(out)
}

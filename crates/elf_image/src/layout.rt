//! Where the parts of a written file start.

ghost use Rattle.elf_image.specs.Written.{aligned, layout_of, string_table, segment_bytes};
ghost use Rattle.std.specs.List.{flat_map};
ghost use Rattle.std.specs.Prelude.{◌≡◌, ◌+◌, ◌*◌, ◌<◌, ◌≤◌, ◌^◌, length};

use crate::image::{Image, Segment};
use sl_base::Symbol;

/// The offsets of the parts of a written file.
#[derive(Clone, Copy)]
pub struct FileLayout {
    /// Where the segments' bytes start.
    pub bytes: u32,
    /// Where the symbol table starts.
    pub symbols: u32,
    /// Where the string table starts.
    pub strings: u32,
    /// Where the section headers start.
    pub sections: u32,
}

/// How many bytes the segments have.
fn bytes_size(segments: &[Segment]) -> u32
    requires { length (segment_bytes segments.now) < 2 ^ 32 }
    ensures { result ≡ length (segment_bytes segments.now) }
{
    let mut size = 0;
    for segment in segments {
        size += segment.bytes.len() as u32;
    }
    size
}

/// How many bytes the string table has.
pub fn strings_size(symbols: &[Symbol]) -> u32
    requires { length (string_table symbols.now) < 2 ^ 32 }
    ensures { result ≡ length (string_table symbols.now) }
{
    let mut size = 1;
    for symbol in symbols {
        size += symbol.name.len() as u32 + 1;
    }
    size
}

/// The least multiple of 4 that is `n` or more.
fn aligned(n: u32) -> u32
    requires { n + 3 < 2 ^ 32 }
    ensures { result ≡ aligned n }
{
    (n + 3) / 4 * 4
}

/// Where the parts of the file of an image start.
pub fn layout_of(image: &Image) -> FileLayout
    requires { (layout_of image.now).sections + 120 < 2 ^ 32 }
    ensures { result ≡ layout_of image.now }
{
    let bytes = 52 + 32 * image.segments.len() as u32;
    let symbols = aligned(bytes + bytes_size(image.segments.as_slice()));
    let strings = symbols + 16 * (image.symbols.len() as u32 + 1);
    let sections = aligned(strings + strings_size(image.symbols.as_slice()));
    FileLayout {
        bytes,
        symbols,
        strings,
        sections,
    }
}

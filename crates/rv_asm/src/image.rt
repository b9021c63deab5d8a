//! The image of what was assembled.

ghost use Rattle.std.specs.Prelude.{◌≡◌, ◌<◌, ◌≤◌, ◌^◌, ◌%◌, length, map, codes, All, IfOk, OnOk};
ghost use Rattle.rv_asm.specs.Labels.{address_of};
ghost use Rattle.rv_asm.specs.Assembly.{symbol_of, segment, data_segments, image_from};

use crate::place::{Label, Spot};
use crate::table::{TEXT_START, Table};
use asm_text::Section;
use elf_image::{Image, Segment};
use sl_base::{Memory, Seq, Symbol};
use std::alloc::{AllocError, Global};

/// What the lines of each section made.
#[derive(Drop)]
pub struct Program {
    pub text_bytes: Vec<u8>,
    pub data_bytes: Vec<u8>,
}

/// The word of the address of a spot.
fn address_word(data_start: u64, spot: Spot) -> u32
    ensures { result ≡ address_of data_start spot % 2 ^ 32 }
{
    let start = match spot.section {
        Section::Text => u64::from(TEXT_START),
        Section::Data => data_start,
    };
    ((start % 0x1_0000_0000 + spot.offset % 0x1_0000_0000) % 0x1_0000_0000) as u32
}

/// Labels as symbols.
fn symbols_of(alloc: Global, labels: Vec<Label>, data_start: u64) -> Result<Seq<Symbol>, AllocError>
    ensures { IfOk result (λ symbols. symbols ≡ map (symbol_of data_start) labels.items) }
{
    let mut symbols = Vec::with_capacity(alloc, labels.len())?;
    for label in labels {
        let Label {
            name,
            spot,
            line: _,
        } = label;
        let value = address_word(data_start, spot);
        symbols.push(Symbol { name, value })?;
    }
    Ok(Seq::from_vec(symbols))
}

/// A segment of bytes.
fn segment(vaddr: u32, bytes: Vec<u8>) -> Segment
    requires { length bytes.items < 2 ^ 32 }
    ensures value { result ≡ segment vaddr bytes.items }
    ensures bytes { All (λ b. b < 256) bytes.items }
{
    Segment {
        vaddr,
        memsz: bytes.len() as u32,
        bytes: Seq::from_vec(bytes),
    }
}

/// The image of a program with these labels.
pub fn image_from(alloc: Global, table: Table<'_>, program: Program) -> Result<Image, Memory>
    requires start { table.data_start < 2 ^ 63 }
    requires text_fits { length program.text_bytes.items < 2 ^ 32 }
    requires data_fits { length program.data_bytes.items < 2 ^ 32 }
    ensures value { IfOk result (λ image. image
        ≡ image_from table.entry program.text_bytes.items program.data_bytes.items) }
    ensures text_bytes { OnOk result (All (λ b. b < 256) program.text_bytes.items) }
    ensures data_bytes { OnOk result (All (λ b. b < 256) program.data_bytes.items) }
{
    let entry = match table.value(b"_start") {
        Some(value) => (value % 0x1_0000_0000) as u32,
        None => TEXT_START,
    };
    let data_address = (table.data_start % 0x1_0000_0000) as u32;
    let Program {
        text_bytes,
        data_bytes,
    } = program;
    let mut segments = Seq::new(alloc);
    segments.push(segment(TEXT_START, text_bytes))?;
    if !data_bytes.is_empty() {
        segments.push(segment(data_address, data_bytes))?;
    }
    let Table { labels, data_start } = table;
    let symbols = symbols_of(alloc, labels.into_labels(), data_start)?;
    Ok(Image {
        entry,
        segments,
        symbols,
    })
}

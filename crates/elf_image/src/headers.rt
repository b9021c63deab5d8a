//! Program headers, section headers and entries of symbol tables.

ghost use Rattle.elf_image.specs.Header.{half_at, word_at};
ghost use Rattle.elf_image.specs.Segments.{program_header};
ghost use Rattle.elf_image.specs.Symbols.{section_header, symbol_entry};
ghost use Rattle.std.specs.Prelude.{◌≡◌, ◌+◌, ◌≤◌, ◌<◌, ◌^◌, length};

use crate::fields::{half, word};

/// The bytes of a program header.
pub const PROGRAM_HEADER_BYTES: u16 = 32;

/// The bytes of a section header.
pub const SECTION_HEADER_BYTES: u16 = 40;

/// The bytes of an entry of a symbol table.
pub const SYMBOL_BYTES: u16 = 16;

/// A program header.
#[derive(Clone, Copy)]
pub struct ProgramHeader {
    /// The header's offset.
    pub place: u32,
    pub p_type: u32,
    pub p_offset: u32,
    pub p_vaddr: u32,
    pub p_filesz: u32,
    pub p_memsz: u32,
}

/// A section header.
#[derive(Clone, Copy)]
pub struct SectionHeader {
    /// The header's offset.
    pub place: u32,
    pub sh_type: u32,
    pub sh_offset: u32,
    pub sh_size: u32,
    pub sh_link: u32,
    pub sh_entsize: u32,
}

/// An entry of a symbol table.
#[derive(Clone, Copy)]
pub struct SymbolEntry {
    pub st_name: u32,
    pub st_value: u32,
    pub st_info: u8,
    pub st_shndx: u16,
}

/// The program header at an offset.
#[tactic(auto, unfolding(crate::specs::Segments::program_header))]
pub fn program_header(file: &[u8], place: u32) -> ProgramHeader
    requires { place + 32 ≤ length file.now }
    ensures header { result ≡ program_header file.now place }
    ensures place { result.place ≡ place }
{
    let offset = place as usize;
    ProgramHeader {
        place,
        p_type: word(file, offset),
        p_offset: word(file, offset + 4),
        p_vaddr: word(file, offset + 8),
        p_filesz: word(file, offset + 16),
        p_memsz: word(file, offset + 20),
    }
}

/// The section header at an offset.
#[tactic(auto, unfolding(crate::specs::Symbols::section_header))]
pub fn section_header(file: &[u8], place: u32) -> SectionHeader
    requires { place + 40 ≤ length file.now }
    ensures header { result ≡ section_header file.now place }
    ensures place { result.place ≡ place }
{
    let offset = place as usize;
    SectionHeader {
        place,
        sh_type: word(file, offset + 4),
        sh_offset: word(file, offset + 16),
        sh_size: word(file, offset + 20),
        sh_link: word(file, offset + 24),
        sh_entsize: word(file, offset + 36),
    }
}

/// The entry of a symbol table at an offset.
#[tactic(auto, unfolding(crate::specs::Symbols::symbol_entry))]
pub fn symbol_entry(file: &[u8], place: u32) -> SymbolEntry
    requires { place + 16 ≤ length file.now }
    ensures { result ≡ symbol_entry file.now place }
{
    let offset = place as usize;
    SymbolEntry {
        st_name: word(file, offset),
        st_value: word(file, offset + 4),
        st_info: file[offset + 12],
        st_shndx: half(file, offset + 14),
    }
}

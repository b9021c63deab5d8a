//! Reads the symbols of a file.

ghost use Rattle.elf_image.specs.Checks.{TellsUnlessMemory, IsSure, first_failing};
ghost use Rattle.elf_image.specs.Header.{e_shoff, e_shnum};
ghost use Rattle.elf_image.specs.Symbols.{has_sections, section, section_bytes, section_headers, lies_in_file, symbol_table, is_symbol_table, sections_checks, table_checks, symbol_checks, is_kept, name_at, symbol_of, entry_symbols, symbols};
ghost use Rattle.elf_image.specs.declared.headers.SectionHeader.{SectionHeader};
ghost use Rattle.std.specs.List.{find};
ghost use Rattle.std.specs.Option.{option_map, option_copied};
ghost use Rattle.std.specs.Prelude.{◌≡◌, ℕ, ◌+◌, ◌*◌, ◌<◌, ◌≤◌, ◌^◌, length, true, Some, None, IfOk, IfSome, OnOk};

use crate::check::{Check, ensure};
use crate::fault::ImageCause::SymbolTable;
use crate::fault::ImageFault;
use crate::fields::{half, word};
use crate::headers::{
    SECTION_HEADER_BYTES, SYMBOL_BYTES, SectionHeader, SymbolEntry, section_header, symbol_entry,
};
use memchr::{memchr, memrchr};
use sl_base::{Refused, Seq, Symbol};
use std::alloc::{AllocError, Global};

/// The type of a section that is a symbol table.
const SHT_SYMTAB: u32 = 2;

/// The entry size that a symbol table names.
const SYMTAB_ENTSIZE: u32 = 16;

/// The type of a symbol that is a function. Those below it are symbols without a type and data
/// objects.
const STT_FUNC: u8 = 2;

/// The section index of a symbol that is defined elsewhere.
const SHN_UNDEF: u16 = 0;

/// Whether the file has sections.
fn has_sections(file: &[u8]) -> bool
    requires { 52 ≤ length file.now }
    ensures { result ≡ has_sections file.now }
{
    word(file, 32) != 0 && half(file, 48) != 0
}

/// Checks where the section headers lie.
fn sections(file: &[u8]) -> Result<(), Refused<ImageFault>>
    requires { 52 ≤ length file.now }
    ensures told { TellsUnlessMemory result (sections_checks file.now) }
    ensures sure { IsSure result }
{
    let size = u64::from(SECTION_HEADER_BYTES) * u64::from(half(file, 48));
    let end = u64::from(word(file, 32)) + size;
    ensure(&[
        Check::new(half(file, 46) == SECTION_HEADER_BYTES, 46, SymbolTable),
        Check::new(end <= file.len() as u64, 32, SymbolTable),
    ])
}

/// The header of the section with an index.
fn section(file: &[u8], index: u16) -> SectionHeader
    requires header { 52 ≤ length file.now }
    requires within { index < e_shnum file.now }
    requires headers { e_shoff file.now + 40 * e_shnum file.now ≤ length file.now }
    requires size { length file.now < 2 ^ 32 }
    ensures header { result ≡ section file.now index }
    ensures place { result.place ≡ e_shoff file.now + 40 * index }
{
    let place = word(file, 32) + u32::from(SECTION_HEADER_BYTES) * u32::from(index);
    section_header(file, place)
}

/// The first symbol table, if there is one.
fn symbol_table(file: &[u8]) -> Option<SectionHeader>
    requires header { 52 ≤ length file.now }
    requires headers { e_shoff file.now + 40 * e_shnum file.now ≤ length file.now }
    requires size { length file.now < 2 ^ 32 }
    ensures table { result ≡ find is_symbol_table (section_headers file.now) }
    ensures place { IfSome result (λ table. table.place + 40 ≤ length file.now) }
{
    for index in 0..half(file, 48) {
        let section = section(file, index);
        if section.sh_type == SHT_SYMTAB {
            return Some(section);
        }
    }
    None
}

/// Whether the bytes of a section lie in the file.
fn lies_in_file(file: &[u8], section: SectionHeader) -> bool
    ensures { result ≡ lies_in_file file.now section }
{
    u64::from(section.sh_offset) + u64::from(section.sh_size) <= file.len() as u64
}

/// Checks a symbol table, and gives the header of its string table.
fn strings_of(file: &[u8], table: SectionHeader) -> Result<SectionHeader, Refused<ImageFault>>
    requires header { 52 ≤ length file.now }
    requires headers { e_shoff file.now + 40 * e_shnum file.now ≤ length file.now }
    requires size { length file.now < 2 ^ 32 }
    requires place { table.place + 40 < 2 ^ 32 }
    ensures told { TellsUnlessMemory result (table_checks file.now (Some table)) }
    ensures strings { IfOk result (λ strings. strings ≡ section file.now table.sh_link) }
    ensures table_lies { OnOk result (lies_in_file file.now table ≡ true) }
    ensures strings_lie { IfOk result (λ strings. lies_in_file file.now strings ≡ true) }
{
    let shnum = u32::from(half(file, 48));
    ensure(&[
        Check::new(
            table.sh_entsize == SYMTAB_ENTSIZE,
            table.place + 36,
            SymbolTable,
        ),
        Check::new(
            table.sh_size % SYMTAB_ENTSIZE == 0,
            table.place + 20,
            SymbolTable,
        ),
        Check::new(lies_in_file(file, table), table.place + 16, SymbolTable),
        Check::new(table.sh_link < shnum, table.place + 24, SymbolTable),
    ])?;
    let strings = section(file, table.sh_link as u16);
    ensure(&[Check::new(lies_in_file(file, strings), strings.place + 16, SymbolTable)])?;
    Ok(strings)
}

/// The name at an offset of a string table, if there is one.
fn name_at<'a>(strings: &'a [u8], offset: u32) -> Option<&'a [u8]>
    ensures { option_copied result ≡ name_at strings.now offset }
{
    let start = offset as usize;
    if start > strings.len() {
        return None;
    }
    let (_, rest) = strings.split_at(start);
    let len = memchr(0, rest)?;
    if len == 0 {
        return None;
    }
    Some(&rest[..len])
}

/// The symbol that an entry names, if it is kept.
fn symbol_of(
    alloc: Global,
    strings: &[u8],
    entry: SymbolEntry,
) -> Result<Option<Symbol>, AllocError>
    ensures { IfOk result (λ symbol. symbol ≡ symbol_of strings.now entry) }
{
    if entry.st_info % 16 > STT_FUNC || entry.st_shndx == SHN_UNDEF {
        return Ok(None);
    }
    let Some(name) = name_at(strings, entry.st_name) else {
        return Ok(None);
    };
    Ok(Some(Symbol {
        name: Seq::from_vec(Vec::from_slice(alloc, name)?),
        value: entry.st_value,
    }))
}

/// The part of a string table in which names end: up to its last zero byte.
fn ended(strings: &[u8]) -> &[u8]
    ensures { (offset : ℕ) → name_at result.now offset ≡ name_at strings.now offset }
{
    let Some(last) = memrchr(0, strings) else {
        return &strings[..0];
    };
    let (names, _) = strings.split_at(last + 1);
    names
}

/// The symbols of a table, in its order.
fn table_symbols(
    alloc: Global,
    file: &[u8],
    table: SectionHeader,
    strings: &[u8],
) -> Result<Seq<Symbol>, AllocError>
    requires lies { lies_in_file file.now table ≡ true }
    requires size { length file.now < 2 ^ 32 }
    ensures { IfOk result (λ symbols. symbols ≡ entry_symbols file.now table strings.now) }
{
    let names = ended(strings);
    let mut symbols = Seq::new(alloc);
    for index in 0..table.sh_size / SYMTAB_ENTSIZE {
        let entry = symbol_entry(file, table.sh_offset + SYMTAB_ENTSIZE * index);
        if let Some(symbol) = symbol_of(alloc, names, entry)? {
            symbols.push(symbol)?;
        }
    }
    Ok(symbols)
}

/// The symbols of a file.
pub fn symbols(alloc: Global, file: &[u8]) -> Result<Seq<Symbol>, Refused<ImageFault>>
    requires header { 52 ≤ length file.now }
    requires size { length file.now < 2 ^ 32 }
    ensures told { TellsUnlessMemory result (symbol_checks file.now) }
    ensures kept { IfOk result (λ kept. kept ≡ symbols file.now) }
{
    if !has_sections(file) {
        return Ok(Seq::new(alloc));
    }
    sections(file)?;
    let Some(table) = symbol_table(file) else {
        return Ok(Seq::new(alloc));
    };
    let strings = strings_of(file, table)?;
    let start = strings.sh_offset as usize;
    let bytes = &file[start..start + strings.sh_size as usize];
    Ok(table_symbols(alloc, file, table, bytes)?)
}

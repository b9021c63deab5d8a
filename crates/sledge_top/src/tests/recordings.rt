//! Recordings from recipes.

use std::alloc::Global;
use std::test::Fail;

/// The number of some hexadecimal digits.
pub fn number_of(digits: &str) -> u32 {
    let mut value = 0u32;
    for byte in digits.as_bytes() {
        let digit = (*byte as char).to_digit(16).unwrap_or(0);
        value = value.wrapping_mul(16).wrapping_add(digit);
    }
    value
}

/// Adds a number of four bytes.
fn push_word(out: &mut Vec<u8>, word: u32) -> Result<(), Fail> {
    Ok(out.extend_from_slice(&word.to_le_bytes())?)
}

/// Adds so many zeros.
fn push_zeros(out: &mut Vec<u8>, count: usize) -> Result<(), Fail> {
    for _ in 0..count {
        out.push(0)?;
    }
    Ok(())
}

/// Adds numbers of four bytes.
fn push_words(out: &mut Vec<u8>, words: &str) -> Result<(), Fail> {
    for word in words.split_whitespace() {
        push_word(out, number_of(word))?;
    }
    Ok(())
}

/// Adds bytes of two digits each.
fn push_bytes(out: &mut Vec<u8>, bytes: &str) -> Result<(), Fail> {
    for byte in bytes.split_whitespace() {
        let [low, ..] = number_of(byte).to_le_bytes();
        out.push(low)?;
    }
    Ok(())
}

/// Adds a page of this number that has these bytes at an offset, and zeros elsewhere.
fn push_page(out: &mut Vec<u8>, number: &str, offset: &str, bytes: &str) -> Result<(), Fail> {
    push_words(out, number)?;
    let before = out.len();
    push_zeros(out, number_of(offset) as usize)?;
    push_bytes(out, bytes)?;
    push_zeros(
        out,
        4096usize.saturating_sub(out.len().saturating_sub(before)),
    )
}

/// What stands among registers for the index of the next call.
const CALL_INDEX: u32 = 32;

/// What stands among registers for the break.
const BREAK: u32 = 33;

/// The value of register `number` among registers as `a=5`, or that of the opening state.
fn register(number: u32, registers: &str) -> u32 {
    let mut value = match number {
        2 => 0x7fff_ffe0,
        BREAK => 0x11000,
        _ => 0,
    };
    for register in registers.split_whitespace() {
        if let Some((name, given)) = register.split_once('=') {
            if number_of(name) == number {
                value = number_of(given);
            }
        }
    }
    value
}

/// Adds a checkpoint by its count, its program counter, the number of its pages and its registers.
fn push_checkpoint(
    out: &mut Vec<u8>,
    count: &str,
    pc: &str,
    pages: &str,
    registers: &str,
) -> Result<(), Fail> {
    push_words(out, count)?;
    push_word(out, 0)?;
    push_words(out, pc)?;
    for number in 1..32 {
        push_word(out, register(number, registers))?;
    }
    push_word(out, register(BREAK, registers))?;
    push_word(out, register(BREAK, registers))?;
    push_word(out, register(CALL_INDEX, registers))?;
    push_words(out, pages)
}

/// Adds what a line of a recipe says.
fn push_line(out: &mut Vec<u8>, line: &str) -> Result<(), Fail> {
    let (what, rest) = line.split_once(' ').ok_or("no line")?;
    if what == "at" {
        let (count, rest) = rest.split_once(' ').ok_or("no count")?;
        let (pc, rest) = rest.split_once(' ').ok_or("no program counter")?;
        let (pages, registers) = rest.split_once(' ').unwrap_or((rest, ""));
        push_checkpoint(out, count, pc, pages, registers)
    } else if what == "page" {
        let (number, rest) = rest.split_once(' ').ok_or("no page")?;
        let (offset, bytes) = rest.split_once(' ').ok_or("no offset")?;
        push_page(out, number, offset, bytes)
    } else if what == "bytes" {
        push_bytes(out, rest)
    } else if what == "zeros" {
        push_zeros(out, number_of(rest) as usize)
    } else {
        push_words(out, rest)
    }
}

/// The bytes of a recipe, a line for each part of a recording. Numbers are hexadecimal.
///
/// `words W ..` adds numbers of four bytes, `bytes B ..` bytes and `zeros N` so many zeros,
/// `page NUMBER OFFSET B ..` a page that is zeros but for these bytes, and
/// `at COUNT PC PAGES R=VALUE ..` a checkpoint whose other registers are those of the opening
/// state. There `20=1` is the index of the next call, and
/// `21=12000` the break, which is 0x11000 where it is left out.
pub fn recording(alloc: Global, recipe: &str) -> Result<Vec<u8>, Fail> {
    let mut bytes = b"SLDGREC1".to_vec(alloc)?;
    for line in recipe.lines() {
        push_line(&mut bytes, line)?;
    }
    Ok(bytes)
}

/// The recipe of a recording whose program loads 5 into a0 and exits.
pub const EXITS: &str = "\
words 0 10000 c 00500513 05d00893 73 0 0 0
words 0 5
at 3 1000c 0 a=5 11=5d
";

/// The bytes of numbers of four bytes.
pub fn words(alloc: Global, words: &str) -> Result<Vec<u8>, Fail> {
    let mut bytes = Vec::new(alloc);
    push_words(&mut bytes, words)?;
    Ok(bytes)
}

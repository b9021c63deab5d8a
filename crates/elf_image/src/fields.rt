//! The numbers of a file, with the lowest byte first.

ghost use Rattle.elf_image.specs.Header.{half_at, word_at};
ghost use Rattle.std.specs.Prelude.{◌≡◌, ◌+◌, ◌≤◌, length};

use byteorder::{ByteOrder, LittleEndian};

/// The number of two bytes at an offset.
#[tactic(auto, unfolding(crate::specs::Header::half_at))]
pub fn half(file: &[u8], offset: usize) -> u16
    requires { offset + 2 ≤ length file.now }
    ensures { result ≡ half_at file.now offset }
{
    LittleEndian::read_u16(&file[offset..offset + 2])
}

/// The number of four bytes at an offset.
#[tactic(auto, unfolding(crate::specs::Header::word_at))]
pub fn word(file: &[u8], offset: usize) -> u32
    requires { offset + 4 ≤ length file.now }
    ensures { result ≡ word_at file.now offset }
{
    LittleEndian::read_u32(&file[offset..offset + 4])
}

//! Places and labels.

use asm_text::Section;
use sl_base::Seq;

/// Where a line stands.
#[derive(Clone, Copy, Debug, PartialEq, Eq)]
pub struct Place {
    /// The section that it stands in.
    pub section: Section,
    /// How many bytes of text stand before it.
    pub text_size: u64,
    /// How many bytes of data stand before it.
    pub data_size: u64,
}

/// A place in one section.
#[derive(Clone, Copy, Debug, PartialEq, Eq)]
pub struct Spot {
    pub section: Section,
    /// How many bytes of the section stand before it.
    pub offset: u64,
}

/// A label.
#[derive(Debug, Drop)]
pub struct Label {
    pub name: Seq<u8>,
    /// Where it stands.
    pub spot: Spot,
    /// Its line, counted from 1.
    pub line: u32,
}

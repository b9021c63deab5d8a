//! The addresses of labels.

ghost use Rattle.std.specs.Prelude.{◌≡◌, ◌+◌, ◌<◌, ◌≤◌, ◌^◌, ◌%◌, IfSome};
ghost use Rattle.rv_asm.specs.Places.{data_start as start_of_data};
ghost use Rattle.rv_asm.specs.Labels.{address_of};

use crate::labels::Labels;
use crate::place::Spot;
use asm_text::Section;

/// Where text starts.
pub const TEXT_START: u32 = 0x10000;

/// The labels of a source, and where its data starts.
#[derive(Drop)]
pub struct Table<'a> {
    pub labels: Labels<'a>,
    /// The address of the first page at or after the end of text.
    pub data_start: u64,
}

/// The first page at or after the end of text.
pub fn data_start(text: u64) -> u64
    requires { text < 2 ^ 62 }
    ensures value { result ≡ start_of_data text }
    ensures most { result < 2 ^ 63 }
{
    (u64::from(TEXT_START) + text + 4095) / 4096 * 4096
}

/// The address of a spot, where data starts at an address.
pub fn address_of(data_start: u64, spot: Spot) -> u64
    requires start { data_start < 2 ^ 63 }
    requires offset { spot.offset < 2 ^ 62 }
    ensures { result ≡ address_of data_start spot }
{
    match spot.section {
        Section::Text => u64::from(TEXT_START) + spot.offset,
        Section::Data => data_start + spot.offset,
    }
}

impl<'a> Table<'a> {
    ghost use Rattle.rv_asm.specs.Lines.{value};
    ghost use Rattle.rv_asm.specs.Output.{label_word};

    /// The value of the first label with a name.
    pub fn value(&self, name: &[u8]) -> Option<u64>
        requires { self.now.data_start < 2 ^ 63 }
        ensures { result ≡ value self.now name.now }
    {
        let spot = self.labels.spot_named(name)?;
        Some(address_of(self.data_start, spot))
    }

    /// The word of the value of a label.
    pub fn label_word(&self, name: &[u8]) -> u32
        requires { self.now.data_start < 2 ^ 63 }
        ensures { result ≡ label_word self.now name.now }
    {
        (self.value(name).unwrap_or(0) % 0x1_0000_0000) as u32
    }
}

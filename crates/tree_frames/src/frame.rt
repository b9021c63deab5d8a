//! One page.

ghost use Rattle.std.specs.Prelude.{◌≡◌, ◌+◌, ◌<◌, ◌≤◌, ◌^◌, length, take, drop, replicate, Some, vec_len, vec_capacity, IfNone};
ghost use Rattle.sl_model.specs.Pages.{IsWidth, from_bytes, low_bytes, put_bytes};

/// The bytes of a page.
pub(crate) const PAGE_LEN: usize = 4096;

/// A page that is mapped.
#[derive(Drop)]
pub(crate) struct Frame {
    pub(crate) bytes: [u8; 4096],
    /// Its index in the list of dirty pages, where it stands there.
    pub(crate) place: Option<usize>,
}

impl Frame {
    /// A page of zeros, which is dirty.
    pub(crate) fn zeros(place: usize) -> Frame
        ensures bytes { result.bytes ≡ replicate 4096 0 }
        ensures place { result.place ≡ Some place }
    {
        Frame {
            bytes: [0; 4096],
            place: Some(place),
        }
    }

    /// The number in `width` bytes, the lowest first.
    #[inline(always)]
    pub(crate) fn load(&self, offset: usize, width: u8) -> u32
        requires width { IsWidth width }
        requires within { offset + width ≤ 4096 }
        ensures value { result ≡ from_bytes (take width (drop offset self.now.bytes)) }
        ensures fits { result < 256 ^ width }
    {
        let bytes = &self.bytes[offset..];
        match width {
            1 => u32::from(bytes[0]),
            2 => u32::from(bytes[0]) + 256 * u32::from(bytes[1]),
            _ => {
                let low = u32::from(bytes[0]) + 256 * u32::from(bytes[1]);
                low + 256 * 256 * (u32::from(bytes[2]) + 256 * u32::from(bytes[3]))
            }
        }
    }

    /// Writes the low `width` bytes of a value, the lowest first.
    #[inline(always)]
    #[tactic(auto, unfolding(sl_model::specs::Pages::put_bytes))]
    pub(crate) fn store(&mut self, offset: usize, width: u8, value: u32)
        requires width { IsWidth width }
        requires within { offset + width ≤ 4096 }
        ensures bytes { self.new.bytes ≡ put_bytes self.old.bytes offset (low_bytes width value) }
        ensures place { self.new.place ≡ self.old.place }
    {
        let bytes = bytes_of(value);
        self.bytes[offset] = bytes[0];
        if width == 1 {
            return;
        }
        self.bytes[offset + 1] = bytes[1];
        if width == 2 {
            return;
        }
        self.bytes[offset + 2] = bytes[2];
        self.bytes[offset + 3] = bytes[3];
    }

    /// Writes bytes from an index on.
    pub(crate) fn copy_in(&mut self, offset: usize, bytes: &[u8])
        requires { offset + length bytes.now ≤ 4096 }
        ensures bytes { self.new.bytes ≡ put_bytes self.old.bytes offset bytes.now }
        ensures place { self.new.place ≡ self.old.place }
    {
        self.bytes[offset..offset + bytes.len()].copy_from_slice(bytes);
    }
}

impl Frame {
    ghost use Rattle.tree_frames.specs.Fields.{Marks};

    /// Marks the page as dirty, where it is not.
    #[inline(always)]
    pub(crate) fn mark(&mut self, dirty: &mut Vec<u32>, page: u32)
        requires { IfNone self.old.place (vec_len dirty.old < vec_capacity dirty.old) }
        ensures bytes { self.new.bytes ≡ self.old.bytes }
        ensures room { vec_capacity dirty.old ≤ vec_capacity dirty.new }
        ensures marks { Marks self.old.place self.new.place page dirty.old.items dirty.new.items }
    {
        if self.place.is_none() {
            self.place = Some(dirty.len());
            dirty.push_reserved(page);
        }
    }
}

/// The bytes of a word, the lowest first.
#[inline(always)]
pub(crate) fn bytes_of(value: u32) -> [u8; 4]
    ensures { result ≡ low_bytes 4 value }
{
    [
        (value % 256) as u8,
        (value / 256 % 256) as u8,
        (value / 256 / 256 % 256) as u8,
        (value / 256 / 256 / 256 % 256) as u8,
    ]
}

//! One area of a bank.

ghost use Rattle.std.specs.Prelude.{◌≡◌, ◌+◌, ◌*◌, ◌<◌, ◌≤◌, ◌%◌, ◌^◌, ◌++◌, length, drop, replicate, is_some, unwrap_or, IfOk, IfSome};
ghost use Rattle.std.specs.List.{All};
ghost use Rattle.sl_model.specs.Pages.{IsWidth, from_bytes, low_bytes, put_bytes};
ghost use Rattle.undo_bank.specs.Dense.{load_in, store_in, word_in, HoldsWords};

use sl_base::Memory;
use std::alloc::Global;
use std::marker::Model;

/// The bytes of an area, of which it is known from where on none was written.
#[derive(Drop)]
pub(crate) struct Area {
    bytes: Vec<u8>,
    /// Every byte from this index on is 0.
    written: usize,
}

impl Model for Area {
    ghost use Rattle.std.specs.Prelude.{List, ℕ};

    ghost Value = { List ℕ };

    ghost use Rattle.undo_bank.specs.Written.{IsWrittenTo};

    ghost view = { λ a. a.bytes.items };

    ghost invariant = { IsWrittenTo };
}

impl Area {
    /// An area of so many bytes, all of them 0.
    pub(crate) fn new(alloc: Global, size: u32) -> Result<Area, Memory>
        ensures size { IfOk result (λ area. length area ≡ size) }
        ensures zero { IfOk result (λ area. area ≡ replicate (length area) 0) }
    {
        let bytes = vec![in alloc; 0; size as usize]?;
        Ok(Area { bytes, written: 0 })
    }

    /// The little-endian number in the `width` bytes from an index on, or `None` where the area
    /// ends before them.
    #[inline(always)]
    pub(crate) fn load(&self, offset: u32, width: u8) -> Option<u32>
        requires { IsWidth width }
        ensures value { result ≡ load_in self.now offset width }
        ensures fits { IfSome result (λ n. n < 256 ^ width) }
    {
        let start = offset as usize;
        let end = start + usize::from(width);
        if end > self.bytes.len() {
            return None;
        }
        Some(number(&self.bytes[start..end]))
    }

    /// The little-endian number in the four bytes from an index on, or 0 where the area ends before
    /// them.
    pub(crate) fn word(&self, offset: u32) -> u32
        ensures { result ≡ word_in self.now offset }
    {
        self.load(offset, 4).unwrap_or(0)
    }

    /// Writes the low `width` bytes of a value from an index on. `false` comes exactly where the
    /// area ends before them, and then nothing changed.
    #[inline(always)]
    pub(crate) fn store(&mut self, offset: u32, width: u8, value: u32) -> bool
        requires { IsWidth width }
        ensures done { result ≡ is_some (store_in self.old offset width value) }
        ensures bytes { self.new ≡ unwrap_or (store_in self.old offset width value) self.old }
    {
        let start = offset as usize;
        let end = start + usize::from(width);
        if end > self.bytes.len() {
            return false;
        }
        write(&mut self.bytes, start, width, value);
        self.written = self.written.max(end);
        true
    }

    /// Makes every byte 0. It costs what was written since the last time.
    fn clear(&mut self)
        ensures { self.new ≡ replicate (length self.old) 0 }
    {
        zero(&mut self.bytes, self.written);
        self.written = 0;
    }

    /// Makes the area begin with these words, the lowest byte of each first, and makes every byte
    /// behind them 0.
    pub(crate) fn restart(&mut self, words: &[u32])
        requires whole { length self.old % 4 ≡ 0 }
        requires fits { 4 * length words.now ≤ length self.old }
        requires few { length words.now < 2 ^ 30 }
        ensures words { HoldsWords words.now self.new }
        ensures size { length self.new ≡ length self.old }
        ensures bytes { All (λ b. b < 256) self.new }
    {
        self.clear();
        let mut offset = 0;
        for word in words {
            self.store(offset, 4, *word);
            offset += 4;
        }
    }
}

/// Makes the first `count` bytes 0.
fn zero(bytes: &mut [u8], count: usize)
    requires { count ≤ length bytes.old }
    ensures { bytes.new ≡ replicate count 0 ++ drop count bytes.old }
{
    bytes[..count].fill(0);
}

/// The number in some bytes, the lowest first.
#[inline(always)]
fn number(bytes: &[u8]) -> u32
    requires { IsWidth (length bytes.now) }
    ensures value { result ≡ from_bytes bytes.now }
    ensures fits { result < 256 ^ length bytes.now }
{
    match *bytes {
        [a] => u32::from(a),
        [a, b] => u32::from(u16::from_le_bytes([a, b])),
        [a, b, c, d] => u32::from_le_bytes([a, b, c, d]),
        _ => 0,
    }
}

/// Writes the low `width` bytes of a value from an index on, the lowest first.
#[inline(always)]
#[tactic(auto, unfolding(sl_model::specs::Pages::put_bytes))]
fn write(bytes: &mut [u8], start: usize, width: u8, value: u32)
    requires width { IsWidth width }
    requires within { start + width ≤ length bytes.old }
    ensures { bytes.new ≡ put_bytes bytes.old start (low_bytes width value) }
{
    let [a, b, c, d] = value.to_le_bytes();
    bytes[start] = a;
    if width >= 2 {
        bytes[start + 1] = b;
    }
    if width == 4 {
        bytes[start + 2] = c;
        bytes[start + 3] = d;
    }
}

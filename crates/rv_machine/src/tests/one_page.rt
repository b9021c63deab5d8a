//! Memory of one page.

ghost use Rattle.std.specs.Prelude.{◌≡◌, ◌+◌, ◌<◌, ◌≤◌, ◌⊎◌, ◌^◌, [], take, drop, false, IfSome, IfNone};
ghost use Rattle.std.specs.FinMap.{empty, insert};
ghost use Rattle.sl_model.specs.Pages.{IsWidth, from_bytes, low_bytes, put_bytes};

use super::PLACE;
use sl_model::Bus;

/// The bytes of the page at `PLACE`. Nothing else is mapped, and nothing is marked.
#[derive(Drop)]
pub(super) struct OnePage {
    bytes: [u8; 4096],
}

impl OnePage {
    /// A page of zeros.
    pub(super) fn zeros() -> OnePage {
        OnePage { bytes: [0; 4096] }
    }
}

impl Bus for OnePage {
    ghost pages = { λ page. insert empty 16 page.bytes };

    ghost marked = { λ _. [] };

    ghost is_marking = { λ _. false };

    ghost fixed = { λ _. tt };

    fn load(&self, addr: u32, width: u8) -> Option<u32> {
        let offset = offset_of(addr, width)?;
        Some(number_at(&self.bytes, offset, width))
    }

    fn store(&mut self, addr: u32, width: u8, value: u32) -> bool {
        let Some(offset) = offset_of(addr, width) else {
            return false;
        };
        put_number(&mut self.bytes, offset, width, value);
        true
    }
}

/// Where some bytes lie in the page, or `None` where one of them lies outside of it.
fn offset_of(addr: u32, width: u8) -> Option<usize>
    requires { IsWidth width }
    ensures inside { IfSome result (λ offset. (addr ≡ PLACE + offset) × (offset + width ≤ 4096)) }
    ensures outside { IfNone result ((addr < PLACE) ⊎ (PLACE + 4096 < addr + width)) }
{
    if addr < PLACE || addr - PLACE > 4096 - u32::from(width) {
        return None;
    }
    Some((addr - PLACE) as usize)
}

/// The number in some bytes, the lowest first.
fn number_at(bytes: &[u8; 4096], offset: usize, width: u8) -> u32
    requires width { IsWidth width }
    requires within { offset + width ≤ 4096 }
    ensures value { result ≡ from_bytes (take width (drop offset bytes.now)) }
    ensures fits { result < 256 ^ width }
{
    let bytes = &bytes[offset..];
    match width {
        1 => u32::from(bytes[0]),
        2 => u32::from(bytes[0]) + 256 * u32::from(bytes[1]),
        _ => {
            let low = u32::from(bytes[0]) + 256 * u32::from(bytes[1]);
            low + 256 * 256 * (u32::from(bytes[2]) + 256 * u32::from(bytes[3]))
        }
    }
}

/// Writes the low bytes of a number, the lowest first.
#[tactic(auto, unfolding(sl_model::specs::Pages::put_bytes))]
fn put_number(bytes: &mut [u8; 4096], offset: usize, width: u8, value: u32)
    requires width { IsWidth width }
    requires within { offset + width ≤ 4096 }
    ensures { bytes.new ≡ put_bytes bytes.old offset (low_bytes width value) }
{
    bytes[offset] = (value % 256) as u8;
    if width == 1 {
        return;
    }
    bytes[offset + 1] = (value / 256 % 256) as u8;
    if width == 2 {
        return;
    }
    bytes[offset + 2] = (value / 256 / 256 % 256) as u8;
    bytes[offset + 3] = (value / 256 / 256 / 256 % 256) as u8;
}

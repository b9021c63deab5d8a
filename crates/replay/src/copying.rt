//! Bytes that are taken out of memory.

ghost use Rattle.std.specs.Prelude.{◌≡◌, ◌-◌, ◌%◌, ◌≤◌, min, Some, IsSome, IfOk};
ghost use Rattle.sl_model.specs.Pages.{bytes_at};

use page_frames::Frames;
use sl_base::{Memory, Seq};
use std::alloc::Global;

/// How many of the bytes from an address on, before an end, lie in its page.
fn in_page(at: u64, end: u64) -> u64
    requires { at ≤ end }
    ensures { result ≡ min (4096 - at % 4096) (end - at) }
{
    (4096 - at % 4096).min(end - at)
}

/// The bytes from an address on, which are mapped.
pub fn bytes_in(alloc: Global, f: &Frames, addr: u32, len: u32) -> Result<Seq<u8>, Memory>
    requires few { len ≤ 65536 }
    requires mapped { IsSome (bytes_at f.now.pages addr len) }
    ensures { IfOk result (λ bytes. bytes_at f.now.pages addr len ≡ Some bytes) }
{
    let mut bytes = Vec::new(alloc);
    let end = u64::from(addr) + u64::from(len);
    let mut at = u64::from(addr);
    while at < end {
        let Some(page) = f.page((at / 4096) as u32) else {
            unreachable!()
        };
        let count = in_page(at, end);
        let offset = (at % 4096) as usize;
        bytes.extend_from_slice(&page[offset..offset + count as usize])?;
        at += count;
    }
    Ok(Seq::from_vec(bytes))
}

ghost use Rattle.sl_model.specs.Pages.{IsWidth};

use page_frames::Frames;
use sl_base::Memory;
use sl_model::Bus;
use std::alloc::Global;
use std::process::Abort;
use std::test::Fail;

/// Pages 16 and 17, and the last page of a program.
fn three_pages(alloc: Global) -> Result<Frames, Memory> {
    let mut frames = Frames::new(alloc)?;
    frames.map_page(16)?;
    frames.map_page(17)?;
    frames.map_page(0xbfffe)?;
    Ok(frames)
}

/// Stores a value, and loads what stands there then: `None` where a byte is not mapped.
fn store_and_load(
    rt: &impl Abort,
    frames: &mut Frames,
    addr: u32,
    width: u8,
    value: u32,
    loaded: Option<u32>,
)
    requires { IsWidth width }
{
    let stored = frames.store(addr, width, value);
    assert_eq!(rt; stored, loaded.is_some());
    assert_eq!(rt; frames.load(addr, width), loaded);
}

#[test]
fn stores_and_loads(rt: HostRuntime) -> Result<(), Fail> {
    let mut frames = three_pages(rt.alloc())?;
    let f = &mut frames;
    store_and_load(&rt, f, 0x10000, 4, 0x0403_0201, Some(0x0403_0201));
    store_and_load(&rt, f, 0x10001, 2, 0xffff_beef, Some(0xbeef));
    store_and_load(&rt, f, 0x10ffe, 4, 0x8877_6655, Some(0x8877_6655));
    store_and_load(&rt, f, 0x10fff, 2, 0xaabb, Some(0xaabb));
    store_and_load(&rt, f, 0x10fff, 1, 0x1cc, Some(0xcc));
    store_and_load(&rt, f, 0x11ffe, 4, 0x1234_5678, None);
    store_and_load(&rt, f, 0x0ffff, 2, 0x1234, None);
    store_and_load(&rt, f, 0xbfff_effc, 4, 0xffff_ffff, Some(0xffff_ffff));
    store_and_load(&rt, f, 0xbfff_efff, 2, 0x1234, None);
    store_and_load(&rt, f, 0xffff_ffff, 4, 1, None);
    assert_eq!(rt; f.load(0x10000, 4), Some(0x04be_ef01));
    assert_eq!(rt; f.load(0x10ffe, 4), Some(0x88aa_cc55));
    assert_eq!(rt; f.load(0x11ffe, 2), Some(0));
    Ok(())
}

#[test]
fn maps_and_copies(rt: HostRuntime) -> Result<(), Fail> {
    let mut frames = three_pages(rt.alloc())?;
    let bytes = [7u8; 4097];
    assert!(rt; frames.is_mapped(0x10fff, 4097));
    frames.copy_in(0x10fff, &bytes);
    assert_eq!(rt; frames.load(0x10fff, 1), Some(7));
    assert!(rt;
        frames
            .page(17)
            .is_some_and(|page| page.iter().all(|b| *b == 7))
    );
    assert!(rt; frames.page(18).is_none());

    assert!(rt; frames.is_mapped(0x10000, 8192));
    assert!(rt; !frames.is_mapped(0x10000, 8193));
    assert!(rt; !frames.is_mapped(0x0ffff, 1));
    assert!(rt; frames.is_mapped(0x20000, 0));
    assert!(rt; frames.is_mapped(0xbfff_e000, 4096));
    assert!(rt; !frames.is_mapped(0xbfff_e000, 0xffff_ffff));
    Ok(())
}

#[test]
fn copies_and_gives_up(rt: HostRuntime) -> Result<(), Fail> {
    let mut frames = three_pages(rt.alloc())?;
    assert!(rt; frames.store(0x11004, 4, 0x0102_0304));
    let mut copy = three_pages(rt.alloc())?;
    assert!(rt; copy.store(0x10000, 4, 1));
    copy.copy_from(&frames)?;
    assert_eq!(rt; copy.load(0x11004, 4), Some(0x0102_0304));
    assert_eq!(rt; copy.load(0x10000, 4), Some(0));
    assert_eq!(rt; copy.dirty_len(), 0);
    frames.reset();
    assert_eq!(rt; frames.load(0x11004, 1), None);
    assert_eq!(rt; frames.dirty_len(), 0);
    frames.copy_from(&copy)?;
    assert_eq!(rt; frames.load(0x11004, 2), Some(0x0304));
    assert!(rt; frames.page(0xbfffe).is_some());
    Ok(())
}

#[test]
fn walks_over_dirty_pages(rt: HostRuntime) -> Result<(), Fail> {
    let mut frames = three_pages(rt.alloc())?;
    assert_eq!(rt; walk(&frames), [Some(16), Some(17), Some(0xbfffe), None]);
    frames.clear_dirty();
    assert_eq!(rt; walk(&frames), [None; 4]);

    assert!(rt; frames.store(0x11000, 1, 0));
    assert!(rt; frames.store(0x10ffe, 4, 0));
    assert!(rt; frames.store(0xbfff_e000, 4, 0));
    assert_eq!(rt; frames.dirty_len(), 3);
    assert_eq!(rt; walk(&frames), [Some(17), Some(16), Some(0xbfffe), None]);

    frames.cut_dirty(1);
    assert_eq!(rt; walk(&frames), [Some(17), None, None, None]);
    assert!(rt; frames.is_dirty(17));
    assert!(rt; !frames.is_dirty(16));
    assert!(rt; !frames.is_dirty(18));
    assert!(rt; frames.store(0x10000, 1, 0));
    assert_eq!(rt; walk(&frames), [Some(17), Some(16), None, None]);
    Ok(())
}

/// The first four steps of the walk over the dirty pages.
fn walk(frames: &Frames) -> [Option<u32>; 4] {
    let mut pages = [None; 4];
    let mut at = None;
    for page in pages.iter_mut() {
        at = frames.next_dirty(at);
        *page = at;
        if at.is_none() {
            break;
        }
    }
    pages
}

#[test]
fn walks_over_mapped_pages(rt: HostRuntime) -> Result<(), Fail> {
    let frames = three_pages(rt.alloc())?;
    for (from, next) in [
        (0, Some(16)),
        (16, Some(16)),
        (17, Some(17)),
        (18, Some(0xbfffe)),
        (0xbfffe, Some(0xbfffe)),
        (0xbffff, None),
        (0xffff_ffff, None),
    ] {
        assert_eq!(rt; frames.next_mapped(from), next);
    }
    assert!(rt; Frames::new(rt.alloc())?.next_mapped(0).is_none());
    Ok(())
}

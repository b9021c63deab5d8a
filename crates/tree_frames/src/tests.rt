//! Both bodies over the same random accesses.

ghost use Rattle.std.specs.Prelude.{◌<◌, ◌≤◌, length};
ghost use Rattle.sl_model.specs.Pages.{IsWidth};

use crate::TreeFrames;
use page_frames::Frames;
use sl_base::Memory;
use sl_model::{Bus, PROGRAM_PAGES};
use std::alloc::Global;
use std::process::Abort;
use std::test::Fail;

/// Pages of which several share the low bits of their numbers.
const PAGES: [u32; 10] = [
    16, 4112, 8208, 17, 0, 4096, 0x7ff00, 0x7ff01, 0xbfffe, 0xaefff,
];

/// Both bodies with the same contents.
#[derive(Drop)]
struct Pair {
    linked: Frames,
    tree: TreeFrames,
}

/// Numbers from a linear congruence, by Knuth's constants for MMIX.
#[derive(Clone, Copy)]
struct Random {
    state: u64,
}

impl Random {
    /// A number below another one.
    fn below(&mut self, end: u32) -> u32
        requires { 0 < end }
        ensures { result < end }
    {
        self.state = self
            .state
            .wrapping_mul(6_364_136_223_846_793_005)
            .wrapping_add(1_442_695_040_888_963_407);
        (self.state >> 33) as u32 % end
    }
}

/// Maps the pages in both.
fn mapped(rt: &impl Abort, alloc: Global) -> Result<Pair, Memory> {
    let mut linked = Frames::new(alloc)?;
    let mut tree = TreeFrames::new(alloc)?;
    for page in PAGES {
        assert!(rt; page < PROGRAM_PAGES);
        linked.map_page(page)?;
        tree.map_page(page)?;
    }
    Ok(Pair { linked, tree })
}

/// An address near the ends of the pages, or beside them.
fn address(random: &mut Random) -> u32 {
    let page = PAGES[random.below(10) as usize];
    let start = page.wrapping_mul(4096);
    start
        .wrapping_add(random.below(8))
        .wrapping_sub(random.below(8))
}

/// A width of loads and stores.
fn width(random: &mut Random) -> u8
    ensures { IsWidth result }
{
    match random.below(3) {
        0 => 1,
        1 => 2,
        _ => 4,
    }
}

/// Stores a number in both, and loads from both.
fn store_and_load(rt: &impl Abort, pair: &mut Pair, random: &mut Random) {
    let (at, wide, value) = (address(random), width(random), random.below(u32::MAX));
    let stored = pair.linked.store(at, wide, value);
    assert_eq!(rt; stored, pair.tree.store(at, wide, value));
    let (from, wide) = (address(random), width(random));
    assert_eq!(rt; pair.linked.load(from, wide), pair.tree.load(from, wide));
}

/// Writes the first of some bytes into both, where they are mapped.
fn write(rt: &impl Abort, pair: &mut Pair, at: u32, all: &[u8], count: u32)
    requires { length all.now ≤ 5000 }
{
    let bytes = &all[..(count as usize).min(all.len())];
    let is_mapped = pair.linked.is_mapped(at, bytes.len() as u32);
    let in_tree = pair.tree.is_mapped(at, bytes.len() as u32);
    assert_eq!(rt; is_mapped, in_tree);
    if is_mapped && in_tree {
        pair.linked.copy_in(at, bytes);
        pair.tree.copy_in(at, bytes);
    }
}

/// Takes some marks back in both.
fn cut(rt: &impl Abort, pair: &mut Pair, random: &mut Random) {
    let marks = pair.linked.dirty_len();
    assert_eq!(rt; marks, pair.tree.dirty_len());
    if marks > 0 {
        let kept = random.below(marks);
        pair.linked.cut_dirty(kept);
        pair.tree.cut_dirty(kept);
    }
}

/// Goes over the dirty pages of both.
fn compare_marks(rt: &impl Abort, pair: &Pair) {
    let mut at = None;
    let mut other = None;
    for _ in 0..11 {
        at = pair.linked.next_dirty(at);
        other = pair.tree.next_dirty(other);
        assert_eq!(rt; at, other);
        if at.is_none() {
            return;
        }
    }
}

/// Goes over the mapped pages of both.
fn compare_pages(rt: &impl Abort, pair: &Pair) {
    let mut from = 0;
    for _ in 0..11 {
        let next = pair.linked.next_mapped(from);
        assert_eq!(rt; next, pair.tree.next_mapped(from));
        let Some(page) = next else {
            return;
        };
        assert!(rt; pair.linked.page(page) == pair.tree.page(page));
        from = page.saturating_add(1);
    }
}

#[test]
fn both_bodies_agree(rt: HostRuntime) -> Result<(), Fail> {
    let mut random = Random { state: 27 };
    let mut pair = mapped(&rt, rt.alloc())?;
    let mut copy = Frames::new(rt.alloc())?;
    for round in 0..400 {
        for _ in 0..20 {
            store_and_load(&rt, &mut pair, &mut random);
        }
        let at = address(&mut random);
        let bytes = [random.below(256) as u8; 5000];
        write(&rt, &mut pair, at, &bytes, random.below(5000));
        cut(&rt, &mut pair, &mut random);
        compare_marks(&rt, &pair);
        if round % 50 == 0 {
            compare_pages(&rt, &pair);
            copy.copy_from(&pair.linked)?;
            pair.linked.reset();
            assert!(rt; pair.linked.next_mapped(0).is_none());
            pair.linked.copy_from(&copy)?;
            pair.tree.clear_dirty();
        }
    }
    Ok(())
}

//! The frames, linked by their indexes.

ghost use Rattle.std.specs.Prelude.{◌≡◌, ℕ, ◌+◌, ◌%◌, ◌<◌, ◌≤◌, length, slice_get, slice_set};
ghost use Rattle.std.specs.Prelude.{slice_index_or, vec_len, Some, None, OnOk, OnErr, IfSome};
ghost use Rattle.std.specs.Option.{option_copied};
ghost use Rattle.sl_model.specs.Pages.{IsPage};
ghost use Rattle.sl_model.specs.declared.layout.TheConstants.{PROGRAM_PAGES, MOST_PAGES};
ghost use Rattle.page_frames.specs.Linked.{IsTable, IsGrown, Puts, index_of, frame_of};
ghost use Rattle.page_frames.specs.Linked.{place_of, pages_of};

use crate::frame::Frame;
use sl_base::Memory;
use std::alloc::Global;

/// The number of buckets. A page stands in the bucket of the low bits of its number.
pub(crate) const BUCKETS: u32 = 4096;

/// Frames in buckets. A frame that comes into use is the first of its bucket, and the others are
/// reached through it, newest first.
#[derive(Drop)]
pub(crate) struct Table {
    /// The index of the first frame of each bucket.
    pub(crate) heads: [Option<u32>; 4096],
    pub(crate) frames: Vec<Frame>,
    /// How many frames are in use, the first ones of all. The others are spare.
    pub(crate) used: u32,
}

impl Table {
    /// No frame is in use.
    pub(crate) fn new(alloc: Global) -> Table
        ensures table { IsTable result }
        ensures none { result.used ≡ 0 }
    {
        Table {
            heads: [None; 4096],
            frames: Vec::new(alloc),
            used: 0,
        }
    }

    /// The index of the frame of a page.
    #[inline(always)]
    pub(crate) fn find(&self, page: u32) -> Option<u32>
        requires { IsTable self.now }
        ensures index { result ≡ index_of self.now.frames.items self.now.used page }
        ensures within { IfSome result (λ i. i < vec_len self.now.frames) }
    {
        let mut at = self.heads[(page % BUCKETS) as usize];
        while let Some(index) = at {
            let frame = &self.frames[index as usize];
            if frame.page == page {
                return Some(index);
            }
            at = frame.next;
        }
        None
    }

    /// The frame of a page.
    #[inline(always)]
    pub(crate) fn get(&self, page: u32) -> Option<&Frame>
        requires { IsTable self.now }
        ensures { option_copied result ≡ frame_of self.now page }
    {
        let index = self.find(page)?;
        Some(&self.frames[index as usize])
    }

    /// Makes sure that there is a spare frame.
    pub(crate) fn make_spare(&mut self) -> Result<(), Memory>
        ensures grown { IsGrown self.old self.new }
        ensures spare { OnOk result (self.old.used ≤ vec_len self.old.frames
            → self.new.used < vec_len self.new.frames) }
    {
        if self.used as usize == self.frames.len() {
            self.frames.reserve(1)?;
            self.frames.push_reserved(Frame::spare());
        }
        Ok(())
    }

    /// Takes the first spare frame into use, for a page that has none.
    pub(crate) fn add(&mut self, page: u32, place: Option<usize>, bytes: &[u8])
        requires table { IsTable self.old }
        requires spare { self.old.used < vec_len self.old.frames }
        requires below { page < PROGRAM_PAGES }
        requires few { self.old.used < MOST_PAGES }
        requires new { frame_of self.old page ≡ None }
        requires whole { IsPage bytes.now }
        ensures table { IsTable self.new }
        ensures used { self.new.used ≡ self.old.used + 1 }
        ensures puts { let next = slice_index_or self.old.heads (page % BUCKETS) None in
            Puts self.old page
            (record { bytes = bytes.now; page = page; next = next; place = place })
            self.new }
    {
        let bucket = (page % BUCKETS) as usize;
        let frame = &mut self.frames[self.used as usize];
        frame.fill(page, self.heads[bucket], place, bytes);
        self.heads[bucket] = Some(self.used);
        self.used += 1;
    }

    /// Takes copies of the frames of another table into use, in their order, with no page dirty.
    /// After an `Err` some of them are in use.
    pub(crate) fn copy_from(&mut self, source: &Table) -> Result<(), Memory>
        requires { IsTable source.now }
        ensures table { IsTable self.new }
        ensures used { self.new.used ≤ source.now.used }
        ensures clean { (page : ℕ) → place_of self.new page ≡ None }
        ensures pages { OnOk result (pages_of self.new ≡ pages_of source.now) }
    {
        self.reset();
        for index in 0..source.used {
            self.make_spare()?;
            let frame = &source.frames[index as usize];
            self.add(frame.page, None, &frame.bytes);
        }
        Ok(())
    }

    /// No frame is in use any more. All of them are spare.
    pub(crate) fn reset(&mut self)
        ensures table { IsTable self.new }
        ensures none { self.new.used ≡ 0 }
    {
        self.heads = [None; 4096];
        self.used = 0;
    }
}

//! The mapped pages and their dirty list.

ghost use Rattle.std.specs.Prelude.{◌≡◌, ℕ, ◌+◌, ◌-◌, ◌<◌, ◌≤◌, ◌/◌, ◌%◌, ◌^◌, [], length, take, min, if◌then◌else◌, true, is_some, unwrap_or, slice_get, Contains, Some, None, IsSome, OnOk, OnErr, IfOk, IfSome, IfNone};
ghost use Rattle.std.specs.Option.{option_copied};
ghost use Rattle.std.specs.FinMap.{get, len, empty};
ghost use Rattle.sl_model.specs.Pages.{IsWidth, byte_at, bytes_at, load_at, store_at, low_bytes};
ghost use Rattle.sl_model.specs.Mapping.{map_page, map_pages};
ghost use Rattle.sl_model.specs.Marks.{MarksGoOn};
ghost use Rattle.sl_model.specs.declared.layout.TheConstants.{PROGRAM_PAGES, MOST_PAGES};
ghost use Rattle.page_frames.specs.DirtyWalk.{left_to_walk, walk_from};
ghost use Rattle.page_frames.specs.MarkedPages.{IsKept, with_page, with_pages, with_bytes};

use crate::frame::{Frame, PAGE_LEN, bytes_of};
use sl_base::Memory;
use sl_model::Bus;
use std::alloc::Global;
use std::collections::BTreeMap;
use std::marker::Model;

/// The mapped pages of a program, at most 16,384, with the list of those that changed, which are
/// called dirty.
#[derive(Drop)]
pub struct TreeFrames {
    frames: BTreeMap<u32, Frame>,
    dirty: Vec<u32>,
}

impl Model for TreeFrames {
    ghost use Rattle.page_frames.specs.MarkedPages.{MarkedPages, marked_pages_code};

    ghost Value = { MarkedPages };

    ghost coded = { marked_pages_code };

    ghost use Rattle.tree_frames.specs.Fields.{marked_pages_of, AreFields};

    ghost view = { marked_pages_of };

    ghost invariant = { AreFields };
}

impl TreeFrames {
    /// No page is mapped, and none is dirty.
    pub fn new(alloc: Global) -> Result<TreeFrames, Memory>
        ensures pages { IfOk result (λ f. f.pages ≡ empty) }
        ensures dirty { IfOk result (λ f. f.dirty ≡ []) }
    {
        Ok(TreeFrames {
            frames: BTreeMap::new(alloc),
            dirty: Vec::new(alloc),
        })
    }

    /// Maps a page of zeros, which is dirty. A page that is mapped stays as it is. An `Err` changes
    /// nothing.
    pub fn map_page(&mut self, page: u32) -> Result<(), Memory>
        requires below { page < PROGRAM_PAGES }
        requires few { len self.old.pages < MOST_PAGES }
        ensures ok { OnOk result (self.new ≡ with_page self.old page) }
        ensures one_more { len self.new.pages ≤ len self.old.pages + 1 }
        ensures err { OnErr result (self.new ≡ self.old) }
    {
        if self.frames.contains_key(&page) {
            return Ok(());
        }
        let place = self.dirty.len();
        self.dirty.reserve(self.frames.len() + 1 - place)?;
        self.frames.insert(page, Frame::zeros(place))?;
        self.dirty.push_reserved(page);
        Ok(())
    }

    /// Maps pages of zeros, so many from one on, as `map_page` maps one. After an `Err` some of
    /// them are mapped.
    pub fn map_pages(&mut self, first: u32, count: u32) -> Result<(), Memory>
        requires below { first + count ≤ PROGRAM_PAGES }
        requires few { len (map_pages self.old.pages first count) ≤ MOST_PAGES }
        ensures ok { OnOk result (self.new ≡ with_pages self.old first count) }
        ensures pages { OnOk result (self.new.pages ≡ map_pages self.old.pages first count) }
    {
        for page in first..first + count {
            self.map_missing(page)?;
        }
        Ok(())
    }

    /// Maps a page of zeros where it is not mapped, for which there is room then.
    fn map_missing(&mut self, page: u32) -> Result<(), Memory>
        requires below { page < PROGRAM_PAGES }
        requires few { len (map_page self.old.pages page) ≤ MOST_PAGES }
        ensures { OnOk result (self.new ≡ with_page self.old page) }
    {
        match self.page(page) {
            Some(_) => Ok(()),
            None => self.map_page(page),
        }
    }

    /// Whether `len` bytes from an address on are mapped. No byte from 2^32 on is.
    pub fn is_mapped(&self, addr: u32, len: u32) -> bool
        ensures { result ≡ is_some (bytes_at self.now.pages addr len) }
    {
        let mut addr = u64::from(addr);
        let mut left = u64::from(len);
        while left > 0 {
            if !self.frames.contains_key(&((addr / 4096) as u32)) {
                return false;
            }
            let count = in_page(addr, left);
            addr += count;
            left -= count;
        }
        true
    }

    /// The bytes of a page, or `None` where it is not mapped.
    #[tactic(auto, using(crate::proofs::Views::get_pages))]
    pub fn page(&self, page: u32) -> Option<&[u8]>
        ensures bytes { option_copied result ≡ get self.now.pages page }
        ensures kept { IsKept self.now }
    {
        let frame = self.frames.get(&page)?;
        Some(frame.bytes.as_slice())
    }

    /// The least page from a number on that is mapped, or `None` where there is none.
    pub fn next_mapped(&self, from: u32) -> Option<u32>
        ensures none { IfNone result ((page : ℕ) → from ≤ page → get self.now.pages page ≡ None) }
        ensures above { IfSome result (λ next. from ≤ next) }
        ensures mapped { IfSome result (λ next. IsSome (get self.now.pages next)) }
        ensures least { IfSome result (λ next. (page : ℕ)
            → from ≤ page → page < next → get self.now.pages page ≡ None) }
    {
        let (page, _) = self.frames.range(from..).next()?;
        Some(*page)
    }

    /// Writes bytes from an address on, and marks their pages as dirty, as a store does.
    pub fn copy_in(&mut self, addr: u32, bytes: &[u8])
        requires { IsSome (bytes_at self.old.pages addr (length bytes.now)) }
        ensures { self.new ≡ with_bytes self.old addr bytes.now }
    {
        let mut addr = u64::from(addr);
        let mut rest = bytes;
        while !rest.is_empty() {
            let count = in_page(addr, rest.len() as u64);
            let (here, beyond) = rest.split_at(count as usize);
            self.copy_into_page(addr, here);
            addr += count;
            rest = beyond;
        }
    }

    /// Writes bytes that lie in one page.
    fn copy_into_page(&mut self, addr: u64, bytes: &[u8])
        requires address { addr < 2 ^ 33 }
        requires some { 0 < length bytes.now }
        requires within { addr % 4096 + length bytes.now ≤ 4096 }
        requires mapped { IsSome (get self.old.pages (addr / 4096)) }
        ensures bytes { self.new ≡ with_bytes self.old addr bytes.now }
        ensures address { addr < 2 ^ 32 }
    {
        let page = (addr / 4096) as u32;
        let Some(frame) = self.frames.get_mut(&page) else {
            unreachable!()
        };
        frame.copy_in((addr % 4096) as usize, bytes);
        frame.mark(&mut self.dirty, page);
    }

    /// No page is dirty any more.
    pub fn clear_dirty(&mut self)
        ensures { self.new ≡ record self.old { dirty = [] } }
    {
        self.cut_dirty(0);
    }

    /// Only the first `len` dirty pages, in the order of marking, are still dirty.
    pub fn cut_dirty(&mut self, len: u32)
        requires { len ≤ length self.old.dirty }
        ensures { self.new ≡ record self.old { dirty = take len self.old.dirty } }
    {
        while self.dirty_len() > len {
            self.unmark_last();
        }
    }

    /// The page that was marked last is no longer dirty.
    fn unmark_last(&mut self)
        requires { 0 < length self.old.dirty }
        ensures { let left = length self.old.dirty - 1 in
            self.new ≡ record self.old { dirty = take left self.old.dirty } }
    {
        let Some(page) = self.dirty.pop() else {
            unreachable!()
        };
        let Some(frame) = self.frames.get_mut(&page) else {
            unreachable!()
        };
        frame.place = None;
    }

    /// How many pages are dirty.
    pub fn dirty_len(&self) -> u32
        ensures count { result ≡ length self.now.dirty }
        ensures kept { IsKept self.now }
    {
        self.dirty.len() as u32
    }

    /// The first dirty page, or the one after `at` in the order of marking, or `None` where there
    /// is none.
    pub fn next_dirty(&self, at: Option<u32>) -> Option<u32>
        requires { IfSome at (Contains self.now.dirty) }
        ensures first { IfNone at (result ≡ slice_get self.now.dirty 0) }
        ensures next { IfSome at (λ page. (i : ℕ)
            → slice_get self.now.dirty i ≡ Some page → result ≡ slice_get self.now.dirty (i + 1)) }
        ensures dirty { IfSome result (Contains self.now.dirty) }
        ensures walk { left_to_walk self.now.dirty at ≡ walk_from self.now.dirty result }
    {
        self.dirty_behind(at)
    }

    /// The first dirty page, or the one in the place behind that of `at`.
    fn dirty_behind(&self, at: Option<u32>) -> Option<u32>
        requires { IfSome at (Contains self.now.dirty) }
        ensures first { IfNone at (result ≡ slice_get self.now.dirty 0) }
        ensures next { IfSome at (λ page. (i : ℕ)
            → slice_get self.now.dirty i ≡ Some page → result ≡ slice_get self.now.dirty (i + 1)) }
        ensures dirty { IfSome result (Contains self.now.dirty) }
        ensures kept { IsKept self.now }
    {
        let index = match at {
            None => 0,
            Some(page) => self.frames.get(&page)?.place? + 1,
        };
        self.dirty.get(index).copied()
    }

    /// The byte at an address, or `None` where it is not mapped.
    #[tactic(auto, using(crate::proofs::Views::get_pages), unfolding(sl_model::specs::Pages::byte_at))]
    fn byte(&self, addr: u64) -> Option<u8>
        requires { addr < 2 ^ 33 }
        ensures { result ≡ byte_at self.now.pages addr }
    {
        let frame = self.frames.get(&((addr / 4096) as u32))?;
        Some(frame.bytes[(addr % 4096) as usize])
    }
}

impl TreeFrames {
    /// The number in some bytes, which may lie in two pages.
    #[cold]
    #[inline(never)]
    fn load_across(&self, addr: u64, count: u8) -> Option<u32>
        requires address { addr + count < 2 ^ 33 }
        requires few { count ≤ 4 }
        ensures value { result ≡ load_at self.now.pages addr count }
        ensures fits { IfSome result (λ n. n < 256 ^ count) }
    {
        if count == 0 {
            return Some(0);
        }
        let byte = self.byte(addr)?;
        let rest = self.load_across(addr + 1, count - 1)?;
        Some(u32::from(byte) + 256 * rest)
    }

    /// Writes bytes that may lie in two pages, where all of them are mapped.
    #[cold]
    #[inline(never)]
    fn store_across(&mut self, addr: u32, bytes: &[u8]) -> bool
        requires { length bytes.now ≤ 4 }
        ensures mapped { result ≡ is_some (bytes_at self.old.pages addr (length bytes.now)) }
        ensures contents { self.new
            ≡ (if result then with_bytes self.old addr bytes.now else self.old) }
    {
        if !self.is_mapped(addr, bytes.len() as u32) {
            return false;
        }
        self.copy_in(addr, bytes);
        true
    }

    /// Writes the low `width` bytes of a value, where all of them are mapped.
    #[inline(always)]
    fn put(&mut self, addr: u32, width: u8, value: u32) -> bool
        requires { IsWidth width }
        ensures mapped { result ≡ is_some (bytes_at self.old.pages addr width) }
        ensures contents { self.new
            ≡ (if result then with_bytes self.old addr (low_bytes width value) else self.old) }
    {
        let offset = (addr % 4096) as usize;
        if offset + usize::from(width) > PAGE_LEN {
            return self.store_across(addr, &bytes_of(value)[..width as usize]);
        }
        let page = addr / 4096;
        let Some(frame) = self.frames.get_mut(&page) else {
            return false;
        };
        frame.store(offset, width, value);
        frame.mark(&mut self.dirty, page);
        true
    }
}

impl Bus for TreeFrames {
    ghost pages = { λ f. f.pages };

    ghost marked = { λ f. f.dirty };

    ghost is_marking = { λ _. true };

    ghost fixed = { λ _. tt };

    #[inline(always)]
    fn load(&self, addr: u32, width: u8) -> Option<u32> {
        let offset = (addr % 4096) as usize;
        if offset + usize::from(width) > PAGE_LEN {
            return self.load_across(u64::from(addr), width);
        }
        let frame = self.frames.get(&(addr / 4096))?;
        Some(frame.load(offset, width))
    }

    #[inline(always)]
    fn store(&mut self, addr: u32, width: u8, value: u32) -> bool
        requires { IsWidth width }
        ensures mapped { result ≡ is_some (store_at self.old.pages addr width value) }
        ensures bytes { self.new.pages
            ≡ unwrap_or (store_at self.old.pages addr width value) self.old.pages }
        ensures marks { MarksGoOn true self.old.pages self.old.dirty self.new.pages self.new.dirty }
        ensures contents { self.new
            ≡ (if result then with_bytes self.old addr (low_bytes width value) else self.old) }
    {
        self.put(addr, width, value)
    }
}

/// How many of some bytes from an address on lie in the page of the first.
fn in_page(addr: u64, len: u64) -> u64
    ensures { result ≡ min (4096 - addr % 4096) len }
{
    len.min(4096 - addr % 4096)
}

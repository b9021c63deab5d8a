//! The listings of pages, chained by their indexes.

ghost use Rattle.std.specs.Prelude.{◌≡◌, ℕ, ◌+◌, ◌<◌, ◌≤◌, ◌^◌, [], length, vec_len, IfSome, OnOk};
ghost use Rattle.checkpoints.specs.Versions.{IsChain, IsAdded, version_of};

use sl_base::Memory;
use std::alloc::Global;

/// The number of buckets. A page stands in the bucket of the low bits of its number.
pub(crate) const BUCKETS: u32 = 4096;

/// A listing of a page.
#[derive(Drop)]
pub(crate) struct Version {
    /// The number of the page.
    pub(crate) page: u32,
    /// The checkpoint that lists it.
    pub(crate) at: u32,
    /// Its index in the list of that checkpoint.
    pub(crate) place: u32,
    /// The index of the next older listing in its bucket.
    pub(crate) older: Option<u32>,
    /// Whether no older listing is of its page.
    pub(crate) is_first: bool,
}

/// All listings, in the order of the checkpoints and of their lists. Each bucket begins with its
/// newest listing, and the others are reached through it, newest first.
#[derive(Drop)]
pub(crate) struct Versions {
    /// The index of the newest listing in each bucket.
    pub(crate) heads: [Option<u32>; 4096],
    pub(crate) items: Vec<Version>,
    /// How many pages are listed up to each checkpoint, from checkpoint 0 on.
    pub(crate) counts: Vec<u32>,
}

impl Versions {
    /// No page is listed, and no checkpoint is counted.
    pub(crate) fn new(alloc: Global) -> Versions
        ensures chain { IsChain result.heads result.items.items }
        ensures none { result.items.items ≡ [] }
        ensures uncounted { result.counts.items ≡ [] }
    {
        Versions {
            heads: [None; 4096],
            items: Vec::new(alloc),
            counts: Vec::new(alloc),
        }
    }

    /// The index of the newest listing of a page among the first ones.
    pub(crate) fn find(&self, page: u32, count: u32) -> Option<u32>
        requires chain { IsChain self.now.heads self.now.items.items }
        requires within { count ≤ vec_len self.now.items }
        ensures index { result ≡ version_of self.now.items.items count page }
        ensures within { IfSome result (λ i. i < vec_len self.now.items) }
    {
        let mut at = self.heads[(page % BUCKETS) as usize];
        while let Some(index) = at {
            let version = &self.items[index as usize];
            if index < count && version.page == page {
                return Some(index);
            }
            at = version.older;
        }
        None
    }

    /// Adds a listing behind the others.
    pub(crate) fn add(&mut self, page: u32, at: u32, place: u32) -> Result<(), Memory>
        requires chain { IsChain self.old.heads self.old.items.items }
        requires few { vec_len self.old.items < 2 ^ 32 }
        ensures chain { IsChain self.new.heads self.new.items.items }
        ensures counts { self.new.counts ≡ self.old.counts }
        ensures added { OnOk result
            (IsAdded page at place self.old.items.items self.new.items.items) }
    {
        let count = self.items.len() as u32;
        let is_first = self.find(page, count).is_none();
        self.items.reserve(1)?;
        let bucket = (page % BUCKETS) as usize;
        let older = self.heads[bucket];
        self.items.push_reserved(Version {
            page,
            at,
            place,
            older,
            is_first,
        });
        self.heads[bucket] = Some(count);
        Ok(())
    }
}

//! Pages that checkpoints list.

ghost use Rattle.std.specs.Prelude.{◌≡◌, ◌+◌, ◌<◌, ◌≤◌, ℕ, List, length, take, slice_get, None, Some, IfSome, unwrap_or, option_copied, vec_len};
ghost use Rattle.sl_model.specs.declared.layout.TheConstants.{PROGRAM_PAGES};
ghost use Rattle.rec_format.specs.Recorded.{end_place, listed_to, last_listing};
ghost use Rattle.checkpoints.specs.Memory.{lesser, missing_from};

use crate::kept::Checkpoints;
use page_frames::Frames;
use rec_format::ListedPage;

/// The lesser of two numbers, where the first is known.
fn lesser(least: Option<u32>, number: u32) -> u32
    ensures { result ≡ lesser least number }
{
    match least {
        Some(known) if known < number => known,
        _ => number,
    }
}

impl Checkpoints {
    /// How many pages are listed up to checkpoint `k`.
    pub(crate) fn count_to(&self, k: u32) -> u32
        requires { k ≤ end_place self.now.rec }
        ensures count { result ≡ length (listed_to self.now.rec k) }
        ensures within { result ≤ vec_len self.now.versions.items }
    {
        self.versions.counts[k as usize]
    }

    /// The listed page that a listing stands for.
    pub(crate) fn listing(&self, index: u32) -> &ListedPage
        requires { index < vec_len self.now.versions.items }
        ensures { let listed = listed_to self.now.rec (end_place self.now.rec) in
            slice_get listed index ≡ Some result.now }
    {
        let version = &self.versions.items[index as usize];
        &self.checkpoint(version.at).pages.as_slice()[version.place as usize]
    }

    /// The bytes of the last listing of a page up to checkpoint `k`.
    pub(crate) fn last_listed(&self, k: u32, page: u32) -> Option<&[u8]>
        requires { k ≤ end_place self.now.rec }
        ensures { (bytes : List ℕ)
            → last_listing bytes (listed_to self.now.rec k) page
            ≡ unwrap_or (option_copied result) bytes }
    {
        match self.versions.find(page, self.count_to(k)) {
            Some(index) => Some(self.listing(index).bytes.as_slice()),
            None => None,
        }
    }

    /// The least page so far, or that of a listing where it is lower and not mapped. A page is
    /// looked at once, at its first listing.
    fn missing_at(&self, index: u32, f: &Frames, least: Option<u32>) -> Option<u32>
        requires { index < vec_len self.now.versions.items }
        ensures { let listed = listed_to self.now.rec (end_place self.now.rec) in
            least ≡ missing_from f.now.pages None (take index listed)
            → result ≡ missing_from f.now.pages None (take (index + 1) listed) }
    {
        let version = &self.versions.items[index as usize];
        if version.is_first && f.page(version.page).is_none() {
            return Some(lesser(least, version.page));
        }
        least
    }

    /// The least page that is listed up to checkpoint `k` and is not mapped.
    pub(crate) fn least_missing(&self, k: u32, f: &Frames) -> Option<u32>
        requires { k ≤ end_place self.now.rec }
        ensures least { result ≡ missing_from f.now.pages None (listed_to self.now.rec k) }
        ensures below { IfSome result (λ page. page < PROGRAM_PAGES) }
    {
        let mut least = None;
        for index in 0..self.count_to(k) {
            least = self.missing_at(index, f, least);
        }
        least
    }
}

//! How a state differs from a checkpoint.

ghost use Rattle.std.specs.Prelude.{◌≡◌, ℕ, ◌-◌, ◌<◌, ◌≤◌, Contains, IsTrue, IfSome};
ghost use Rattle.std.specs.FinMap.{get};
ghost use Rattle.sl_model.specs.State.{State};
ghost use Rattle.sl_model.specs.declared.layout.TheConstants.{PROGRAM_PAGES};
ghost use Rattle.rv_machine.specs.Machine.{state_of};
ghost use Rattle.rec_format.specs.Recorded.{end_place, checkpoint_at, is_listed};
ghost use Rattle.rec_format.specs.Compared.{pages_diff, as_checkpoint_break, checkpoint_break};
ghost use Rattle.rec_format.specs.Compared.{PAGE_NUMBERS};
ghost use Rattle.checkpoints.specs.RecordedRun.{opened_of};
ghost use Rattle.checkpoints.specs.Memory.{mapped_diff, IsUnlike, IsCompared, is_passed};
ghost use Rattle.checkpoints.specs.Memory.{IsFirstUnlike, missing_break, told_first};
ghost use Rattle.checkpoints.specs.Marked.{HoldsRecorded};

use crate::kept::Checkpoints;
use crate::parts::{bytes_break, machine_break};
use call_log::{BreakKind, part};
use page_frames::Frames;
use rv_machine::Machine;

/// A listed page that is not mapped.
fn missing_break(index: u32, page: u32) -> BreakKind
    requires { page < PROGRAM_PAGES }
    ensures { result ≡ missing_break index page }
{
    BreakKind::CheckpointDiffers {
        index,
        part: part::PAGE,
        at: page * 4096,
        recorded: 1,
        replayed: 0,
    }
}

/// What is told of a mapped page that differs and a listed one that is not mapped.
fn told_first(
    index: u32,
    unlike: Option<(u32, BreakKind)>,
    missing: Option<u32>,
) -> Option<BreakKind>
    requires { IfSome missing (λ page. page < PROGRAM_PAGES) }
    ensures { result ≡ told_first index unlike missing }
{
    match (unlike, missing) {
        (None, None) => None,
        (None, Some(page)) => Some(missing_break(index, page)),
        (Some((_, kind)), None) => Some(kind),
        (Some((mapped, kind)), Some(page)) => Some(if mapped < page {
            kind
        } else {
            missing_break(index, page)
        }),
    }
}

/// Whether what is told is of a page that is not above another one.
fn is_passed(least: Option<(u32, BreakKind)>, page: u32) -> bool
    ensures { result ≡ is_passed least page }
{
    match least {
        None => false,
        Some((known, _)) => known <= page,
    }
}

impl Checkpoints {
    /// How a page differs, where it is mapped.
    fn page_break(&self, k: u32, page: u32, f: &Frames) -> Option<BreakKind>
        requires { k ≤ end_place self.now.rec }
        ensures { let opened = self.now.opening.pages in
            result ≡ as_checkpoint_break k
            (mapped_diff opened self.now.rec k page (get f.now.pages page)) }
    {
        let bytes = f.page(page)?;
        bytes_break(k, page * 4096, self.page_at(k, page), bytes)
    }

    /// The page that is told, or another one where that is lower and differs.
    fn compare_page(
        &self,
        k: u32,
        page: u32,
        f: &Frames,
        least: Option<(u32, BreakKind)>,
    ) -> Option<(u32, BreakKind)>
        requires within { k ≤ end_place self.now.rec }
        requires told { IsUnlike self.now.opening.pages self.now.rec k f.now.pages least }
        ensures told { IsUnlike self.now.opening.pages self.now.rec k f.now.pages result }
        ensures here { IsCompared self.now.opening.pages self.now.rec k f.now.pages result page }
        ensures keeps { (q : ℕ)
            → IsCompared self.now.opening.pages self.now.rec k f.now.pages least q
            → IsCompared self.now.opening.pages self.now.rec k f.now.pages result q }
    {
        if is_passed(least, page) {
            return least;
        }
        match self.page_break(k, page, f) {
            Some(kind) => Some((page, kind)),
            None => least,
        }
    }

    /// The least dirty page that differs, and how.
    fn unlike_dirty(&self, k: u32, f: &Frames) -> Option<(u32, BreakKind)>
        requires { k ≤ end_place self.now.rec }
        ensures told { IsUnlike self.now.opening.pages self.now.rec k f.now.pages result }
        ensures dirty { (q : ℕ) → Contains f.now.dirty q
            → IsCompared self.now.opening.pages self.now.rec k f.now.pages result q }
    {
        let mut least = None;
        let mut at = None;
        while let Some(page) = f.next_dirty(at) {
            least = self.compare_page(k, page, f, least);
            at = Some(page);
        }
        least
    }

    /// The page that is told, or the least page listed at checkpoint `k` that is lower and differs.
    fn unlike_listed(
        &self,
        k: u32,
        f: &Frames,
        known: Option<(u32, BreakKind)>,
    ) -> Option<(u32, BreakKind)>
        requires some { 0 < k }
        requires within { k ≤ end_place self.now.rec }
        requires told { IsUnlike self.now.opening.pages self.now.rec k f.now.pages known }
        ensures told { IsUnlike self.now.opening.pages self.now.rec k f.now.pages result }
        ensures keeps { (q : ℕ)
            → IsCompared self.now.opening.pages self.now.rec k f.now.pages known q
            → IsCompared self.now.opening.pages self.now.rec k f.now.pages result q }
        ensures listed { (q : ℕ) → IsTrue (is_listed (checkpoint_at self.now.rec k).pages q)
            → IsCompared self.now.opening.pages self.now.rec k f.now.pages result q }
    {
        let mut least = known;
        for listing in self.checkpoint(k).pages.as_slice() {
            least = self.compare_page(k, listing.number, f, least);
        }
        least
    }

    /// The least mapped page that differs, and how.
    fn first_unlike(&self, k: u32, f: &Frames) -> Option<(u32, BreakKind)>
        requires some { 0 < k }
        requires within { k ≤ end_place self.now.rec }
        requires holds { HoldsRecorded self.now.opening.pages self.now.rec (k - 1) f.now }
        ensures { IsFirstUnlike self.now.opening.pages self.now.rec k f.now.pages result }
    {
        let dirty = self.unlike_dirty(k, f);
        self.unlike_listed(k, f, dirty)
    }

    /// The least page that differs.
    fn memory_break(&self, k: u32, f: &Frames) -> Option<BreakKind>
        requires some { 0 < k }
        requires within { k ≤ end_place self.now.rec }
        requires holds { HoldsRecorded self.now.opening.pages self.now.rec (k - 1) f.now }
        ensures { (s : State) → s.pages ≡ f.now.pages
            → result ≡ as_checkpoint_break k
            (pages_diff self.now.opening.pages self.now.rec k s PAGE_NUMBERS) }
    {
        let _kept = f.dirty_len();
        told_first(k, self.first_unlike(k, f), self.least_missing(k, f))
    }

    /// The least part in which a state differs from checkpoint `k`, with the recorded and the
    /// replayed value, or `None` where it does not differ. Of memory only the dirty pages and those
    /// that are listed at `k` are compared, and of the others that are listed by then, whether they
    /// are mapped: each other mapped page holds what the checkpoint before records.
    pub fn differs(&self, k: u32, m: &Machine, f: &Frames) -> Option<BreakKind>
        requires some { 0 < k }
        requires within { k ≤ end_place self.now.rec }
        requires holds { HoldsRecorded self.now.opening.pages self.now.rec (k - 1) f.now }
        ensures { let opened = opened_of self.now in
            result ≡ checkpoint_break opened.pages self.now.rec k
            (checkpoint_at self.now.rec k) (state_of m.now f.now.pages) }
    {
        let found = machine_break(k, self.checkpoint(k), m);
        if found.is_some() {
            return found;
        }
        self.memory_break(k, f)
    }
}

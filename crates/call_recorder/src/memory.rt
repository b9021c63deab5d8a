//! Memory as the last checkpoint records it.

ghost use Rattle.std.specs.Prelude.{◌≡◌, ℕ, ◌==◌, IfOk, OnOk, if◌then◌else◌};
ghost use Rattle.sl_model.specs.Mapping.{zero_page};
ghost use Rattle.rec_format.specs.Recorded.{last_listing};
ghost use Rattle.call_recorder.specs.Kept.{recorded_in};

use page_frames::Frames;
use rec_format::ListedPage;
use sl_base::{Memory, Seq};
use std::alloc::{AllocError, Global};
use std::collections::BTreeMap;

/// The bytes of `zeros`.
static ZEROS: [u8; 4096] = [0; 4096];

/// A page of zeros.
fn zeros() -> &'static [u8]
    ensures { result.now ≡ zero_page }
{
    &ZEROS
}

/// Memory as the last checkpoint records it: the opening memory, and of each page that was listed the last listing.
#[derive(Drop)]
pub(crate) struct RecordedMemory {
    pub(crate) opening: Frames,
    pub(crate) listed: BTreeMap<u32, Seq<u8>>,
}

/// The bytes of a page, once more.
fn copy_of(alloc: Global, bytes: &Seq<u8>) -> Result<Seq<u8>, AllocError>
    ensures { IfOk result (λ copy. copy ≡ bytes.now) }
{
    Ok(Seq::from_vec(Vec::from_slice(alloc, bytes.as_slice())?))
}

impl RecordedMemory {
    /// The bytes that are recorded of a page.
    pub(crate) fn page(&self, number: u32) -> &[u8]
        ensures { result.now ≡ recorded_in self.now number }
    {
        match self.listed.get(&number) {
            Some(bytes) => bytes.as_slice(),
            None => match self.opening.page(number) {
                Some(bytes) => bytes,
                None => zeros(),
            },
        }
    }

    /// Records a page as it is listed.
    fn list(&mut self, alloc: Global, page: &ListedPage) -> Result<(), Memory>
        ensures { OnOk result ((q : ℕ) → recorded_in self.new q
            ≡ (if page.now.number == q then page.now.bytes else recorded_in self.old q)) }
    {
        self.listed
            .insert(page.number, copy_of(alloc, &page.bytes)?)?;
        Ok(())
    }

    /// The same for listed pages in order.
    pub(crate) fn list_all(&mut self, alloc: Global, pages: &[ListedPage]) -> Result<(), Memory>
        ensures { OnOk result ((q : ℕ) → recorded_in self.new q
            ≡ last_listing (recorded_in self.old q) pages.now q) }
    {
        for page in pages {
            self.list(alloc, page)?;
        }
        Ok(())
    }
}

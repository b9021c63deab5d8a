//! Listed pages that are put into memory.

ghost use Rattle.std.specs.Prelude.{◌≡◌, ◌<◌, ◌≤◌, List, ◌∷◌, slice_get, Some, vec_len};
ghost use Rattle.sl_model.specs.Pages.{Pages};
ghost use Rattle.rec_format.specs.declared.recording.ListedPage.{ListedPage as Listed};
ghost use Rattle.rec_format.specs.Rules.{IsListedPage};
ghost use Rattle.rec_format.specs.Recorded.{end_place, listed_to, put_all_listed};
ghost use Rattle.checkpoints.specs.Putting.{ArePut};

use crate::kept::Checkpoints;
use page_frames::Frames;
use rec_format::ListedPage;

/// Puts a listed page into memory, where it is mapped and no later listing of it was put.
fn put_page(frames: &mut Frames, page: &ListedPage)
    requires { IsListedPage page.now }
    ensures { (before : Pages) (later : List Listed)
        → ArePut before later frames.old → ArePut before (page.now ∷ later) frames.new }
{
    let is_mapped = frames.page(page.number).is_some();
    if is_mapped && !frames.is_dirty(page.number) {
        frames.copy_in(page.number * 4096, page.bytes.as_slice());
    }
}

impl Checkpoints {
    /// The same for the page of a listing. One that was put is not looked up.
    fn put_listing(&self, frames: &mut Frames, index: u32)
        requires { index < vec_len self.now.versions.items }
        ensures { let listed = listed_to self.now.rec (end_place self.now.rec) in
            (before : Pages) (later : List Listed) (page : Listed)
            → slice_get listed index ≡ Some page → ArePut before later frames.old
            → ArePut before (page ∷ later) frames.new }
    {
        if !frames.is_dirty(self.versions.items[index as usize].page) {
            put_page(frames, self.listing(index));
        }
    }

    /// The same for all pages that are listed up to checkpoint `k`: the bytes of each page are
    /// written once, from its last listing. The pages that were written are dirty then.
    pub(crate) fn put_lists(&self, frames: &mut Frames, k: u32)
        requires { k ≤ end_place self.now.rec }
        ensures { frames.new.pages ≡ put_all_listed frames.old.pages (listed_to self.now.rec k) }
    {
        frames.clear_dirty();
        let mut left = self.count_to(k);
        while left > 0 {
            left -= 1;
            self.put_listing(frames, left);
        }
    }
}

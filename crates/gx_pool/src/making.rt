//! Pages that are made in frames.
ghost use Rattle.std.specs.Prelude.{◌≡◌, ◌<◌, ◌≤◌, false, None, IsSome, length, slice_index_or};
ghost use Rattle.gx_page.specs.Edits.{blank};

use crate::frames::Frames;
use gx_disk::MAX_PAGES;

impl Frames {
    ghost use Rattle.gx_pool.specs.Marks.{clean};
    ghost use Rattle.gx_pool.specs.Creating.{Creates, Copies, Makes};
    ghost use Rattle.gx_pool.specs.Edits.{numbered};
    ghost use Rattle.gx_pool.specs.State.{IsSpare, clean_count, kept, mark_at};

    /// Gives a clean frame to a page that isn't kept: blank, and with a change of a batch.
    pub(crate) fn create(&mut self, page: u32, level: u16, batch: u64)
        requires page { (page ≤ MAX_PAGES) × (kept self.old page ≡ None) }
        requires number { 1 ≤ page }
        requires frame { 0 < clean_count self.old }
        ensures { Creates self.old self.new page level batch }
    {
        match self.frame_to_use() {
            Some(i) => {
                self.vacate(i);
                self.reset(i, page, level);
                self.settle(i, page, Some(batch));
            }
            None => unreachable!(),
        }
    }

    /// Gives a clean frame to a page that isn't kept: a copy of one that is and that doesn't go, under its own number,
    /// and with a change of a batch.
    pub(crate) fn create_as(&mut self, page: u32, from: u32, batch: u64)
        requires page { (page ≤ MAX_PAGES) × (kept self.old page ≡ None) }
        requires number { 1 ≤ page }
        requires from { (from ≤ MAX_PAGES) × IsSome (kept self.old from) }
        requires stays { ¬ IsSpare self.old from }
        requires frame { 0 < clean_count self.old }
        ensures { Copies self.old self.new page from batch }
    {
        match self.place(from) {
            Some(source) => self.copy_frame(page, source, batch),
            None => unreachable!(),
        }
    }

    /// Gives a clean frame to a page that isn't kept: a copy of the page in a frame that isn't clean.
    fn copy_frame(&mut self, page: u32, source: usize, batch: u64)
        requires page { (page ≤ MAX_PAGES) × (kept self.old page ≡ None) }
        requires number { 1 ≤ page }
        requires source { (source < length self.old.marks) × (clean self.old.held (mark_at self.old source) ≡ false) }
        requires frame { 0 < clean_count self.old }
        ensures { Makes self.old self.new page (numbered (slice_index_or self.old.pages source (blank 0 0)) page)
            batch }
    {
        match self.frame_to_use() {
            Some(target) => {
                self.vacate(target);
                self.copy(source, target, page);
                self.settle(target, page, Some(batch));
            }
            None => unreachable!(),
        }
    }
}

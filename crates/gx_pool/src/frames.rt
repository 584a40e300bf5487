//! Frames, and the table of which page is in which.
ghost use Rattle.std.specs.Prelude.{◌≡◌, ◌≢◌, ◌<◌, ◌≤◌, ◌+◌, ◌*◌, ◌↔◌, ⊤, ℕ, true, false, IsTrue, IsSome, IfOk, OnOk};
ghost use Rattle.std.specs.Prelude.{OnErr, IfSome, IfNone, Some, None, length, count_by, slice_index_or, nat_le, max};
ghost use Rattle.std.specs.Borrow.{sem};
ghost use Rattle.std.specs.Bool.{OnTrue, OnFalse};
ghost use Rattle.gx_page.specs.Edits.{blank};
ghost use Rattle.gx_page.specs.Faults.{fault_of};
ghost use Rattle.gx_page.specs.Reading.{IsImage, read_of};

use crate::mark::{self, FrameMark, HELD};
use crate::queue::Queue;
use arrayvec::ArrayVec;
use gx_disk::MAX_PAGES;
use gx_page::{Page, PageFault};
use std::alloc::{AllocError, Global};
use std::marker::Model;

/// How many frames a pool has at most.
pub const FRAMES: usize = 4096;

/// Frames with pages, and the frame of each page by its number.
#[derive(Drop)]
pub struct Frames {
    pages: Vec<Page>,
    marks: Vec<FrameMark>,
    places: Vec<Option<u16>>,
    held: ArrayVec<u32, HELD>,
    gated: u64,
    hand: usize,
    dirty: usize,
    queue: Queue,
}

impl Model for Frames {
    ghost use Rattle.std.specs.Prelude.{◌≡◌, ◌≤◌, count_by, length};
    ghost use Rattle.gx_pool.specs.Marks.{is_dirty};
    ghost use Rattle.gx_pool.specs.Queues.{AreListed};
    ghost use Rattle.gx_pool.specs.State.{State, IsSound};

    ghost Value = { State };

    ghost view = { λ s. record {
      pages = s.pages.items;
      marks = s.marks.items;
      places = s.places.items;
      held = s.held.items;
      gated = s.gated;
    } };

    ghost invariant = { λ s. IsSound (record {
      pages = s.pages.items;
      marks = s.marks.items;
      places = s.places.items;
      held = s.held.items;
      gated = s.gated;
    }) × (s.hand ≤ length s.marks.items)
        × (s.dirty ≡ count_by is_dirty s.marks.items)
        × AreListed s.gated s.marks.items s.queue };
}

impl Frames {
    ghost use Rattle.gx_pool.specs.Lending.{LendsPage, LendsChange};
    ghost use Rattle.gx_pool.specs.Marks.{clean, empty, is_gated};
    ghost use Rattle.gx_pool.specs.State.{State, IsEmpty, IsSound, place_of, mark_at, kept, stamp_of};
    ghost use Rattle.gx_pool.specs.State.{clean_count, dirty_count, held_clean, is_clean_page, is_counted};
    ghost use Rattle.gx_pool.specs.State.{NoneClean, NoneDirty, IsWritable, NoCleanLeaf, is_upper_at};
    ghost use Rattle.gx_pool.specs.Edits.{numbered, vacated, with_page, settled, stamped};

    /// So many empty frames, with the table of pages.
    #[tactic(auto, using(crate::proofs::Places::empty_sound, crate::proofs::Places::kept_none))]
    pub(crate) fn with_capacity(alloc: Global, frames: usize) -> Result<Frames, AllocError>
        requires { frames ≤ FRAMES }
        ensures { IfOk result (λ s. IsEmpty frames s) }
    {
        Ok(Frames {
            pages: mark::blank_pages(alloc, frames)?,
            marks: mark::empty_marks(alloc, frames)?,
            places: mark::empty_places(alloc, MAX_PAGES + 1)?,
            held: ArrayVec::new(),
            gated: 0,
            hand: 0,
            dirty: 0,
            queue: Queue::none(alloc)?,
        })
    }

    /// The frame of a page.
    pub(crate) fn place(&self, page: u32) -> Option<usize>
        requires { page ≤ MAX_PAGES }
        ensures place { result ≡ place_of self.now page }
        ensures inside { IfSome result (λ i. i < length self.now.marks) }
        ensures sound { IsSound self.now }
    {
        mark::place_in(&self.places, page as usize)
    }

    /// Whether a page is kept.
    #[tactic(auto, using(crate::proofs::Places::some_kept, crate::proofs::Places::kept_none))]
    pub(crate) fn is_kept(&self, page: u32) -> bool
        requires { page ≤ MAX_PAGES }
        ensures kept { OnTrue result (IsSome (kept self.now page)) }
        ensures absent { OnFalse result (kept self.now page ≡ None) }
    {
        match self.place(page) {
            Some(_) => true,
            None => false,
        }
    }

    /// The page in a frame.
    pub(crate) fn page_in(&self, i: usize) -> &Page
        requires { i < length self.now.marks }
        ensures { result.now ≡ slice_index_or self.now.pages i (blank 0 0) }
    {
        &self.pages[i]
    }

    /// A page that is kept.
    pub(crate) fn kept_page(&self, page: u32) -> &Page
        requires page { page ≤ MAX_PAGES }
        requires kept { IsSome (kept self.now page) }
        ensures { IfSome (kept self.now page) (λ k. result.now ≡ k.page) }
    {
        match self.place(page) {
            Some(i) => self.page_in(i),
            None => unreachable!(),
        }
    }

    /// Chooses the frame for a page that is brought.
    pub(crate) fn frame_to_use(&mut self) -> Option<usize>
        ensures found { IfSome result (λ i. (i < length self.old.marks)
            × (clean self.old.held (mark_at self.old i) ≡ true)) }
        ensures first { IfSome result (λ i. is_upper_at self.old i ≡ true → NoCleanLeaf self.old) }
        ensures none { IfNone result (NoneClean self.old) }
        ensures unchanged { self.new ≡ self.old }
        ensures sound { IsSound self.old }
    {
        let found = mark::frame_to_use(&self.marks, &self.pages, &self.held, self.hand);
        if let Some(i) = found {
            self.hand = i + 1;
        }
        found
    }

    /// Empties a frame.
    #[tactic(auto, using(crate::proofs::Places::vacated_sound))]
    pub(crate) fn vacate(&mut self, i: usize)
        requires { i < length self.old.marks }
        ensures vacated { self.new ≡ vacated self.old i }
        ensures sound { IsSound self.old }
    {
        let mark = mark::mark_in(&self.marks, i);
        mark::forget(&mut self.places, mark.page);
        self.dirty = mark::set_mark(&mut self.marks, i, FrameMark::empty(), self.dirty);
    }

    /// Reads an image into an empty frame.
    #[tactic(auto, using(crate::proofs::Places::with_page_sound))]
    pub(crate) fn load(&mut self, i: usize, bytes: &[u8]) -> Result<(), PageFault>
        requires { i < length self.old.marks }
        ensures loaded { OnOk result (IsImage bytes.now × (self.new ≡ with_page self.old i (read_of bytes.now))) }
        ensures fault { OnErr result ((fault_of bytes.now ≢ None) × (self.new ≡ self.old)) }
        ensures faultless { (fault_of bytes.now ≡ None) ↔ IsImage bytes.now }
    {
        self.pages[i].load(bytes)
    }

    /// Gives an empty frame to a page that has none.
    #[tactic(auto, using(crate::proofs::Places::settled_sound))]
    pub(crate) fn settle(&mut self, i: usize, page: u32, stamp: Option<u64>)
        requires frame { (i < length self.old.marks) × ((mark_at self.old i).page ≡ None) }
        requires page { (page ≤ MAX_PAGES) × (place_of self.old page ≡ None) }
        requires number { 1 ≤ page }
        ensures { self.new ≡ settled self.old i page stamp }
    {
        let mark = FrameMark {
            page: Some(page),
            stamp,
        };
        self.queue.list(page, stamp, self.gated);
        self.dirty = mark::set_mark(&mut self.marks, i, mark, self.dirty);
        self.places[page as usize] = Some(i as u16);
    }

    /// Makes the page in an empty frame blank.
    #[tactic(auto, using(crate::proofs::Places::with_page_sound))]
    pub(crate) fn reset(&mut self, i: usize, page: u32, level: u16)
        requires { i < length self.old.marks }
        ensures { self.new ≡ with_page self.old i (blank level page) }
    {
        self.pages[i].reset(level, page);
    }

    /// Copies the page of one frame into another, under another number.
    #[tactic(auto, using(crate::proofs::Places::with_page_sound))]
    pub(crate) fn copy(&mut self, from: usize, to: usize, number: u32)
        requires inside { (from < length self.old.marks) × (to < length self.old.marks) }
        requires apart { from ≢ to }
        ensures { self.new ≡ with_page self.old to (numbered (slice_index_or self.old.pages from (blank 0 0)) number) }
    {
        mark::copy_page(&mut self.pages, from, to, number);
    }

    /// How many frames are empty or have a clean page that isn't held.
    pub(crate) fn clean_frames(&self) -> usize
        ensures { result ≡ clean_count self.now }
    {
        self.marks.len() - self.dirty - self.held_clean()
    }

    /// How many frames have a dirty page.
    pub(crate) fn dirty_frames(&self) -> usize
        ensures count { result ≡ dirty_count self.now }
        ensures few { result ≤ length self.now.marks }
        ensures zero { (result ≡ 0) ↔ NoneDirty self.now }
        ensures sound { IsSound self.now }
        ensures held { length self.now.held ≤ 4 }
    {
        // for its contract, which bounds how many are held
        let _ = self.held.len();
        self.dirty
    }

    /// How many of the held pages are clean in a frame, each counted once.
    #[tactic(auto, using(crate::proofs::Numbers::one_clean, crate::proofs::Numbers::no_clean))]
    fn held_clean(&self) -> usize
        ensures { result ≡ held_clean self.now (length self.now.held) }
    {
        let mut count = 0;
        for k in 0..self.held.len() {
            if self.is_counted(k) {
                count += 1;
            }
        }
        count
    }

    /// Whether a held page is none of those before it, and is clean in a frame.
    fn is_counted(&self, k: usize) -> bool
        requires { k < length self.now.held }
        ensures { result ≡ is_counted self.now k }
    {
        let page = self.held[k];
        !mark::is_among(page, &self.held[..k]) && self.is_clean_page(page)
    }

    /// Whether a page is kept clean.
    fn is_clean_page(&self, page: u32) -> bool
        ensures { result ≡ is_clean_page self.now page }
    {
        let count = self.places.len();
        if page as usize >= count {
            return false;
        }
        match self.place(page) {
            Some(i) => self.mark(i).stamp.is_none(),
            None => false,
        }
    }

    /// Stamps the page in a frame, or marks it as clean.
    #[tactic(auto, using(crate::proofs::Places::stamped_sound))]
    pub(crate) fn stamp(&mut self, i: usize, page: u32, stamp: Option<u64>)
        requires frame { i < length self.old.marks }
        requires page { (mark_at self.old i).page ≡ Some page }
        ensures stamped { self.new ≡ stamped self.old i stamp }
        ensures sound { IsSound self.old }
    {
        let mark = mark::mark_in(&self.marks, i);
        self.queue.list(page, stamp, self.gated);
        self.dirty = mark::set_mark(&mut self.marks, i, FrameMark { stamp, ..mark }, self.dirty);
    }

    /// A page that is kept, to change, as of a batch.
    pub(crate) fn change_kept(&mut self, page: u32, batch: u64) -> &mut Page
        requires page { page ≤ MAX_PAGES }
        requires kept { IsSome (kept self.old page) }
        ensures* writes_back { sem 𝓛 (LendsChange self.entry page batch result) }
        ensures page { IfSome (kept self.old page) (λ k. result.now ≡ k.page) }
        ensures sound { IsSound self.old }
    {
        match self.place(page) {
            Some(i) => {
                let stamp = mark::later(batch, self.mark(i).stamp);
                self.stamp(i, page, Some(stamp));
                self.page_mut(i)
            }
            None => unreachable!(),
        }
    }

    /// The page in a frame, to change.
    #[tactic(auto, using(crate::proofs::Places::with_page_sound))]
    pub(crate) fn page_mut(&mut self, i: usize) -> &mut Page
        requires { i < length self.old.marks }
        ensures* writes_back { sem 𝓛 (LendsPage self.entry i result) }
        ensures page { result.now ≡ slice_index_or self.old.pages i (blank 0 0) }
        ensures sound { IsSound self.old }
    {
        &mut self.pages[i]
    }

    /// What is known of a frame besides its page.
    pub(crate) fn mark(&self, i: usize) -> FrameMark
        requires { i < length self.now.marks }
        ensures { result ≡ mark_at self.now i }
    {
        self.marks[i]
    }

    /// The least page that may be written.
    pub(crate) fn dirty(&self) -> Option<u32>
        ensures found { IfSome result (λ page. IsWritable self.now page
            × ((q : ℕ) → IsWritable self.now q → page ≤ q)) }
        ensures none { IfNone result ((q : ℕ) → IsWritable self.now q → ⊥) }
    {
        let mut from = 0;
        while let Some(page) = self.queue.ready.first(from) {
            let page = page as u32;
            if self.writable(page).is_some() {
                return Some(page);
            }
            from = page as usize + 1;
        }
        None
    }

    /// The frame of a page that may be written.
    #[tactic(auto, using(crate::proofs::Places::placed_gated, crate::proofs::Places::unplaced_gated))]
    pub(crate) fn writable(&self, page: u32) -> Option<usize>
        requires { page ≤ MAX_PAGES }
        ensures some { IfSome result (λ i. (is_gated self.now.gated (stamp_of (kept self.now page)) ≡ true)
            × (place_of self.now page ≡ Some i) × (i < length self.now.marks)) }
        ensures none { IfNone result (is_gated self.now.gated (stamp_of (kept self.now page)) ≡ false) }
        ensures sound { IsSound self.now }
    {
        match self.place(page) {
            Some(i) => {
                if self.mark(i).is_gated(self.gated) {
                    Some(i)
                } else {
                    None
                }
            }
            None => None,
        }
    }

    /// Holds these pages and no others.
    pub(crate) fn hold(&mut self, pages: &[u32])
        requires { length pages.now ≤ HELD }
        ensures { self.new ≡ record self.old { held = pages.now } }
    {
        mark::hold(&mut self.held, pages);
    }

    /// The last batch that is gated.
    pub(crate) fn gated(&self) -> u64
        ensures { result ≡ self.now.gated }
    {
        self.gated
    }

    /// Notes up to which batch all are gated.
    #[tactic(auto, using(crate::proofs::frames::Queues::none_below, crate::proofs::frames::Queues::sound_placed))]
    pub(crate) fn set_gated(&mut self, batch: u64)
        ensures { self.new ≡ record self.old { gated = batch } }
    {
        self.queue.tell(&self.marks, &self.places, batch);
        self.gated = batch;
    }
}

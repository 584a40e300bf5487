//! What is known of a frame besides its page.
ghost use Rattle.std.specs.Prelude.{◌≡◌, ◌≢◌, ◌==◌, ◌<◌, ◌+◌, ◌≤◌, true, false, cond, ℕ, length, count_by};
ghost use Rattle.std.specs.Prelude.{slice_index_or, slice_set, Some, None, MatchOption, IfSome, IfNone, IfOk};
ghost use Rattle.std.specs.List.{list_any};
ghost use Rattle.gx_page.specs.Edits.{blank};
ghost use Rattle.gx_pool.specs.declared.frames.TheConstants.{FRAMES};
ghost use Rattle.gx_pool.specs.Edits.{forgotten, later, numbered};
ghost use Rattle.gx_pool.specs.Marks.{clean, empty, is_dirty, is_gated, is_upper};
ghost use Rattle.gx_pool.specs.Marks.{NoLeaf, NoLeafBetween};
ghost use Rattle.gx_pool.specs.Queues.{ArePlaced};

use arrayvec::ArrayVec;
use gx_page::Page;
use std::alloc::{AllocError, Global};

/// How many pages an event may hold.
pub const HELD: usize = 4;

/// What a frame holds: the number of its page, none for an empty frame; and the greatest batch that has a change of it,
/// none if it is clean.
#[derive(Clone, Copy)]
pub struct FrameMark {
    pub(crate) page: Option<u32>,
    pub(crate) stamp: Option<u64>,
}

/// Whether a page is among those held.
pub(crate) fn is_among(page: u32, held: &[u32]) -> bool
    ensures { result ≡ list_any (λ other. other == page) held.now }
{
    held.iter().any(|other| *other == page)
}

/// What is known of a frame.
pub(crate) fn mark_in(marks: &[FrameMark], i: usize) -> FrameMark
    requires { i < length marks.now }
    ensures { result ≡ slice_index_or marks.now i empty }
{
    marks[i]
}

/// The later of a batch and the stamp that a page has, if it has one.
pub(crate) fn later(batch: u64, stamp: Option<u64>) -> u64
    ensures { result ≡ later batch stamp }
{
    match stamp {
        Some(was) => was.max(batch),
        None => batch,
    }
}

/// The frame of a page.
pub(crate) fn place_in(places: &[Option<u16>], page: usize) -> Option<usize>
    requires { page < length places.now }
    ensures { result ≡ slice_index_or places.now page None }
{
    match places[page] {
        Some(i) => Some(usize::from(i)),
        None => None,
    }
}

/// The stamp of a page, none if it isn't kept or is clean.
pub(crate) fn stamp_of(marks: &[FrameMark], places: &[Option<u16>], page: usize) -> Option<u64>
    requires placed { ArePlaced marks.now places.now }
    requires page { page < length places.now }
    ensures { (i : ℕ) → slice_index_or places.now page None ≡ Some i
        → result ≡ (slice_index_or marks.now i empty).stamp }
{
    match place_in(places, page) {
        Some(i) => marks[i].stamp,
        None => None,
    }
}

/// Holds these pages and no others.
pub(crate) fn hold(held: &mut ArrayVec<u32, HELD>, pages: &[u32])
    requires { length pages.now ≤ HELD }
    ensures { held.new.items ≡ pages.now }
{
    held.clear();
    for page in pages {
        held.push(*page);
    }
}

/// Forgets the frame of a page, if it has one.
pub(crate) fn forget(places: &mut Vec<Option<u16>>, page: Option<u32>)
    requires { IfSome page (λ p. p < length places.old.items) }
    ensures { places.new.items ≡ forgotten places.old.items page }
{
    if let Some(page) = page {
        places[page as usize] = None;
    }
}

impl FrameMark {
    /// The mark of an empty frame.
    pub(crate) fn empty() -> FrameMark
        ensures { result ≡ empty }
    {
        FrameMark {
            page: None,
            stamp: None,
        }
    }

    /// Whether the frame is empty, or has a clean page that isn't among those held.
    pub(crate) fn is_clean(&self, held: &[u32]) -> bool
        ensures { result ≡ clean held.now self.now }
    {
        if self.stamp.is_some() {
            return false;
        }
        match self.page {
            None => true,
            Some(page) => !is_among(page, held),
        }
    }

    /// Whether the frame has a page above the leaves.
    fn is_upper(&self, page: &Page) -> bool
        ensures { result ≡ is_upper self.now page.now }
    {
        self.page.is_some() && page.level() > 0
    }

    /// Whether its page is dirty.
    fn is_dirty(&self) -> bool
        ensures { result ≡ is_dirty self.now }
    {
        self.stamp.is_some()
    }

    /// Whether its page is dirty and all its changes are in gated batches.
    pub(crate) fn is_gated(&self, gated: u64) -> bool
        ensures { result ≡ is_gated gated self.now.stamp }
    {
        self.stamp.is_some_and(|stamp| stamp <= gated)
    }
}

/// The first clean frame between two places that is empty or has a leaf.
fn leaf_between(
    marks: &[FrameMark],
    pages: &[Page],
    held: &[u32],
    from: usize,
    to: usize,
) -> Option<usize>
    requires { (to ≤ length marks.now) × (length pages.now ≡ length marks.now) }
    ensures found { IfSome result (λ i. (i < length marks.now)
        × (clean held.now (slice_index_or marks.now i empty) ≡ true)
        × (is_upper (slice_index_or marks.now i empty) (slice_index_or pages.now i (blank 0 0)) ≡ false)) }
    ensures none { IfNone result (NoLeafBetween held.now marks.now pages.now from to) }
{
    for i in from..to {
        if marks[i].is_clean(held) && !marks[i].is_upper(&pages[i]) {
            return Some(i);
        }
    }
    None
}

/// The first clean frame.
fn clean_frame(marks: &[FrameMark], held: &[u32]) -> Option<usize>
    ensures found { IfSome result (λ i. (i < length marks.now)
        × (clean held.now (slice_index_or marks.now i empty) ≡ true)) }
    ensures none { IfNone result ((k : ℕ) → k < length marks.now
        → clean held.now (slice_index_or marks.now k empty) ≡ false) }
{
    for i in 0..marks.len() {
        if marks[i].is_clean(held) {
            return Some(i);
        }
    }
    None
}

/// The first clean frame that is empty or has a leaf, from the hand on and round.
fn leaf_frame(marks: &[FrameMark], pages: &[Page], held: &[u32], hand: usize) -> Option<usize>
    requires { (hand ≤ length marks.now) × (length pages.now ≡ length marks.now) }
    ensures found { IfSome result (λ i. (i < length marks.now)
        × (clean held.now (slice_index_or marks.now i empty) ≡ true)
        × (is_upper (slice_index_or marks.now i empty) (slice_index_or pages.now i (blank 0 0)) ≡ false)) }
    ensures none { IfNone result (NoLeaf held.now marks.now pages.now) }
{
    match leaf_between(marks, pages, held, hand, marks.len()) {
        Some(i) => Some(i),
        None => leaf_between(marks, pages, held, 0, hand),
    }
}

/// The frame for a page that is brought: the first clean one that is empty or has a leaf, from the hand on and round;
/// or if there is none, the first clean one.
pub(crate) fn frame_to_use(
    marks: &[FrameMark],
    pages: &[Page],
    held: &[u32],
    hand: usize,
) -> Option<usize>
    requires { (hand ≤ length marks.now) × (length pages.now ≡ length marks.now) }
    ensures found { IfSome result (λ i. (i < length marks.now)
        × (clean held.now (slice_index_or marks.now i empty) ≡ true)) }
    ensures first { IfSome result (λ i. is_upper (slice_index_or marks.now i empty)
        (slice_index_or pages.now i (blank 0 0)) ≡ true → NoLeaf held.now marks.now pages.now) }
    ensures none { IfNone result ((k : ℕ) → k < length marks.now
        → clean held.now (slice_index_or marks.now k empty) ≡ false) }
{
    match leaf_frame(marks, pages, held, hand) {
        Some(i) => Some(i),
        None => clean_frame(marks, held),
    }
}

/// Copies the page of one frame into another, under another number.
pub(crate) fn copy_page(pages: &mut [Page], from: usize, to: usize, number: u32)
    requires inside { (from < length pages.old) × (to < length pages.old) }
    requires apart { from ≢ to }
    ensures { pages.new ≡ slice_set pages.old to (numbered (slice_index_or pages.old from (blank 0 0)) number) }
{
    if from < to {
        let (front, back) = pages.split_at_mut(to);
        copy_as(&mut back[0], &front[from], number);
    } else {
        let (front, back) = pages.split_at_mut(from);
        copy_as(&mut front[to], &back[0], number);
    }
}

/// Copies a page, under another number.
fn copy_as(page: &mut Page, from: &Page, number: u32)
    ensures { page.new ≡ numbered from.now number }
{
    page.copy_from(from);
    page.set_number(number);
}

/// How many frames are dirty after a change of one frame: from how many there were, and whether that frame was dirty
/// before and is after.
fn dirty_after(dirty: usize, was: bool, is: bool) -> usize
    requires counted { cond was 1 0 ≤ dirty }
    requires few { dirty ≤ FRAMES }
    ensures { result + cond was 1 0 ≡ dirty + cond is 1 0 }
{
    match (was, is) {
        (true, false) => dirty - 1,
        (false, true) => dirty + 1,
        _ => dirty,
    }
}

/// Sets the mark of a frame; returns how many frames are dirty then, from how many there were.
pub(crate) fn set_mark(marks: &mut Vec<FrameMark>, i: usize, mark: FrameMark, dirty: usize) -> usize
    requires frame { (i < length marks.old.items) × (length marks.old.items ≤ FRAMES) }
    requires counted { dirty ≡ count_by is_dirty marks.old.items }
    ensures put { marks.new.items ≡ slice_set marks.old.items i mark }
    ensures counted { result ≡ count_by is_dirty marks.new.items }
{
    let was = marks[i].is_dirty();
    let is = mark.is_dirty();
    marks[i] = mark;
    dirty_after(dirty, was, is)
}

/// So many empty frames.
#[tactic(auto, using(crate::proofs::Places::one_same))]
pub(crate) fn empty_marks(alloc: Global, frames: usize) -> Result<Vec<FrameMark>, AllocError>
    ensures { IfOk result (λ marks. (length marks.items ≡ frames)
        × ((k : ℕ) → slice_index_or marks.items k empty ≡ empty)) }
{
    let mut marks = Vec::with_capacity(alloc, frames)?;
    for _i in 0..frames {
        marks.push(FrameMark::empty())?;
    }
    Ok(marks)
}

/// A table of so many numbers of pages that have no frame.
#[tactic(auto, using(crate::proofs::Places::one_same))]
pub(crate) fn empty_places(alloc: Global, pages: usize) -> Result<Vec<Option<u16>>, AllocError>
    ensures { IfOk result (λ places. (length places.items ≡ pages)
        × ((k : ℕ) → slice_index_or places.items k None ≡ None)) }
{
    let mut places = Vec::with_capacity(alloc, pages)?;
    for _i in 0..pages {
        places.push(None)?;
    }
    Ok(places)
}

/// So many pages.
pub(crate) fn blank_pages(alloc: Global, frames: usize) -> Result<Vec<Page>, AllocError>
    ensures { IfOk result (λ pages. length pages.items ≡ frames) }
{
    let mut pages = Vec::with_capacity(alloc, frames)?;
    for _i in 0..frames {
        let Ok(page) = Page::fresh(alloc, 0, 0) else {
            return Err(AllocError);
        };
        pages.push(page)?;
    }
    Ok(pages)
}

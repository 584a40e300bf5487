//! The pages that a log gives.
ghost use Rattle.std.specs.Prelude.{◌≡◌, ◌+◌, ◌<◌, ◌≤◌, ◌++◌, ◌∷◌, [], ℕ, List, length, IfOk};
ghost use Rattle.std.specs.Prelude.{IfErr, MatchOption, None, Some, slice_set, vec_len, vec_capacity};
ghost use Rattle.std.specs.Prelude.{slice_index_or};
ghost use Rattle.gx_page.specs.Reading.{IsImage};
ghost use Rattle.gx_found_log.specs.Given.{AreOnce, HasImage, image_in, with_image};
ghost use Rattle.gx_found_log.specs.Small.{said, Changes};

use crate::imaged::Imaged;
use crate::{Readable, Scratch, Small};
use gx_disk::MAX_PAGES;
use gx_geom::Refusal;
use gx_glog::{BODY_ROOM, PLACES};
use gx_record::SPLIT_RECORD;
use gx_recovery::LogRule;
use std::alloc::{AllocError, Global};
use std::marker::Model;

/// How many bytes of its record an image takes at least: a third of a split's.
pub const LEAST_SHARE: usize = SPLIT_RECORD / 3;

/// How many images a body may have.
pub const MOST_IN_BODY: usize = BODY_ROOM / LEAST_SHARE;

/// How many pages an extent may give.
pub const MOST_GIVEN: usize = MOST_IN_BODY * PLACES as usize;

/// The pages that a log gives, each with the last image that the log has of it. The hints say, by a page's number, at
/// which place it may be: a page is looked for there first, and then among all.
#[derive(Drop)]
pub struct Given {
    pages: Vec<Imaged>,
    hints: Vec<u16>,
}

impl Model for Given {
    ghost use Rattle.std.specs.Prelude.{ℕ, List, ◌≤◌, vec_capacity};
    ghost use Rattle.std.specs.List.{AllByRecursion};
    ghost use Rattle.gx_found_log.specs.Given.{AreOnce, HasImage};
    ghost use Rattle.gx_found_log.specs.declared.given.TheConstants.{MOST_GIVEN};

    ghost Value = { List (ℕ × List ℕ) };

    ghost view = { λ g. g.pages.items };

    ghost invariant = { λ g. (MOST_GIVEN ≤ vec_capacity g.pages) × AreOnce g.pages.items
        × AllByRecursion HasImage g.pages.items };
}

/// The place of a page, if it has one.
fn place(page: u32, pages: &[Imaged]) -> Option<usize>
    ensures place { MatchOption result
        ((image : List ℕ) → with_image (page, image) pages.now ≡ pages.now ++ (page, image) ∷ [])
        (λ i. (i < length pages.now) × ((image : List ℕ)
        → with_image (page, image) pages.now ≡ slice_set pages.now i (page, image))) }
    ensures image { MatchOption result (image_in page pages.now ≡ None)
        (λ i. (x : ℕ × List ℕ) → x ≡ slice_index_or pages.now i x → image_in page pages.now ≡ Some x.1) }
{
    for (i, x) in pages.iter().enumerate() {
        if x.page() == page {
            return Some(i);
        }
    }
    None
}

/// The place of a page, if it has one, where the one that may be its place is looked at first.
fn place_by(hint: usize, page: u32, pages: &[Imaged]) -> Option<usize>
    requires { AreOnce pages.now }
    ensures place { MatchOption result
        ((image : List ℕ) → with_image (page, image) pages.now ≡ pages.now ++ (page, image) ∷ [])
        (λ i. (i < length pages.now) × ((image : List ℕ)
        → with_image (page, image) pages.now ≡ slice_set pages.now i (page, image))) }
    ensures image { MatchOption result (image_in page pages.now ≡ None)
        (λ i. (x : ℕ × List ℕ) → x ≡ slice_index_or pages.now i x → image_in page pages.now ≡ Some x.1) }
{
    if hint < pages.len() && pages[hint].page() == page {
        return Some(hint);
    }
    place(page, pages)
}

/// Puts an image in the place of what is kept of its page, or behind the last page, where there is room for it. Returns
/// its place.
fn replace_or_push(pages: &mut Vec<Imaged>, hint: usize, new: Imaged) -> usize
    requires once { AreOnce pages.old.items }
    requires room { vec_len pages.old < vec_capacity pages.old }
    ensures items { pages.new.items ≡ with_image new pages.old.items }
    ensures capacity { vec_capacity pages.old ≤ vec_capacity pages.new }
{
    match place_by(hint, new.page(), pages) {
        Some(i) => {
            pages[i] = new;
            i
        }
        None => {
            let end = pages.len();
            let _ = pages.push(new);
            end
        }
    }
}

/// The place at which a page may be.
fn hint_of(hints: &[u16], page: u32) -> usize {
    match hints.get(page as usize) {
        Some(hint) => usize::from(*hint),
        None => 0,
    }
}

/// Notes the place of a page.
fn note(hints: &mut [u16], page: u32, place: usize) {
    if let Some(hint) = hints.get_mut(page as usize) {
        *hint = u16::try_from(place).unwrap_or(0);
    }
}

/// A hint for each page that a device may have.
fn no_hints(alloc: Global) -> Result<Vec<u16>, AllocError> {
    vec![in alloc; 0; MAX_PAGES + 1]
}

impl Given {
    /// None, with room for as many as there may be. Refused with `Memory` if there is none.
    pub fn new(alloc: Global) -> Result<Given, Refusal>
        ensures none { IfOk result (λ given. given ≡ []) }
        ensures refusal { IfErr result (λ refusal. refusal ≡ Refusal.Memory) }
    {
        match (Vec::with_capacity(alloc, MOST_GIVEN), no_hints(alloc)) {
            (Ok(pages), Ok(hints)) => Ok(Given { pages, hints }),
            _ => Err(Refusal::Memory),
        }
    }

    /// How many pages there are, up to 896.
    pub fn count(&self) -> usize
        ensures { result ≡ length self.now }
    {
        self.pages.len()
    }

    /// The pages, each once.
    pub fn pages(&self) -> &[Imaged]
        ensures pages { result.now ≡ self.now }
        ensures once { AreOnce result.now }
    {
        self.pages.as_slice()
    }

    /// Keeps an image of a page, in the place of what is kept of it.
    pub(crate) fn keep_image(&mut self, page: u32, image: &[u8])
        requires room { length self.old < MOST_GIVEN }
        requires image { IsImage image.now }
        ensures image { self.new ≡ with_image (page, image.now) self.old }
        ensures count { length self.new ≤ length self.old + 1 }
    {
        let hint = hint_of(&self.hints, page);
        let place = replace_or_push(&mut self.pages, hint, Imaged::new(page, image));
        note(&mut self.hints, page, place);
    }

    /// Makes a small change of the image that is kept of a page. Refused if none is kept (`NoImage`), and if the change
    /// doesn't fit the page (`Unfit`).
    pub(crate) fn change<M: Readable>(
        &mut self,
        scratch: &mut Scratch,
        page: u32,
        small: &Small<'_>,
    ) -> Result<(), LogRule>
        ensures most { scratch.new.0 ≡ scratch.old.0 }
        ensures count { length self.new ≤ length self.old }
        ensures changes { Changes M.reading scratch.old.0 (M.reading.change (said small.now)) page
            (image_in page self.old) self.old result self.new }
    {
        let Some(i) = place_by(hint_of(&self.hints, page), page, &self.pages) else {
            return Err(LogRule::NoImage);
        };
        if !scratch.change::<M>(self.pages[i].image(), small) {
            return Err(LogRule::Unfit);
        }
        self.pages[i] = Imaged::new(page, scratch.image());
        Ok(())
    }
}

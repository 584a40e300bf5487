//! Sets of pages by their numbers, with a fast search for the least from a number on.
ghost use Rattle.std.specs.Prelude.{◌≡◌, ◌≤◌, ◌+◌, ◌/◌, ℕ, length, slice_index_or, IfOk, IfSome, IfNone};
ghost use Rattle.gx_pool.specs.Words.{has, IsFirst, NoneFrom, OthersStay};

use crate::words::{first_in, first_in_word, put_in, take_out};
use gx_disk::MAX_PAGES;
use std::alloc::{AllocError, Global};
use std::marker::Model;

/// How many words hold a bit for each page.
const WORDS: usize = MAX_PAGES / 64 + 1;
/// How many words hold a bit for each of those words.
const GROUPS: usize = WORDS / 64 + 1;

/// A set of pages: a bit for each number, and a bit for each word of these that has one set.
#[derive(Drop)]
pub(crate) struct PageSet {
    words: Vec<u64>,
    groups: Vec<u64>,
}

impl Model for PageSet {
    ghost use Rattle.std.specs.Prelude.{◌≡◌, ◌≤◌, ℕ, List, length};
    ghost use Rattle.gx_pool.specs.declared.page_set.TheConstants.{WORDS, GROUPS};
    ghost use Rattle.gx_pool.specs.PageSets.{AreGrouped, ArePages};

    ghost Value = { List ℕ };

    ghost view = { λ s. s.words.items };

    ghost invariant = { λ s. (length s.words.items ≡ WORDS) × (length s.groups.items ≡ GROUPS)
        × AreGrouped s.words.items s.groups.items × ArePages s.words.items };
}

impl PageSet {
    /// No page.
    #[tactic(auto, using(crate::proofs::page_set::PageSets::no_bit, crate::proofs::page_set::PageSets::none_grouped, crate::proofs::page_set::PageSets::none_pages))]
    pub(crate) fn none(alloc: Global) -> Result<PageSet, AllocError>
        ensures { IfOk result (λ set. (k : ℕ) → has set k ≡ 0) }
    {
        Ok(PageSet {
            words: zeros(alloc, WORDS)?,
            groups: zeros(alloc, GROUPS)?,
        })
    }

    /// Puts a page into the set.
    #[tactic(auto, using(crate::proofs::page_set::PageSets::put_grouped, crate::proofs::page_set::PageSets::put_pages))]
    pub(crate) fn put(&mut self, page: usize)
        requires { page ≤ MAX_PAGES }
        ensures put { has self.new page ≡ 1 }
        ensures others { OthersStay page self.old self.new }
    {
        put_in(&mut self.words, page);
        put_in(&mut self.groups, page / 64);
    }

    /// Takes a page out of the set.
    #[tactic(auto, using(crate::proofs::page_set::PageSets::taken_grouped, crate::proofs::page_set::PageSets::kept_grouped, crate::proofs::page_set::PageSets::taken_pages))]
    pub(crate) fn take(&mut self, page: usize)
        requires { page ≤ MAX_PAGES }
        ensures taken { has self.new page ≡ 0 }
        ensures others { OthersStay page self.old self.new }
    {
        take_out(&mut self.words, page);
        if self.words[page / 64] == 0 {
            take_out(&mut self.groups, page / 64);
        }
    }

    /// The least page of the set from one on.
    #[tactic(auto, using(crate::proofs::page_set::PageSets::few))]
    pub(crate) fn first(&self, from: usize) -> Option<usize>
        requires { from ≤ MAX_PAGES + 1 }
        ensures found { IfSome result (λ page. IsFirst self.now from page × (page ≤ MAX_PAGES)) }
        ensures none { IfNone result (NoneFrom self.now from) }
    {
        match first_in_word(&self.words, from) {
            Some(page) => Some(page),
            None => self.first_behind(from),
        }
    }

    /// The least page of the set after the word of a number that has none from that number on.
    #[tactic(auto, using(crate::proofs::page_set::PageSets::word_inside, crate::proofs::page_set::PageSets::least_later, crate::proofs::page_set::PageSets::some_later, crate::proofs::page_set::PageSets::none_later))]
    fn first_behind(&self, from: usize) -> Option<usize>
        requires from { from ≤ MAX_PAGES + 1 }
        requires none { (n : ℕ) → from ≤ n → n / 64 ≡ from / 64 → has self.now n ≡ 0 }
        ensures found { IfSome result (λ page. IsFirst self.now from page × (page ≤ MAX_PAGES)) }
        ensures none { IfNone result (NoneFrom self.now from) }
    {
        match first_in(&self.groups, from / 64 + 1) {
            Some(word) => first_in_word(&self.words, 64 * word),
            None => None,
        }
    }
}

/// So many words of which no bit is set.
#[tactic(auto, using(crate::proofs::Places::one_same))]
fn zeros(alloc: Global, count: usize) -> Result<Vec<u64>, AllocError>
    ensures { IfOk result (λ words. (length words.items ≡ count) × ((k : ℕ) → slice_index_or words.items k 0 ≡ 0)) }
{
    let mut words = Vec::with_capacity(alloc, count)?;
    for _i in 0..count {
        words.push(0)?;
    }
    Ok(words)
}

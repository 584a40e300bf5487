//! The set of dirty pages.
ghost use Rattle.std.specs.Prelude.{◌≡◌, ◌≢◌, ◌≤◌, ℕ, Some};
ghost use Rattle.gx_pool.specs.Words.{has};
ghost use Rattle.gx_pool.specs.Queues.{AreListed, AreListedBelow, ArePlaced, IsListed, OthersKeepTheirs};

use crate::mark::{FrameMark, stamp_of};
use crate::page_set::PageSet;
use gx_disk::MAX_PAGES;
use std::alloc::{AllocError, Global};

/// The dirty pages by their numbers: those that may be written, and those that wait, whose last change isn't in a gated
/// batch.
#[derive(Drop)]
pub(crate) struct Queue {
    pub(crate) ready: PageSet,
    pub(crate) waiting: PageSet,
}

impl Queue {
    /// The queue of no pages.
    pub(crate) fn none(alloc: Global) -> Result<Queue, AllocError> {
        Ok(Queue {
            ready: PageSet::none(alloc)?,
            waiting: PageSet::none(alloc)?,
        })
    }

    /// Lists a page by its stamp, if batches up to this one are gated.
    pub(crate) fn list(&mut self, page: u32, stamp: Option<u64>, gated: u64)
        requires { page ≤ MAX_PAGES }
        ensures listed { (batch : ℕ) → stamp ≡ Some batch → IsListed gated self.new page batch }
        ensures others { OthersKeepTheirs page self.old self.new }
    {
        let page = page as usize;
        match stamp {
            None => {
                self.ready.take(page);
                self.waiting.take(page);
            }
            Some(batch) if batch <= gated => {
                self.ready.put(page);
                self.waiting.take(page);
            }
            Some(_) => {
                self.ready.take(page);
                self.waiting.put(page);
            }
        }
    }

    /// Sorts the waiting pages again, now that batches up to this one are gated.
    pub(crate) fn tell(&mut self, marks: &[FrameMark], places: &[Option<u16>], gated: u64)
        requires placed { ArePlaced marks.now places.now }
        requires listed { AreListedBelow 0 gated marks.now self.old }
        ensures { AreListed gated marks.now self.new }
    {
        let mut from = 0;
        while let Some(page) = self.waiting.first(from) {
            let stamp = stamp_of(marks, places, page);
            self.list(page as u32, stamp, gated);
            from = page + 1;
        }
    }
}

//! What only proofs know of a device: it takes no bytes, so it may grow without bound.
ghost use Rattle.std.specs.Prelude.{◌≡◌, ◌+◌, ◌++◌, [], ℕ, List, cond};
ghost use Rattle.gx_queue_disk.specs.Calls.{Call};
ghost use base.Fml.{ftrue};

use crate::image::Image;
use crate::queue::CallQueue;
use std::marker::Model;

/// What a device was made with, and what became of it since.
#[derive(Drop)]
pub(crate) struct Past {
    /// Its bytes when it was made.
    pub(crate) ghost start: { List ℕ },
    /// The calls that were made and taken out of its queue.
    pub(crate) ghost drained: { List Call },
    /// How many calls failed.
    pub(crate) ghost faults: { ℕ },
    /// How many writes and syncs were made, those that failed too.
    pub(crate) ghost calls: { ℕ },
}

impl Model for Past {
    ghost also_owns = { λ _. ftrue };
}

// It owns nothing.
unsafe impl Send for Past {}

impl Past {
    /// Nothing was made of a device of these bytes.
    pub(crate) fn of(image: &Image) -> Past
        ensures { result ≡ record { start = image.now; drained = []; faults = 0; calls = 0 } }
    {
        let _ = image;
        Past {}
    }

    /// One call more was made, which failed or didn't.
    pub(crate) fn counted(&self, failed: bool) -> Past
        ensures { result ≡ record self.now {
          faults = self.now.faults + cond failed 1 0;
          calls = self.now.calls + 1;
        } }
    {
        let _ = failed;
        Past {}
    }

    /// The calls of the queue were taken.
    pub(crate) fn with_drained(&self, queue: &CallQueue) -> Past
        ensures { result ≡ record self.now { drained = self.now.drained ++ queue.now } }
    {
        let _ = queue;
        Past {}
    }
}

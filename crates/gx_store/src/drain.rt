//! The calls of a device that keeps them in a queue.
ghost use Rattle.std.specs.Prelude.{◌≡◌, ℕ, []};
ghost use Rattle.gx_node.specs.Reading.{format_of, is_node};
ghost use Rattle.gx_node.specs.Store.{Stays};
ghost use Rattle.gx_queue_disk.specs.Drains.{Drains};
ghost use Rattle.gx_store.specs.Since.{IsSince};
ghost use Rattle.gx_store.specs.Standing.{store_of};
ghost use Rattle.gx_store.specs.State.{IsSteady};

use crate::store::PageStore;
use gx_class::KeyClass;
use gx_queue_disk::{CallQueue, QueuesCalls};

impl<D: QueuesCalls, K: KeyClass> PageStore<D, K> {
    /// Moves the calls of the device's queue into this one, which has none. No page changes, and the device isn't
    /// called.
    pub fn drain(&mut self, calls: &mut CallQueue)
        requires { calls.old ≡ [] }
        ensures drains { Drains D.state D.queued self.old.disk self.new.disk calls.new }
        ensures only { self.new ≡ record self.old { disk = self.new.disk } }
        ensures since { (page : ℕ) → IsSince (is_node (format_of K.KeyClass)) (D.state self.old.disk)
            (D.state self.new.disk) self.old self.new page }
        ensures stays { Stays (IsSteady (D.state self.old.disk) self.old.frames)
            (store_of (format_of K.KeyClass) (D.state self.old.disk).seen self.old)
            (store_of (format_of K.KeyClass) (D.state self.new.disk).seen self.new) }
    {
        self.disk.drain(calls);
    }
}

//! The calls of a device that keeps them in a queue.
ghost use Rattle.std.specs.Prelude.{◌≡◌, []};
ghost use Rattle.gx_queue_disk.specs.Drains.{Drains};
ghost use Rattle.gx_storage.specs.Setting.{StaysAs, Unlogged};

use crate::Storage;
use gx_class::ReadKeys;
use gx_queue_disk::{CallQueue, QueuesCalls};

impl<D: QueuesCalls, K: ReadKeys> Storage<D, K> {
    /// Moves the calls of the device's queue into this one, which has none. Nothing is logged, no node changes, and the
    /// device isn't called.
    pub fn drain(&mut self, calls: &mut CallQueue)
        requires { calls.old ≡ [] }
        ensures drains { Drains D.state D.queued self.old.shelf.disk self.new.shelf.disk calls.new }
        ensures only { self.new
            ≡ record self.old { shelf = record self.old.shelf { disk = self.new.shelf.disk } } }
        ensures unlogged { Unlogged K.Key.Shape K.ReadKeys D.state self.old.shelf self.old self.new }
        ensures stays { StaysAs K.KeyClass D.state self.old.shelf self.new.shelf }
    {
        self.store.drain(calls);
    }
}

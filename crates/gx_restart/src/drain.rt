//! The calls of a device that keeps them in a queue.
ghost use Rattle.std.specs.Prelude.{◌≡◌, []};
ghost use Rattle.gx_queue_disk.specs.Drains.{Drains};
ghost use Rattle.gx_engine.specs.Calls.{IsRead};
ghost use Rattle.gx_engine.specs.Drained.{with_disk};
ghost use Rattle.gx_engine.specs.Setting.{LeadsAs};

use crate::Index;
use gx_class::ReadKeys;
use gx_queue_disk::{CallQueue, QueuesCalls};

impl<D: QueuesCalls, K: ReadKeys> Index<D, K> {
    /// Moves the calls of the device's queue into this one, which has none: the writes and syncs that were made of the
    /// device since the queue was last drained, in their order. Nothing of the index changes, and the device isn't
    /// called.
    pub fn drain(&mut self, calls: &mut CallQueue)
        requires { calls.old ≡ [] }
        ensures drains { Drains D.state D.queued self.old.engine.volume.shelf.disk self.new.engine.volume.shelf.disk
            calls.new }
        ensures only { self.new ≡ record self.old
            { engine = with_disk self.new.engine.volume.shelf.disk self.old.engine } }
        ensures leads { LeadsAs K.Key.Shape K.ReadKeys D.state self.old.engine self.new.engine [] }
        ensures device { IsRead D.state self.old.engine self.new.engine }
    {
        self.engine.drain(calls);
    }
}

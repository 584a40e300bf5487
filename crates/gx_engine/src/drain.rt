//! The calls of a device that keeps them in a queue.
ghost use Rattle.std.specs.Prelude.{◌≡◌, []};
ghost use Rattle.gx_queue_disk.specs.Drains.{Drains};
ghost use Rattle.gx_engine.specs.Calls.{IsRead};
ghost use Rattle.gx_engine.specs.Drained.{IsBeside};
ghost use Rattle.gx_engine.specs.Setting.{LeadsAs};
ghost use Rattle.gx_engine.specs.States.{IsOrderly};

use crate::Engine;
use crate::laws::a_class_is_lawful;
use gx_class::ReadKeys;
use gx_queue_disk::{CallQueue, QueuesCalls};

impl<D: QueuesCalls, K: ReadKeys> Engine<D, K> {
    /// Moves the calls of the device's queue into this one, which has none: the writes and syncs that the engine's
    /// events made of the device since the queue was last drained, in their order. It is no event: nothing of the
    /// engine changes, and the device isn't called.
    pub fn drain(&mut self, calls: &mut CallQueue)
        requires { calls.old ≡ [] }
        ensures drains { Drains D.state D.queued self.old.volume.shelf.disk self.new.volume.shelf.disk calls.new }
        ensures only { IsBeside self.new.volume.shelf.disk self.old self.new }
        ensures leads { LeadsAs K.Key.Shape K.ReadKeys D.state self.old self.new [] }
        ensures device { IsRead D.state self.old self.new }
        ensures order { IsOrderly self.old × IsOrderly self.new }
    {
        a_class_is_lawful::<K>();
        self.in_order();
        self.storage.drain(calls);
        self.in_order();
    }
}

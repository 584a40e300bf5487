//! Devices whose calls are kept until they are taken.
ghost use Rattle.std.specs.Prelude.{◌≡◌, [], List};
ghost use Rattle.gx_queue_disk.specs.Calls.{Call};
ghost use Rattle.gx_queue_disk.specs.Drains.{Drains};

use crate::queue::CallQueue;
use gx_disk::SectorDisk;

/// A device that keeps the calls that it made in a queue, until they are taken.
pub trait QueuesCalls: SectorDisk {
    /// The calls in the queue: the writes and syncs that the device made since the queue was last drained, in their
    /// order.
    ghost queued: { Self → List Call };

    /// Moves the queue's calls into this one, which has none.
    fn drain(&mut self, calls: &mut CallQueue)
        requires { calls.old ≡ [] }
        ensures { Drains Self.state queued self.old self.new calls.new };
}

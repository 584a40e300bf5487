//! What a handle has.
ghost use Rattle.std.specs.Prelude.{◌≡◌};

use crate::opened::Open;
use gx_class::{Box2Class, Box3Class};
use gx_queue_disk::{CallQueue, Image, QueueDisk};
use std::mem;

/// What is made of a handle's bytes.
#[derive(Drop)]
pub(crate) enum Stage {
    /// Nothing has come yet.
    Empty,
    /// The bytes of a device, as far as they have come.
    Bytes(Image),
    /// A device with no index open.
    Device(QueueDisk),
    /// An open index of boxes of the plane.
    Plane(Open<Box2Class>),
    /// An open index of boxes of space.
    Space(Open<Box3Class>),
}

impl Stage {
    /// What is made of the bytes so far. The stage is empty then.
    pub(crate) fn take(&mut self) -> Stage
        ensures had { result ≡ self.old }
        ensures left { self.new ≡ Stage.Empty }
    {
        mem::replace(self, Stage::Empty)
    }

    /// Puts another stage in the place of this one.
    pub(crate) fn put(&mut self, stage: Stage)
        ensures { self.new ≡ stage }
    {
        drop(mem::replace(self, stage));
    }
}

/// What a handle has.
#[derive(Drop)]
pub(crate) struct Held {
    pub(crate) stage: Stage,
    // calls of the device that were drained, without those that C has had
    pub(crate) calls: CallQueue,
}

//! The device calls of a batch, and of a turn.
ghost use Rattle.std.specs.Prelude.{◌≡◌};
ghost use Rattle.std.specs.Bool.{OnTrue, OnFalse};

/// A device call of a batch, in their order, or none.
#[derive(Clone, Copy, Debug, PartialEq, Eq)]
pub enum Stage {
    /// The body is written, up to its place's tail.
    Body,
    /// The body is synced.
    BodySync,
    /// The open gate's sector is written.
    Gate,
    /// The gate is synced, and the batch counts from then on.
    GateSync,
    /// Nothing is logged and nothing is in flight.
    Idle,
}

/// A device call of a turn to the other extent, in their order.
#[derive(Clone, Copy, Debug, PartialEq, Eq)]
pub enum Turn {
    /// The gates of the other extent are written closed, in one write.
    Closed,
    /// Its body 0 is written, up to its place's tail.
    Body,
    /// The body is synced.
    BodySync,
    /// The open gate of that body is written.
    Gate,
    /// The gate is synced.
    GateSync,
    /// The selector is written, and an image may have either extent's log.
    Selector,
    /// The selector is synced, and the log goes on in the extent that it selects.
    Done,
}

impl Turn {
    ghost use Rattle.std.specs.Prelude.{◌≤◌};
    ghost use Rattle.gx_glog.specs.State.{turning};

    // Whether a turn is under way.
    pub(crate) fn is_under_way(self) -> bool
        ensures yes { OnTrue result (1 ≤ turning self) }
        ensures no { OnFalse result (self ≡ Turn.Closed) }
    {
        match self {
            Turn::Body
            | Turn::BodySync
            | Turn::Gate
            | Turn::GateSync
            | Turn::Selector
            | Turn::Done => true,
            Turn::Closed => false,
        }
    }
}

impl Stage {
    ghost use Rattle.gx_glog.specs.State.{in_flight};

    // Whether a batch is in flight.
    pub(crate) fn is_flying(self) -> bool
        ensures yes { OnTrue result (in_flight self ≡ 1) }
        ensures no { OnFalse result (self ≡ Stage.Idle) }
    {
        match self {
            Stage::Body | Stage::BodySync | Stage::Gate | Stage::GateSync => true,
            Stage::Idle => false,
        }
    }
}

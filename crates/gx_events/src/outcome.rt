//! The outcome of an event.
use gx_geom::Refusal;
use gx_machine::Reply;

/// What has to happen first.
#[derive(Clone, Copy, Debug, PartialEq, Eq)]
pub enum Need {
    /// A step of the log.
    Log,
    /// A write of this page.
    Write(u32),
    /// A step of the checkpoint.
    Checkpoint,
}

/// The outcome of an event.
#[derive(Debug, Drop)]
pub enum Outcome<B> {
    /// The session's call ends with this reply.
    Replied(Reply<B>),
    /// The event did its work, and no call ended.
    More,
    /// Nothing was done: another event has to come first.
    Help(Need),
    /// There was nothing to do.
    Nothing,
    /// The event was refused, and no call ended.
    Refused(Refusal),
}

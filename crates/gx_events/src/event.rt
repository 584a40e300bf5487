//! Events.
use gx_machine::Call;

/// One step of an engine.
#[derive(Clone, Copy, Debug, PartialEq, Eq)]
pub enum Event<B> {
    /// This session asks a call.
    Ask(u8, Call<B>),
    /// This session's open call makes a move.
    Move(u8),
    /// The log's next write or sync is made.
    LogStep,
    /// This page is written to its place.
    WritePage(u32),
    /// A checkpoint begins, or its next write or sync is made.
    CheckpointStep,
    /// The marked pairs that no session claims are removed from this leaf.
    Sweep(u32),
}

//! What happens between two events, while no lock is held.

/// Called between two events of a call, and after each event of a flusher, while no lock is held. It must not wait for
/// a commit of another session, since that may wait for this call to end.
pub trait Between {
    /// Called after an event of this session (0 for a flusher). `step` counts these events from 1, and stays at 2^64 -
    /// 1.
    fn between(&self, session: u8, step: u64);
}

/// Does nothing between events.
#[derive(Clone, Copy, Debug, Drop)]
pub struct NoBetween;

impl Between for NoBetween {
    fn between(&self, _session: u8, _step: u64) {}
}

//! Holds of the lock for sessions' calls.
use gx_events::{Event, Outcome};

/// A hold of the lock for a session's call: the event that was made in it, and its outcome.
#[derive(Debug, Drop)]
pub(crate) struct Hold<B> {
    pub(crate) event: Event<B>,
    pub(crate) outcome: Outcome<B>,
}

//! What an engine keeps of its sessions: each one's phase, its transaction's number, its locks and its notes.
//!
//! It has no pages and no log. It decides asks by itself; the engine reports the progress of a session's call over the
//! tree and the log by small steps.
#![tactic(auto)]

mod asks;
pub mod laws;
mod phase;
mod sessions;
mod steps;

pub use asks::is_session;
pub use phase::Phase;
pub use sessions::Sessions;

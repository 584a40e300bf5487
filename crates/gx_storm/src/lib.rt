//! Records of calls, replayed by the plain index; and storms: sessions in threads that make random calls, beside a
//! flusher, whose record is replayed.
//!
//! `replay` takes the items of a record in their order, puts each call that was asked to a plain index, and compares
//! what the index answers with what the record says. What the replay of a record is, `specs/Replay` of `gx_events` says
//! without it.
#![tactic(auto)]

mod answers;
mod asks;
mod draws;
mod handed;
mod items;
mod refusals;
mod threads;
mod verdict;

pub use handed::Handed;
pub use items::{Mismatch, replay};
pub use threads::{Storm, run_storm, storm_over};
pub use verdict::{Verdict, judge};

//! What a log stands for, and why a crash leaves a committed set.
//!
//! A log is a list of records over entries and pages. Of these the crate knows only what [`Meaning`] names: which
//! entries are live in given pages, and which pages are good. It knows no device and no tree.
//!
//! An [`Analysis`] is what a restart reads from a log before it redoes anything: the numbers, what open transactions
//! have touched, and which transactions are closed (the analysis pass of Mohan and others, ARIES, 1992). It refuses a
//! damaged log.
#![tactic(auto)]

ghost use Rattle.gx_recovery.specs.Known.{Known, Limits};

use gx_machine::{MAX_CLAIMS, SESSIONS};

mod analysis;
pub mod analysis_laws;
mod closed;
pub mod laws;
pub mod machine_laws;
mod rule;
mod touch;
mod touched;
pub mod worked;

pub use analysis::Analysis;
pub use closed::CLOSINGS;
pub use rule::LogRule;
pub use touch::Touch;

/// How many transactions of a log may be open at once: one for each session.
pub const TRANSACTIONS: usize = SESSIONS;

/// How many entries the open transactions of a log may have touched in all: each is claimed.
pub const TOUCHED: usize = MAX_CLAIMS;

/// The transaction's number that none can follow, so that no log has it.
pub const LAST_TRANSACTION: u64 = u64::MAX;

/// Entries and pages, by what a log needs to know of them. It is known by an index's limits:
/// those of one index never change.
pub trait Meaning {
    type Entry;

    type Page;

    ghost known: { Limits → Known Self.Entry Self.Page };
}

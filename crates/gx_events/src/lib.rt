//! An engine in terms of the set machine; its events, as sessions and flushers make them, and the record of them.
//!
//! The laws say why its replies are the machine's while calls stay open for many events, and others split, widen, add,
//! mark, sweep, commit and abort. They are public functions with empty bodies, whose contracts are the laws
//! (`engine_laws`).
//!
//! An engine works in events, each one step: a session asks, its open call goes on, the log or a page is written, a
//! page is swept. The trait `Events` says of each event what it does to the set machine that the engine is seen as, so
//! that events in any order, from one thread or from many, are a run of that machine. The definitions of `specs/Replay`
//! read a record of calls and replies back.
#![tactic(auto)]

mod driver;
mod engine;
pub mod engine_laws;
mod event;
pub mod laws;
mod outcome;

pub use driver::{Driver, Next};
pub use engine::Events;
pub use event::Event;
pub use outcome::{Need, Outcome};

//! The life of an index on a device: events of an engine, crashes and openings, as a run of the set machine.
#![tactic(auto)]

pub mod callers;
pub mod commands;
pub mod laws;
pub mod migrated;
mod turns;

pub use turns::{bring_page, examine, format, migrate, open, step, verify};

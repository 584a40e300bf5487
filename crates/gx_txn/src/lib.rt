//! What transactions hold: claims on entries, predicates, and notes of what was written.
//!
//! A table for all sessions with all its places taken at the start. It decides who is busy exactly as the set machine
//! does, and keeps for each written entry what undoing it needs.
#![tactic(auto)]

mod claims;
mod holding;
mod lanes;
pub mod laws;
mod marks;
mod note;
mod predicates;
mod search;
mod table;

pub use note::Note;
pub use table::Transactions;

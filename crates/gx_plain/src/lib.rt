//! The plain index: the set machine as a program, over sorted lists, a session by what its transaction holds.
//!
//! It is slow and exact. Other indexes are compared with it, call by call.
#![tactic(auto)]

mod held;
mod index;
pub mod laws;
mod merge;
mod script;
mod slot;
mod views;

pub use gx_machine::{Asked, Call, Entries, Entry, Query, Reply};
pub use gx_script::{Corners, Noted, ScriptFault};
pub use index::PlainIndex;
pub use script::run_plain;

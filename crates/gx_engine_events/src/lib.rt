//! The engine over pages and a log, as an engine of events that sessions in threads can share; and how to format a
//! device and start a new engine on it.
//!
//! It is seen as a set machine if it holds an index over its device that is seen as that machine. The engine doesn't
//! store which index that is, nor which part of its log and its pages the device has: all indexes that one engine may
//! hold are seen as the same machine.
#![tactic(auto)]

mod begin;
mod books;
mod engine;
pub mod laws;

pub use begin::new_index;
pub use books::outlives_a_crash;
pub use engine::EngineEvents;

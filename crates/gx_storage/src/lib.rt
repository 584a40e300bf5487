//! A tree's pages in frames over a device, with their log: each change of a page goes with the record that gives it,
//! or nothing is changed.
#![tactic(auto)]

mod changes;
mod checkpoint;
mod drain;
mod flusher;
mod imaged;
mod journal;
pub mod laws;
mod pages;
mod reads;
mod storage;

pub use storage::Storage;

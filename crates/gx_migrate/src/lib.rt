//! Migrates an index of the format's first version to a device of this one.
#![tactic(auto)]

mod buffer;
mod head;
mod laying;
mod migration;
mod pages;

pub use laying::lay;
pub use migration::migrate;

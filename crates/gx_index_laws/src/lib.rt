//! The whole index, as laws: a tree under steps, an engine as the set machine sees it, and what a log stands for, as
//! one state with one invariant, and one law for each kind of event.
//!
//! The laws are public functions with empty bodies; their contracts are the laws.
#![tactic(auto)]

pub mod beginnings;
pub mod endings;
pub mod logged;
pub mod looks;
pub mod measures;
pub mod openings;
pub mod pages;
pub mod runs;
pub mod worked;
pub mod writes;

/// How many places of the log's extent are taken when a checkpoint is due.
pub const CHECKPOINT_AT: u8 = 96;

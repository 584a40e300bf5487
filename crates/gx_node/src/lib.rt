//! The laws of the tree; its nodes, read and written in place on their pages, and the scan of their keys; and what the
//! steps of the tree ask of the store of its pages.
//!
//! The laws say what a tree of pages is, when it is legal, what each step changes, and what a search or a write that is
//! at work may rely on while others work. They are functions with empty bodies, whose contracts are the laws
//! (`tree_laws`, `alike`).
#![tactic(auto)]

pub mod alike;
mod changing;
mod check;
mod entry;
mod fault;
mod inner;
pub mod inner_edits;
mod items;
pub mod laws;
mod leaf;
pub mod leaf_edits;
mod pages;
mod passing;
mod scan;
pub mod small;
pub mod tree_laws;
pub mod worked;

pub use changing::{Edit, PagesMut};
pub use check::is_node;
pub use entry::read_key;
pub use fault::{LookFault, SplitFault, StepFault};
pub use inner::Inner;
pub use items::MAX_ENTRIES;
pub use leaf::Leaf;
pub use pages::Pages;
pub use passing::{BLOCK, Passing};

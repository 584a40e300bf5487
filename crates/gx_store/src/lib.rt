//! The pages of a tree in frames over a device: the store that the tree's steps ask for, and what an event says of its
//! record. It makes the log's device calls too.
#![tactic(auto)]

mod calls;
mod drain;
mod fault;
mod held;
pub mod laws;
mod pages;
mod pages_mut;
mod store;
mod test;

pub use fault::StoreFault;
pub use store::PageStore;
pub use test::NodeTest;

//! A tree in memory, for one session: whole inserts and searches by the steps of the tree, and pages that lie in
//! memory.
#![tactic(auto)]

mod inserts;
mod memory;
mod searches;

pub use inserts::{DescentPlace, insert, insert_step};
pub use memory::MemoryPages;
pub use searches::search;

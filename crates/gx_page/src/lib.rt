//! The slotted page: a header and a list of byte strings in one block of 4,096 bytes.
#![tactic(auto)]

mod block;
mod check;
mod directory;
mod edits;
mod fault;
pub mod laws;
mod layout;
mod page;

pub use block::PAGE_SIZE;
pub use fault::PageFault;
pub use page::Page;

//! The frame pool: pages of a device in frames, each page its last change,
//! and none written before its changes are gated.
#![tactic(auto)]

mod area;
mod fault;
mod frames;
pub mod laws;
mod making;
mod mark;
mod page_set;
mod passing;
mod pool;
mod queue;
mod words;

pub use fault::PoolFault;
pub use frames::FRAMES;
pub use mark::HELD;
pub use passing::PageTest;
pub use pool::Pool;

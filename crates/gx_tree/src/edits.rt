//! The changes of a node that the steps make.

mod children;
mod link;
mod pairs;
mod side;

pub use children::{AppendChild, RaiseRoot, SetBound};
pub use link::Link;
pub use pairs::{AppendPair, SetMark};
pub use side::KeepSide;

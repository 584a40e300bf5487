//! The text of an index's tree: pages are brought one after another, and written line by line, read from their frames.
pub(crate) mod bring;
mod lines;
mod pages;
mod stop;
mod tree;

pub use stop::Stop;
pub use tree::dump;

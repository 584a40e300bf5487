//! The command-line arguments of the program `gist`, and what they ask for.
#![tactic(auto)]

mod asking;
mod source;
mod words;

pub use asking::{AskedCommand, Dimensions};
pub use source::{Answer, Source, WordsFault, given};
pub use words::read;

//! Scripts: lines of bytes that ask an index for calls, and the text of its replies.
#![tactic(auto)]

mod answers;
mod command;
mod corners;
mod fault;
pub mod laws;
mod line;
mod line_buffer;
mod noted;
mod numbers;
mod output;
mod replies;
mod requests;
mod runner;
mod words;

pub use answers::Answers;
pub use corners::Corners;
pub use fault::ScriptFault;
pub use line::Line;
pub use noted::{Noted, Transfer};
pub use output::write_whole;
pub use requests::parse;
pub use runner::run;

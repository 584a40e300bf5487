//! An index for one thread: format and open a device, run calls to their end over an engine, gate all that is logged,
//! run scripts, write the text of its tree; and verify a device.
#![tactic(auto)]

mod class;
mod drain;
mod dump;
mod fault;
mod index;
pub mod laws;
mod opening;
mod script;
mod settle;
mod step;
mod text;
mod verification;

pub use class::class_of;
pub use fault::DumpFault;
pub use gx_engine::{EVENTS, NotOpened};
pub use gx_format::format;
pub use gx_script::{Noted, ScriptFault};
pub use index::Index;
pub use opening::open;
pub use script::run_script;
pub use verification::{NotVerified, Report, verify, verify_or_copy};

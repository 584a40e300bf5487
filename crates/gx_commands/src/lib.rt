//! The program's commands, however its arguments spell them: run a script on a fresh index in memory; format a device
//! or a file; run a script on the index that it holds, dump the tree of that, or verify it; migrate an index of the
//! first version. Each command reports a refusal by a line among the replies and by one to the user, and returns the
//! program's status.
#![tactic(auto)]

mod causes;
mod damage;
mod devices;
mod dumping;
mod files;
mod formatting;
pub mod laws;
mod migrating;
mod opener;
mod opening;
mod person;
mod refusals;
mod running;
mod scripts;
mod verifying;
mod watched;

pub use devices::{Kind, dump_device, migrate_device, run_device, verify_device};
pub use dumping::dump_over;
pub use files::{dump_file, format_file, migrate_file, run_file, verify_file};
pub use formatting::format_over;
pub use gx_script::Noted;
pub use migrating::migrate_over;
pub use opener::{Access, Opener, Opening};
pub use person::{SENTENCE, print, tell_fault, tell_person};
pub use refusals::{print_refusal, refuse};
pub use running::run_over;
pub use scripts::{refuse_memory, run_script};
pub use verifying::verify_over;
pub use watched::Watched;

/// Status: the command did all of its work.
const DONE: u8 = 0;

/// Status: a call outside of a script was refused, a fault stopped a script or a dump, or a reply to a script reported
/// a fault.
const REFUSED: u8 = 1;

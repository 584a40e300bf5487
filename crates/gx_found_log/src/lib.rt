//! The log that is found on a device, read back: from its bytes to what its records say. A log that is damaged is
//! refused.
//!
//! Its redo: the last image that it has of each page is laid on that page.
#![tactic(auto)]

mod body;
mod classes;
mod fault;
mod found;
mod gathered;
mod given;
mod head;
mod imaged;
mod images;
pub mod laws;
mod lay;
mod part;
mod readable;
mod record;
mod redoing;
mod restart;
mod room;
mod scratch;
mod small;

pub use body::on_body;
pub use classes::{examine_class_log, read_class_log};
pub use fault::{LogDamage, LogFault, Misfit};
pub use found::{FoundLog, examine_log, read_log};
pub use gathered::Gathered;
pub use given::{Given, LEAST_SHARE, MOST_GIVEN, MOST_IN_BODY};
pub use imaged::Imaged;
pub use part::Part;
pub use readable::Readable;
pub use redoing::redo;
pub use restart::redo_log;
pub use room::LogRoom;
pub use scratch::Scratch;
pub use small::Small;

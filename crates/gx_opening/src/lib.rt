//! The reading part of an opening: syncs a device, reads what it is formatted for, reads and lays its log, and tests
//! its pages; and if that is refused, examines what is damaged.
#![tactic(auto)]

mod damage;
mod formatted;
pub mod laws;
mod legal;
mod log;
mod notes;
mod reader;
mod standing;

pub use damage::{Damage, examine};
pub use formatted::{formatted_for, read_parameters, told_parameters};
pub use notes::notes_of;
pub use standing::{Standing, find};

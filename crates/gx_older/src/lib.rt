//! Reads a device of the format's first version, whose extents had 32 batches, as one of this version. Nothing is
//! written to it.
#![tactic(auto)]

mod class;
pub mod laws;
mod layout;
mod parameters;
mod reading;

pub use class::class_of_old;
pub use layout::{OLDER_PAGES_AT, OLDER_PLACES, older_sectors_for};
pub use parameters::older_parameters;
pub use reading::read_older;

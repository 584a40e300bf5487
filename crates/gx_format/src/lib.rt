//! Writes a new index to a device.
#![tactic(auto)]

mod calls;
mod fresh;
pub mod laws;
mod root;

pub use calls::{settle, write};
pub use fresh::{
    MAGIC, MIN_FANOUT, OLD_MAGIC, clear, close_gates, format, is_in_range, lay_parameters, name,
    open_first_gate, sectors_for,
};

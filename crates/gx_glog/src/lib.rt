//! The gated log: batches of records on a device, each counted once its gate is open.
#![tactic(auto)]

mod batch;
mod buffer;
mod extent;
mod filling;
mod first;
mod later;
pub mod laws;
mod parameters;
mod stage;
mod tail;
mod turn;

pub use batch::open_gate;
pub use extent::{
    BODIES_A, BODIES_B, BODY_ROOM, BODY_SECTORS, BODY_SIZE, EXTENT_SECTORS, Extent, GATES_A,
    GATES_B, PLACES, SELECTOR, read_extent, selected,
};
pub use filling::{Appended, Glog};
pub use first::first_body;
pub use later::close_later;
pub use parameters::{PARAMETERS, Parameters};
pub use stage::{Stage, Turn};
pub use turn::{GATES_SIZE, closed_gates, selecting};

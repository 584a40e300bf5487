//! Key classes: what the tree needs of its keys, and the classes of boxes and of intervals.
#![tactic(auto)]

mod box2_class;
mod box3_class;
mod box3_probe;
mod box_penalty;
mod box_probe;
mod class;
mod interval_class;
mod interval_probe;
mod keys;
pub mod laws;
mod probe;

pub use box_probe::BoxProbe;
pub use box2_class::Box2Class;
pub use box3_class::Box3Class;
pub use box3_probe::SolidProbe;
pub use class::{KeyClass, MAX_KEY};
pub use interval_class::IntervalClass;
pub use interval_probe::IntervalProbe;
pub use keys::ReadKeys;
pub use probe::Probing;

//! Boxes and intervals, the relations between them, and the refusals that calls return.
#![tactic(auto)]

mod axis;
mod box2;
mod box3;
mod interval;
pub mod laws;
mod refusal;
mod shape;

pub use box2::Box2;
pub use box3::Box3;
pub use interval::Interval;
pub use refusal::Refusal;
pub use shape::Shape;

//! The quadratic split of keys in two groups.
#![tactic(auto)]

mod boxes;
mod choice;
pub mod laws;
mod measure;
mod narrow;
mod place;
mod seeds;
mod sides;
mod solids;
mod waiting;

pub use boxes::BoxFrame;
pub use measure::Measure;
pub use sides::split;
pub use solids::SolidFrame;

//! The steps of the tree over a store of pages: a step reads one page.
#![tactic(auto)]

mod bring;
mod descent;
pub mod edits;
mod found;
mod halves;
mod item;
pub mod laws;
mod leaf_steps;
mod look;
mod moving;
mod seek;
mod split;
mod split_root;
mod stack;
mod sweep;
mod wanted;

pub use descent::{Descended, Way, descend_step, way_step};
pub use found::Found;
pub use gx_node::{Edit, LookFault, Pages, PagesMut, SplitFault, StepFault};
pub use item::TraversalItem;
pub use leaf_steps::{add_step, set_mark_step};
pub use look::{Look, look_step};
pub use seek::{Sought, seek_step};
pub use split::{Split, split_step};
pub use split_root::{RootSplit, split_root_step};
pub use sweep::{Sweep, make_sweep, plan_sweep, sweep_step};
pub use wanted::Wanted;

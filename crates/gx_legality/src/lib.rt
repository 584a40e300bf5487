//! The test that a tree on pages is legal, whatever the pages hold.
#![tactic(auto)]

mod bounds;
mod chain;
mod fault;
mod gather;
pub mod laws;
mod leaves;
mod legality;
mod named;
mod node;
mod nodes;
mod notes;
mod pairs;

pub use chain::test_chain;
pub use fault::{LegalityFault, Rule};
pub use legality::test_tree;
pub use named::{mark_children, test_named};
pub use node::test_node;
pub use nodes::test_nodes;
pub use notes::{NotedPair, are_in_order};

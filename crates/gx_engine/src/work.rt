//! The state of a session's call in the tree.
use gx_geom::Shape;
use gx_tree::{Look, TraversalItem};

/// The state of a session's call in the tree, from one event to the next.
#[derive(Drop)]
pub enum Work<B: Shape> {
    /// The call hasn't begun, or needs nothing of the tree.
    Rests,
    /// A look, which reads the page of its next item.
    Looks(Look<B>),
    /// A descent for an insert's pair, at an item to which it came from this page; 0 if it begins at the root.
    Descends(u32, TraversalItem),
    /// A seek for a pair that is in this leaf or to the right of it.
    Seeks(u32),
}

//! What a look finds.

use gx_machine::Entry;

/// A pair that a look found, and the leaf in which it found it.
#[derive(Clone, Copy)]
pub struct Found<B> {
    /// The row and its key.
    pub entry: Entry<B>,
    /// Whether the pair was marked as deleted.
    pub marked: bool,
    /// The leaf's page.
    pub leaf: u32,
}

//! The mark of an entry in its leaf.

/// Whether an entry in a leaf counts. A deleted entry stays where it is, marked, until it is swept away.
#[derive(Clone, Copy, Debug, PartialEq, Eq)]
pub enum Mark {
    /// The entry is present. Spelled 0.
    Live,
    /// The entry is deleted. Spelled 1.
    Marked,
}

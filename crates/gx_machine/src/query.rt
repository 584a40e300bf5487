//! Queries.

/// Which entries a search looks for, by their keys.
#[derive(Clone, Copy, Debug, PartialEq, Eq)]
pub enum Query<B> {
    /// Those whose key shares a point with this one.
    Overlap(B),
    /// Those whose key lies in this one.
    Within(B),
    /// Those whose key is this one.
    Equal(B),
    /// Those whose key covers this one.
    Covers(B),
}

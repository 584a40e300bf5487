//! Matching, and queries that are the same.
ghost use Rattle.std.specs.Prelude.{◌≡◌};
ghost use Rattle.gx_machine.specs.Keys.{keys_of, same_query, key_matches, matches};

use crate::{Entry, Query};
use gx_geom::Shape;
use std::cmp::Ordering;

/// Whether a key matches a query.
fn key_matches<B: Shape>(query: &Query<B>, key: &B) -> bool
    ensures { result ≡ key_matches (keys_of B.Shape) query.now key.now }
{
    match query {
        Query::Overlap(q) => key.overlaps(q),
        Query::Within(q) => key.within(q),
        Query::Equal(q) => key.cmp(q) == Ordering::Equal,
        Query::Covers(q) => q.within(key),
    }
}

/// Whether an entry matches a query.
pub fn matches<B: Shape>(query: &Query<B>, e: &Entry<B>) -> bool
    ensures { result ≡ matches (keys_of B.Shape) query.now e.now }
{
    key_matches(query, &e.key)
}

/// Whether two queries are the same.
pub fn is_same_query<B: Shape>(a: &Query<B>, b: &Query<B>) -> bool
    ensures { result ≡ same_query (keys_of B.Shape) a.now b.now }
{
    match (a, b) {
        (Query::Overlap(p), Query::Overlap(q)) => p.cmp(q) == Ordering::Equal,
        (Query::Within(p), Query::Within(q)) => p.cmp(q) == Ordering::Equal,
        (Query::Equal(p), Query::Equal(q)) => p.cmp(q) == Ordering::Equal,
        (Query::Covers(p), Query::Covers(q)) => p.cmp(q) == Ordering::Equal,
        _ => false,
    }
}

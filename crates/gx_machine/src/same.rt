//! Whether two replies are the same.
ghost use Rattle.std.specs.Prelude.{◌≡◌, MatchBool};

use crate::{Entry, Reply, laws};
use gx_geom::Shape;
use std::cmp::Ordering;

/// Whether two entries are the same.
fn same_entry<B: Shape>(one: &Entry<B>, other: &Entry<B>) -> bool
    ensures { MatchBool result (one.now ≡ other.now) (one.now ≡ other.now → ⊥) }
{
    laws::keys_are_lawful::<B>();
    match one.compared_with(other) {
        Ordering::Equal => true,
        _ => false,
    }
}

/// Whether two answers are the same.
fn same_entries<B: Shape>(one: &[Entry<B>], other: &[Entry<B>]) -> bool
    ensures { MatchBool result (one.now ≡ other.now) (one.now ≡ other.now → ⊥) }
{
    if one.len() != other.len() {
        return false;
    }
    for place in 0..one.len() {
        if !same_entry(&one[place], &other[place]) {
            return false;
        }
    }
    true
}

/// Whether two replies are the same.
pub fn is_same_reply<B: Shape>(one: &Reply<B>, other: &Reply<B>) -> bool
    ensures { MatchBool result (one.now ≡ other.now) (one.now ≡ other.now → ⊥) }
{
    match (one, other) {
        (Reply::Ok, Reply::Ok) => true,
        (Reply::Inserted, Reply::Inserted) => true,
        (Reply::Deleted, Reply::Deleted) => true,
        (Reply::Found(a), Reply::Found(b)) => same_entries(a.as_slice(), b.as_slice()),
        (Reply::Committed(a), Reply::Committed(b)) => *a == *b,
        (Reply::Aborted, Reply::Aborted) => true,
        (Reply::Refused(a), Reply::Refused(b)) => *a == *b,
        _ => false,
    }
}

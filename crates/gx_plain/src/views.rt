//! What a transaction sees: the last committed set without what it took away, with what it added.
ghost use Rattle.std.specs.Prelude.{◌≡◌, ◌+◌, ◌<◌, ◌≤◌, length, filter, IfOk, vec_len, vec_capacity};
ghost use Rattle.gx_machine.specs.Keys.{keys_of, matches};
ghost use Rattle.gx_machine.specs.Sets.{has, including_all, excluding_all, found, InOrder};

use crate::merge;
use gx_geom::Shape;
use gx_machine::{Entry, Query, matches};
use std::alloc::{AllocError, Global};

/// Whether the view has the entry.
pub fn has<B: Shape>(
    e: &Entry<B>,
    latest: &[Entry<B>],
    added: &[Entry<B>],
    taken: &[Entry<B>],
) -> bool
    requires { InOrder (keys_of B.Shape) latest.now }
    ensures { result ≡ has (keys_of B.Shape) e.now
        (including_all (keys_of B.Shape) added.now (excluding_all (keys_of B.Shape) taken.now latest.now)) }
{
    gx_machine::has(e, added) || !gx_machine::has(e, taken) && gx_machine::has_in_order(e, latest)
}

/// The entries of the set that match, without those taken away. Few match, so each that does is looked up.
fn matches_without<B: Shape>(
    alloc: Global,
    query: &Query<B>,
    set: &[Entry<B>],
    taken: &[Entry<B>],
) -> Result<Vec<Entry<B>>, AllocError>
    requires { InOrder (keys_of B.Shape) taken.now }
    ensures { IfOk result (λ v. v.items ≡ excluding_all (keys_of B.Shape) taken.now
        (found (keys_of B.Shape) query.now set.now)) }
{
    set.iter()
        .filter(|e| matches(query, *e))
        .filter(|e| !gx_machine::has_in_order(*e, taken))
        .copied()
        .collect(alloc)
}

/// The entries of the view that match, in order. What was taken away is in order too.
pub fn search<B: Shape>(
    alloc: Global,
    query: &Query<B>,
    latest: &[Entry<B>],
    added: &[Entry<B>],
    taken: &[Entry<B>],
) -> Result<Vec<Entry<B>>, AllocError>
    requires in_order { InOrder (keys_of B.Shape) latest.now }
    requires taken { InOrder (keys_of B.Shape) taken.now }
    ensures { IfOk result (λ v. v.items ≡ found (keys_of B.Shape) query.now
        (including_all (keys_of B.Shape) added.now (excluding_all (keys_of B.Shape) taken.now latest.now))) }
{
    let mut out = matches_without(alloc, query, latest, taken)?;
    for e in added {
        if matches(query, e) {
            gx_machine::include(*e, &mut out)?;
        }
    }
    Ok(out)
}

/// Turns the set into the view, for which there is room. What was added and taken away is in order too.
pub fn take_over<B: Shape>(latest: &mut Vec<Entry<B>>, added: &[Entry<B>], taken: &[Entry<B>])
    requires in_order { InOrder (keys_of B.Shape) latest.old.items }
    requires added { InOrder (keys_of B.Shape) added.now }
    requires taken { InOrder (keys_of B.Shape) taken.now }
    requires room { vec_len latest.old + length added.now ≤ vec_capacity latest.old }
    ensures view { latest.new.items ≡ including_all (keys_of B.Shape) added.now
        (excluding_all (keys_of B.Shape) taken.now latest.old.items) }
    ensures in_order { InOrder (keys_of B.Shape) latest.new.items }
    ensures room { vec_capacity latest.old ≤ vec_capacity latest.new }
    ensures grown { vec_len latest.new ≤ vec_len latest.old + length added.now }
{
    gx_machine::exclude_all(taken, latest);
    merge::merge(added, latest);
}

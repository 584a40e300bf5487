//! Sets of entries as sorted vectors.
ghost use Rattle.std.specs.Prelude.{insert, ◌≡◌, ◌+◌, ◌<◌, ◌≤◌, true, false, MatchOption};
ghost use Rattle.std.specs.Prelude.{OnOk, OnErr, IsOk, vec_len, vec_capacity, length, ⊤, []};
ghost use Rattle.gx_machine.specs.Keys.{keys_of, entry_cmp, same_entry, matches};
ghost use Rattle.gx_machine.specs.Sets.{has, including, excluding, including_all, excluding_all, InOrder};
ghost use Rattle.gx_machine.specs.Orders.{IsSearched};

use crate::Entry;
use gx_geom::Shape;
use std::alloc::AllocError;
use std::cmp::Ordering;

/// Whether two entries are the same.
pub fn is_same<B: Shape>(a: &Entry<B>, b: &Entry<B>) -> bool
    ensures { result ≡ same_entry (keys_of B.Shape) a.now b.now }
{
    a.cmp(b) == Ordering::Equal
}

/// Whether the entry is in the set.
pub fn has<B: Shape>(e: &Entry<B>, set: &[Entry<B>]) -> bool
    ensures { result ≡ has (keys_of B.Shape) e.now set.now }
{
    set.iter().any(|x| is_same(e, x))
}

/// How two entries are ordered.
fn compare<B: Shape>(a: &Entry<B>, b: &Entry<B>) -> Ordering
    ensures { result ≡ entry_cmp (keys_of B.Shape) a.now b.now }
{
    a.cmp(b)
}

/// The place of the entry in a set in order, or else the place where it would go, searched by halves.
pub fn find<B: Shape>(e: &Entry<B>, set: &[Entry<B>]) -> Result<usize, usize>
    requires { InOrder (keys_of B.Shape) set.now }
    ensures { IsSearched (keys_of B.Shape) e.now set.now result }
{
    set.binary_search_by(|x| compare(x, e))
}

/// Whether the entry is in a set in order, searched by halves.
pub fn has_in_order<B: Shape>(e: &Entry<B>, set: &[Entry<B>]) -> bool
    requires { InOrder (keys_of B.Shape) set.now }
    ensures { result ≡ has (keys_of B.Shape) e.now set.now }
{
    match find(e, set) {
        Ok(_) => true,
        Err(_) => false,
    }
}

/// The place where the entry would go in the set, or `None` if the set has it.
fn place<B: Shape>(e: &Entry<B>, set: &[Entry<B>]) -> Option<usize>
    ensures within { MatchOption result ⊤ (λ i. i ≤ length set.now) }
    ensures place { MatchOption result
        (including (keys_of B.Shape) e.now set.now ≡ set.now)
        (λ i. including (keys_of B.Shape) e.now set.now ≡ insert set.now i e.now) }
{
    for (i, x) in set.iter().enumerate() {
        match e.cmp(x) {
            Ordering::Less => return Some(i),
            Ordering::Equal => return None,
            Ordering::Greater => {}
        }
    }
    Some(set.len())
}

/// Puts the entry in its place, unless the set has it. An `Err` changes nothing, and comes only if the vector is full
/// and doesn't have the entry.
pub fn include<B: Shape>(e: Entry<B>, set: &mut Vec<Entry<B>>) -> Result<(), AllocError>
    ensures ok { OnOk result (set.new.items ≡ including (keys_of B.Shape) e set.old.items) }
    ensures err { OnErr result (set.new.items ≡ set.old.items) }
    ensures full { OnErr result (vec_capacity set.old < length (including (keys_of B.Shape) e set.old.items)) }
    ensures capacity { vec_capacity set.old ≤ vec_capacity set.new }
    ensures one_more { vec_len set.new ≤ vec_len set.old + 1 }
{
    match place(&e, set) {
        None => Ok(()),
        Some(i) => {
            set.insert(i, e)?;
            Ok(())
        }
    }
}

/// Puts the entry in its place, for which there is room.
pub fn include_within_capacity<B: Shape>(e: Entry<B>, set: &mut Vec<Entry<B>>)
    requires { length (including (keys_of B.Shape) e set.old.items) ≤ vec_capacity set.old }
    ensures items { set.new.items ≡ including (keys_of B.Shape) e set.old.items }
    ensures capacity { vec_capacity set.old ≤ vec_capacity set.new }
    ensures one_more { vec_len set.new ≤ vec_len set.old + 1 }
{
    let _ = include(e, set);
}

/// Puts the entries in order, each once. Takes no memory.
pub fn put_in_order<B: Shape>(entries: &mut Vec<Entry<B>>)
    ensures items { entries.new.items ≡ including_all (keys_of B.Shape) entries.old.items [] }
    ensures capacity { vec_capacity entries.new ≡ vec_capacity entries.old }
{
    entries.sort_unstable();
    entries.dedup();
}

/// Takes the entry out of the set.
pub fn exclude<B: Shape>(e: &Entry<B>, set: &mut Vec<Entry<B>>)
    ensures items { set.new.items ≡ excluding (keys_of B.Shape) e.now set.old.items }
    ensures capacity { vec_capacity set.old ≤ vec_capacity set.new }
    ensures no_more { vec_len set.new ≤ vec_len set.old }
{
    set.retain(|x| !is_same(e, x));
}

/// Takes each of these entries, which are in order, out of the set.
pub fn exclude_all<B: Shape>(gone: &[Entry<B>], set: &mut Vec<Entry<B>>)
    requires { InOrder (keys_of B.Shape) gone.now }
    ensures items { set.new.items ≡ excluding_all (keys_of B.Shape) gone.now set.old.items }
    ensures capacity { vec_capacity set.old ≤ vec_capacity set.new }
    ensures no_more { vec_len set.new ≤ vec_len set.old }
{
    set.retain(|x| !has_in_order(x, gone));
}

/// Puts each of these entries in its place. There is room for them all.
pub fn include_all<B: Shape>(more: &[Entry<B>], set: &mut Vec<Entry<B>>)
    requires { vec_len set.old + length more.now ≤ vec_capacity set.old }
    ensures items { set.new.items ≡ including_all (keys_of B.Shape) more.now set.old.items }
    ensures capacity { vec_capacity set.old ≤ vec_capacity set.new }
    ensures grown { vec_len set.new ≤ vec_len set.old + length more.now }
{
    for e in more {
        include_within_capacity(*e, set);
    }
}

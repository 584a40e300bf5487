//! A scan beside the plain filter of the same node.
use gx_class::{Box2Class, KeyClass, Probing};
use gx_geom::Box2;
use gx_machine::Query;
use gx_node::{BLOCK, Inner, Leaf};

/// What was found: keys, those of live pairs, and bounds.
#[derive(Clone, Copy)]
pub(crate) struct Found {
    pub(crate) keys: u64,
    pub(crate) live: u64,
    pub(crate) bounds: u64,
}

impl Found {
    /// Nothing.
    pub(crate) const NONE: Found = Found {
        keys: 0,
        live: 0,
        bounds: 0,
    };

    /// Both together.
    pub(crate) fn with(self, other: Found) -> Found {
        Found {
            keys: self.keys.wrapping_add(other.keys),
            live: self.live.wrapping_add(other.live),
            bounds: self.bounds.wrapping_add(other.bounds),
        }
    }
}

/// Whether a slot is at a place among slots that pass.
fn stands_at(slots: &[u16], place: usize, slot: usize) -> bool {
    match slots.get(place) {
        Some(found) => usize::from(*found) == slot,
        None => false,
    }
}

/// How many of a leaf's keys match, and how many of those are of live pairs. `None` if a scan, slot by slot or by
/// blocks, finds another slot than the filter.
fn compare_keys(leaf: &Leaf<'_, Box2Class>, query: &Query<Box2>) -> Option<(u64, u64)> {
    let probe = Box2Class::probe_keys(query);
    let mut next = leaf.next_hit(&probe, 0);
    let mut block = leaf.passing(&probe, 0);
    let mut place = 0_usize;
    let mut hits: u64 = 0;
    let mut live_hits: u64 = 0;
    for slot in 0..leaf.len() {
        if slot % BLOCK == 0 {
            block = leaf.passing(&probe, slot);
            place = 0;
        }
        let (entry, marked) = leaf.entry(slot);
        let wanted = Box2Class::matches(query, &entry.key);
        let gathered = stands_at(block.as_slice(), place, slot);
        if wanted != (next == Some(slot)) || wanted != gathered || marked != leaf.is_marked(slot) {
            return None;
        }
        if wanted {
            hits = hits.wrapping_add(1);
            place = place.wrapping_add(1);
            next = leaf.next_hit(&probe, slot + 1);
        }
        if wanted && !marked {
            live_hits = live_hits.wrapping_add(1);
        }
    }
    if next.is_some() {
        return None;
    }
    Some((hits, live_hits))
}

/// How many of an inner node's bounds may have a match below them. `None` if a scan, slot by slot or by blocks, finds
/// another slot than the filter.
fn compare_bounds(inner: &Inner<'_, Box2Class>, query: &Query<Box2>) -> Option<u64> {
    let probe = Box2Class::probe_bounds(query);
    let mut next = inner.next_hit(&probe, 0);
    let mut block = inner.passing(&probe, 0);
    let mut place = 0_usize;
    let mut hits: u64 = 0;
    for slot in 0..inner.len() {
        if slot % BLOCK == 0 {
            block = inner.passing(&probe, slot);
            place = 0;
        }
        let wanted = Box2Class::consistent(query, &inner.child(slot).0);
        let gathered = stands_at(block.as_slice(), place, slot);
        if wanted != (next == Some(slot)) || wanted != gathered {
            return None;
        }
        if wanted {
            hits = hits.wrapping_add(1);
            place = place.wrapping_add(1);
            next = inner.next_hit(&probe, slot + 1);
        }
    }
    if next.is_some() {
        return None;
    }
    Some(hits)
}

/// What a query finds on a leaf and an inner node. `None` if a scan and the filter differ.
pub(crate) fn compare(
    leaf: &Leaf<'_, Box2Class>,
    inner: &Inner<'_, Box2Class>,
    query: &Query<Box2>,
) -> Option<Found> {
    let (keys, live) = compare_keys(leaf, query)?;
    let bounds = compare_bounds(inner, query)?;
    Some(Found { keys, live, bounds })
}

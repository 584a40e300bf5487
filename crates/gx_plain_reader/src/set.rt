//! The set that an image stands for.
use crate::log::Log;
use crate::page::{Node, Pair};
use crate::{Damage, Entry};
use std::alloc::Global;

/// Whether a pair's entry is in the set: if it was live before an open transaction wrote it first, or else if it is
/// live.
fn is_in(log: &Log, pair: &Pair) -> bool {
    match log.first_before(&pair.entry) {
        Some(before) => !before,
        None => !pair.marked,
    }
}

/// What entries are ordered by: row, then key.
fn order(entry: &Entry) -> (u64, i64, i64, i64, i64) {
    let Entry { row, key } = entry;
    (*row, key.x1, key.y1, key.x2, key.y2)
}

/// Puts an entry in its place among entries in order.
fn insert_entry(set: &mut Vec<Entry>, entry: Entry) -> Result<(), Damage> {
    let mut place = 0_usize;
    for other in set.iter() {
        if order(other) < order(&entry) {
            place = place.saturating_add(1);
        }
    }
    set.insert(place.min(set.len()), entry)?;
    Ok(())
}

/// The entries of the set, by row and then by key.
pub(crate) fn set_of(alloc: Global, nodes: &[Node], log: &Log) -> Result<Vec<Entry>, Damage> {
    let mut set = Vec::new(alloc);
    for node in nodes {
        for pair in node.pairs.iter() {
            if is_in(log, pair) {
                insert_entry(&mut set, pair.entry)?;
            }
        }
    }
    Ok(set)
}

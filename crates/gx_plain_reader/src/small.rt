//! Small changes of a page, made of the node that it is.
use crate::Damage;
use crate::key::{Entry, Key};
use crate::page::{Node, Pair};

/// How many slots a sweep has at most.
pub(crate) const SLOTS: usize = 100;

/// The slots of a sweep, rising.
#[derive(Clone, Copy)]
pub(crate) struct Slots {
    pub(crate) numbers: [u16; SLOTS],
    pub(crate) count: usize,
}

/// What changes on a page.
#[derive(Clone, Copy)]
pub(crate) enum Small {
    /// The pair is marked, or isn't.
    Mark(Entry, bool),
    /// The pair comes, live.
    Add(Entry),
    /// The child in this slot has this key.
    Bound(u16, Key),
    /// The pairs in these slots go.
    Sweep(Slots),
}

/// The place of an entry's first pair.
fn place_of(node: &Node, entry: &Entry) -> Option<usize> {
    node.pairs.iter().position(|pair| pair.entry == *entry)
}

fn mark(node: &mut Node, entry: &Entry, marked: bool) -> bool {
    let place = place_of(node, entry);
    match place.and_then(|place| node.pairs.get_mut(place)) {
        Some(pair) => {
            pair.marked = marked;
            true
        }
        None => false,
    }
}

fn add(node: &mut Node, most: usize, entry: Entry) -> Result<bool, Damage> {
    if node.level > 0 || node.pairs.len() >= most || place_of(node, &entry).is_some() {
        return Ok(false);
    }
    node.pairs.push(Pair {
        entry,
        marked: false,
    })?;
    Ok(true)
}

fn bound(node: &mut Node, slot: u16, key: Key) -> bool {
    match node.children.get_mut(usize::from(slot)) {
        Some(child) => {
            child.key = key;
            true
        }
        None => false,
    }
}

/// Whether each of the slots has a marked pair.
fn are_marked(node: &Node, slots: &[u16]) -> bool {
    for slot in slots {
        match node.pairs.get(usize::from(*slot)) {
            Some(pair) if pair.marked => {}
            _ => return false,
        }
    }
    true
}

fn sweep(node: &mut Node, slots: &Slots) -> bool {
    let slots = slots.numbers.get(..slots.count).unwrap_or(&[]);
    if !are_marked(node, slots) {
        return false;
    }
    for slot in slots.iter().rev() {
        let slot = usize::from(*slot);
        if slot < node.pairs.len() {
            node.pairs.remove(slot);
        }
    }
    true
}

/// Changes a node, which may have so many entries at most. Whether the change fits it: a pair's mark, a leaf that has
/// the pair; an added pair, a leaf that has room for it and hasn't the pair; a bound, a node above the leaves that has
/// the slot; a sweep, a leaf that has each slot with a marked pair.
pub(crate) fn change(node: &mut Node, most: usize, small: &Small) -> Result<bool, Damage> {
    match small {
        Small::Mark(entry, marked) => Ok(mark(node, entry, *marked)),
        Small::Add(entry) => add(node, most, *entry),
        Small::Bound(slot, key) => Ok(bound(node, *slot, *key)),
        Small::Sweep(slots) => Ok(sweep(node, slots)),
    }
}

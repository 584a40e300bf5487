//! Looks for keys, and for pairs that are to be marked.
ghost use Rattle.std.specs.Prelude.{◌≤◌, length};

use crate::drawn::{RandomKeys, draw_place};
use crate::tree::writes::{Tree, root};
use gx_class::Probing;
use gx_machine::{Entry, Query};
use gx_tree::{Look, Pages, Sought, Wanted, look_step, set_mark_step};
use std::alloc::Global;

/// A look from the root to its end, which reads no page twice.
fn look_for<K: Probing>(
    alloc: Global,
    tree: &mut Tree<K>,
    wanted: &Wanted<K>,
) -> Option<Look<K::Key>> {
    let mut look = Look::new(alloc, root(tree)).ok()?;
    for _ in 0..tree.used() {
        if look.is_done() {
            break;
        }
        look_step(tree, wanted, &mut look).ok()?;
    }
    Some(look)
}

/// Looks for keys that overlap a window: how many there are, and their rows, all added up.
fn query<K: Probing>(alloc: Global, tree: &mut Tree<K>, window: K::Key) -> Option<u64> {
    let wanted = Wanted::matching(&Query::Overlap(window));
    let look = look_for(alloc, tree, &wanted)?;
    let mut sum: u64 = 0;
    for found in look.found() {
        sum = sum.wrapping_add(found.entry.row).wrapping_add(1);
    }
    Some(sum)
}

/// Makes so many queries of random windows, and returns the sum.
pub(crate) fn query_many<K: RandomKeys>(
    alloc: Global,
    tree: &mut Tree<K>,
    queries: u64,
) -> Option<u64> {
    let mut state = 11;
    let mut sum: u64 = 0;
    for _ in 0..queries {
        let window = K::draw_window(&mut state)?;
        sum = sum.wrapping_add(query(alloc, tree, window)?);
    }
    Some(sum)
}

/// Looks for a pair and marks it: its leaf, its slot and whether it was marked before, all added up.
fn mark<K: Probing>(alloc: Global, tree: &mut Tree<K>, entry: &Entry<K::Key>) -> Option<u64> {
    let wanted = Wanted::entry(entry);
    let look = look_for(alloc, tree, &wanted)?;
    let leaf = look.found().first()?.leaf;
    match set_mark_step(tree, &wanted, leaf, true).ok()? {
        Sought::Here(slot, before) => Some(
            u64::from(leaf)
                .wrapping_add(slot as u64)
                .wrapping_add(u64::from(before)),
        ),
        Sought::Right(_) => None,
    }
}

/// Marks so many random pairs of these, and returns the sum.
pub(crate) fn mark_many<K: Probing>(
    alloc: Global,
    tree: &mut Tree<K>,
    entries: &[Entry<K::Key>],
    marks: u64,
) -> Option<u64>
    requires { 1 ≤ length entries.now }
{
    let mut state = 13;
    let mut sum: u64 = 0;
    for _ in 0..marks {
        let place = draw_place(&mut state, entries.len() as u64) as usize;
        sum = sum.wrapping_add(mark(alloc, tree, &entries[place])?);
    }
    Some(sum)
}

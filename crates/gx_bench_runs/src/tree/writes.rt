//! A tree in memory, and inserts by the tree's steps.
ghost use Rattle.std.specs.Prelude.{◌≤◌, length};

use gx_class::KeyClass;
use gx_machine::Entry;
use gx_memory_tree::{DescentPlace, MemoryPages, insert_step};
use gx_node::{inner_edits, laws};
use gx_page::Page;
use gx_tree::{Pages, TraversalItem};
use std::alloc::Global;

/// A tree of the class's keys.
pub(crate) type Tree<K> = MemoryPages<K>;

/// How many entries a node has at most.
pub(crate) const MOST: usize = 100;

/// How many pages can be taken.
const SPARE: u32 = 8192;

/// How many steps an insert takes at most: from the root down and again after each split.
const STEPS: u32 = 1000;

/// The root over its only child, which has no entries.
fn fresh_root<K: KeyClass>(alloc: Global) -> Option<Page> {
    let Ok(mut root) = Page::fresh(alloc, 1, 1) else {
        return None;
    };
    laws::blanks::<K>();
    inner_edits::append::<K>(&mut root, K::start(), 2, 2);
    Some(root)
}

/// A tree without entries. `None` if memory is refused.
pub(crate) fn fresh_tree<K: KeyClass>(alloc: Global) -> Option<Tree<K>> {
    let mut pages = Vec::new(alloc);
    pages.push(fresh_root::<K>(alloc)?).ok()?;
    pages.push(Page::fresh(alloc, 0, 2).ok()?).ok()?;
    let mut spare = Vec::new(alloc);
    for _ in 0..SPARE {
        spare.push(Page::fresh(alloc, 0, 0).ok()?).ok()?;
    }
    MemoryPages::new(pages, spare, 0).ok()
}

/// The root, to begin with.
pub(crate) fn root<K: KeyClass>(tree: &Tree<K>) -> TraversalItem {
    TraversalItem::new(1, tree.counter())
}

/// Inserts a pair. `None` if a step was refused, or there were too many. Keys of nodes that are split are written over
/// `keys`.
pub(crate) fn insert<K: KeyClass>(
    tree: &mut Tree<K>,
    entry: &Entry<K::Key>,
    keys: &mut [K::Key],
) -> Option<()>
    requires { 100 ≤ length keys.old }
{
    let mut place = DescentPlace::top(tree);
    for _ in 0..STEPS {
        match insert_step(tree, place, entry, MOST, keys).ok()? {
            Some(next) => place = next,
            None => return Some(()),
        }
    }
    None
}

/// A sum of all pages' bytes, in their order.
pub(crate) fn sum_of_pages<K: KeyClass>(tree: &Tree<K>) -> u64 {
    let mut sum: u64 = 0;
    for page in 1..=tree.used() {
        for byte in tree.page(page).image() {
            sum = sum.wrapping_mul(31).wrapping_add(u64::from(*byte));
        }
    }
    sum
}

//! A tree of random boxes of the plane or of space, built in memory by the tree's steps: `inserts`, so many boxes in a
//! new tree; `pages`, the same, and a sum of all pages' bytes; `queries`, so many windows looked for in a tree of a
//! hundred thousand boxes; `marks`, so many of its pairs looked for and marked. The sum is of what was done.

mod looks;
mod writes;

use crate::drawn::RandomKeys;
use gx_class::KeyClass;
use gx_machine::Entry;
use gx_tree::Pages;
use looks::{mark_many, query_many};
use std::alloc::Global;
use writes::{MOST, Tree, fresh_tree, insert, sum_of_pages};

/// How many boxes the tree has in which is looked.
const BOXES: u64 = 100_000;

/// What is asked.
#[derive(Clone, Copy)]
pub(crate) enum Kind {
    /// Boxes inserted in a new tree.
    Inserts,
    /// The same, and what the pages are then.
    Pages,
    /// Windows looked for.
    Queries,
    /// Pairs looked for and marked.
    Marks,
}

impl Kind {
    /// The one of this name.
    pub(crate) fn named(word: &str) -> Option<Kind> {
        match word {
            "inserts" => Some(Kind::Inserts),
            "pages" => Some(Kind::Pages),
            "queries" => Some(Kind::Queries),
            "marks" => Some(Kind::Marks),
            _ => None,
        }
    }
}

/// A tree and the pairs that were inserted.
#[derive(Drop)]
struct Built<K: KeyClass> {
    tree: Tree<K>,
    entries: Vec<Entry<K::Key>>,
}

/// Inserts so many random boxes in a new tree.
fn build<K: RandomKeys>(alloc: Global, boxes: u64) -> Option<Built<K>> {
    let mut tree = fresh_tree::<K>(alloc)?;
    let mut entries = Vec::new(alloc);
    let mut keys = vec![in alloc; K::start(); MOST].ok()?;
    let mut state = 7;
    for row in 0..boxes {
        let key = K::draw_key(&mut state)?;
        let entry = Entry { row, key };
        insert(&mut tree, &entry, &mut keys)?;
        entries.push(entry).ok()?;
    }
    Some(Built { tree, entries })
}

/// Does so often what is asked, and returns the sum. `None` if memory is refused or a step is.
pub(crate) fn run<K: RandomKeys>(alloc: Global, kind: Kind, count: u64) -> Option<u64> {
    match kind {
        Kind::Inserts => Some(u64::from(build::<K>(alloc, count)?.tree.used())),
        Kind::Pages => Some(sum_of_pages(&build::<K>(alloc, count)?.tree)),
        Kind::Queries => query_many(alloc, &mut build::<K>(alloc, BOXES)?.tree, count),
        Kind::Marks => {
            let mut built = build::<K>(alloc, BOXES)?;
            if built.entries.is_empty() {
                return None;
            }
            mark_many(alloc, &mut built.tree, built.entries.as_slice(), count)
        }
    }
}

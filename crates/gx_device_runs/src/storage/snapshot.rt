//! What is expected on a device, and whether it has that.
use crate::storage::fault::{StorageFault, What};
use gx_class::Box2Class;
use gx_geom::Box2;
use gx_node::{Inner, Leaf};
use gx_page::Page;
use gx_plain_reader::{Child, Entry, Key, Node, Pair, Reading};
use std::alloc::Global;

/// The pages after some records, the entries that are in the set, and the numbers.
#[derive(Drop)]
pub(crate) struct Snapshot {
    pub(crate) nodes: Vec<Node>,
    pub(crate) set: Vec<Entry>,
    pub(crate) number: u64,
    pub(crate) counter: u64,
    pub(crate) next: u64,
}

/// A box's corners, as the plain reader has them.
pub(crate) fn corners(key: &Box2) -> Key {
    Key {
        x1: i64::from(key.x1()),
        y1: i64::from(key.y1()),
        x2: i64::from(key.x2()),
        y2: i64::from(key.y2()),
    }
}

fn pairs_of(alloc: Global, page: &Page) -> Result<Vec<Pair>, StorageFault> {
    let leaf = Leaf::<Box2Class>::read(page)?;
    let mut pairs = Vec::new(alloc);
    for slot in 0..leaf.len() {
        let (entry, marked) = leaf.entry(slot);
        let entry = Entry {
            row: entry.row,
            key: corners(&entry.key),
        };
        pairs.push(Pair { entry, marked })?;
    }
    Ok(pairs)
}

fn children_of(alloc: Global, page: &Page, room: u32) -> Result<Vec<Child>, StorageFault> {
    let inner = Inner::<Box2Class>::read(page, room)?;
    let mut children = Vec::new(alloc);
    for slot in 0..inner.len() {
        let (bound, child) = inner.child(slot);
        children.push(Child {
            key: corners(&bound),
            page: child,
        })?;
    }
    Ok(children)
}

/// A page as the plain reader has it.
pub(crate) fn node_of(alloc: Global, page: &Page, room: u32) -> Result<Node, StorageFault> {
    let level = page.level();
    let mut pairs = Vec::new(alloc);
    let mut children = Vec::new(alloc);
    if level == 0 {
        pairs = pairs_of(alloc, page)?;
    } else {
        children = children_of(alloc, page, room)?;
    }
    Ok(Node {
        level,
        nsn: page.nsn(),
        right: page.right(),
        pairs,
        children,
    })
}

fn are_same_pairs(one: &[Pair], other: &[Pair]) -> bool {
    for (a, b) in one.iter().zip(other.iter()) {
        if a.entry != b.entry || a.marked != b.marked {
            return false;
        }
    }
    one.len() == other.len()
}

fn are_same_children(one: &[Child], other: &[Child]) -> bool {
    for (a, b) in one.iter().zip(other.iter()) {
        if a.key != b.key || a.page != b.page {
            return false;
        }
    }
    one.len() == other.len()
}

fn are_same(one: &Node, other: &Node) -> bool {
    one.level == other.level
        && one.nsn == other.nsn
        && one.right == other.right
        && are_same_pairs(&one.pairs, &other.pairs)
        && are_same_children(&one.children, &other.children)
}

/// The number of the first page that differs, if as many are in use.
fn first_other(one: &[Node], other: &[Node]) -> Option<u64> {
    let mut page = 0_u64;
    for (a, b) in one.iter().zip(other.iter()) {
        page = page.saturating_add(1);
        if !are_same(a, b) {
            return Some(page);
        }
    }
    None
}

/// Whether a number is the one that it is to be.
fn agree(what: What, found: u64, wanted: u64) -> Result<(), StorageFault> {
    if found == wanted {
        Ok(())
    } else {
        Err(StorageFault::Differs(what, found))
    }
}

impl Snapshot {
    /// Whether this is what the plain reader found; else the first difference.
    pub(crate) fn stands(&self, found: &Reading) -> Result<(), StorageFault> {
        agree(
            What::PagesInUse,
            found.nodes.len() as u64,
            self.nodes.len() as u64,
        )?;
        agree(What::Counter, found.counter, self.counter)?;
        agree(What::Commits, found.number, self.number)?;
        agree(What::Next, found.next, self.next)?;
        if let Some(page) = first_other(&found.nodes, &self.nodes) {
            return Err(StorageFault::Differs(What::Page, page));
        }
        if found.set.as_slice() != self.set.as_slice() {
            return Err(StorageFault::Differs(What::Set, found.set.len() as u64));
        }
        Ok(())
    }
}

//! The tree in memory, on which each step is made that the storage has made.
ghost use Rattle.std.specs.Prelude.{◌≤◌};
ghost use Rattle.gx_node.specs.declared.items.TheConstants.{MAX_ENTRIES};

use crate::storage::book::{Row, is_claimed};
use crate::storage::fault::{StorageFault, What};
use crate::storage::snapshot::node_of;
use gx_class::Box2Class;
use gx_geom::Box2;
use gx_machine::Entry;
use gx_memory_tree::{DescentPlace, MemoryPages, insert_step};
use gx_node::MAX_ENTRIES;
use gx_page::Page;
use gx_plain_reader::Node;
use gx_tree::{
    Descended, Pages, RootSplit, Sought, Split, SplitFault, StepFault, TraversalItem, Wanted,
    add_step, descend_step, set_mark_step, split_root_step, split_step, sweep_step,
};
use std::alloc::Global;
use std::convert::Infallible;

/// How many pages the device has room for.
pub(crate) const PAGES: u32 = 64;

/// A tree in memory.
#[derive(Drop)]
pub(crate) struct Mirror {
    pages: MemoryPages<Box2Class>,
    most: usize,
    /// Room for the keys of a node that is split.
    keys: Vec<Box2>,
}

/// Room for the keys of a node.
pub(crate) fn room_for_keys(alloc: Global) -> Result<Vec<Box2>, StorageFault> {
    let mut keys = Vec::new(alloc);
    keys.resize(MAX_ENTRIES, Box2::point(0, 0))?;
    Ok(keys)
}

/// Why a step of the tree in memory is refused.
fn refused(_fault: StepFault<Infallible>) -> StorageFault {
    StorageFault::Unexpected(What::Tree)
}

/// Why a split of the tree in memory is refused.
fn split_refused(fault: SplitFault<Infallible>) -> StorageFault {
    match fault {
        SplitFault::PagesFull => StorageFault::PagesFull,
        SplitFault::Step(fault) => refused(fault),
    }
}

/// The root and the leaf of a fresh tree.
fn fresh(alloc: Global) -> Result<Vec<Page>, StorageFault> {
    let mut root = Page::fresh(alloc, 1, 1)?;
    let child = [0, 0, 0, 0, 0, 0, 0, 0, 0, 0, 0, 0, 0, 0, 0, 0, 0, 0, 0, 2];
    let place = root.count();
    if !root.insert(place, &child) {
        return Err(StorageFault::Unexpected(What::Base));
    }
    let mut pages = Vec::new(alloc);
    pages.push(root)?;
    pages.push(Page::fresh(alloc, 0, 2)?)?;
    Ok(pages)
}

impl Mirror {
    /// A fresh tree.
    pub(crate) fn new(alloc: Global, most: usize) -> Result<Mirror, StorageFault> {
        let mut spare = Vec::new(alloc);
        for _page in 2..PAGES {
            spare.push(Page::fresh(alloc, 0, 0)?)?;
        }
        Ok(Mirror {
            pages: MemoryPages::new(fresh(alloc)?, spare, 0)?,
            most,
            keys: room_for_keys(alloc)?,
        })
    }

    /// How many entries a node may have.
    pub(crate) fn most(&self) -> usize
        ensures { (4 ≤ result) × (result ≤ MAX_ENTRIES) }
    {
        self.most.max(4).min(MAX_ENTRIES)
    }

    pub(crate) fn used(&self) -> u32 {
        self.pages.used()
    }

    pub(crate) fn counter(&self) -> u64 {
        self.pages.counter()
    }

    /// Where a descent begins.
    pub(crate) fn top(&self) -> DescentPlace {
        DescentPlace::top(&self.pages)
    }

    /// A page in use.
    pub(crate) fn page(&self, page: u32) -> Option<&Page> {
        if page == 0 || page > self.pages.used() {
            return None;
        }
        Some(self.pages.page(page))
    }

    /// The pages in use, as the plain reader has them.
    pub(crate) fn nodes(&self, alloc: Global) -> Result<Vec<Node>, StorageFault> {
        let room = self.pages.room();
        let mut nodes = Vec::new(alloc);
        for before in 0..self.pages.used() {
            if let Some(page) = self.page(before.saturating_add(1)) {
                nodes.push(node_of(alloc, page, room)?)?;
            }
        }
        Ok(nodes)
    }

    pub(crate) fn descend(
        &mut self,
        item: &TraversalItem,
        coming: &Box2,
    ) -> Result<Descended<Box2>, StorageFault> {
        let most = self.most();
        descend_step(&mut self.pages, item, coming, most).map_err(refused)
    }

    pub(crate) fn add(&mut self, page: u32, entry: &Entry<Box2>) -> Result<(), StorageFault> {
        let most = self.most();
        add_step(&mut self.pages, page, entry, most).map_err(refused)
    }

    pub(crate) fn set_mark(
        &mut self,
        wanted: &Wanted<Box2Class>,
        page: u32,
        marked: bool,
    ) -> Result<Sought, StorageFault> {
        set_mark_step(&mut self.pages, wanted, page, marked).map_err(refused)
    }

    /// Removes the marked pairs that no session claims from a leaf.
    pub(crate) fn sweep(&mut self, page: u32, rows: &[Row]) -> Result<bool, StorageFault> {
        let swept = sweep_step(&mut self.pages, page, |entry: Entry<Box2>| {
            is_claimed(rows, &entry)
        });
        swept.map_err(refused)
    }

    /// Splits a full node below its parent.
    pub(crate) fn split(
        &mut self,
        page: u32,
        parent: u32,
    ) -> Result<Option<Split<Box2>>, StorageFault> {
        let most = self.most();
        if self.keys.len() < MAX_ENTRIES {
            return Err(StorageFault::Unexpected(What::Tree));
        }
        split_step(&mut self.pages, page, parent, most, &mut self.keys).map_err(split_refused)
    }

    /// Splits the root.
    pub(crate) fn split_root(&mut self) -> Result<RootSplit<Box2>, StorageFault> {
        let most = self.most();
        if self.keys.len() < MAX_ENTRIES {
            return Err(StorageFault::Unexpected(What::Tree));
        }
        split_root_step(&mut self.pages, most, &mut self.keys).map_err(split_refused)
    }

    /// Inserts a pair that the tree doesn't have.
    pub(crate) fn insert(&mut self, entry: &Entry<Box2>) -> Result<(), StorageFault> {
        let most = self.most();
        let mut place = self.top();
        for _step in 0..1_000_u32 {
            if self.keys.len() < MAX_ENTRIES {
                break;
            }
            let next = insert_step(&mut self.pages, place, entry, most, &mut self.keys);
            match next.map_err(split_refused)? {
                Some(next) => place = next,
                None => return Ok(()),
            }
        }
        Err(StorageFault::Unexpected(What::Base))
    }
}

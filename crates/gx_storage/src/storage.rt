//! The pages with their log.
ghost use Rattle.std.specs.Prelude.{◌≡◌, ◌≤◌, false, length, replicate};
ghost use Rattle.gx_node.specs.declared.items.TheConstants.{MAX_ENTRIES};

use crate::imaged::Imaged;
use crate::journal::Journal;
use gx_class::ReadKeys;
use gx_disk::SectorDisk;
use gx_glog::Glog;
use gx_node::MAX_ENTRIES;
use gx_store::PageStore;
use gx_tree::Pages;
use std::marker::Model;

/// A tree's pages in frames over a device, with their log.
#[derive(Drop)]
pub struct Storage<D: SectorDisk, K: ReadKeys> {
    pub(crate) journal: Journal<K>,
    pub(crate) store: PageStore<D, K>,
    pub(crate) most: usize,
}

impl<D: SectorDisk, K: ReadKeys> Model for Storage<D, K> {
    ghost use Rattle.std.specs.Prelude.{◌≤◌};
    ghost use Rattle.gx_node.specs.declared.items.TheConstants.{MAX_ENTRIES};
    ghost use Rattle.gx_storage.specs.State.{Volume, volume};

    ghost Value = { Volume D };

    ghost view = { λ m. volume m.journal m.store m.most };

    ghost invariant = { λ m. m.most ≤ MAX_ENTRIES };
}

impl<D: SectorDisk, K: ReadKeys> Storage<D, K> {
    ghost use Rattle.gx_node.specs.Reading.{format_of, is_node};
    ghost use Rattle.gx_store.specs.State.{IsInOrder};

    /// Joins a log, the pages of a tree whose nodes have at most `most` entries, a buffer of a key's size, from which
    /// records lend keys, and a bit for each of the device's pages, none set: no image was appended since the log was
    /// opened.
    pub fn new(
        log: Glog,
        store: PageStore<D, K>,
        most: usize,
        key: Vec<u8>,
        imaged: Vec<bool>,
    ) -> Storage<D, K>
        requires most { most ≤ MAX_ENTRIES }
        requires key { length key.items ≡ K.KEY }
        requires imaged { imaged.items ≡ replicate store.pages false }
        ensures { result ≡ record { log = log; shelf = store; most = most; imaged = replicate store.pages false } }
    {
        Storage {
            journal: Journal::new(log, key, Imaged::of(imaged)),
            store,
            most,
        }
    }

    /// The invariant of the pages: they fit the device, each kept one is a node of the class under its own number, and
    /// only pages in use are kept.
    pub fn in_order(&self)
        ensures { IsInOrder (is_node (format_of K.KeyClass) self.now.shelf.pages) (D.state self.now.shelf.disk).sectors
            self.now.shelf.frames self.now.shelf.used self.now.shelf.pages }
    {
        self.store.in_order()
    }

    /// How many entries a node has at most.
    pub fn most(&self) -> usize
        ensures most { result ≡ self.now.most }
        ensures few { self.now.most ≤ MAX_ENTRIES }
    {
        self.most
    }

    /// The greatest page in use.
    pub fn used(&self) -> u32
        ensures { result ≡ self.now.shelf.used }
    {
        self.store.used()
    }

    /// How many splits were made, except for the root's: the greatest node sequence number.
    pub fn counter(&self) -> u64
        ensures { result ≡ self.now.shelf.counter }
    {
        self.store.counter()
    }

    /// Returns the device, as the calls left it. Changes in frames and buffers that aren't written are lost.
    pub fn into_disk(self) -> D
        ensures { result ≡ self.shelf.disk }
    {
        let Storage {
            journal: _,
            store,
            most: _,
        } = self;
        store.into_disk()
    }
}

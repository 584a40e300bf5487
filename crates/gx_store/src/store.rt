//! A store of pages: a device, a pool of frames, and the numbers of a tree.
ghost use Rattle.std.specs.Prelude.{◌≡◌, false};
ghost use Rattle.gx_node.specs.Reading.{format_of, is_node};
ghost use Rattle.gx_store.specs.State.{IsInOrder};

use crate::test::NodeTest;
use gx_class::KeyClass;
use gx_disk::SectorDisk;
use gx_pool::Pool;
use std::marker::Model;

/// The pages of a tree in frames over a device. Its log is no part of it, so that no step of the tree touches the log;
/// `begin_event` takes what the store has to know of it.
#[derive(Drop)]
pub struct PageStore<D: SectorDisk, K: KeyClass> {
    pub(crate) disk: D,
    pub(crate) pool: Pool<NodeTest<K>>,
    pub(crate) used: u32,
    pub(crate) counter: u64,
    pub(crate) pages: u32,
    pub(crate) batch: u64,
    pub(crate) has_room: bool,
}

impl<D: SectorDisk, K: KeyClass> Model for PageStore<D, K> {
    ghost use Rattle.std.specs.Prelude.{◌≡◌};
    ghost use Rattle.gx_node.specs.Reading.{format_of, is_node};
    ghost use Rattle.gx_store.specs.State.{Shelf, IsInOrder};

    ghost Value = { Shelf D };

    ghost view = { λ m. record {
      disk = m.disk;
      frames = m.pool.frames;
      used = m.used;
      counter = m.counter;
      pages = m.pages;
      batch = m.batch;
      has_room = m.has_room;
    } };

    ghost invariant = { λ m. IsInOrder (is_node (format_of K.KeyClass) m.pages)
        (D.state m.disk).sectors m.pool.frames m.used m.pages
        × (m.pool.test.pages ≡ m.pages) };
}

impl<D: SectorDisk, K: KeyClass> PageStore<D, K> {
    /// Makes a store of so many pages, of which so many are in use, with so many splits made. Before its first event it
    /// has no room for a record.
    pub fn new(
        disk: D,
        pool: Pool<NodeTest<K>>,
        used: u32,
        counter: u64,
        pages: u32,
    ) -> PageStore<D, K>
        requires order { IsInOrder (is_node (format_of K.KeyClass) pages)
            (D.state disk).sectors pool.frames used pages }
        requires test { pool.test.pages ≡ pages }
        ensures { result ≡ record {
          disk = disk;
          frames = pool.frames;
          used = used;
          counter = counter;
          pages = pages;
          batch = 0;
          has_room = false;
        } }
    {
        PageStore {
            disk,
            pool,
            used,
            counter,
            pages,
            batch: 0,
            has_room: false,
        }
    }

    /// The invariant of a store: its pages fit the device, each kept one is a node of the class under its own number,
    /// and only pages in use are kept.
    pub fn in_order(&self)
        ensures { IsInOrder (is_node (format_of K.KeyClass) self.now.pages) (D.state self.now.disk).sectors
            self.now.frames self.now.used self.now.pages }
    {
        let _ = &self.used;
    }

    /// Begins an event: `batch` is the place of the batch of its changes, and `has_room` whether the log has room for
    /// its record.
    pub fn begin_event(&mut self, batch: u64, has_room: bool)
        ensures { self.new ≡ record self.old { batch = batch; has_room = has_room } }
    {
        self.batch = batch;
        self.has_room = has_room;
    }

    /// Returns the device, as the calls left it. Changes in frames that aren't written are lost.
    pub fn into_disk(self) -> D
        ensures { result ≡ self.disk }
    {
        let PageStore {
            disk,
            pool: _,
            used: _,
            counter: _,
            pages: _,
            batch: _,
            has_room: _,
        } = self;
        disk
    }
}

//! The journal of a volume: its log, with what a record needs beside it. A method for each kind of record appends it.
ghost use Rattle.std.specs.Prelude.{◌≡◌, true, length};
ghost use Rattle.gx_storage.specs.Changes.{begun_at, has_room};
ghost use Rattle.gx_storage.specs.Imaged.{is_imaged};

mod add;
mod mark;
mod note;
mod pages;
mod split;
mod sweep;
mod widen;
mod write;

use crate::imaged::Imaged;
use gx_class::ReadKeys;
use gx_disk::SectorDisk;
use gx_glog::{Glog, PLACES};
use gx_store::PageStore;
pub(crate) use split::in_rising_order;
use std::marker::{Model, PhantomData};

/// A log, a buffer for a key's bytes, and a bit a page.
#[derive(Drop)]
pub(crate) struct Journal<K: ReadKeys> {
    pub(crate) log: Glog,
    // a buffer for a key's bytes, which a record lends
    pub(crate) key: Vec<u8>,
    // whether the log's extent has an image of a page, by its number less one
    pub(crate) imaged: Imaged,
    class: PhantomData<K>,
}

impl<K: ReadKeys> Model for Journal<K> {
    ghost use Rattle.std.specs.Prelude.{◌≡◌, length};
    ghost use Rattle.gx_storage.specs.State.{Journal};

    ghost Value = { Journal };

    ghost view = { λ m. record { log = m.log; imaged = m.imaged } };

    ghost invariant = { λ m. length m.key.items ≡ K.KEY };
}

impl<K: ReadKeys> Journal<K> {
    /// Joins a log, a buffer of a key's size and the bits of pages.
    pub(crate) fn new(log: Glog, key: Vec<u8>, imaged: Imaged) -> Journal<K>
        requires { length key.items ≡ K.KEY }
        ensures { result ≡ record { log = log; imaged = imaged } }
    {
        Journal {
            log,
            key,
            imaged,
            class: PhantomData,
        }
    }

    /// Whether the log's extent has an image of a page, so that a change of the page is logged by itself.
    pub(crate) fn is_imaged(&self, page: u32) -> bool
        ensures { result ≡ is_imaged self.now.imaged page }
    {
        self.imaged.has(page)
    }

    /// Whether the log has room for a record of so many bytes, while no turn to the other extent is under way: a place
    /// is left for its batch, and the record fits the batch that fills.
    pub(crate) fn has_room(&self, size: usize) -> bool
        ensures { result ≡ has_room self.now.log size }
    {
        self.log.used() < PLACES && size <= self.log.free()
    }

    /// Begins an event that appends no record, and so needs no room for one.
    pub(crate) fn begin_reading<D: SectorDisk>(&self, store: &mut PageStore<D, K>)
        ensures { store.new ≡ record store.old { batch = self.now.log.used; has_room = true } }
    {
        store.begin_event(u64::from(self.log.used()), true);
    }

    /// Begins an event whose record has so many bytes: its changes belong to the batch that takes the log's next place,
    /// and the store learns whether the log has room for the record.
    pub(crate) fn begin_event<D: SectorDisk>(&self, store: &mut PageStore<D, K>, size: usize)
        ensures { store.new ≡ begun_at self.now.log size store.old }
    {
        let room = self.has_room(size);
        store.begin_event(u64::from(self.log.used()), room);
    }
}

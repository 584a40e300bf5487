//! A store as the tests of a tree read it.
ghost use Rattle.std.specs.Prelude.{◌≡◌};

use gx_class::KeyClass;
use gx_disk::SectorDisk;
use gx_node::Pages;
use gx_page::Page;
use gx_store::{PageStore, StoreFault};
use std::marker::Model;

/// A store of pages in which each held page was read right.
#[derive(Drop)]
pub(crate) struct StoreReader<D: SectorDisk, K: KeyClass> {
    store: PageStore<D, K>,
}

impl<D: SectorDisk, K: KeyClass> Model for StoreReader<D, K> {
    ghost use Rattle.gx_store.specs.State.{Shelf};

    ghost Value = { Shelf D };

    ghost view = { λ r. r.store };
}

impl<D: SectorDisk, K: KeyClass> StoreReader<D, K> {
    /// Wraps a store for reading.
    pub(crate) fn new(store: PageStore<D, K>) -> StoreReader<D, K>
        ensures { result ≡ store }
    {
        StoreReader { store }
    }

    /// Returns the store's device, as the calls left it.
    pub(crate) fn into_disk(self) -> D
        ensures { result ≡ self.disk }
    {
        let StoreReader { store } = self;
        store.into_disk()
    }
}

impl<D: SectorDisk, K: KeyClass> Pages<K> for StoreReader<D, K> {
    type Fault = StoreFault;

    ghost use Rattle.std.proofs.Common.{refl, arith};
    ghost use Rattle.gx_node.specs.Reading.{format_of, is_node};
    ghost use Rattle.gx_pool.proofs.Going.{none_goes};
    ghost use Rattle.gx_store.specs.Asked.{MovesAsAsked};
    ghost use Rattle.gx_store.specs.Faults.{IsWhy, store_fails};
    ghost use Rattle.gx_store.specs.Since.{IsSince};
    ghost use Rattle.gx_store.specs.Standing.{store_of};
    ghost use Rattle.gx_store.specs.State.{IsSteady};
    ghost use Rattle.gx_opening.specs.Sound.{IsReadRight};

    ghost store = { λ s. store_of (format_of K.KeyClass) (D.state s.disk).seen s };

    ghost held = { λ s page. IsReadRight (is_node (format_of K.KeyClass)) (D.state s.disk) s page };

    ghost steady = { λ s. IsSteady (D.state s.disk) s.frames };

    ghost since = { λ was now page. IsSince (is_node (format_of K.KeyClass)) (D.state was.disk)
        (D.state now.disk) was now page };

    ghost asked = { λ old new asked. MovesAsAsked old new asked };

    ghost why = { λ old new fault. IsWhy (is_node (format_of K.KeyClass)) (D.state old.disk)
        (D.state new.disk) old new fault };

    ghost faults = { λ s. (D.state s.disk).faults };

    ghost fails = { λ fault. store_fails fault };

    fn used(&self) -> u32 {
        self.store.used()
    }

    fn room(&self) -> u32 {
        self.store.room()
    }

    fn counter(&self) -> u64 {
        self.store.counter()
    }

    fn bring(&mut self, pages: &[u32]) -> Result<(), StoreFault> {
        let brought = self.store.bring(pages);
        self.store.in_order();
        brought
    }

    fn page(&self, page: u32) -> &Page {
        self.store.page(page)
    }

    ghost asked_nothing = { λ a. record {
      used = Prim.omega arith;
      come = λ page taken apart none. none;
      go = none_goes a.frames a.frames _ refl;
    } };
}

//! The store's calls for the tree's steps that read.

use crate::fault::{StoreFault, store_result};
use crate::store::PageStore;
use gx_class::KeyClass;
use gx_disk::SectorDisk;
use gx_node::Pages;
use gx_page::Page;

impl<D: SectorDisk, K: KeyClass> Pages<K> for PageStore<D, K> {
    type Fault = StoreFault;

    ghost use Rattle.std.proofs.Common.{refl, arith};
    ghost use Rattle.gx_node.specs.Reading.{format_of, is_node};
    ghost use Rattle.gx_pool.proofs.Going.{none_goes};
    ghost use Rattle.gx_store.specs.Asked.{MovesAsAsked};
    ghost use Rattle.gx_store.specs.Faults.{IsWhy, store_fails};
    ghost use Rattle.gx_store.specs.Since.{IsSince};
    ghost use Rattle.gx_store.specs.Standing.{store_of};
    ghost use Rattle.gx_store.specs.State.{IsHeld, IsSteady};

    ghost store = { λ s. store_of (format_of K.KeyClass) (D.state s.disk).seen s };

    ghost held = { λ s page. IsHeld s page };

    ghost steady = { λ s. IsSteady (D.state s.disk) s.frames };

    ghost since = { λ was now page. IsSince (is_node (format_of K.KeyClass)) (D.state was.disk)
        (D.state now.disk) was now page };

    ghost asked = { λ old new asked. MovesAsAsked old new asked };

    ghost why = { λ old new fault. IsWhy (is_node (format_of K.KeyClass)) (D.state old.disk)
        (D.state new.disk) old new fault };

    ghost faults = { λ s. (D.state s.disk).faults };

    ghost fails = { λ fault. store_fails fault };

    fn used(&self) -> u32 {
        self.used
    }

    fn room(&self) -> u32 {
        self.pages
    }

    fn counter(&self) -> u64 {
        self.counter
    }

    fn bring(&mut self, pages: &[u32]) -> Result<(), StoreFault> {
        store_result(self.pool.bring(&mut self.disk, pages))
    }

    fn page(&self, page: u32) -> &Page {
        self.pool.page(page)
    }

    ghost asked_nothing = { λ a. record {
      used = Prim.omega arith;
      come = λ page taken apart none. none;
      go = none_goes a.frames a.frames _ refl;
    } };
}

//! A held page, as its frame has it.
ghost use Rattle.std.specs.Prelude.{◌≡◌, IfSome};
ghost use Rattle.gx_pool.specs.State.{kept};
ghost use Rattle.gx_store.specs.State.{IsHeld};

use crate::store::PageStore;
use gx_class::KeyClass;
use gx_disk::SectorDisk;
use gx_page::Page;

impl<D: SectorDisk, K: KeyClass> PageStore<D, K> {
    /// Lends a held page, so that a record has its image.
    pub fn held_page(&self, page: u32) -> &Page
        requires { IsHeld self.now page }
        ensures { IfSome (kept self.now.frames page) (λ k. result.now ≡ k.page) }
    {
        self.pool.page(page)
    }
}

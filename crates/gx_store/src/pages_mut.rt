//! The store's calls for the tree's steps that write.
ghost use Rattle.std.specs.Prelude.{◌≡◌, ◌≤◌, ◌<◌, ◌+◌, length, IfErr, OnOk};
ghost use Rattle.gx_node.specs.Reading.{format_of, is_node};
ghost use Rattle.gx_store.specs.Changing.{prepared, ready_pages};
ghost use Rattle.gx_store.specs.Faults.{IsWhy};
ghost use Rattle.gx_store.specs.Standing.{store_of};

use crate::fault::StoreFault;
use crate::store::PageStore;
use gx_class::KeyClass;
use gx_disk::SectorDisk;
use gx_node::{Edit, PagesMut};

impl<D: SectorDisk, K: KeyClass> PagesMut<K> for PageStore<D, K> {
    ghost use Rattle.std.specs.Prelude.{◌≡◌, true};
    ghost use Rattle.gx_store.specs.Changing.{ready_pages};

    ghost ready = { λ s. ready_pages s };

    ghost changing = { λ s page. s.has_room ≡ true };

    fn prepare(&mut self, _changes: &[u32], taken: u32) -> Result<(), StoreFault>
        requires few { taken ≤ 2 }
        requires room { 0 < taken
            → length (store_of (format_of K.KeyClass) (D.state self.old.disk).seen self.old).nodes + taken
            ≤ self.old.pages }
        ensures answer { result ≡ prepared self.old taken }
        ensures same { self.new ≡ self.old }
        ensures ready { OnOk result (taken ≤ ready_pages self.new) }
        ensures why { IfErr result (IsWhy (is_node (format_of K.KeyClass)) (D.state self.old.disk)
            (D.state self.new.disk) self.old self.new) }
    {
        if !self.has_room {
            return Err(StoreFault::NoRoom);
        }
        if self.pool.clean_frames() < taken as usize {
            return Err(StoreFault::TooFewFrames(taken));
        }
        Ok(())
    }

    fn change<E: Edit<K>>(&mut self, page: u32, edit: E) {
        let pages = self.pages;
        edit.apply(self.pool.change_kept(page, self.batch), pages);
    }

    fn take(&mut self, from: u32) {
        let page = self.used + 1;
        self.pool.create_as(page, from, self.batch);
        self.used = page;
    }

    fn count_split(&mut self) {
        self.counter += 1;
    }
}

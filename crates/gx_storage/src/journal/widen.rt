//! The record of a bound that was widened.
ghost use Rattle.std.specs.Prelude.{◌≡◌, ◌<◌, ◌+◌};
ghost use Rattle.gx_node.specs.declared.items.TheConstants.{MAX_ENTRIES};
ghost use Rattle.gx_record.specs.Rec.{Widen};
ghost use Rattle.gx_record.specs.declared.sizes.TheConstants.{WIDEN_BESIDE_KEY};
ghost use Rattle.gx_storage.specs.Imaged.{is_imaged};
ghost use Rattle.gx_storage.specs.Journal.{MayLog};
ghost use Rattle.gx_storage.specs.Setting.{IsGivenAs, IsLastAs};
ghost use Rattle.gx_storage.specs.Small.{widen_room, widen_said};

use crate::journal::Journal;
use crate::journal::pages::has_image;
use gx_class::ReadKeys;
use gx_disk::SectorDisk;
use gx_durable::OfClass;
use gx_durable::calls::append;
use gx_record::{PAGE_RECORD, Record, WIDEN_BESIDE_KEY};
use gx_store::PageStore;

impl<K: ReadKeys> Journal<K> {
    /// How many bytes the record has: small, or with the page's image.
    pub(crate) fn widen_size(&self, page: u32) -> usize
        ensures { result ≡ widen_room (is_imaged self.now.imaged page) K.KEY }
    {
        if self.is_imaged(page) {
            K::KEY + WIDEN_BESIDE_KEY
        } else {
            PAGE_RECORD
        }
    }

    // Appends the small record, whose page is held.
    fn append_widen<D: SectorDisk>(
        &mut self,
        store: &PageStore<D, K>,
        page: u32,
        slot: usize,
        key: K::Key,
    )
        requires may { MayLog self.old.log (K.KEY + WIDEN_BESIDE_KEY) store.now page }
        requires slot { slot < MAX_ENTRIES }
        ensures last { IsLastAs K.Key.Shape K.ReadKeys (Widen page slot (K.spelling key)) self.old self.new }
        ensures given { IsGivenAs D.state store.now page }
    {
        has_image(store, page);
        K::known(&key);
        let spelled: &mut [u8] = &mut self.key;
        K::encode(key, spelled);
        append::<OfClass<K>>(
            &mut self.log,
            &Record::Widen {
                page,
                slot: slot as u16,
                key: spelled,
            },
        );
    }

    /// Appends the record that the bound in a slot of an inner node, whose page is held, was widened to a key: small,
    /// or with the page's image, whose bit is then set.
    pub(crate) fn widen<D: SectorDisk>(
        &mut self,
        store: &PageStore<D, K>,
        page: u32,
        slot: usize,
        key: K::Key,
    )
        requires may { MayLog self.old.log (widen_room (is_imaged self.old.imaged page) K.KEY) store.now page }
        requires slot { slot < MAX_ENTRIES }
        ensures last { IsLastAs K.Key.Shape K.ReadKeys
            (widen_said K.spelling (is_imaged self.old.imaged page) page slot key (D.state store.now.disk).seen
            store.now) self.old self.new }
        ensures given { IsGivenAs D.state store.now page }
    {
        if self.is_imaged(page) {
            self.append_widen(store, page, slot, key);
        } else {
            self.give_page(store, page);
        }
    }
}

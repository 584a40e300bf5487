//! The record of an entry that a transaction added.
ghost use Rattle.std.specs.Prelude.{◌≡◌, ◌+◌};
ghost use Rattle.gx_record.specs.Rec.{Add};
ghost use Rattle.gx_record.specs.declared.sizes.TheConstants.{ADD_BESIDE_KEY};
ghost use Rattle.gx_storage.specs.Imaged.{is_imaged};
ghost use Rattle.gx_storage.specs.Journal.{MayLog};
ghost use Rattle.gx_storage.specs.Setting.{IsGivenAs, IsLastAs};
ghost use Rattle.gx_storage.specs.Small.{IsSpelled, add_room, add_said};

use crate::journal::Journal;
use crate::journal::pages::has_image;
use crate::journal::write::{spell, write_size};
use gx_class::ReadKeys;
use gx_disk::SectorDisk;
use gx_durable::OfClass;
use gx_durable::calls::append;
use gx_machine::Entry;
use gx_record::{ADD_BESIDE_KEY, Mark, Record};
use gx_store::PageStore;

impl<K: ReadKeys> Journal<K> {
    /// How many bytes the record has: small, or with the leaf's image.
    pub(crate) fn add_size(&self, leaf: u32) -> usize
        ensures { result ≡ add_room (is_imaged self.now.imaged leaf) K.KEY }
    {
        if self.is_imaged(leaf) {
            K::KEY + ADD_BESIDE_KEY
        } else {
            write_size::<K>()
        }
    }

    // Appends the small record, whose leaf is held.
    fn append_add<D: SectorDisk>(
        &mut self,
        store: &PageStore<D, K>,
        transaction: u64,
        entry: Entry<K::Key>,
        leaf: u32,
    )
        requires { MayLog self.old.log (K.KEY + ADD_BESIDE_KEY) store.now leaf }
        ensures last { IsLastAs K.Key.Shape K.ReadKeys
            (Add transaction entry.row (K.spelling entry.key) leaf) self.old self.new }
        ensures given { IsGivenAs D.state store.now leaf }
        ensures entry { IsSpelled K.spelling entry.row entry.key }
    {
        has_image(store, leaf);
        K::known(&entry.key);
        let spelled: &mut [u8] = &mut self.key;
        spell::<K>(entry.key, spelled);
        append::<OfClass<K>>(
            &mut self.log,
            &Record::Add {
                tx: transaction,
                row: entry.row,
                key: spelled,
                leaf,
            },
        );
    }

    /// Appends the record that a transaction added an entry to a leaf, which is held: small, or with the leaf's image,
    /// whose bit is then set.
    pub(crate) fn add<D: SectorDisk>(
        &mut self,
        store: &PageStore<D, K>,
        transaction: u64,
        entry: Entry<K::Key>,
        leaf: u32,
    )
        requires { MayLog self.old.log (add_room (is_imaged self.old.imaged leaf) K.KEY) store.now leaf }
        ensures last { IsLastAs K.Key.Shape K.ReadKeys
            (add_said K.spelling (is_imaged self.old.imaged leaf) transaction entry.row entry.key leaf
            (D.state store.now.disk).seen store.now) self.old self.new }
        ensures given { IsGivenAs D.state store.now leaf }
        ensures entry { IsSpelled K.spelling entry.row entry.key }
    {
        if self.is_imaged(leaf) {
            self.append_add(store, transaction, entry, leaf);
        } else {
            self.write(store, transaction, entry, Mark::Marked, Mark::Live, leaf);
        }
    }
}

//! The record of an entry whose mark a transaction set.
ghost use Rattle.std.specs.Prelude.{◌≡◌, ◌+◌};
ghost use Rattle.gx_record.specs.Rec.{Bit};
ghost use Rattle.gx_record.specs.Seen.{is_marked};
ghost use Rattle.gx_record.specs.declared.sizes.TheConstants.{BIT_BESIDE_KEY};
ghost use Rattle.gx_storage.specs.Imaged.{is_imaged};
ghost use Rattle.gx_storage.specs.Journal.{MayLog};
ghost use Rattle.gx_storage.specs.Setting.{IsGivenAs, IsLastAs};
ghost use Rattle.gx_storage.specs.Small.{mark_room, mark_said};

use crate::journal::Journal;
use crate::journal::pages::has_image;
use crate::journal::write::write_size;
use gx_class::ReadKeys;
use gx_disk::SectorDisk;
use gx_durable::OfClass;
use gx_durable::calls::append;
use gx_machine::Entry;
use gx_record::{BIT_BESIDE_KEY, Mark, Record};
use gx_store::PageStore;

/// A mark as a record has it.
pub(super) fn mark_of(marked: bool) -> Mark
    ensures { is_marked result ≡ marked }
{
    if marked { Mark::Marked } else { Mark::Live }
}

impl<K: ReadKeys> Journal<K> {
    /// How many bytes the record has: small, or with the leaf's image.
    pub(crate) fn mark_size(&self, leaf: u32) -> usize
        ensures { result ≡ mark_room (is_imaged self.now.imaged leaf) K.KEY }
    {
        if self.is_imaged(leaf) {
            K::KEY + BIT_BESIDE_KEY
        } else {
            write_size::<K>()
        }
    }

    // Appends the small record, whose leaf is held.
    fn append_bit<D: SectorDisk>(
        &mut self,
        store: &PageStore<D, K>,
        transaction: u64,
        entry: Entry<K::Key>,
        before: bool,
        after: bool,
        leaf: u32,
    )
        requires { MayLog self.old.log (K.KEY + BIT_BESIDE_KEY) store.now leaf }
        ensures last { IsLastAs K.Key.Shape K.ReadKeys
            (Bit transaction entry.row (K.spelling entry.key) before after leaf) self.old self.new }
        ensures given { IsGivenAs D.state store.now leaf }
    {
        has_image(store, leaf);
        K::known(&entry.key);
        let spelled: &mut [u8] = &mut self.key;
        K::encode(entry.key, spelled);
        append::<OfClass<K>>(
            &mut self.log,
            &Record::Bit {
                tx: transaction,
                row: entry.row,
                key: spelled,
                before: mark_of(before),
                after: mark_of(after),
                leaf,
            },
        );
    }

    /// Appends the record that a transaction changed an entry's mark on a leaf, which is held: small, or with the
    /// leaf's image, whose bit is then set.
    pub(crate) fn mark<D: SectorDisk>(
        &mut self,
        store: &PageStore<D, K>,
        transaction: u64,
        entry: Entry<K::Key>,
        before: bool,
        after: bool,
        leaf: u32,
    )
        requires { MayLog self.old.log (mark_room (is_imaged self.old.imaged leaf) K.KEY) store.now leaf }
        ensures last { IsLastAs K.Key.Shape K.ReadKeys
            (mark_said K.spelling (is_imaged self.old.imaged leaf) transaction entry.row entry.key before after
            leaf (D.state store.now.disk).seen store.now) self.old self.new }
        ensures given { IsGivenAs D.state store.now leaf }
    {
        if self.is_imaged(leaf) {
            self.append_bit(store, transaction, entry, before, after, leaf);
        } else {
            self.write(
                store,
                transaction,
                entry,
                mark_of(before),
                mark_of(after),
                leaf,
            );
        }
    }
}

//! The record of a write.
ghost use Rattle.std.specs.Prelude.{◌≡◌, length};
ghost use Rattle.gx_page.specs.Bytes.{AreBytes};
ghost use Rattle.gx_record.specs.Seen.{is_marked};
ghost use Rattle.gx_record.specs.Writing.{write_record};
ghost use Rattle.gx_storage.specs.Changes.{write_of};
ghost use Rattle.gx_storage.specs.Journal.{MayLog};
ghost use Rattle.gx_storage.specs.Setting.{IsGivenAs, IsLastAs};
ghost use Rattle.gx_storage.specs.Small.{IsSpelled};

use crate::journal::Journal;
use gx_class::ReadKeys;
use gx_disk::SectorDisk;
use gx_durable::OfClass;
use gx_durable::calls::append;
use gx_machine::Entry;
use gx_record::{Mark, Record, WRITE_BESIDE_KEY};
use gx_store::PageStore;

/// How many bytes the record of a write has.
pub(super) fn write_size<K: ReadKeys>() -> usize
    ensures { result ≡ write_record K.KEY }
{
    K::KEY + WRITE_BESIDE_KEY
}

/// Writes a key over `spelled`, in bytes.
pub(super) fn spell<K: ReadKeys>(key: K::Key, spelled: &mut [u8])
    requires { length spelled.old ≡ K.KEY }
    ensures spelled { spelled.new ≡ K.spelling key }
    ensures bytes { AreBytes spelled.new }
{
    K::encode(key, spelled);
}

impl<K: ReadKeys> Journal<K> {
    /// Appends the record of a write: the transaction changed the entry's mark, or added it, on a held leaf, whose
    /// image the record has. Sets the leaf's bit.
    pub(super) fn write<D: SectorDisk>(
        &mut self,
        store: &PageStore<D, K>,
        transaction: u64,
        entry: Entry<K::Key>,
        before: Mark,
        after: Mark,
        leaf: u32,
    )
        requires { MayLog self.old.log (write_record K.KEY) store.now leaf }
        ensures last { IsLastAs K.Key.Shape K.ReadKeys
            (write_of K.spelling transaction entry.row entry.key (is_marked before) (is_marked after) leaf
            (D.state store.now.disk).seen store.now) self.old self.new }
        ensures given { IsGivenAs D.state store.now leaf }
        ensures entry { IsSpelled K.spelling entry.row entry.key }
    {
        K::known(&entry.key);
        store.in_order();
        let spelled: &mut [u8] = &mut self.key;
        spell::<K>(entry.key, spelled);
        let page = store.held_page(leaf);
        append::<OfClass<K>>(
            &mut self.log,
            &Record::Write {
                tx: transaction,
                row: entry.row,
                key: spelled,
                before,
                after,
                leaf,
                image: page.image(),
            },
        );
        self.imaged.note(leaf);
    }
}

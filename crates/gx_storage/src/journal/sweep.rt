//! The record of a leaf that was swept.
ghost use Rattle.std.specs.Prelude.{◌≡◌, ◌≤◌, ◌<◌, ◌+◌, ◌*◌, true, false, length, take};
ghost use Rattle.gx_record.specs.Rec.{Sweep as SweepSlots};
ghost use Rattle.gx_record.specs.Slots.{rise_from, slots_bytes};
ghost use Rattle.gx_record.specs.declared.sizes.TheConstants.{MOST_SLOTS, SLOT_NUMBER, SWEEP_BESIDE_SLOTS};
ghost use Rattle.gx_tree.specs.Sweeping.{slots_of, takes_none};
ghost use Rattle.gx_storage.specs.Imaged.{is_imaged};
ghost use Rattle.gx_storage.specs.Journal.{MayLog};
ghost use Rattle.gx_storage.specs.Setting.{IsGivenAs, IsLastAs};
ghost use Rattle.gx_storage.specs.Small.{sweep_room, sweep_said};

use crate::journal::Journal;
use crate::journal::pages::has_image;
use gx_class::ReadKeys;
use gx_disk::SectorDisk;
use gx_durable::OfClass;
use gx_durable::calls::append;
use gx_record::{MOST_SLOTS, PAGE_RECORD, Record, SLOT_NUMBER, SWEEP_BESIDE_SLOTS, Slots};
use gx_store::PageStore;
use gx_tree::Sweep;

/// Writes slots over the first bytes, two bytes each, the greater first.
fn spell_slots(slots: &[u16], bytes: &mut [u8])
    requires { SLOT_NUMBER * length slots.now ≤ length bytes.old }
    ensures { take (SLOT_NUMBER * length slots.now) bytes.new ≡ slots_bytes slots.now }
{
    for (place, slot) in slots.iter().enumerate() {
        let at = SLOT_NUMBER * place;
        bytes[at..at + SLOT_NUMBER].copy_from_slice(&slot.to_be_bytes());
    }
}

impl<K: ReadKeys> Journal<K> {
    /// How many bytes the record has of a sweep of so many slots: small, or with the leaf's image.
    pub(crate) fn sweep_size(&self, leaf: u32, slots: usize) -> usize
        requires { slots ≤ MOST_SLOTS }
        ensures { result ≡ sweep_room (is_imaged self.now.imaged leaf) slots }
    {
        if self.is_imaged(leaf) {
            SWEEP_BESIDE_SLOTS + SLOT_NUMBER * slots
        } else {
            PAGE_RECORD
        }
    }

    // Appends the small record, whose leaf is held.
    fn append_sweep<D: SectorDisk>(&mut self, store: &PageStore<D, K>, leaf: u32, slots: &[u16])
        requires may { MayLog self.old.log (SWEEP_BESIDE_SLOTS + SLOT_NUMBER * length slots.now) store.now leaf }
        requires some { 0 < length slots.now }
        requires few { length slots.now ≤ MOST_SLOTS }
        requires rising { rise_from 0 slots.now ≡ true }
        ensures last { IsLastAs K.Key.Shape K.ReadKeys (SweepSlots leaf slots.now) self.old self.new }
        ensures given { IsGivenAs D.state store.now leaf }
    {
        has_image(store, leaf);
        let mut bytes = [0; SLOT_NUMBER * MOST_SLOTS];
        spell_slots(slots, &mut bytes);
        append::<OfClass<K>>(
            &mut self.log,
            &Record::Sweep {
                page: leaf,
                slots: Slots {
                    bytes: &bytes[..SLOT_NUMBER * slots.len()],
                },
            },
        );
    }

    /// Appends the record of a sweep that was made of a leaf, which is held: small, or with the leaf's image, whose bit
    /// is then set.
    pub(crate) fn sweep<D: SectorDisk>(&mut self, store: &PageStore<D, K>, sweep: &Sweep)
        requires may { MayLog self.old.log
            (sweep_room (is_imaged self.old.imaged sweep.now.page) (length (slots_of sweep.now))) store.now
            sweep.now.page }
        requires some { takes_none sweep.now ≡ false }
        ensures last { IsLastAs K.Key.Shape K.ReadKeys
            (sweep_said (is_imaged self.old.imaged sweep.now.page) sweep.now.page (slots_of sweep.now)
            (D.state store.now.disk).seen store.now) self.old self.new }
        ensures given { IsGivenAs D.state store.now sweep.now.page }
    {
        let leaf = sweep.page();
        if self.is_imaged(leaf) {
            self.append_sweep(store, leaf, sweep.slots());
        } else {
            self.give_page(store, leaf);
        }
    }
}

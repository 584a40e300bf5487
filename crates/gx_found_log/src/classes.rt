//! The key classes, read of bytes.
ghost use Rattle.std.specs.Prelude.{◌≡◌, ◌≢◌, ◌≤◌, true, IfErr};
ghost use Rattle.gx_node.specs.declared.items.TheConstants.{MAX_ENTRIES};
ghost use Rattle.gx_disk.specs.declared.layout.TheConstants.{PAGES_AT};
ghost use Rattle.gx_disk.specs.Looks.{Looks};
ghost use Rattle.gx_recovery.specs.Known.{Limits};
ghost use Rattle.gx_durable.specs.Classes.{known_at, reading_by};
ghost use Rattle.gx_found_log.specs.Found.{LogRead, ReadsAlone};
ghost use Rattle.gx_found_log.specs.Faults.{refusing};
ghost use Rattle.gx_found_log.specs.Shown.{LogShows};

use crate::{FoundLog, LogFault, LogRoom, Readable, Small, examine_log, read_log};
use gx_class::{KeyClass, ReadKeys};
use gx_disk::SectorDisk;
use gx_durable::OfClass;
use gx_geom::Refusal;
use gx_machine::Entry;
use gx_node::small::{add_pair, mark_pair, remove_slots, set_key};
use gx_page::Page;

impl<K: ReadKeys> Readable for OfClass<K> {
    ghost use Rattle.gx_durable.proofs.Used.{known_lawful};

    fn key_size() -> usize {
        K::KEY
    }

    fn entry(row: u64, key: &[u8]) -> Option<Entry<K::Key>> {
        match K::decode(key) {
            Some(key) => Some(Entry { row, key }),
            None => None,
        }
    }

    fn change(page: &mut Page, most: usize, small: &Small<'_>) -> bool {
        match *small {
            Small::SetMark { row, key, marked } => mark_pair::<K>(page, row, key, marked),
            Small::AddPair { row, key } => add_pair::<K>(page, most, row, key),
            Small::SetKey { slot, key } => set_key::<K>(page, usize::from(slot), key),
            Small::RemoveSlots { slots } => remove_slots::<K>(page, slots.bytes),
        }
    }

    ghost lawful = { λ d. known_lawful _ (record { total = K.Key.Ord.total; exact = K.Key.Shape.same }) };

    ghost own = { λ d page image is. is.number };
}

/// Reads the log of a device of so many pages and entries in a node, whose keys are of a class, as [`read_log`].
pub fn read_class_log<K: ReadKeys, D: SectorDisk>(
    room: LogRoom<Entry<K::Key>>,
    disk: &mut D,
    pages: u32,
    most: u16,
) -> Result<FoundLog<Entry<K::Key>>, Refusal>
    requires device { PAGES_AT ≤ (D.state disk.old).sectors }
    requires most { most ≤ MAX_ENTRIES }
    ensures reads { ReadsAlone (D.state disk.old) (D.state disk.new) result }
    ensures looks { (D.state disk.old).honest ≡ true → Looks (D.state disk.old) (D.state disk.new) }
    ensures log { (D.state disk.old).honest ≡ true → (d : Limits) → d.pages ≡ pages → d.most ≡ most
        → LogRead (known_at K.Key.Shape K.is_proper d) (reading_by K.said K.KeyClass) (D.state disk.old).seen result }
    ensures memory { IfErr result (λ why. why ≢ Refusal.Memory) }
{
    read_log::<OfClass<K>, D>(room, disk, pages, most)
}

/// Reads the log of a device of so many pages and entries in a node, whose keys are of a class, as [`examine_log`].
pub fn examine_class_log<K: ReadKeys, D: SectorDisk>(
    room: LogRoom<Entry<K::Key>>,
    disk: &mut D,
    pages: u32,
    most: u16,
) -> Result<FoundLog<Entry<K::Key>>, LogFault>
    requires device { PAGES_AT ≤ (D.state disk.old).sectors }
    requires most { most ≤ MAX_ENTRIES }
    ensures reads { ReadsAlone (D.state disk.old) (D.state disk.new) (refusing result) }
    ensures looks { (D.state disk.old).honest ≡ true → Looks (D.state disk.old) (D.state disk.new) }
    ensures log { (D.state disk.old).honest ≡ true → (d : Limits) → d.pages ≡ pages → d.most ≡ most
        → LogRead (known_at K.Key.Shape K.is_proper d) (reading_by K.said K.KeyClass)
        (D.state disk.old).seen (refusing result) }
    ensures shows { (D.state disk.old).honest ≡ true → (d : Limits) → d.pages ≡ pages → d.most ≡ most
        → IfErr result (λ fault. LogShows (known_at K.Key.Shape K.is_proper d) (reading_by K.said K.KeyClass)
        (D.state disk.old).seen fault) }
    ensures memory { IfErr result (λ fault. fault ≢ LogFault.Memory) }
{
    examine_log::<OfClass<K>, D>(room, disk, pages, most)
}

//! Tests the pages of a device whose log is laid: that each can be read, that they are a legal tree, and that what open
//! transactions have touched is in its place.
ghost use Rattle.std.specs.Prelude.{◌≡◌, ◌≤◌, ◌<◌, ◌+◌, ◌*◌, ◌/◌, true, min, OnOk, IfErr, IfOk, Err};
ghost use Rattle.gx_store.specs.Faults.{refusal_fails, store_fails};
ghost use Rattle.gx_store.specs.State.{IsSteady};
ghost use Rattle.gx_legality.specs.Owner.{test_fails};
ghost use Rattle.gx_disk.specs.declared.layout.TheConstants.{MAX_PAGES, PAGES_AT, PAGE_SECTORS};
ghost use Rattle.gx_machine.specs.Keys.{keys_of, entry_cmp};
ghost use Rattle.gx_node.specs.Reading.{format_of, is_node};
ghost use Rattle.gx_pool.specs.Bringing.{OnlyRead};
ghost use Rattle.gx_recovery.specs.Known.{Limits};
ghost use Rattle.gx_opening.specs.Formatted.{FaultsAre};
ghost use Rattle.gx_opening.specs.Noting.{AreOfOthers};
ghost use Rattle.gx_opening.specs.Sound.{AreClean, IsCause, IsDamage, OnlyReadsStore};
ghost use Rattle.gx_opening.specs.Sound.{Tells, refusal_of, store_refusal_of};
ghost use Rattle.gx_opening.specs.Setting.{IsSoundStoreAs, AreSoundAs};

use crate::notes::notes_of;
use crate::reader::StoreReader;
use gx_class::ReadKeys;
use gx_disk::SectorDisk;
use gx_geom::Refusal;
use gx_legality::laws::what_breaks_a_rule_is_not_legal;
use gx_legality::{LegalityFault, are_in_order, test_tree};
use gx_machine::Entry;
use gx_node::Pages;
use gx_pool::Pool;
use gx_recovery::{Analysis, Touch};
use gx_store::laws::{a_store_starts, going_on};
use gx_store::{NodeTest, PageStore, StoreFault};
use std::alloc::Global;

/// How many frames the tests take: two pages are held at a time.
const TEST_FRAMES: usize = 16;

/// Half of how many pairs are kept at once at most: with 24 bytes each, 64 MiB in all.
const MOST_HALF: usize = 1_398_101;

// Half of how many pairs a test has to keep at once: no more than so many pages hold.
fn half_of(used: u32, most: u16) -> usize
    ensures exact { result ≡ min (used * most / 2 + 1) MOST_HALF }
    ensures some { 0 < result }
    ensures few { result ≤ MOST_HALF }
{
    let pairs = u64::from(used) * u64::from(most);
    (pairs / 2 + 1).min(MOST_HALF as u64) as usize
}

// A store's refusal as the fault of a test that only reads.
fn store_refusal(fault: StoreFault) -> Refusal
    ensures told { result ≡ store_refusal_of fault }
    ensures damaged { result ≡ Refusal.Damaged → fault ≡ StoreFault.Damaged }
    ensures faults { refusal_fails result ≡ store_fails fault }
    ensures cause { IsCause result }
{
    match fault {
        StoreFault::Device => Refusal::Device,
        StoreFault::Damaged => Refusal::Damaged,
        // never, with frames that are all clean
        StoreFault::NoRoom | StoreFault::TooFewFrames(_) => Refusal::Memory,
    }
}

// The refusal of an opening, by that of its test.
pub(crate) fn test_refusal(fault: LegalityFault<StoreFault>) -> Refusal
    ensures told { result ≡ refusal_of fault }
    ensures damaged { result ≡ Refusal.Damaged → IsDamage fault }
    ensures faults { refusal_fails result ≡ test_fails store_fails fault }
    ensures cause { IsCause result }
{
    match fault {
        LegalityFault::Memory => Refusal::Memory,
        LegalityFault::Pages(fault) => store_refusal(fault),
        LegalityFault::Broken(_, _) | LegalityFault::Unsteady => Refusal::Damaged,
    }
}

// Tests pages over a new store: that each in use can be read, that they are a legal tree, and that what was touched is
// in its place.
fn test_store<D: SectorDisk, K: ReadKeys>(
    alloc: Global,
    store: &mut StoreReader<D, K>,
    most: u16,
    touched: &[Touch<Entry<K::Key>>],
) -> Result<(), Refusal>
    ensures cause { IfErr result IsCause }
    ensures others { OnOk result (AreOfOthers (entry_cmp (keys_of K.Key.Shape)) touched.now) }
    ensures reads { OnlyReadsStore (format_of K.KeyClass) (is_node (format_of K.KeyClass)) D.state store.old store.new }
    ensures faults { FaultsAre (D.state store.old.disk).faults (D.state store.new.disk).faults result }
    ensures tested { IsSteady (D.state store.old.disk) store.old.frames → AreClean store.old.frames
        → AreOfOthers (entry_cmp (keys_of K.Key.Shape)) touched.now
        → Tells (IsSoundStoreAs K.Key.Shape K.KeyClass D.state most touched.now store.old) result }
{
    going_on::<D, K>();
    what_breaks_a_rule_is_not_legal::<K::Key>();
    let Ok(notes) = notes_of(alloc, touched) else {
        return Err(Refusal::Memory);
    };
    if !are_in_order(&notes) {
        return Err(Refusal::Damaged);
    }
    let half = half_of(store.used(), most);
    match test_tree(alloc, store, most, half, &notes) {
        Ok(()) => Ok(()),
        Err(fault) => Err(test_refusal(fault)),
    }
}

// Tests pages over a new store, and returns its device.
fn test_over<D: SectorDisk, K: ReadKeys>(
    alloc: Global,
    store: StoreReader<D, K>,
    most: u16,
    touched: &[Touch<Entry<K::Key>>],
) -> (D, Result<(), Refusal>)
    ensures cause { IfErr result.1 IsCause }
    ensures others { OnOk result.1 (AreOfOthers (entry_cmp (keys_of K.Key.Shape)) touched.now) }
    ensures read { OnlyRead (D.state store.disk) (D.state result.0) }
    ensures faults { FaultsAre (D.state store.disk).faults (D.state result.0).faults result.1 }
    ensures tested { IsSteady (D.state store.disk) store.frames → AreClean store.frames
        → AreOfOthers (entry_cmp (keys_of K.Key.Shape)) touched.now
        → Tells (IsSoundStoreAs K.Key.Shape K.KeyClass D.state most touched.now store) result.1 }
{
    going_on::<D, K>();
    let mut store = store;
    let tested = test_store(alloc, &mut store, most, touched);
    (store.into_disk(), tested)
}

/// Tests the pages of a device of so many, with so many entries in a node at most, by what its log gives. Returns the
/// device.
///
/// Refused as `Damaged` if more pages are in use than the device has, if one of them can't be read, if they aren't a
/// legal tree, or if an entry that an open transaction touched is neither in its leaf nor to the right of it; with
/// `Device` if a read fails, and with `Memory`. The device is only read.
pub(crate) fn test_pages<D: SectorDisk, K: ReadKeys>(
    alloc: Global,
    disk: D,
    analysis: &Analysis<Entry<K::Key>>,
    pages: u32,
    most: u16,
) -> (D, Result<(), Refusal>)
    requires inside { (pages ≤ MAX_PAGES) × (PAGES_AT + PAGE_SECTORS * pages ≤ (D.state disk).sectors) }
    ensures fits { IfOk result.1 (λ _. analysis.now.told.used ≤ pages) }
    ensures cause { IfErr result.1 IsCause }
    ensures memory { IfErr result.1 (λ why. why ≡ Refusal.Memory → analysis.now.told.used ≤ pages) }
    ensures others { OnOk result.1 (AreOfOthers (entry_cmp (keys_of K.Key.Shape)) analysis.now.told.touched) }
    ensures read { OnlyRead (D.state disk) (D.state result.0) }
    ensures faults { FaultsAre (D.state disk).faults (D.state result.0).faults result.1 }
    ensures tested { (l : Limits) → l.pages ≡ pages → l.most ≡ most → (D.state disk).honest ≡ true
        → AreOfOthers (entry_cmp (keys_of K.Key.Shape)) analysis.now.told.touched
        → Tells (AreSoundAs K.Key.Shape K.ReadKeys l pages analysis.now.told (D.state disk).seen) result.1 }
{
    a_store_starts::<D, K>();
    let used = analysis.used();
    if pages < used {
        return (disk, Err(Refusal::Damaged));
    }
    let Ok(pool) = Pool::with_capacity(alloc, TEST_FRAMES, NodeTest::<K>::new(pages)) else {
        return (disk, Err(Refusal::Memory));
    };
    let store = PageStore::<D, K>::new(disk, pool, used, analysis.counter(), pages);
    let reader = StoreReader::new(store);
    test_over(alloc, reader, most, analysis.touched())
}

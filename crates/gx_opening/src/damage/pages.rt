//! Examines the pages of a device for damage.
ghost use Rattle.std.specs.Prelude.{◌≡◌, ◌≤◌, ◌<◌, ◌+◌, ◌*◌, ℕ, true, None, Err, IfOk, IfErr, MatchOption};
ghost use Rattle.gx_disk.specs.declared.layout.TheConstants.{MAX_PAGES, PAGES_AT, PAGE_SECTORS};
ghost use Rattle.gx_machine.specs.Keys.{keys_of, entry_cmp};
ghost use Rattle.gx_node.specs.Reading.{format_of, is_node};
ghost use Rattle.gx_opening.specs.Formatted.{FaultsAre};
ghost use Rattle.gx_opening.specs.Noting.{AreOfOthers};
ghost use Rattle.gx_opening.specs.Sound.{CanAllBeRead, OnlyReadsStore};
ghost use Rattle.gx_pool.specs.Bringing.{OnlyRead};
ghost use Rattle.gx_pool.specs.State.{kept};
ghost use Rattle.gx_recovery.specs.Known.{Limits};
ghost use Rattle.gx_opening.specs.Shown.{IsLack, IsUnreadable, tree_told_of};
ghost use Rattle.gx_opening.specs.Setting.{PagesFind, TreeFinds};

use super::Damage;
use crate::legal::test_refusal;
use crate::notes_of;
use gx_class::ReadKeys;
use gx_disk::SectorDisk;
use gx_geom::Refusal;
use gx_legality::{LegalityFault, are_in_order, test_tree};
use gx_machine::Entry;
use gx_pool::{Pool, PoolFault};
use gx_recovery::{Analysis, Touch};
use gx_store::laws::{a_store_starts, going_on};
use gx_store::{NodeTest, PageStore, StoreFault};
use std::alloc::Global;

/// How many frames the tests take.
const FRAMES: usize = 16;

/// Half of how many pairs the test that no pair is in two places keeps at once.
const HALF: usize = 65_536;

// The first page in use that can't be read, if there is one. No page is kept yet.
fn unreadable<D: SectorDisk, K: ReadKeys>(
    pool: &mut Pool<NodeTest<K>>,
    disk: &mut D,
    used: u32,
) -> Result<Option<u32>, Refusal>
    requires inside { (used ≤ MAX_PAGES) × (PAGES_AT + PAGE_SECTORS * used ≤ (D.state disk.old).sectors) }
    requires none { (page : ℕ) → kept pool.old.frames page ≡ None }
    ensures read { OnlyRead (D.state disk.old) (D.state disk.new) }
    ensures faults { FaultsAre (D.state disk.old).faults (D.state disk.new).faults result }
    ensures lacks { IfErr result IsLack }
    ensures shows { (D.state disk.old).honest ≡ true → IfOk result (λ page. MatchOption page
        (CanAllBeRead (is_node (format_of K.KeyClass) pool.old.test.pages) used (D.state disk.old).seen)
        (IsUnreadable (is_node (format_of K.KeyClass) pool.old.test.pages) used (D.state disk.old).seen)) }
{
    for before in 0..used {
        match pool.bring_one(disk, before + 1) {
            Ok(()) => {}
            Err(PoolFault::Damaged) => return Ok(Some(before + 1)),
            Err(PoolFault::Device) => return Err(Refusal::Device),
            // can't happen, since all frames are clean
            Err(PoolFault::NoCleanFrame) => return Err(Refusal::Memory),
        }
    }
    Ok(None)
}

// The report on a tree that doesn't pass its test.
fn broken(fault: LegalityFault<StoreFault>) -> Result<Option<Damage>, Refusal>
    ensures { result ≡ tree_told_of fault }
{
    match fault {
        LegalityFault::Broken(page, rule) => Ok(Some(Damage::Broken(page, rule))),
        LegalityFault::Memory | LegalityFault::Pages(_) | LegalityFault::Unsteady => {
            Err(test_refusal(fault))
        }
    }
}

// The damage in the tree that a store shows.
fn in_tree<D: SectorDisk, K: ReadKeys>(
    alloc: Global,
    store: &mut PageStore<D, K>,
    most: u16,
    touched: &[Touch<Entry<K::Key>>],
) -> Result<Option<Damage>, Refusal>
    ensures reads { OnlyReadsStore (format_of K.KeyClass) (is_node (format_of K.KeyClass)) D.state store.old store.new }
    ensures failed { result ≡ Err Refusal.Device → (D.state store.old.disk).faults < (D.state store.new.disk).faults }
    ensures finds { AreOfOthers (entry_cmp (keys_of K.Key.Shape)) touched.now
        → TreeFinds K.Key.Shape K.KeyClass D.state most touched.now store.old result }
{
    going_on::<D, K>();
    let Ok(notes) = notes_of(alloc, touched) else {
        return Err(Refusal::Memory);
    };
    if !are_in_order(&notes) {
        return Err(Refusal::Damaged);
    }
    match test_tree(alloc, store, most, HALF, &notes) {
        Ok(()) => Ok(None),
        Err(fault) => broken(fault),
    }
}

// The damage in the tree of a device that has all pages in use and whose pages in use can be read.
fn over_frames<D: SectorDisk, K: ReadKeys>(
    alloc: Global,
    disk: D,
    analysis: &Analysis<Entry<K::Key>>,
    pages: u32,
    most: u16,
) -> (D, Result<Option<Damage>, Refusal>)
    requires inside { (pages ≤ MAX_PAGES) × (PAGES_AT + PAGE_SECTORS * pages ≤ (D.state disk).sectors) }
    requires fits { analysis.now.told.used ≤ pages }
    ensures read { OnlyRead (D.state disk) (D.state result.0) }
    ensures failed { result.1 ≡ Err Refusal.Device → (D.state disk).faults < (D.state result.0).faults }
    ensures finds { (l : Limits) → l.pages ≡ pages → l.most ≡ most → (D.state disk).honest ≡ true
        → AreOfOthers (entry_cmp (keys_of K.Key.Shape)) analysis.now.told.touched
        → CanAllBeRead (is_node (format_of K.KeyClass) pages) analysis.now.told.used (D.state disk).seen
        → PagesFind K.Key.Shape K.ReadKeys D l pages most analysis.now.told (D.state disk).seen result.1 }
{
    a_store_starts::<D, K>();
    going_on::<D, K>();
    let Ok(pool) = Pool::with_capacity(alloc, FRAMES, NodeTest::<K>::new(pages)) else {
        return (disk, Err(Refusal::Memory));
    };
    let mut store = PageStore::<D, K>::new(disk, pool, analysis.used(), analysis.counter(), pages);
    let found = in_tree(alloc, &mut store, most, analysis.touched());
    (store.into_disk(), found)
}

/// The damage in the pages of a device of so many, with so many entries in a node at most, by what its log gives.
/// Returns the device too.
pub(crate) fn in_pages<D: SectorDisk, K: ReadKeys>(
    alloc: Global,
    disk: D,
    analysis: &Analysis<Entry<K::Key>>,
    pages: u32,
    most: u16,
) -> (D, Result<Option<Damage>, Refusal>)
    requires inside { (pages ≤ MAX_PAGES) × (PAGES_AT + PAGE_SECTORS * pages ≤ (D.state disk).sectors) }
    ensures read { OnlyRead (D.state disk) (D.state result.0) }
    ensures failed { result.1 ≡ Err Refusal.Device → (D.state disk).faults < (D.state result.0).faults }
    ensures finds { (l : Limits) → l.pages ≡ pages → l.most ≡ most → (D.state disk).honest ≡ true
        → AreOfOthers (entry_cmp (keys_of K.Key.Shape)) analysis.now.told.touched
        → PagesFind K.Key.Shape K.ReadKeys D l pages most analysis.now.told (D.state disk).seen result.1 }
{
    let used = analysis.used();
    if pages < used {
        return (disk, Ok(Some(Damage::TooManyPages(used))));
    }
    let Ok(mut pool) = Pool::with_capacity(alloc, FRAMES, NodeTest::<K>::new(pages)) else {
        return (disk, Err(Refusal::Memory));
    };
    let mut disk = disk;
    match unreadable::<D, K>(&mut pool, &mut disk, used) {
        Ok(Some(page)) => (disk, Ok(Some(Damage::Unreadable(page)))),
        Ok(None) => over_frames::<D, K>(alloc, disk, analysis, pages, most),
        Err(why) => (disk, Err(why)),
    }
}

//! A store over a fresh index: a pair is refused without room for its record, then added and found.
ghost use Rattle.std.specs.Prelude.{◌≡◌, ◌≤◌, ◌+◌, ◌*◌, IfOk};
ghost use Rattle.gx_disk.specs.declared.layout.TheConstants.{PAGES_AT, PAGE_SECTORS};

use crate::asserts::holds;
use gx_class::{Box2Class, IntervalClass, KeyClass, Probing};
use gx_disk::{MIN_SECTORS, MemDisk, SectorDisk};
use gx_format::{format, sectors_for};
use gx_machine::{Entry, Query};
use gx_pool::{FRAMES, Pool};
use gx_store::laws::a_store_starts;
use gx_store::{NodeTest, PageStore, StoreFault};
use gx_tree::{Look, Pages, StepFault, TraversalItem, Wanted, add_step, look_step};
use std::alloc::{AllocError, Global};
use std::test::Fail;

/// A store of so many pages, of which so many are taken, with empty frames, over a device that has them.
fn start<D: SectorDisk + Drop, K: KeyClass>(
    alloc: Global,
    disk: D,
    frames: usize,
    used: u32,
    pages: u32,
) -> Result<PageStore<D, K>, AllocError>
    requires frames { frames ≤ FRAMES }
    requires pages { (used ≤ pages) × (pages ≤ 65536) × (PAGES_AT + PAGE_SECTORS * pages ≤ (D.state disk).sectors) }
    ensures store { IfOk result (λ store. (store.used ≡ used) × (store.pages ≡ pages) × (store.disk ≡ disk)) }
{
    a_store_starts::<D, K>();
    let pool = Pool::with_capacity(alloc, frames, NodeTest::new(pages))?;
    Ok(PageStore::new(disk, pool, used, 0, pages))
}

/// How many pairs a look for a key finds, in at most eight steps; none if it is refused or hasn't ended.
fn found<D: SectorDisk, K: Probing>(
    alloc: Global,
    store: &mut PageStore<D, K>,
    key: K::Key,
) -> Option<usize> {
    let wanted = Wanted::<K>::matching(&Query::Overlap(key));
    let root = TraversalItem::new(1, store.counter());
    let Ok(mut look) = Look::new(alloc, root) else {
        return None;
    };
    for _ in 0..8 {
        if look.is_done() {
            return Some(look.found().len());
        }
        if look_step(store, &wanted, &mut look).is_err() {
            return None;
        }
    }
    None
}

/// What looks find before and after a pair is added, and whether it was refused without room.
fn added<K: Probing>(rt: &HostRuntime) -> Result<(Option<usize>, bool, Option<usize>), Fail> {
    let mut disk = MemDisk::new(rt.alloc(), MIN_SECTORS as usize)?;
    format::<_, K>(rt.alloc(), &mut disk, 8, 4)?;
    if disk.sectors() < sectors_for(8) {
        return Ok((None, false, None));
    }
    let mut store = start::<_, K>(rt.alloc(), disk, 16, 2, 8)?;
    let key = K::start();
    let entry = Entry { row: 7, key };
    let before = found(rt.alloc(), &mut store, key);
    store.begin_event(1, false);
    let refused = matches!(
        &add_step(&mut store, 2, &entry, 4),
        Err(StepFault::Pages(StoreFault::NoRoom))
    );
    store.begin_event(1, true);
    if add_step(&mut store, 2, &entry, 4).is_err() {
        return Ok((before, refused, None));
    }
    Ok((before, refused, found(rt.alloc(), &mut store, key)))
}

#[test]
fn a_box_is_added_and_found(rt: HostRuntime) -> Result<(), Fail> {
    holds(&rt, added::<Box2Class>(&rt)? == (Some(0), true, Some(1)));
    Ok(())
}

#[test]
fn an_interval_is_added_and_found(rt: HostRuntime) -> Result<(), Fail> {
    holds(
        &rt,
        added::<IntervalClass>(&rt)? == (Some(0), true, Some(1)),
    );
    Ok(())
}

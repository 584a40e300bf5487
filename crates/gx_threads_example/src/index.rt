//! An index on a device, before its threads and after them.
ghost use Rattle.std.specs.Prelude.{IfOk};
ghost use Rattle.gx_shared.specs.Books.{MayBeShared};

use crate::trouble::Trouble;
use gx_class::Box2Class;
use gx_disk::SectorDisk;
use gx_engine_events::EngineEvents;
use gx_events::Events;
use gx_geom::Box2;
use gx_machine::{Call, Query, Reply};
use gx_restart::laws::idle::an_opened_engine_is_idle;
use gx_restart::{Index, format, open};
use gx_shared::laws::an_idle_engine_may_be_shared;
use std::alloc::Global;

/// How many pages are held in memory.
const FRAMES: usize = 64;

/// Lays a new index of boxes down on a device, with so many entries in a node at most.
pub(crate) fn make<D: SectorDisk + Drop>(
    alloc: Global,
    disk: D,
    pages: u32,
    most: u16,
) -> Result<D, Trouble> {
    let mut disk = disk;
    format::<D, Box2Class>(alloc, &mut disk, pages, most)?;
    Ok(disk)
}

/// Opens the index that a device has, to be shared by threads. If devices of this kind keep what they acknowledge, it
/// is seen as one machine, of whose sessions none has a call open.
pub(crate) fn open_index<D: SectorDisk + Drop>(
    alloc: Global,
    disk: D,
) -> Result<EngineEvents<D, Box2Class>, Trouble>
    ensures { ⟦<EngineEvents<D, Box2Class> as Events<Box2>>⟧.granted
        → IfOk result (λ e. MayBeShared ⟦<EngineEvents<D, Box2Class> as Events<Box2>>⟧.sees
        (⟦<EngineEvents<D, Box2Class> as Events<Box2>>⟧.sees e) e) }
{
    an_opened_engine_is_idle::<D, Box2Class>();
    an_idle_engine_may_be_shared::<Box2, EngineEvents<D, Box2Class>>();
    match open::<D, Box2Class>(alloc, disk, FRAMES) {
        Ok(engine) => Ok(EngineEvents::new(engine)),
        Err(_) => Err(Trouble::Index),
    }
}

/// Gates all that is logged, and gives the device back.
pub(crate) fn settle<D: SectorDisk + Drop>(
    engine: EngineEvents<D, Box2Class>,
) -> Result<D, Trouble> {
    let mut index = Index::new(engine.into_inner());
    index.settle()?;
    Ok(index.into_engine().into_disk())
}

/// Opens the index that a device has, and counts its entries.
pub(crate) fn count<D: SectorDisk + Drop>(alloc: Global, disk: D) -> Result<usize, Trouble> {
    let Ok(engine) = open::<D, Box2Class>(alloc, disk, FRAMES) else {
        return Err(Trouble::Index);
    };
    let all = Box2::new(i32::MIN, i32::MIN, i32::MAX, i32::MAX)?;
    let mut index = Index::new(engine);
    let Reply::Ok = index.call(1, Call::Begin) else {
        return Err(Trouble::Index);
    };
    match index.call(1, Call::Search(Query::Overlap(all))) {
        Reply::Found(entries) => Ok(entries.as_slice().len()),
        _ => Err(Trouble::Index),
    }
}

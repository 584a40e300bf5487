//! A new index on a device in memory, and in a file.
ghost use Rattle.std.specs.Prelude.{◌≡◌, IfOk};
ghost use Rattle.gx_machine.specs.Machine.{fresh_machine};
ghost use Rattle.gx_shared.specs.Books.{MayBeShared};

use gx_class::Box2Class;
use gx_disk::{FileDisk, RamDisk, SyncAhead};
use gx_engine_events::{EngineEvents, new_index};
use gx_events::Events;
use gx_format::sectors_for;
use gx_geom::Box2;
use std::alloc::Global;
use std::fs::{File, Files};
use std::test::Fail;

/// An engine on a new index of boxes, with so many pages, entries in a node and frames.
#[tactic(auto, using(gx_shared::proofs::Sharing::fresh_may_be_shared))]
pub(crate) fn fresh(
    alloc: Global,
    pages: u32,
    most: u16,
    frames: usize,
) -> Result<EngineEvents<RamDisk, Box2Class>, Fail>
    ensures { IfOk result (λ engine. MayBeShared ⟦<EngineEvents<RamDisk, Box2Class> as Events<Box2>>⟧.sees
        (λ m. m ≡ fresh_machine) engine) }
{
    let Ok(sectors) = usize::try_from(sectors_for(pages)) else {
        return Err(Fail::new("the device is too large"));
    };
    let disk = RamDisk::new(alloc, sectors)?;
    match new_index::<RamDisk, Box2Class>(alloc, disk, pages, most, frames) {
        Ok(engine) => Ok(engine),
        Err(_) => Err(Fail::new("there is no new index")),
    }
}

/// The same in a file, which is made, or loses what it held, with a handle for early syncs. If files keep what they
/// acknowledge, the engine is seen as the machine with nothing committed.
pub(crate) fn fresh_in_file<T: Files<File = File>>(
    rt: &T,
    alloc: Global,
    file: &str,
    pages: u32,
    most: u16,
    frames: usize,
) -> Result<(EngineEvents<FileDisk, Box2Class>, SyncAhead), Fail>
    ensures { ⟦<EngineEvents<FileDisk, Box2Class> as Events<Box2>>⟧.granted → IfOk result (λ made.
        MayBeShared ⟦<EngineEvents<FileDisk, Box2Class> as Events<Box2>>⟧.sees (λ m. m ≡ fresh_machine) made.0) }
{
    let mut disk = FileDisk::create(rt, file, sectors_for(pages))?;
    let ahead = disk.sync_ahead(rt, alloc, file)?;
    match new_index::<FileDisk, Box2Class>(alloc, disk, pages, most, frames) {
        Ok(engine) => Ok((engine, ahead)),
        Err(_) => Err(Fail::new("there is no new index")),
    }
}

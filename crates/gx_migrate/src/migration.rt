//! Migrates an index of the first version.
ghost use Rattle.std.specs.Prelude.{◌≡◌, ◌⊎◌, ◌+◌, ◌<◌, ◌≤◌, true, Err, IfErr, IfOk};
ghost use Rattle.gx_disk.specs.declared.layout.TheConstants.{LEAST_SECTORS, MAX_PAGES, MIN_PAGES};
ghost use Rattle.gx_disk.specs.Looks.{Looks};
ghost use Rattle.gx_disk.specs.Device.{SameDevice};
ghost use Rattle.gx_glog.specs.declared.parameters.Parameters.{Parameters};
ghost use Rattle.gx_older.specs.Reads.{FaultsAre, OnlyReads};
ghost use Rattle.gx_older.specs.Renumbered.{older_sectors_of, renumbered};
ghost use Rattle.gx_older.specs.Told.{Tells};
ghost use Rattle.gx_migrate.specs.Migrated.{IsHeld, IsItsFault, IsReadAlone, refusal_of_memory};
ghost use Rattle.gx_migrate.specs.Setting.{IsFoundAs, IsMigratedAs, IsUnmigratedAs, MovesInPhases};

use crate::laying::lay;
use gx_class::ReadKeys;
use gx_disk::{MemDisk, SectorDisk};
use gx_durable::class_laws::what_stands_is_legal;
use gx_format::sectors_for;
use gx_geom::Refusal;
use gx_older::{older_parameters, read_older};
use gx_opening::{Standing, find};
use std::alloc::Global;

/// The least number of frames that an index may be opened with.
const LEAST_FRAMES: usize = 16;

/// The greatest.
const MOST_FRAMES: usize = 4096;

// The refusal of a device by that of its bytes in memory: a failure of memory is a lack of it.
fn told_of_memory(why: Refusal) -> Refusal
    ensures { result ≡ refusal_of_memory why }
{
    match why {
        Refusal::Device => Refusal::Memory,
        other => other,
    }
}

// Reads an index of the first version, with so many pages, into memory, and finds it there.
fn find_older<D: SectorDisk, K: ReadKeys>(
    alloc: Global,
    old: &mut D,
    pages: u32,
) -> Result<(MemDisk, Standing<K::Key>), Refusal>
    requires least { MIN_PAGES ≤ pages }
    requires most { pages ≤ MAX_PAGES }
    requires inside { older_sectors_of pages ≤ (D.state old.old).sectors }
    ensures only { OnlyReads (D.state old.old) (D.state old.new) result }
    ensures looks { (D.state old.old).honest ≡ true → Looks (D.state old.old) (D.state old.new) }
    ensures held { IfOk result (IsHeld K.CLASS pages) }
    ensures found { (D.state old.old).honest ≡ true
        → IsFoundAs K.Key.Shape K.ReadKeys pages (D.state old.old).seen result }
{
    let bytes = read_older(alloc, old, pages)?;
    let (memory, found) = find::<MemDisk, K>(alloc, MemDisk::from_bytes(alloc, bytes));
    match found {
        Ok(standing) => Ok((memory, standing)),
        Err(why) => Err(told_of_memory(why)),
    }
}

/// Migrates an index of the first version to a device of this one, with what its last commit left, and with what open
/// transactions have touched, which an opening undoes. Returns the number of the last commit, and the greatest page in
/// use. The old device is only read. What the new one held before is lost; it has the sectors that
/// [`gx_format::sectors_for`] says.
///
/// Refused for the first of these that holds: there are fewer frames than 16 or more than 4,096 (`BadParameter`); the
/// old device isn't formatted for an index of this class by the first version, by [`gx_older::older_parameters`]
/// (`TooSmall`, `NotFormatted`, `BadParameter`); the new device has fewer sectors than the index takes now
/// (`TooSmall`); the old one's log or its pages are damaged (`Damaged`). Until then the new device isn't touched.
/// `Memory` if there is none for the bytes of the old device, which are all read into memory, and `Device` if a call of
/// either device fails.
///
/// On honest devices, at each moment, even if a call fails: in the first two calls of the new device each image of it
/// is one from before except for its first sector; from then on none is an index of any version; and from the last two
/// calls on each is none of this version, or stands for what the old device stands for. At `Ok` the new device does,
/// and all of it is durable.
pub fn migrate<D: SectorDisk, E: SectorDisk, K: ReadKeys>(
    alloc: Global,
    old: &mut D,
    new: &mut E,
    frames: usize,
) -> Result<(u64, u32), Refusal>
    ensures frames { ((16 ≤ frames) × (frames ≤ 4096) → ⊥)
        → (result ≡ Err Refusal.BadParameter) × ((old.new ≡ old.old) × (new.new ≡ new.old)) }
    ensures small { 16 ≤ frames → frames ≤ 4096 → (D.state old.old).sectors < LEAST_SECTORS
        → (result ≡ Err Refusal.TooSmall) × ((old.new ≡ old.old) × (new.new ≡ new.old)) }
    ensures looks { (D.state old.old).honest ≡ true → Looks (D.state old.old) (D.state old.new) }
    ensures only { IsReadAlone (D.state old.old) (D.state old.new) }
    ensures device { SameDevice (E.state new.old) (E.state new.new) }
    ensures faults { FaultsAre ((D.state old.old).faults + (E.state new.old).faults)
        ((D.state old.new).faults + (E.state new.new).faults) result }
    ensures moments { (p : Parameters) → (D.state old.old).honest ≡ true → (E.state new.old).honest ≡ true
        → Tells (D.state old.old).seen p
        → MovesInPhases K.Key.Shape K.ReadKeys E.state p (renumbered p.pages (D.state old.old).seen) new.old new.new }
    ensures migrated { (D.state old.old).honest ≡ true → (E.state new.old).honest ≡ true
        → IfOk result (IsMigratedAs K.Key.Shape K.ReadKeys (D.state old.old) (E.state new.new)) }
    ensures refused { (D.state old.old).honest ≡ true → 16 ≤ frames → frames ≤ 4096
        → LEAST_SECTORS ≤ (D.state old.old).sectors
        → IfErr result (IsUnmigratedAs K.Key.Shape K.ReadKeys (D.state old.old) (E.state new.old).sectors) }
    ensures untouched { IfErr result (λ why. (new.new ≡ new.old)
        ⊎ IsItsFault (E.state new.old) (E.state new.new) why) }
{
    what_stands_is_legal::<K>();
    if frames < LEAST_FRAMES || MOST_FRAMES < frames {
        return Err(Refusal::BadParameter);
    }
    let parameters = match older_parameters::<D, K>(old) {
        Ok(parameters) => parameters,
        Err(why) => return Err(why),
    };
    if new.sectors() < sectors_for(parameters.pages) {
        return Err(Refusal::TooSmall);
    }
    let (memory, standing) = match find_older::<D, K>(alloc, old, parameters.pages) {
        Ok(found) => found,
        Err(why) => return Err(why),
    };
    match lay::<E, MemDisk, K>(alloc, new, &standing, memory.bytes()) {
        Ok(()) => Ok((standing.log.analysis.number(), standing.log.analysis.used())),
        Err(why) => Err(why),
    }
}

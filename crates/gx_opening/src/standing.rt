//! Finds the index on a device.
ghost use Rattle.std.specs.Prelude.{◌≡◌, ◌+◌, ◌*◌, ◌<◌, ◌≤◌, true, IfOk, IfErr, Err};
ghost use Rattle.gx_glog.specs.declared.extent.TheConstants.{PLACES};
ghost use Rattle.gx_disk.specs.declared.layout.TheConstants.{LEAST_SECTORS, MAX_PAGES, PAGES_AT, PAGE_SECTORS};
ghost use Rattle.gx_disk.specs.Device.{SameDevice};
ghost use Rattle.gx_machine.specs.Keys.{keys_of, entry_cmp};
ghost use Rattle.gx_pool.specs.Bringing.{OnlyRead};
ghost use Rattle.gx_opening.specs.Formatted.{FaultsAre, IsAllowed, IsLarge};
ghost use Rattle.gx_opening.specs.Noting.{AreOfOthers};
ghost use Rattle.gx_opening.specs.Sound.{IsCause, Tells};
ghost use Rattle.gx_opening.specs.Standing.{MayStart, limits_of, told_with};
ghost use Rattle.gx_opening.specs.Setting.{AreSoundAs, StaysSafeAs, FindsInOrderAs, IsStoodAs, IsTestedAs};
ghost use Rattle.gx_opening.specs.Setting.{LeavesDamagedAs};

use crate::formatted::formatted_behind;
use crate::legal::test_pages;
use crate::log::lay_log;
use gx_class::ReadKeys;
use gx_disk::{LEAST_SECTORS, SectorDisk};
use gx_durable::class_laws::what_stands_is_legal;
use gx_found_log::{FoundLog, LogRoom};
use gx_geom::Refusal;
use gx_glog::Parameters;
use gx_machine::Entry;
use std::alloc::Global;

/// An index that was found on a device.
#[derive(Drop)]
pub struct Standing<B> {
    /// What the device is formatted for.
    pub parameters: Parameters,
    /// Its log.
    pub log: FoundLog<Entry<B>>,
}

// Syncs a device, reads what it is formatted for, and lays its log.
fn stand<D: SectorDisk, K: ReadKeys>(
    room: LogRoom<Entry<K::Key>>,
    disk: &mut D,
) -> Result<Standing<K::Key>, Refusal>
    requires { LEAST_SECTORS ≤ (D.state disk.old).sectors }
    ensures device { SameDevice (D.state disk.old) (D.state disk.new) }
    ensures faults { FaultsAre (D.state disk.old).faults (D.state disk.new).faults result }
    ensures allowed { IfOk result (λ s. IsAllowed K.CLASS s.parameters
        × IsLarge (D.state disk.old).sectors s.parameters) }
    ensures bodies { IfOk result (λ s. (1 ≤ s.log.bodies) × (s.log.bodies ≤ PLACES)) }
    ensures safe { (D.state disk.old).honest ≡ true → StaysSafeAs K.Key.Shape K.ReadKeys D.state disk.old disk.new }
    ensures order { (D.state disk.old).honest ≡ true
        → FindsInOrderAs K.Key.Shape K.ReadKeys D.state disk.old disk.new result }
    ensures stood { (D.state disk.old).honest ≡ true
        → IsStoodAs K.Key.Shape K.ReadKeys D.state disk.old disk.new result }
    ensures damaged { (D.state disk.old).honest ≡ true
        → LeavesDamagedAs K.Key.Shape K.ReadKeys D.state disk.new result }
{
    what_stands_is_legal::<K>();
    let parameters = formatted_behind::<D, K>(disk)?;
    let log = lay_log::<D, K>(room, disk, parameters.pages, parameters.most)?;
    Ok(Standing { parameters, log })
}

// Returns what was found, if its test passed.
fn with_standing<B: Copy>(
    sound: Result<(), Refusal>,
    standing: Standing<B>,
) -> Result<Standing<B>, Refusal>
    ensures { result ≡ told_with sound standing }
{
    sound?;
    Ok(standing)
}

// Tests the pages of an index that was found on a device.
fn tested<D: SectorDisk, K: ReadKeys>(
    alloc: Global,
    disk: D,
    standing: Standing<K::Key>,
) -> (D, Result<Standing<K::Key>, Refusal>)
    requires inside { (standing.parameters.pages ≤ MAX_PAGES)
        × (PAGES_AT + PAGE_SECTORS * standing.parameters.pages ≤ (D.state disk).sectors) }
    ensures read { OnlyRead (D.state disk) (D.state result.0) }
    ensures faults { FaultsAre (D.state disk).faults (D.state result.0).faults result.1 }
    ensures ok { IfOk result.1 (λ s. s ≡ standing) }
    ensures fits { IfOk result.1 (λ s. s.log.analysis.told.used ≤ s.parameters.pages) }
    ensures others { IfOk result.1 (λ s. AreOfOthers (entry_cmp (keys_of K.Key.Shape)) s.log.analysis.told.touched) }
    ensures cause { IfErr result.1 IsCause }
    ensures memory { IfErr result.1 (λ why. why ≡ Refusal.Memory
        → standing.log.analysis.told.used ≤ standing.parameters.pages) }
    ensures tested { (D.state disk).honest ≡ true
        → AreOfOthers (entry_cmp (keys_of K.Key.Shape)) standing.log.analysis.told.touched
        → Tells (AreSoundAs K.Key.Shape K.ReadKeys (limits_of standing.parameters)
        standing.parameters.pages standing.log.analysis.told (D.state disk).seen) result.1 }
{
    let Parameters { pages, most, .. } = standing.parameters;
    let (disk, sound) = test_pages::<D, K>(alloc, disk, &standing.log.analysis, pages, most);
    (disk, with_standing(sound, standing))
}

// Finds the index on a device that has [`LEAST_SECTORS`] sectors.
fn find_in<D: SectorDisk, K: ReadKeys>(
    alloc: Global,
    room: LogRoom<Entry<K::Key>>,
    disk: D,
) -> (D, Result<Standing<K::Key>, Refusal>)
    requires { LEAST_SECTORS ≤ (D.state disk).sectors }
    ensures device { SameDevice (D.state disk) (D.state result.0) }
    ensures faults { FaultsAre (D.state disk).faults (D.state result.0).faults result.1 }
    ensures allowed { IfOk result.1 (λ s. IsAllowed K.CLASS s.parameters
        × IsLarge (D.state disk).sectors s.parameters) }
    ensures starts { IfOk result.1 MayStart }
    ensures others { IfOk result.1 (λ s. AreOfOthers (entry_cmp (keys_of K.Key.Shape)) s.log.analysis.told.touched) }
    ensures safe { (D.state disk).honest ≡ true → StaysSafeAs K.Key.Shape K.ReadKeys D.state disk result.0 }
    ensures order { (D.state disk).honest ≡ true
        → FindsInOrderAs K.Key.Shape K.ReadKeys D.state disk result.0 result.1 }
    ensures tested { (D.state disk).honest ≡ true → IsTestedAs K.Key.Shape K.ReadKeys D.state disk result.0 result.1 }
    ensures damaged { (D.state disk).honest ≡ true → LeavesDamagedAs K.Key.Shape K.ReadKeys D.state result.0 result.1 }
{
    what_stands_is_legal::<K>();
    let mut disk = disk;
    match stand::<D, K>(room, &mut disk) {
        Ok(standing) => tested::<D, K>(alloc, disk, standing),
        Err(why) => (disk, Err(why)),
    }
}

/// Syncs a device, reads what it is formatted for, lays its log, and tests its pages. Returns the device.
///
/// Refused for the first of these that holds: the device has fewer than 4,232 sectors (`TooSmall`, and no call is
/// made), the magic is that of version 1 (`OldVersion`) or missing (`NotFormatted`), the numbers are out of range or of
/// another class (`BadParameter`), the device has fewer sectors than that index takes (`TooSmall`), its log is damaged,
/// or its pages can't be read, aren't a legal tree, or don't have what open transactions touched in its place
/// (`Damaged`); also if a call fails (`Device`), or memory is refused (`Memory`). All memory that the log takes is
/// allocated before the first call; after it neither a damaged log nor more pages in use than the device has is refused
/// as `Memory`. A device that is refused as damaged is left so that [`crate::examine`] finds damage there. At each
/// moment a crash may leave what it could leave at the start, or an image with the log that was found and after it the
/// same pages. A sync comes before the first write, and only sectors of pages that the log gives are written. Whatever
/// the device is, an engine may start with the numbers that are found, and open transactions have touched no entry
/// twice.
pub fn find<D: SectorDisk, K: ReadKeys>(
    alloc: Global,
    disk: D,
) -> (D, Result<Standing<K::Key>, Refusal>)
    ensures device { SameDevice (D.state disk) (D.state result.0) }
    ensures faults { FaultsAre (D.state disk).faults (D.state result.0).faults result.1 }
    ensures allowed { IfOk result.1 (λ s. IsAllowed K.CLASS s.parameters
        × IsLarge (D.state disk).sectors s.parameters) }
    ensures starts { IfOk result.1 MayStart }
    ensures others { IfOk result.1 (λ s. AreOfOthers (entry_cmp (keys_of K.Key.Shape)) s.log.analysis.told.touched) }
    ensures small { (D.state disk).sectors < LEAST_SECTORS → (result.1 ≡ Err Refusal.TooSmall) × (result.0 ≡ disk) }
    ensures safe { (D.state disk).honest ≡ true → StaysSafeAs K.Key.Shape K.ReadKeys D.state disk result.0 }
    ensures order { (D.state disk).honest ≡ true
        → FindsInOrderAs K.Key.Shape K.ReadKeys D.state disk result.0 result.1 }
    ensures tested { (D.state disk).honest ≡ true → LEAST_SECTORS ≤ (D.state disk).sectors
        → IsTestedAs K.Key.Shape K.ReadKeys D.state disk result.0 result.1 }
    ensures damaged { (D.state disk).honest ≡ true → LeavesDamagedAs K.Key.Shape K.ReadKeys D.state result.0 result.1 }
{
    if disk.sectors() < LEAST_SECTORS {
        return (disk, Err(Refusal::TooSmall));
    }
    match LogRoom::new(alloc) {
        Ok(room) => find_in::<D, K>(alloc, room, disk),
        Err(why) => (disk, Err(why)),
    }
}

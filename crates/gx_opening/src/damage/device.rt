//! Examines a device for damage.
ghost use Rattle.std.specs.Prelude.{◌≡◌, ◌≤◌, ◌<◌, true, Err};
ghost use Rattle.gx_disk.specs.declared.layout.TheConstants.{LEAST_SECTORS};
ghost use Rattle.gx_disk.specs.Device.{SameDevice};
ghost use Rattle.gx_opening.specs.Formatted.{IsAllowed, IsLarge, OnlyRests};
ghost use Rattle.gx_opening.specs.Shown.{log_told_of};
ghost use Rattle.gx_opening.specs.Setting.{ExaminesAs, FindsDamageAs, IndexFindsAs};

use super::Damage;
use super::pages::in_pages;
use crate::formatted_for;
use gx_class::ReadKeys;
use gx_disk::SectorDisk;
use gx_durable::class_laws::what_stands_is_legal;
use gx_found_log::{LogFault, LogRoom, examine_class_log};
use gx_geom::Refusal;
use gx_glog::Parameters;
use gx_machine::Entry;
use std::alloc::Global;

// The damage of a log that can't be read back.
fn in_log(fault: LogFault) -> Result<Option<Damage>, Refusal>
    ensures { result ≡ log_told_of fault }
{
    match fault {
        LogFault::Damaged(damage) => Ok(Some(Damage::Log(damage))),
        LogFault::Memory => Err(Refusal::Memory),
        LogFault::Device => Err(Refusal::Device),
    }
}

// The damage in the log or the pages of a device that is formatted for this.
fn in_index<D: SectorDisk, K: ReadKeys>(
    alloc: Global,
    room: LogRoom<Entry<K::Key>>,
    disk: D,
    parameters: Parameters,
) -> (D, Result<Option<Damage>, Refusal>)
    requires allowed { IsAllowed K.CLASS parameters × IsLarge (D.state disk).sectors parameters }
    ensures device { SameDevice (D.state disk) (D.state result.0) }
    ensures rests { (D.state disk).honest ≡ true → OnlyRests (D.state disk) (D.state result.0) }
    ensures failed { result.1 ≡ Err Refusal.Device → (D.state disk).faults < (D.state result.0).faults }
    ensures examined { (D.state disk).honest ≡ true
        → IndexFindsAs K.Key.Shape K.ReadKeys D parameters (D.state disk).seen result.1 }
{
    what_stands_is_legal::<K>();
    let Parameters { pages, most, .. } = parameters;
    let mut disk = disk;
    match examine_class_log::<K, D>(room, &mut disk, pages, most) {
        Ok(found) => in_pages::<D, K>(alloc, disk, &found.analysis, pages, most),
        Err(fault) => (disk, in_log(fault)),
    }
}

/// Looks for the damage on a device whose opening was refused as damaged, for the user: in its log, by the body, the
/// place in it and the rule; or in its pages, as that opening has laid them: too many in use, the first in use that
/// can't be read, or one that doesn't keep a rule of a legal tree. The device is synced, read and returned: nothing is
/// written to an honest one, and a crash leaves nothing that it couldn't have left before.
///
/// The report on an honest device is true of its bytes, and is the first of these that holds: its log is damaged; more
/// pages are in use than the device has; one in use can't be read, and those before it can; one breaks its rule in the
/// tree of the pages in use; or the tree is legal, and an entry which an open transaction touched is neither in its
/// leaf nor to the right of it. `None` exactly if none of these holds: the log is found, and the pages are sound by
/// what it says. So there is a report on every honest device that an opening refused as damaged, unless this function
/// is refused.
///
/// Refused if the device isn't formatted for such an index, as [`formatted_for`] is; if a call fails (`Device`); and if
/// memory is refused (`Memory`): before any call, or after the log was found and no more pages are in use than the
/// device has. So once the first call is made, a damaged log is always reported, unless a call fails.
pub fn examine<D: SectorDisk, K: ReadKeys>(
    alloc: Global,
    disk: D,
) -> (D, Result<Option<Damage>, Refusal>)
    ensures device { SameDevice (D.state disk) (D.state result.0) }
    ensures rests { (D.state disk).honest ≡ true → OnlyRests (D.state disk) (D.state result.0) }
    ensures failed { result.1 ≡ Err Refusal.Device → (D.state disk).faults < (D.state result.0).faults }
    ensures examined { (D.state disk).honest ≡ true → LEAST_SECTORS ≤ (D.state disk).sectors
        → ExaminesAs K.Key.Shape K.ReadKeys D.state disk result.0 result.1 }
    ensures damaged { (D.state disk).honest ≡ true
        → FindsDamageAs K.Key.Shape K.ReadKeys D.state disk result.0 result.1 }
{
    let room = match LogRoom::new(alloc) {
        Ok(room) => room,
        Err(why) => return (disk, Err(why)),
    };
    let mut disk = disk;
    match formatted_for::<D, K>(&mut disk) {
        Ok(parameters) => in_index::<D, K>(alloc, room, disk, parameters),
        Err(why) => (disk, Err(why)),
    }
}

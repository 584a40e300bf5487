//! Reads the log of a device, and lays its pages.
ghost use Rattle.std.specs.Prelude.{◌≡◌, ◌≢◌, ◌≤◌, IfErr, IfOk};
ghost use Rattle.gx_disk.specs.Device.{SameDevice};
ghost use Rattle.gx_durable.specs.Area.{HasPages};
ghost use Rattle.gx_found_log.specs.Found.{FaultsTold};
ghost use Rattle.gx_node.specs.declared.items.TheConstants.{MAX_ENTRIES};
ghost use Rattle.gx_recovery.specs.Known.{Limits};
ghost use Rattle.gx_durable.specs.Classes.{known_at, reading_by};
ghost use Rattle.gx_opening.specs.Laid.{LaysFound, LaysLogOf};

use gx_class::ReadKeys;
use gx_disk::SectorDisk;
use gx_durable::OfClass;
use gx_found_log::{FoundLog, LogRoom, read_class_log, redo_log};
use gx_geom::Refusal;
use gx_glog::PLACES;
use gx_machine::Entry;

// Writes the pages that a log gives to their places.
fn lay_found<D: SectorDisk, K: ReadKeys>(
    disk: &mut D,
    found: FoundLog<Entry<K::Key>>,
    pages: u32,
) -> Result<FoundLog<Entry<K::Key>>, Refusal>
    requires { HasPages pages (D.state disk.old).sectors }
    ensures device { SameDevice (D.state disk.old) (D.state disk.new) }
    ensures faults { FaultsTold (D.state disk.old).faults (D.state disk.new).faults result }
    ensures bodies { IfOk result (λ found. (1 ≤ found.bodies) × (found.bodies ≤ PLACES)) }
    ensures lays { (l : Limits) → l.pages ≡ pages
        → LaysFound (known_at K.Key.Shape K.is_proper l) (reading_by K.said K.KeyClass) found
        (D.state disk.old) (D.state disk.new) result }
    ensures memory { IfErr result (λ why. why ≢ Refusal.Memory) }
{
    if found.bodies == 0 || found.bodies > PLACES {
        return Err(Refusal::Damaged);
    }
    redo_log::<OfClass<K>, D>(disk, &found, pages)?;
    Ok(found)
}

/// Reads the log of a synced device of so many pages and entries in a node, and lays its pages: each is then as the log
/// leaves it, and everything is durable again.
///
/// Refused as `Damaged` exactly if the log is damaged, before anything is written, and with `Device` if a call fails.
/// It takes no memory. At each moment, even if it is refused, what a crash may leave is as at the start, or has the log
/// that was found and after it the same pages.
pub(crate) fn lay_log<D: SectorDisk, K: ReadKeys>(
    room: LogRoom<Entry<K::Key>>,
    disk: &mut D,
    pages: u32,
    most: u16,
) -> Result<FoundLog<Entry<K::Key>>, Refusal>
    requires pages { HasPages pages (D.state disk.old).sectors }
    requires most { most ≤ MAX_ENTRIES }
    ensures device { SameDevice (D.state disk.old) (D.state disk.new) }
    ensures faults { FaultsTold (D.state disk.old).faults (D.state disk.new).faults result }
    ensures bodies { IfOk result (λ found. (1 ≤ found.bodies) × (found.bodies ≤ PLACES)) }
    ensures lays { (l : Limits) → l.pages ≡ pages → l.most ≡ most
        → LaysLogOf (known_at K.Key.Shape K.is_proper l) (reading_by K.said K.KeyClass)
        (D.state disk.old) (D.state disk.new) result }
    ensures memory { IfErr result (λ why. why ≢ Refusal.Memory) }
{
    let found = read_class_log::<K, D>(room, disk, pages, most)?;
    lay_found::<D, K>(disk, found, pages)
}

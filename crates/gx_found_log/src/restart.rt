//! The redo of a log that was read.
ghost use Rattle.std.specs.Prelude.{◌≡◌, ◌≢◌, IfErr};
ghost use Rattle.gx_disk.specs.Device.{SameDevice};
ghost use Rattle.gx_durable.specs.Area.{HasPages};
ghost use Rattle.gx_found_log.specs.Found.{FaultsTold};
ghost use Rattle.gx_found_log.specs.Given.{are_on_device};
ghost use Rattle.gx_recovery.specs.Damage.{is_page};
ghost use Rattle.gx_recovery.specs.Known.{Limits};
ghost use Rattle.gx_found_log.specs.Restart.{RedoesFound};

use crate::{FoundLog, Given, Imaged, Readable, redo};
use gx_disk::SectorDisk;
use gx_geom::Refusal;

/// Whether a device of so many pages has this one.
fn is_on_device(x: &Imaged, pages: u32) -> bool
    ensures { result ≡ is_page pages x.now.0 }
{
    0 < x.page() && x.page() <= pages
}

/// Whether a device of so many pages has each.
fn are_on_device(given: &Given, pages: u32) -> bool
    ensures { result ≡ are_on_device pages given.now }
{
    given.pages().iter().all(|x| is_on_device(x, pages))
}

/// Lays the pages of a log that was read, and has passed its tests, on a device of so many pages; the device was
/// settled before it was read. Refused by a fault of the device (`Device`).
///
/// `Damaged` if the log gives a page that isn't one of so many, which never happens on an honest device. At each
/// moment, also if it is refused, what a crash may leave has the log that was read, and after it the same pages; if
/// these are good for it, it stands for the set that the log keeps. Once it succeeds each page is as the log leaves it,
/// and everything is durable.
pub fn redo_log<M: Readable, D: SectorDisk>(
    disk: &mut D,
    found: &FoundLog<M::Entry>,
    pages: u32,
) -> Result<(), Refusal>
where
    M::Entry: Copy + Ord,
    requires { HasPages pages (D.state disk.old).sectors }
    ensures device { SameDevice (D.state disk.old) (D.state disk.new) }
    ensures faults { FaultsTold (D.state disk.old).faults (D.state disk.new).faults result }
    ensures redoes { (l : Limits) → (M.known l).pages ≡ pages
        → RedoesFound (M.known l) M.reading found.now (D.state disk.old) (D.state disk.new) result }
    ensures memory { IfErr result (λ why. why ≢ Refusal.Memory) }
{
    if !are_on_device(&found.given, pages) {
        return Err(Refusal::Damaged);
    }
    redo::<M, D>(disk, &found.given)
}

//! The redo of a log.
ghost use Rattle.std.specs.Prelude.{◌≡◌, ◌+◌, true, length, IfErr, OnOk};
ghost use Rattle.gx_disk.specs.Device.{IsSettled, SameDevice};
ghost use Rattle.gx_found_log.specs.Found.{FaultsTold};
ghost use Rattle.gx_recovery.specs.Known.{Limits};
ghost use Rattle.gx_found_log.specs.Laid.{ArePages, Lays};
ghost use Rattle.gx_found_log.specs.Redone.{Redoes};

use crate::Given;
use crate::lay::{lay, settle};
use gx_disk::SectorDisk;
use gx_durable::Spelled;
use gx_geom::Refusal;

/// Writes all pages that are kept, and settles them.
fn lay_all<D: SectorDisk>(disk: &mut D, given: &Given) -> Result<(), Refusal>
    requires { ArePages (D.state disk.old).sectors given.now }
    ensures device { SameDevice (D.state disk.old) (D.state disk.new) }
    ensures faults { FaultsTold (D.state disk.old).faults (D.state disk.new).faults result }
    ensures calls { OnOk result ((D.state disk.new).calls ≡ (D.state disk.old).calls + length given.now + 1) }
    ensures refusal { IfErr result (λ refusal. refusal ≡ Refusal.Device) }
    ensures lays { (D.state disk.old).honest ≡ true → Lays given.now (D.state disk.old) (D.state disk.new) result }
    ensures settled { (D.state disk.old).honest ≡ true → OnOk result (IsSettled (D.state disk.new)) }
{
    match lay(disk, given.pages()) {
        Ok(()) => settle(disk),
        Err(refusal) => Err(refusal),
    }
}

/// Lays each page that a log gives where it belongs: one write a page, and then one sync. Nothing else of the device is
/// touched. Refused with `Device` if a call fails, and only then; it is then the last call, and the redo may be made
/// again.
///
/// Of an honest device with a log that has passed its tests (`IsFoundOn`), of which these are the pages: at each
/// moment, also where a call fails, what a crash may leave has the same log, and after it the same pages; where these
/// are good for it, it stands for the set of the log that was found. Once it succeeds each page is as the log leaves
/// it, and everything is durable. So the log that starts behind its bodies has all pages written, and is up to its turn
/// if they are good for it.
///
/// Public source: the redo pass of ARIES (Mohan et al. 1992), with whole pages.
pub fn redo<M: Spelled, D: SectorDisk>(disk: &mut D, given: &Given) -> Result<(), Refusal>
    requires { ArePages (D.state disk.old).sectors given.now }
    ensures device { SameDevice (D.state disk.old) (D.state disk.new) }
    ensures faults { FaultsTold (D.state disk.old).faults (D.state disk.new).faults result }
    ensures calls { OnOk result ((D.state disk.new).calls ≡ (D.state disk.old).calls + length given.now + 1) }
    ensures refusal { IfErr result (λ refusal. refusal ≡ Refusal.Device) }
    ensures lays { (D.state disk.old).honest ≡ true → Lays given.now (D.state disk.old) (D.state disk.new) result }
    ensures settled { (D.state disk.old).honest ≡ true → OnOk result (IsSettled (D.state disk.new)) }
    ensures redoes { (l : Limits)
        → Redoes (M.known l) M.reading given.now (D.state disk.old) (D.state disk.new) result }
{
    lay_all(disk, given)
}

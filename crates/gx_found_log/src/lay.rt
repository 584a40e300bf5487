//! Pages written where they belong.
ghost use Rattle.std.specs.Prelude.{◌≡◌, ◌+◌, true, length, IfErr, OnOk};
ghost use Rattle.gx_page.specs.declared.block.TheConstants.{PAGE_SIZE};
ghost use Rattle.gx_disk.specs.Device.{Counts, Writes, Syncs, SameDevice};
ghost use Rattle.gx_found_log.specs.Found.{FaultsTold};
ghost use Rattle.gx_pool.specs.Area.{IsPage, first_of};
ghost use Rattle.gx_found_log.specs.Given.{AreOnce};
ghost use Rattle.gx_found_log.specs.Laid.{ArePages, Lays};

use crate::Imaged;
use gx_disk::{PAGE_SECTORS, PAGES_AT, SectorDisk};
use gx_geom::Refusal;

/// Writes a page.
fn write<D: SectorDisk>(disk: &mut D, x: &Imaged) -> Result<(), Refusal>
    requires { IsPage (D.state disk.old).sectors x.now.0 }
    ensures counts { Counts 1 (D.state disk.old) (D.state disk.new) result }
    ensures writes { (D.state disk.old).honest ≡ true
        → Writes (first_of x.now.0) PAGE_SECTORS x.now.1 (D.state disk.old) (D.state disk.new) result }
    ensures whole { length x.now.1 ≡ PAGE_SIZE }
    ensures refusal { IfErr result (λ refusal. refusal ≡ Refusal.Device) }
{
    let first = PAGES_AT + PAGE_SECTORS * (u64::from(x.page()) - 1);
    match disk.write(first, x.image()) {
        Ok(()) => Ok(()),
        Err(_) => Err(Refusal::Device),
    }
}

/// Writes pages, each where it belongs.
pub(crate) fn lay<D: SectorDisk>(disk: &mut D, pages: &[Imaged]) -> Result<(), Refusal>
    requires pages { ArePages (D.state disk.old).sectors pages.now }
    requires once { AreOnce pages.now }
    ensures device { SameDevice (D.state disk.old) (D.state disk.new) }
    ensures faults { FaultsTold (D.state disk.old).faults (D.state disk.new).faults result }
    ensures calls { OnOk result ((D.state disk.new).calls ≡ (D.state disk.old).calls + length pages.now) }
    ensures refusal { IfErr result (λ refusal. refusal ≡ Refusal.Device) }
    ensures lays { (D.state disk.old).honest ≡ true → Lays pages.now (D.state disk.old) (D.state disk.new) result }
{
    for x in pages {
        match write(disk, x) {
            Ok(()) => {}
            Err(refusal) => return Err(refusal),
        }
    }
    Ok(())
}

/// Settles what was written.
pub(crate) fn settle<D: SectorDisk>(disk: &mut D) -> Result<(), Refusal>
    ensures counts { Counts 1 (D.state disk.old) (D.state disk.new) result }
    ensures syncs { (D.state disk.old).honest ≡ true → Syncs (D.state disk.old) (D.state disk.new) result }
    ensures refusal { IfErr result (λ refusal. refusal ≡ Refusal.Device) }
{
    match disk.sync() {
        Ok(()) => Ok(()),
        Err(_) => Err(Refusal::Device),
    }
}

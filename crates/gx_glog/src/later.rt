//! Gates after a log that was found, which are closed before it goes on.
ghost use Rattle.std.specs.Prelude.{◌≡◌, ◌+◌, ◌≤◌, ◌<◌, true, IfErr, IfOk};
ghost use Rattle.gx_disk.specs.declared.layout.TheConstants.{PAGES_AT};
ghost use Rattle.gx_disk.specs.Device.{Counts, SameDevice, CountsFault};
ghost use Rattle.gx_disk.specs.Looks.{Looks};
ghost use Rattle.gx_glog.specs.Later.{TellsOpenFrom, CallsForLater, ClosesLaterOfRun, ClosesGatesFrom};

use crate::batch::settle;
use crate::extent::{Extent, PLACES, is_open_gate};
use crate::turn::closed_gates;
use gx_disk::{SECTOR_SIZE, SectorDisk};
use gx_geom::Refusal;

// Whether a gate of an extent is open, from a place on.
fn has_open_gate<D: SectorDisk>(disk: &mut D, extent: Extent, from: u8) -> Result<bool, Refusal>
    requires place { from ≤ PLACES + 1 }
    requires device { PAGES_AT ≤ (D.state disk.old).sectors }
    ensures counts { Counts 0 (D.state disk.old) (D.state disk.new) result }
    ensures below { IfOk result (λ is. is ≡ true → from < PLACES) }
    ensures gates { (D.state disk.old).honest ≡ true
        → IfOk result (λ is. TellsOpenFrom from extent (D.state disk.old).seen is) }
    ensures looks { (D.state disk.old).honest ≡ true → Looks (D.state disk.old) (D.state disk.new) }
    ensures refusal { IfErr result (λ refusal. refusal ≡ Refusal.Device) }
{
    let mut i = from;
    while i < PLACES {
        if is_open_gate(disk, extent, i)? {
            return Ok(true);
        }
        i += 1;
    }
    Ok(false)
}

// Writes an extent's gates closed from a place on, in one write.
fn close_from<D: SectorDisk>(disk: &mut D, extent: Extent, from: u8) -> Result<(), Refusal>
    requires place { from < PLACES }
    requires device { PAGES_AT ≤ (D.state disk.old).sectors }
    ensures counts { Counts 1 (D.state disk.old) (D.state disk.new) result }
    ensures call { (D.state disk.old).honest ≡ true
        → ClosesGatesFrom from extent (D.state disk.old) (D.state disk.new) result }
    ensures refusal { IfErr result (λ refusal. refusal ≡ Refusal.Device) }
{
    let gates = closed_gates();
    let size = SECTOR_SIZE * usize::from(PLACES - from);
    disk.write(extent.gates() + u64::from(from), &gates[..size])?;
    Ok(())
}

/// Closes the gates of an extent after the first one that is closed, which is that of place `bodies`: if one of the
/// places from `bodies` + 1 on has an open gate, it writes all of these gates closed, in one write, and syncs; if none
/// has, it writes nothing. It is called before a log goes on after `bodies` batches that were found on a device, 0 to
/// 128 of them: an image that no run of a log left may have such a gate, and one more batch would make the body after
/// it count. Refused with `Device` if a call fails, and only then.
///
/// On an honest device, with everything durable and this extent selected, each image at each moment has the same log
/// and the same pages, even if a call fails. At Ok a log that starts there is on the device.
pub fn close_later<D: SectorDisk>(disk: &mut D, extent: Extent, bodies: u8) -> Result<(), Refusal>
    requires bodies { bodies ≤ PLACES }
    requires device { PAGES_AT ≤ (D.state disk.old).sectors }
    ensures device { SameDevice (D.state disk.old) (D.state disk.new) }
    ensures faults { CountsFault (D.state disk.old) (D.state disk.new) result }
    ensures calls { ((D.state disk.old).calls ≤ (D.state disk.new).calls)
        × ((D.state disk.new).calls ≤ (D.state disk.old).calls + 2) }
    ensures refusal { IfErr result (λ refusal. refusal ≡ Refusal.Device) }
    ensures writes { (D.state disk.old).honest ≡ true
        → CallsForLater extent bodies (D.state disk.old) (D.state disk.new) result }
    ensures closes { ClosesLaterOfRun extent bodies (D.state disk.old) (D.state disk.new) result }
{
    let later = bodies + 1;
    if !has_open_gate(disk, extent, later)? {
        return Ok(());
    }
    close_from(disk, extent, later)?;
    settle(disk, ())
}

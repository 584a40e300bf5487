//! Laws of runs of calls. Each function is its contract alone.
ghost use Rattle.gx_disk.specs.Laws.{AReadLooks, LooksJoin};

use crate::device::SectorDisk;

/// A read changes nothing of a device, and reads in a row are as one: nothing reads otherwise, the same is pending, and
/// a crash since then may have left nothing that it could not have left before.
pub fn looks<D: SectorDisk>()
    ensures read { AReadLooks D.state }
    ensures joined { LooksJoin D.state }
{}

//! Laws of the redo of a log. Each function is its contract alone.
ghost use Rattle.gx_recovery.specs.Known.{Limits};
ghost use Rattle.gx_found_log.specs.GoingOn.{RedoneGoesOn};
ghost use Rattle.gx_found_log.specs.Redone.{FoundIsOnDevice};

use gx_disk::SectorDisk;
use gx_durable::Spelled;

/// The device has each page that a log gives which was found on it: so the redo isn't refused as damaged.
pub fn a_found_log_gives_pages_of_the_device<M: Spelled>()
    ensures { (l : Limits) → FoundIsOnDevice (M.known l) M.reading }
{}

/// A log that was read of a synced device, whose pages were laid, tested, and found good for it, goes on there once its
/// later gates are closed: the device has its bodies over pages that are all written, no later gate is open, and what
/// is kept of it is what its records say. So it is up, and runs with a pool that begins behind it.
pub fn a_redone_log_goes_on<M: Spelled, D: SectorDisk>()
    ensures { (l : Limits) (d e b f : D)
        → RedoneGoesOn (M.known l) M.reading (D.state d) (D.state e) (D.state b) (D.state f) }
{}

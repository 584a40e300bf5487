//! A device in a file.
//!
//! Nothing is claimed of the file's contents: that the system keeps them is assumed by the callers.
ghost use Rattle.std.specs.Prelude.{◌≡◌, ◌*◌, ◌^◌, ◌<◌};
ghost use Rattle.gx_disk.specs.Streams.{IsNoStream};

mod ahead;
mod calls;
mod opening;

use crate::device::DiskFault;
use crate::tally::Tally;
use ahead::Marks;
pub use ahead::SyncAhead;
use std::alloc::Global;
use std::fs::File;
use std::sync::Arc;

/// A file of whole sectors. While it is open for writing, no other `FileDisk` has the file open; while it is open only
/// for reading, no other has it open for writing. Its descriptor is never that of a standard stream, even if those are
/// closed: so no output of the program can reach the file, and no input is read from it.
#[derive(Drop)]
pub struct FileDisk {
    file: File,
    sectors: u64,
    writable: bool,
    /// Whether the file grew since the last sync that succeeded.
    grown: bool,
    /// What the device and its handle for early syncs share, if it has one.
    ahead: Option<Arc<Marks, Global>>,
    /// Why the last call that failed did so.
    fault: Option<DiskFault>,
    faults: Tally,
    calls: Tally,
    ghost addressable: { 512 * sectors < 2 ^ 64 },
    ghost no_stream: { IsNoStream file },
}

impl FileDisk {
    /// Why the last call that failed did so, if one did.
    pub fn fault(&self) -> Option<DiskFault>
        ensures { result ≡ self.now.fault }
    {
        self.fault
    }
}

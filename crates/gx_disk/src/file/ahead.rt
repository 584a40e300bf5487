//! Syncs of a device's file ahead of its own: made by any thread, while another one works on the device.
//!
//! An early sync may replace the device's own sync only if every write that has to be durable had returned before the
//! early sync began. So a write is counted once it has returned, and an early sync reads that count first: when it
//! succeeds, that many writes are durable.
//!
//! The handle for early syncs opens the file separately. The system reports a lost write once to each open file
//! description. So the device's own sync still gets its report, whatever an early sync returned.
ghost use Rattle.gx_disk.specs.Streams.{IsNoStream};

use super::opening::file_fault;
use crate::device::DiskFault;
use std::alloc::Global;
use std::fs::File;
use std::sync::atomic::{AtomicBool, AtomicU64, Ordering};
use std::sync::{Arc, OnceLock};

/// What a device and its handle for early syncs share.
#[derive(Drop)]
pub(crate) struct Marks {
    /// How many writes of the device have returned, plus one for all that was written before counting began.
    written: AtomicU64,
    /// That count at the last write of the log, which a sync follows.
    due: AtomicU64,
    /// How many of them are durable.
    settled: AtomicU64,
    /// Whether an early sync is being made.
    busy: AtomicBool,
    /// Why an early sync failed, if one did.
    fault: OnceLock<DiskFault>,
}

impl Marks {
    /// No write is durable yet, and the log was not written.
    pub(super) fn new() -> Marks {
        Marks {
            written: AtomicU64::new(1),
            due: AtomicU64::new(0),
            settled: AtomicU64::new(0),
            busy: AtomicBool::new(false),
            fault: OnceLock::new(),
        }
    }

    /// Counts a write of the device that has returned; `of_log` says whether it was one of the log.
    pub(super) fn wrote(&self, of_log: bool) {
        let written = self.written.fetch_add(1, Ordering::SeqCst).wrapping_add(1);
        if of_log {
            self.due.store(written, Ordering::SeqCst);
        }
    }

    /// Why an early sync failed, if one did.
    pub(super) fn fault(&self) -> Option<DiskFault> {
        self.fault.get().copied()
    }

    /// Whether all writes of the device are durable.
    pub(super) fn all_settled(&self) -> bool {
        self.settled.load(Ordering::SeqCst) == self.written.load(Ordering::SeqCst)
    }

    /// Notes that all writes of the device are durable, since its own sync succeeded.
    pub(super) fn settle_all(&self) {
        self.settle(self.written.load(Ordering::SeqCst));
    }

    /// Notes that at least so many writes are durable.
    fn settle(&self, writes: u64) {
        self.settled.fetch_max(writes, Ordering::SeqCst);
    }

    /// Whether a write of the log isn't durable yet, and no early sync has failed.
    fn is_due(&self) -> bool {
        self.settled.load(Ordering::SeqCst) < self.due.load(Ordering::SeqCst)
            && self.fault().is_none()
    }

    /// Syncs the file by this handle, which no other thread uses.
    fn sync(&self, file: &File) {
        let writes = self.written.load(Ordering::SeqCst);
        match file_fault(file.sync_data()) {
            Ok(()) => self.settle(writes),
            Err(fault) => {
                let _ = self.fault.try_set(fault);
            }
        }
    }
}

/// A handle by which threads sync the file of a `FileDisk` early, while the device may be in use.
#[derive(Drop)]
pub struct SyncAhead {
    file: File,
    marks: Arc<Marks, Global>,
    ghost no_stream: { IsNoStream file },
}

impl SyncAhead {
    /// A handle that syncs the device's file by this separate opening of it.
    pub(super) fn new(file: File, marks: Arc<Marks, Global>) -> SyncAhead
        requires { IsNoStream file }
    {
        SyncAhead { file, marks }
    }

    /// Syncs the file if the device has written to its log and that isn't durable yet, unless another thread is syncing
    /// it or an early sync has failed. The device's next sync then makes no system call, if nothing was written
    /// meanwhile. If this sync fails, each later sync of the device is refused with its fault.
    pub fn sync(&self) {
        let marks = &*self.marks;
        if !marks.is_due() || marks.busy.swap(true, Ordering::SeqCst) {
            return;
        }
        marks.sync(&self.file);
        marks.busy.store(false, Ordering::SeqCst);
    }
}

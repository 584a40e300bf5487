//! How a file is opened.
ghost use Rattle.std.specs.Prelude.{◌≡◌, ◌*◌, ◌^◌, ◌<◌, ◌≤◌, IsOk, IsErrAnd, IfOk, MatchResult, true, false};
ghost use Rattle.gx_disk.specs.Files.{IsFaultOf, IsOpened};
ghost use Rattle.gx_disk.specs.Streams.{IsNoStream};

use super::ahead::{Marks, SyncAhead};
use crate::FileDisk;
use crate::device::{DiskFault, SECTOR_SIZE};
use crate::tally::Tally;
use std::alloc::Global;
use std::fs::{File, Files, OpenOptions, TryLockError};
use std::io::{self, ErrorKind};
use std::os::fd::AsRawFd;
use std::os::unix::fs::MetadataExt;
use std::path::AsPath;
use std::sync::Arc;

/// How many bytes a sector has.
pub(super) const SECTOR: u64 = SECTOR_SIZE as u64;

/// The greatest descriptor that a standard stream has.
const LAST_STREAM: i32 = 2;

/// The number of the system's input or output error, for which `ErrorKind` has no name.
const EIO: i32 = 5;

// The fault that an error of the system is.
fn fault_of(error: &io::Error) -> DiskFault
    ensures { IsFaultOf error.now result }
{
    if error.raw_os_error() == Some(EIO) {
        DiskFault::InputOutput
    } else {
        DiskFault::File(error.kind())
    }
}

// What the system refused, as a fault.
pub(super) fn file_fault(outcome: io::Result<()>) -> Result<(), DiskFault>
    ensures { MatchResult outcome (λ _. IsOk result) (λ error. IsErrAnd result (IsFaultOf error)) }
{
    match outcome {
        Ok(()) => Ok(()),
        Err(error) => Err(fault_of(&error)),
    }
}

// Returns another handle of the file if the system gave it the descriptor of a standard stream, which was closed.
fn beside_streams(file: File) -> Result<File, DiskFault>
    ensures { IfOk result IsNoStream }
{
    if file.as_raw_fd() > LAST_STREAM {
        return Ok(file);
    }
    match file.try_clone() {
        Ok(other) if other.as_raw_fd() > LAST_STREAM => Ok(other),
        Ok(_) => Err(DiskFault::File(ErrorKind::Other)),
        Err(error) => Err(fault_of(&error)),
    }
}

// Locks the file until its last handle is closed. Openers that only read share the lock.
fn lock(file: File, writable: bool) -> Result<File, DiskFault>
    ensures { IfOk result (λ locked. locked ≡ file) }
{
    let locked = if writable {
        file.try_lock()
    } else {
        file.try_lock_shared()
    };
    match locked {
        Ok(()) => Ok(file),
        Err(TryLockError::WouldBlock) => Err(DiskFault::InUse),
        Err(TryLockError::Error(error)) => Err(fault_of(&error)),
    }
}

// How many bytes the file has. A directory, which can be opened for reading, is refused.
fn size_of_file(file: &File) -> Result<u64, DiskFault> {
    match file.metadata() {
        Ok(metadata) if metadata.is_dir() => Err(DiskFault::File(ErrorKind::IsADirectory)),
        Ok(metadata) => Ok(metadata.len()),
        Err(error) => Err(fault_of(&error)),
    }
}

// Whether two handles are of the same file.
fn is_same_file(one: &File, other: &File) -> Result<bool, DiskFault> {
    match (one.metadata(), other.metadata()) {
        (Ok(one), Ok(other)) => Ok(one.dev() == other.dev() && one.ino() == other.ino()),
        (Err(error), _) => Err(fault_of(&error)),
        (_, Err(error)) => Err(fault_of(&error)),
    }
}

fn open_file<R: Files<File = File>, P: AsPath>(
    rt: &R,
    path: P,
    writable: bool,
    create: bool,
) -> Result<File, DiskFault>
    ensures { IfOk result IsNoStream }
{
    match OpenOptions::new()
        .read(true)
        .write(writable)
        .create(create)
        .open(rt, path)
    {
        Ok(file) => lock(beside_streams(file)?, writable),
        Err(error) => Err(fault_of(&error)),
    }
}

impl FileDisk {
    /// Opens or creates a file, and extends a shorter one with zero bytes. The file's contents stay. Refused if the
    /// file can't be opened, if another opener has it, and if its length can't be set.
    pub fn create<R: Files<File = File>, P: AsPath>(
        rt: &R,
        path: P,
        sectors: u64,
    ) -> Result<FileDisk, DiskFault>
        ensures opened { IfOk result (IsOpened true) }
        ensures room { IfOk result (λ disk. sectors ≤ disk.sectors) }
    {
        let file = open_file(rt, path, true, true)?;
        let size = size_of_file(&file)?;
        let Some(wanted) = sectors.checked_mul(SECTOR) else {
            return Err(DiskFault::File(ErrorKind::FileTooLarge));
        };
        if size < wanted {
            file_fault(file.set_len(wanted))?;
        }
        Ok(FileDisk {
            file,
            sectors: size.max(wanted) / SECTOR,
            writable: true,
            grown: size < wanted,
            ahead: None,
            fault: None,
            faults: Tally::zero(),
            calls: Tally::zero(),
        })
    }

    /// Opens an existing file as a device of as many whole sectors as it has. Refused if the file can't be opened, and
    /// if another opener has it.
    pub fn open<R: Files<File = File>, P: AsPath>(rt: &R, path: P) -> Result<FileDisk, DiskFault>
        ensures { IfOk result (IsOpened true) }
    {
        FileDisk::open_there(rt, path, true)
    }

    /// Opens an existing file only for reading, as a device of as many whole sectors as it has. Each write and each
    /// sync of it is refused with `ReadOnly`, and is counted as any other. Refused if the file can't be opened, and if
    /// another opener has it for writing.
    pub fn open_to_read<R: Files<File = File>, P: AsPath>(
        rt: &R,
        path: P,
    ) -> Result<FileDisk, DiskFault>
        ensures { IfOk result (IsOpened false) }
    {
        FileDisk::open_there(rt, path, false)
    }

    /// Returns a handle for early syncs of the device's file, which is opened once more by its path, only for reading
    /// and without a lock. From now on the device makes no sync that the handle has already made, and none once a sync
    /// of the handle has failed.
    ///
    /// Refused if the file can't be opened, if another file lies at the path, and if memory is refused.
    pub fn sync_ahead<R: Files<File = File>, P: AsPath>(
        &mut self,
        rt: &R,
        alloc: Global,
        path: P,
    ) -> Result<SyncAhead, DiskFault>
        ensures access { self.new.writable ≡ self.old.writable }
        ensures sectors { self.new.sectors ≡ self.old.sectors }
        ensures counts { (self.new.faults ≡ self.old.faults) × (self.new.calls ≡ self.old.calls) }
        ensures fault { self.new.fault ≡ self.old.fault }
    {
        let file = match OpenOptions::new().read(true).open(rt, path) {
            Ok(file) => beside_streams(file)?,
            Err(error) => return Err(fault_of(&error)),
        };
        if !is_same_file(&file, &self.file)? {
            return Err(DiskFault::File(ErrorKind::NotFound));
        }
        let Ok(marks) = Arc::new(alloc, Marks::new()) else {
            return Err(DiskFault::Memory);
        };
        let Some(theirs) = Arc::try_clone(&marks).ok() else {
            return Err(DiskFault::Memory);
        };
        self.ahead = Some(marks);
        Ok(SyncAhead::new(file, theirs))
    }

    fn open_there<R: Files<File = File>, P: AsPath>(
        rt: &R,
        path: P,
        writable: bool,
    ) -> Result<FileDisk, DiskFault>
        ensures { IfOk result (IsOpened writable) }
    {
        let file = open_file(rt, path, writable, false)?;
        let size = size_of_file(&file)?;
        Ok(FileDisk {
            file,
            sectors: size / SECTOR,
            writable,
            grown: false,
            ahead: None,
            fault: None,
            faults: Tally::zero(),
            calls: Tally::zero(),
        })
    }
}

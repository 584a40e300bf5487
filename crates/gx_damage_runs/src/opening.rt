//! An opening's tests, on a file: the log read, its pages laid, and the tree tested.
use crate::fault::RunFault;
use gx_class::Box2Class;
use gx_disk::FileDisk;
use gx_opening::find;
use std::fs::{File, Files};

/// Reads the log of a file, lays its pages, and tests the tree. Returns how many pages are in use.
pub(crate) fn open<R: AllocGlobal + Files<File = File>>(
    rt: &R,
    path: &str,
) -> Result<u32, RunFault> {
    let Ok(disk) = FileDisk::open(rt, path) else {
        return Err(RunFault::Stream);
    };
    let (_disk, found) = find::<FileDisk, Box2Class>(rt.alloc(), disk);
    Ok(found?.log.analysis.used())
}

//! Devices in memory, and their bytes.
use crate::bytes::FIRST_OF_PAGES;
use crate::fault::RunFault;
use gx_class::Box2Class;
use gx_disk::MemDisk;
use gx_restart::format;
use std::alloc::Global;

/// A device of these bytes, which are whole sectors.
pub(crate) fn device(alloc: Global, bytes: Vec<u8>) -> Result<MemDisk, RunFault> {
    if bytes.len() % 512 != 0 {
        return Err(RunFault::Unexpected);
    }
    Ok(MemDisk::from_bytes(alloc, bytes))
}

/// A copy of bytes.
pub(crate) fn copied(alloc: Global, bytes: &[u8]) -> Result<Vec<u8>, RunFault> {
    let mut copied = Vec::new(alloc);
    copied.extend_from_slice(bytes)?;
    Ok(copied)
}

/// The bytes of a new index of boxes, of so many pages and entries a node.
pub(crate) fn formatted(alloc: Global, pages: u32, most: u16) -> Result<Vec<u8>, RunFault> {
    let sectors = (pages as usize)
        .saturating_mul(8)
        .saturating_add(FIRST_OF_PAGES);
    let mut disk = MemDisk::new(alloc, sectors)?;
    format::<MemDisk, Box2Class>(alloc, &mut disk, pages, most)?;
    copied(alloc, disk.bytes())
}

//! Devices in memory, and an index over one.
use gx_class::Box2Class;
use gx_disk::MemDisk;
use gx_format::{format, sectors_for};
use gx_restart::{Index, open};
use std::alloc::Global;

// How many pages the tests' devices have, and how many entries a node.
const PAGES: u32 = 16;

const MOST: u16 = 4;

/// A new device.
pub(crate) fn formatted(alloc: Global) -> Option<MemDisk> {
    let sectors = usize::try_from(sectors_for(PAGES)).ok()?;
    let mut disk = MemDisk::new(alloc, sectors).ok()?;
    format::<MemDisk, Box2Class>(alloc, &mut disk, PAGES, MOST).ok()?;
    Some(disk)
}

/// The index that a device holds.
pub(crate) fn index_over(alloc: Global, disk: MemDisk) -> Option<Index<MemDisk, Box2Class>> {
    Some(Index::new(open::<MemDisk, Box2Class>(alloc, disk, 16).ok()?))
}

/// An index over a new device.
pub(crate) fn fresh(alloc: Global) -> Option<Index<MemDisk, Box2Class>> {
    index_over(alloc, formatted(alloc)?)
}

//! What two commits log: of a leaf its image first, and then the change alone.
use crate::asserts::{got, holds};
use crate::devices::fresh;
use gx_class::Box2Class;
use gx_disk::{MemDisk, SectorDisk};
use gx_geom::Box2;
use gx_machine::{Call, Entry, Reply};
use gx_restart::Index;
use std::process::Abort;

// The first sectors of the two bodies after the first of extent B, which an opening's checkpoint selects.
const BODIES: [u64; 2] = [8520, 8584];

// A new root's bound is wider and its leaf has its first pair: two images, and the commit. Then the second pair alone.
const LENGTHS: [u32; 2] = [0x204a, 0x36];

// Whether a transaction inserts a row with a box at the origin, and commits under this number.
fn inserts(
    index: &mut Index<MemDisk, Box2Class>,
    row: u64,
    corner: i32,
    number: u64,
) -> Option<bool> {
    let key = Box2::new(0, 0, corner, corner).ok()?;
    let begun = matches!(index.call(1, Call::Begin), Reply::Ok);
    let entry = Entry { row, key };
    let inserted = matches!(index.call(1, Call::Insert(entry)), Reply::Inserted);
    let committed = index.call(1, Call::Commit);
    Some(begun && inserted && matches!(committed, Reply::Committed(n) if n == number))
}

// How many bytes of records a body has that begins at this sector.
fn length(disk: &mut MemDisk, sector: u64) -> Option<u32> {
    if disk.sectors() <= sector {
        return None;
    }
    let mut bytes = [0u8; 512];
    disk.read(sector, &mut bytes).ok()?;
    let [one, two, three, four, ..] = bytes;
    Some(u32::from_be_bytes([one, two, three, four]))
}

// Two commits of a row each, in one leaf.
fn inserts_both(index: &mut Index<MemDisk, Box2Class>) -> Option<bool> {
    Some(inserts(index, 7, 10, 1)? && inserts(index, 8, 5, 2)?)
}

// The lengths of their batches.
fn lengths(disk: &mut MemDisk) -> Option<[u32; 2]> {
    let [first, second] = BODIES;
    Some([length(disk, first)?, length(disk, second)?])
}

#[test]
fn a_leaf_is_imaged_once(rt: HostRuntime) {
    let mut index = got(&rt, fresh(rt.alloc()));
    holds(&rt, inserts_both(&mut index) == Some(true));
    let mut disk = index.into_engine().into_disk();
    holds(&rt, lengths(&mut disk) == Some(LENGTHS));
}

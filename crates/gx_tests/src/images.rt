//! Images of a fresh device with a byte changed, read by the plain reader.

use crate::asserts::{got, holds};
use crate::formats::formatted;
use gx_disk::SectorDisk;
use gx_plain_reader::{Damage, read};
use std::alloc::{AllocError, Global};
use std::process::Abort;

/// How many sectors 16 pages take.
const SECTORS: usize = 16_776;

/// Reads a device from its first sector on, and returns whether that was done.
fn read_whole<D: SectorDisk>(disk: &mut D, bytes: &mut [u8]) -> bool {
    let size = bytes.len() as u64;
    if size == 0 || size % 512 != 0 || size / 512 > disk.sectors() {
        return false;
    }
    disk.read(0, bytes).is_ok()
}

/// So many zeros.
fn zeros(alloc: Global, size: usize) -> Result<Vec<u8>, AllocError> {
    vec![in alloc; 0; size]
}

/// A device's bytes.
pub(crate) fn image<R: Abort + AllocGlobal, D: SectorDisk>(rt: &R, disk: &mut D) -> Vec<u8> {
    let size = (disk.sectors() as usize).saturating_mul(512);
    let mut bytes = got(rt, zeros(rt.alloc(), size));
    holds(rt, read_whole(disk, &mut bytes));
    bytes
}

/// What is wrong with bytes, if anything is.
fn fault(alloc: Global, bytes: &[u8]) -> Option<Damage> {
    read(alloc, bytes, 1).err()
}

/// What is wrong with bytes of which one is changed, of this number in this sector; it is then changed back.
fn damage(
    alloc: Global,
    bytes: &mut [u8],
    sector: usize,
    number: usize,
    value: u8,
) -> Option<Damage> {
    let at = sector.saturating_mul(512).saturating_add(number);
    let old = set(bytes, at, value);
    let found = fault(alloc, bytes);
    set(bytes, at, old);
    found
}

/// Sets a byte, and returns what it was.
fn set(bytes: &mut [u8], at: usize, value: u8) -> u8 {
    match bytes.get_mut(at) {
        Some(place) => std::mem::replace(place, value),
        None => value,
    }
}

/// A sector, a byte's number in it, its value, and what is then wrong with a fresh index of 16 pages.
static CHANGED: [(usize, usize, u8, Option<Damage>); 25] = [
    (0, 7, b'3', Some(Damage::Magic)),
    (0, 7, b'1', Some(Damage::OldMagic)),
    (1, 3, 7, Some(Damage::Parameters)),
    (1, 3, 17, Some(Damage::Short)),
    (1, 5, 3, Some(Damage::Parameters)),
    (1, 7, 2, Some(Damage::Parameters)),
    (2, 0, 0x5a, Some(Damage::Selector)),
    (8, 0, 0, Some(Damage::Selector)),
    (9, 0, 0xa7, Some(Damage::Body)),
    (10, 0, 0xa7, None),
    (136, 3, 30, Some(Damage::Record)),
    (136, 3, 28, Some(Damage::Record)),
    (136, 4, 6, Some(Damage::Record)),
    (136, 4, 7, Some(Damage::Record)),
    (136, 20, 1, Some(Damage::Counter)),
    (136, 24, 17, Some(Damage::PageNumber)),
    (136, 24, 1, Some(Damage::Entry)),
    (16_648, 1, 2, Some(Damage::Level)),
    (16_648, 15, 1, Some(Damage::Node)),
    (16_656, 1, 1, Some(Damage::Level)),
    (16_656, 19, 2, Some(Damage::Chain)),
    (16_656, 23, 3, Some(Damage::OwnNumber)),
    (16_656, 6, 1, Some(Damage::Page)),
    (16_657, 0, 1, Some(Damage::Page)),
    (16_664, 0, 1, None),
];

#[test]
fn a_byte_changed_of_a_fresh_index(rt: HostRuntime) {
    let mut disk = formatted(&rt, SECTORS, 16, 4);
    let mut bytes = image(&rt, &mut disk);
    for (sector, number, value, wrong) in &CHANGED {
        let found = damage(rt.alloc(), &mut bytes, *sector, *number, *value);
        holds(&rt, found == *wrong);
    }
    bytes.truncate(4000 * 512);
    holds(&rt, fault(rt.alloc(), &bytes) == Some(Damage::Short));
}

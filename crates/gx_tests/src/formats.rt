//! Tests a format by the bytes that it writes, and with a stop at each of its calls.
use crate::asserts::{got, holds, same};
use crate::images::image;
use gx_class::Box2Class;
use gx_disk::{Fuse, FuseDisk, MemDisk, SectorDisk, Torn};
use gx_format::{format, sectors_for};
use gx_geom::Refusal;
use gx_plain_reader::{Damage, Reading, read};
use std::alloc::Global;
use std::process::Abort;

/// How many sectors nine pages take.
const SECTORS: usize = 16_720;

/// A sector's bytes.
fn sector<D: SectorDisk>(disk: &mut D, s: u64) -> [u8; 512] {
    let mut bytes = [0; 512];
    if s < disk.sectors() && disk.read(s, &mut bytes).is_ok() {
        return bytes;
    }
    [0; 512]
}

/// The pages of a fresh index that was read; 0 if no magic was found.
fn fresh_pages(read: &Result<Reading, Damage>) -> Option<u32> {
    match read {
        Ok(found) if found.number == 0 && found.used == 2 && found.set.is_empty() => {
            Some(found.parameters.pages)
        }
        Err(Damage::Magic) => Some(0),
        _ => None,
    }
}

/// For how many pages the plain reader finds a fresh index; 0 if it finds none at all, and none if it finds something
/// else.
fn pages_told<R: Abort + AllocGlobal, D: SectorDisk>(rt: &R, disk: &mut D) -> Option<u32> {
    let bytes = image(rt, disk);
    fresh_pages(&read(rt.alloc(), &bytes, 1))
}

/// Whether two devices have the same bytes beyond their first sectors.
fn agree<D: SectorDisk>(one: &mut D, other: &mut D) -> bool {
    for s in 1..SECTORS as u64 {
        if sector(one, s) != sector(other, s) {
            return false;
        }
    }
    true
}

/// Lays a new index of boxes down on a device.
fn lay<D: SectorDisk>(alloc: Global, disk: &mut D, pages: u32, most: u16) -> Result<(), Refusal> {
    format::<_, Box2Class>(alloc, disk, pages, most)
}

/// A device of so many sectors with a fresh index for so many pages and entries.
pub(crate) fn formatted<R: Abort + AllocGlobal>(
    rt: &R,
    sectors: usize,
    pages: u32,
    most: u16,
) -> MemDisk {
    let mut disk = got(rt, MemDisk::new(rt.alloc(), sectors));
    got(rt, lay(rt.alloc(), &mut disk, pages, most));
    disk
}

/// What a format for nine pages returns over an index of eight that stops before a call, or after it if it is done, and
/// what a crash leaves then.
fn stopped<R: Abort + AllocGlobal>(
    rt: &R,
    (k, done): (u64, bool),
    choices: &[Torn],
) -> (bool, MemDisk) {
    let mut disk = FuseDisk::new(formatted(rt, SECTORS, 8, 5), k, Fuse::ForEver, done);
    let is_made = lay(rt.alloc(), &mut disk, 9, 4).is_ok();
    let mut left = disk.into_inner();
    left.crash(choices);
    (is_made, left)
}

/// Which index a stop at call `k` may leave besides none: the old one, none, the new one.
fn may_leave(k: u64, pages: u32) -> bool {
    match k {
        0 | 1 => pages == 0 || pages == 8,
        2..=11 => pages == 0,
        12 | 13 => pages == 0 || pages == 9,
        _ => pages == 9,
    }
}

/// The first eight bytes of a sector, and its last eight.
fn ends<D: SectorDisk>(disk: &mut D, s: u64) -> ([u8; 8], [u8; 8]) {
    let [a, b, c, d, e, f, g, h, .., i, j, k, l, m, n, o, p] = sector(disk, s);
    ([a, b, c, d, e, f, g, h], [i, j, k, l, m, n, o, p])
}

/// A sector of a fresh index for nine pages of four boxes, and the bytes at its ends.
static ENDS: [(u64, [u8; 8], [u8; 8]); 7] = [
    (0, *b"GISTRT02", [0; 8]),
    (1, [0, 0, 0, 9, 0, 4, 0, 1], [0; 8]),
    (8, [0xa7, 0, 0, 0, 0, 0, 0, 0], [0; 8]),
    (136, [0, 0, 0, 0x1d, 5, 0, 0, 0], [0; 8]),
    (16_648, [0, 1, 0, 1, 0x0f, 0xec, 0, 0], [0; 8]),
    (16_655, [0; 8], [0, 0, 0, 0, 0, 0, 0, 2]),
    (16_656, [0, 0, 0, 0, 0x10, 0, 0, 0], [0; 8]),
];

#[test]
fn a_fresh_index_byte_for_byte(rt: HostRuntime) {
    let mut disk = formatted(&rt, SECTORS, 9, 4);
    for (s, first, last) in &ENDS {
        same(&rt, &(*s, ends(&mut disk, *s)), &(*s, (*first, *last)));
    }
    same(&rt, &disk.unsynced(), &0);
}

/// How many pages and entries are asked for, and the answer.
static ASKED: [(u32, u16, Result<(), Refusal>); 6] = [
    (7, 4, Err(Refusal::BadParameter)),
    (65_537, 4, Err(Refusal::BadParameter)),
    (8, 3, Err(Refusal::BadParameter)),
    (8, 101, Err(Refusal::BadParameter)),
    (10, 4, Err(Refusal::TooSmall)),
    (9, 100, Ok(())),
];

#[test]
fn what_a_format_refuses(rt: HostRuntime) {
    same(&rt, &sectors_for(9), &16_720);
    let mut disk = got(&rt, MemDisk::new(rt.alloc(), SECTORS));
    for (pages, most, answer) in &ASKED {
        same(&rt, &lay(rt.alloc(), &mut disk, *pages, *most), answer);
    }
}

/// The index of eight pages, and the new one.
#[derive(Drop)]
struct Both {
    old: MemDisk,
    new: MemDisk,
}

impl Both {
    /// Whether a device has the bytes of the one that has so many pages, if there is one.
    fn agree(&mut self, left: &mut MemDisk, pages: u32) -> bool {
        match pages {
            8 => agree(left, &mut self.old),
            9 => agree(left, &mut self.new),
            _ => true,
        }
    }

    /// Whether a device that a stop leaves has what it may have.
    fn may_leave<R: Abort + AllocGlobal>(&mut self, rt: &R, k: u64, left: &mut MemDisk) -> bool {
        match pages_told(rt, left) {
            Some(pages) => may_leave(k, pages) && self.agree(left, pages),
            None => false,
        }
    }
}

/// What a crash leaves of the sectors that weren't synced.
static CHOICES: [[Torn; 2]; 4] = [
    [Torn::Old, Torn::Old],
    [Torn::New, Torn::New],
    [Torn::Old, Torn::New],
    [Torn::Bytes([0xa7; 512]), Torn::Bytes([0xa7; 512])],
];

fn stops_at<R: Abort + AllocGlobal>(rt: &R, both: &mut Both, k: u64, done: bool) {
    for choice in &CHOICES {
        let (is_made, mut left) = stopped(rt, (k, done), choice);
        same(rt, &(k, is_made), &(k, k == 14));
        holds(rt, both.may_leave(rt, k, &mut left));
    }
}

#[test]
fn a_stop_at_each_call_of_a_format(rt: HostRuntime) {
    let old = formatted(&rt, SECTORS, 8, 5);
    let new = formatted(&rt, SECTORS, 9, 4);
    let mut both = Both { old, new };
    for k in 0..15 {
        stops_at(&rt, &mut both, k, false);
        stops_at(&rt, &mut both, k, true);
    }
}

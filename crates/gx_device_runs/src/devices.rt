//! The device in memory behind a fuse, and crashes of it.
use crate::fault::RunFault;
use crate::words::{Line, Part, byte, say_parts, to_usize};
use gx_disk::{Fuse, FuseDisk, MemDisk, SectorDisk, Torn};
use std::alloc::{AllocError, Global};
use std::mem;

/// A device in memory behind a fuse.
pub(crate) type Device = FuseDisk<MemDisk>;

/// The device behind a fuse that never blows.
fn whole(inner: MemDisk) -> Device {
    FuseDisk::new(inner, u64::MAX, Fuse::Once, false)
}

/// A device of zeros.
pub(crate) fn blank(alloc: Global, sectors: usize) -> Result<Device, AllocError> {
    Ok(whole(MemDisk::new(alloc, sectors)?))
}

/// Takes the device from behind its fuse, and leaves one without sectors.
fn take(disk: &mut Device, alloc: Global) -> MemDisk {
    let none = whole(MemDisk::from_bytes(alloc, Vec::new(alloc)));
    mem::replace(disk, none).into_inner()
}

/// Puts the device behind another fuse.
pub(crate) fn set_fuse(disk: &mut Device, alloc: Global, calls: u64, fuse: Fuse, done: bool) {
    let inner = take(disk, alloc);
    *disk = FuseDisk::new(inner, calls, fuse, done);
}

/// A crash that leaves this of what wasn't synced. The fuse is gone after it.
pub(crate) fn crash(disk: &mut Device, alloc: Global, left: &[Torn]) {
    let mut inner = take(disk, alloc);
    inner.crash(left);
    *disk = whole(inner);
}

/// Another device.
fn renew(disk: &mut Device, alloc: Global, line: &Line<'_>) -> Result<(), AllocError> {
    *disk = blank(alloc, to_usize(line.numbers[1]))?;
    Ok(())
}

/// A fuse by its words: after how many calls it blows, how often, and whether a failing write is done.
fn fuse_by(disk: &mut Device, alloc: Global, line: &Line<'_>) {
    let fuse = if line.words[2] == "once" {
        Fuse::Once
    } else {
        Fuse::ForEver
    };
    let done = !line.words[3].is_empty();
    set_fuse(disk, alloc, line.numbers[1], fuse, done);
}

/// What a crash leaves of a sector: its old bytes, its new bytes, or a byte all over.
fn choice(word: &str) -> Torn {
    match word {
        "old" => Torn::Old,
        "new" => Torn::New,
        _ => Torn::Bytes([byte(word); 512]),
    }
}

/// A crash by a line's words: none, one or two.
fn crash_by(disk: &mut Device, alloc: Global, line: &Line<'_>) {
    let [_, one, two, ..] = line.words;
    if one.is_empty() {
        crash(disk, alloc, &[]);
    } else if two.is_empty() {
        crash(disk, alloc, &[choice(one)]);
    } else {
        crash(disk, alloc, &[choice(one), choice(two)]);
    }
}

/// Reserves memory for so many calls on so many sectors.
fn reserve(disk: &mut Device, alloc: Global, line: &Line<'_>) -> Result<(), AllocError> {
    let [_, calls, sectors, ..] = line.numbers;
    let mut inner = take(disk, alloc);
    let reserved = inner.reserve(to_usize(calls), to_usize(sectors));
    *disk = whole(inner);
    reserved
}

/// Cuts the device off after so many sectors.
fn cut(disk: &mut Device, alloc: Global, line: &Line<'_>) {
    let sectors = to_usize(line.numbers[1]);
    let mut inner = take(disk, alloc);
    if sectors as u64 <= inner.sectors() {
        inner.cut(sectors);
    }
    *disk = whole(inner);
}

/// A sector's first byte, 0 if it can't be read.
pub(crate) fn first_of<D: SectorDisk>(disk: &mut D, sector: u64) -> u8 {
    if sector >= disk.sectors() {
        return 0;
    }
    let mut bytes = [0; 512];
    match disk.read(sector, &mut bytes) {
        Ok(()) => bytes[0],
        Err(_) => 0,
    }
}

/// The first bytes of the first four sectors.
pub(crate) fn firsts<D: SectorDisk>(disk: &mut D) -> [u8; 4] {
    let zero = first_of(disk, 0);
    let one = first_of(disk, 1);
    let two = first_of(disk, 2);
    [zero, one, two, first_of(disk, 3)]
}

/// Prints how many sectors aren't synced, and the first bytes of the first four. The fuse is gone after it.
fn say_firsts<R: Print>(rt: &R, disk: &mut Device, alloc: Global) -> Result<(), RunFault> {
    let mut inner = take(disk, alloc);
    let unsynced = inner.unsynced();
    let [zero, one, two, three] = firsts(&mut inner);
    *disk = whole(inner);
    say_parts(
        rt,
        &[
            Part::Number(unsynced as u64),
            Part::Text(" unsynced,"),
            Part::Byte(zero),
            Part::Byte(one),
            Part::Byte(two),
            Part::Byte(three),
        ],
    )
}

/// Does what a line asks of the device.
fn make(disk: &mut Device, alloc: Global, line: &Line<'_>) -> Result<(), AllocError> {
    match line.asked() {
        "new" => renew(disk, alloc, line)?,
        "reserve" => reserve(disk, alloc, line)?,
        "fuse" => fuse_by(disk, alloc, line),
        "crash" => crash_by(disk, alloc, line),
        _ => cut(disk, alloc, line),
    }
    Ok(())
}

/// A line about the device.
pub(crate) fn call<R: Print>(
    rt: &R,
    disk: &mut Device,
    alloc: Global,
    line: &Line<'_>,
) -> Result<(), RunFault> {
    if line.asked() == "firsts" {
        return say_firsts(rt, disk, alloc);
    }
    make(disk, alloc, line)?;
    say_parts(rt, &[Part::Number(disk.sectors()), Part::Text(" sectors")])
}

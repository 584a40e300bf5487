//! Calls of the device: sectors written, synced, and shown.
use crate::fault::RunFault;
use crate::words::{Line, Part, byte, say, say_bytes, say_number, say_parts};
use gx_disk::{DiskFault, SectorDisk};
use gx_glog::PLACES;
use std::io::ErrorKind;

/// What a call returns, as a word.
pub(crate) fn word_of(answer: Result<(), DiskFault>) -> &'static str {
    match answer {
        Ok(()) => "done",
        Err(DiskFault::Memory) => "memory",
        Err(DiskFault::Fuse) => "fuse",
        Err(DiskFault::File(ErrorKind::NotFound)) => "not found",
        Err(DiskFault::File(_) | DiskFault::InputOutput) => "file",
        Err(DiskFault::InUse) => "in use",
        Err(DiskFault::ReadOnly) => "read only",
    }
}

/// Writes a sector, if the device has it.
pub(crate) fn write<D: SectorDisk>(
    disk: &mut D,
    sector: u64,
    bytes: &[u8; 512],
) -> Result<(), DiskFault> {
    if sector >= disk.sectors() {
        return Err(DiskFault::File(ErrorKind::InvalidInput));
    }
    disk.write(sector, bytes)
}

/// The bytes of a sector, if the device has it.
pub(crate) fn read<D: SectorDisk>(disk: &mut D, sector: u64) -> Result<[u8; 512], DiskFault> {
    if sector >= disk.sectors() {
        return Err(DiskFault::File(ErrorKind::InvalidInput));
    }
    let mut bytes = [0; 512];
    disk.read(sector, &mut bytes)?;
    Ok(bytes)
}

/// Writes so many sectors, all of one byte.
fn fill<D: SectorDisk>(disk: &mut D, first: u64, byte: u8, count: u64) -> Result<(), DiskFault> {
    let bytes = [byte; 512];
    for sector in first..first.saturating_add(count) {
        write(disk, sector, &bytes)?;
    }
    Ok(())
}

/// The byte that a line asks for, in how many sectors, one if it doesn't say.
fn fill_by<D: SectorDisk>(disk: &mut D, line: &Line<'_>) -> Result<(), DiskFault> {
    let [_, first, _, count, ..] = line.numbers;
    fill(disk, first, byte(line.words[2]), count.max(1))
}

/// Writes bytes over the first ones, up to an empty word.
fn overlay(bytes: &mut [u8], words: &[&str]) {
    for (place, word) in bytes.iter_mut().zip(words.iter()) {
        if word.is_empty() {
            return;
        }
        *place = byte(word);
    }
}

/// Writes a sector again with other bytes at its front.
fn front_by<D: SectorDisk>(disk: &mut D, line: &Line<'_>) -> Result<(), DiskFault> {
    let sector = line.numbers[1];
    let mut bytes = read(disk, sector)?;
    overlay(&mut bytes, &line.words[2..]);
    write(disk, sector, &bytes)
}

/// A gate that is written open.
fn open_gate() -> [u8; 512] {
    let mut gate = [0; 512];
    gate[0] = 0xA7;
    gate
}

/// Prints how many of an extent's gates from a sector on are written open, and how many after these closed.
fn say_gates<R: Print, D: SectorDisk>(rt: &R, disk: &mut D, first: u64) -> Result<(), RunFault> {
    let mut open = 0_u64;
    let mut closed = 0_u64;
    for k in 0..u64::from(PLACES) {
        let gate = read(disk, first.saturating_add(k))?;
        if gate == [0; 512] {
            closed = closed.wrapping_add(1);
        } else if closed == 0 && gate == open_gate() {
            open = open.wrapping_add(1);
        }
    }
    say_parts(
        rt,
        &[
            Part::Number(open),
            Part::Text(" open,"),
            Part::Number(closed),
            Part::Text(" closed"),
        ],
    )
}

/// How many of so many sectors from a first one on are all zeros.
fn zeros<D: SectorDisk>(disk: &mut D, first: u64, count: u64) -> Result<u64, DiskFault> {
    let mut zeros = 0_u64;
    for k in 0..count {
        if read(disk, first.saturating_add(k))? == [0; 512] {
            zeros = zeros.wrapping_add(1);
        }
    }
    Ok(zeros)
}

/// A line that asks for a call of the device.
pub(crate) fn call<R: Print, D: SectorDisk>(
    rt: &R,
    disk: &mut D,
    line: &Line<'_>,
) -> Result<(), RunFault> {
    let answer = match line.asked() {
        "fill" => fill_by(disk, line),
        "front" => front_by(disk, line),
        _ => disk.sync(),
    };
    say(rt, word_of(answer))
}

/// A line that looks at sectors.
pub(crate) fn look<R: Print, D: SectorDisk>(
    rt: &R,
    disk: &mut D,
    line: &Line<'_>,
) -> Result<(), RunFault> {
    let [_, first, count, ..] = line.numbers;
    match line.asked() {
        "sector" => say_bytes(rt, &read(disk, first)?),
        "gates" => say_gates(rt, disk, first),
        _ => say_number(rt, zeros(disk, first, count)?),
    }
}

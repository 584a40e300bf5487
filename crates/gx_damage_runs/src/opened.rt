//! Opens an image, and compares the outcome with what the plain reader finds there.
use crate::device::device;
use crate::fault::RunFault;
use gx_class::{Probing, ReadKeys};
use gx_disk::MemDisk;
use gx_engine::Engine;
use gx_opening::examine;
use gx_plain_reader::{Damage, Finding, Part, Reading, findings, read};
use gx_restart::{NotOpened, Report, open, verify};
use std::alloc::Global;

/// How many frames an opening has here.
pub(crate) const FRAMES: usize = 16;

/// The outcome of an image, if an opening and the plain reader agree on it.
#[derive(Clone, Copy, PartialEq, Eq)]
pub(crate) enum Found {
    Sound,
    /// It is refused with this number, since this part is damaged.
    Refused(u8, Part),
}

/// The number of the refusal of an image of which this is found first.
fn refusal_of(finding: &Finding) -> u8 {
    match finding.damage() {
        Damage::Magic => 14,
        Damage::OldMagic => 21,
        Damage::Short => 17,
        Damage::Parameters => 18,
        _ => 13,
    }
}

/// Whether one of these findings is what a sentence says.
fn is_told(alloc: Global, found: &[Finding], sentence: &str) -> Result<bool, RunFault> {
    for finding in found {
        if finding.is_said(alloc, sentence)? {
            return Ok(true);
        }
    }
    Ok(false)
}

/// Whether a device whose opening was refused as damaged is said to have damage that it has.
fn is_said<K: ReadKeys>(alloc: Global, disk: MemDisk, found: &[Finding]) -> Result<bool, RunFault> {
    let (_disk, damage) = examine::<MemDisk, K>(alloc, disk);
    match damage {
        Ok(Some(damage)) => is_told(alloc, found, format!(in alloc; "{damage}")?.as_str()),
        Ok(None) | Err(_) => Ok(false),
    }
}

/// What was read before and after an opening has the same number, the same set and the same pages in use.
fn is_same(before: &Reading, after: &Reading) -> bool {
    before.number == after.number
        && before.set.as_slice() == after.set.as_slice()
        && before.counter == after.counter
        && before.used == after.used
        && before.next <= after.next
}

/// Whether an engine was opened well, over an image that is so: it has its number, and leaves a device with its set.
fn is_opened<K: ReadKeys>(
    alloc: Global,
    engine: Engine<MemDisk, K>,
    before: &Reading,
) -> Result<bool, RunFault> {
    let number = engine.commits();
    let disk = engine.into_disk();
    let after = read(alloc, disk.bytes(), K::CLASS)?;
    Ok(number == before.number && is_same(before, &after))
}

/// Whether a refused opening is right, with what it says of the device.
fn is_refused<K: ReadKeys>(
    alloc: Global,
    refused: NotOpened<MemDisk>,
    found: &[Finding],
    wanted: u8,
) -> Result<bool, RunFault> {
    let NotOpened { why, disk } = refused;
    if why.number() != wanted {
        return Ok(false);
    }
    if wanted == 13 {
        return is_said::<K>(alloc, disk, found);
    }
    Ok(true)
}

/// Verifies a device: what it holds, or the number of the refusal.
fn verified<K: ReadKeys + Probing>(alloc: Global, disk: &mut MemDisk) -> Result<Report, u8> {
    match verify::<MemDisk, K>(alloc, disk, FRAMES) {
        Ok(report) => Ok(report),
        Err(why) => Err(why.number()),
    }
}

/// What an image holds of which this is read.
fn holding(read: &Reading) -> Report {
    Report {
        commits: read.number,
        entries: read.set.len() as u64,
        used: read.used,
    }
}

/// Verifies and opens a sound image.
fn open_sound<K: ReadKeys + Probing>(alloc: Global, bytes: Vec<u8>) -> Result<bool, RunFault> {
    let before = read(alloc, &bytes, K::CLASS)?;
    let mut disk = device(alloc, bytes)?;
    if verified::<K>(alloc, &mut disk) != Ok(holding(&before)) {
        return Ok(false);
    }
    match open::<MemDisk, K>(alloc, disk, FRAMES) {
        Ok(engine) => is_opened(alloc, engine, &before),
        Err(_) => Ok(false),
    }
}

/// Verifies and opens an image of which this is found.
fn open_damaged<K: ReadKeys + Probing>(
    alloc: Global,
    bytes: Vec<u8>,
    found: &[Finding],
    wanted: u8,
) -> Result<bool, RunFault> {
    let mut disk = device(alloc, bytes)?;
    if verified::<K>(alloc, &mut disk) != Err(wanted) {
        return Ok(false);
    }
    match open::<MemDisk, K>(alloc, disk, FRAMES) {
        Ok(_engine) => Ok(false),
        Err(refused) => is_refused::<K>(alloc, refused, found, wanted),
    }
}

/// Opens an image, verifies it, and returns the outcome; nothing if the plain reader finds another thing. It opens
/// exactly if that finds nothing wrong, and then has the same number and leaves a sound image of the same set. Else it
/// is refused with the number of the damage, and what is said of it is found there. It verifies exactly if it opens,
/// with what is read of it.
pub(crate) fn judge<K: ReadKeys + Probing>(
    alloc: Global,
    bytes: Vec<u8>,
) -> Result<Option<Found>, RunFault> {
    let found = findings(alloc, &bytes, K::CLASS)?;
    let Some(first) = found.first() else {
        return Ok(open_sound::<K>(alloc, bytes)?.then_some(Found::Sound));
    };
    let wanted = refusal_of(first);
    let told = open_damaged::<K>(alloc, bytes, &found, wanted)?;
    Ok(told.then_some(Found::Refused(wanted, first.part())))
}

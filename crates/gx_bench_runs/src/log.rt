//! Batches of a log written to a file, 128 at a time, with one record each (`commit`), as many notes as fit (`notes`),
//! or as many writes to leaves of 100 entries (`leaves`). The sum is how many records were written.
ghost use Rattle.gx_record.specs.Format.{IsInRange};
ghost use Rattle.gx_record.specs.Seen.{rec_of};

use crate::leaves::leaf;
use gx_disk::{FileDisk, PAGES_AT, SectorDisk};
use gx_glog::{Appended, Extent, Glog, PLACES, Stage};
use gx_page::Page;
use gx_record::{Mark, Record};
use std::alloc::Global;
use std::fs::{File, Files};

/// The file, which is made where the program runs.
pub(crate) const FILE: &str = "log.device";

/// How many sectors it has: those in front of the pages.
const SECTORS: u64 = PAGES_AT;

/// What a batch has.
#[derive(Clone, Copy)]
pub(crate) enum Kind {
    Commit,
    Notes,
    Leaves,
}

impl Kind {
    /// The one of this name.
    pub(crate) fn named(word: &str) -> Option<Kind> {
        match word {
            "commit" => Some(Kind::Commit),
            "notes" => Some(Kind::Notes),
            "leaves" => Some(Kind::Leaves),
            _ => None,
        }
    }
}

/// Puts a record into the log. False if there is no room.
fn append(log: &mut Glog, logged: &Record<'_>) -> bool
    requires { IsInRange (rec_of logged.now) }
{
    if log.used() >= PLACES {
        return false;
    }
    log.append(logged) != Appended::NoRoom
}

/// Puts a commit into the log.
fn append_commit(log: &mut Glog) -> bool {
    append(log, &Record::Commit { tx: 7, n: 7 })
}

/// Puts a note into the log.
fn append_note(log: &mut Glog) -> bool {
    let key = [1; 16];
    let note = Record::Note {
        tx: 7,
        row: 7,
        key: &key,
        before: Mark::Live,
        leaf: 2,
    };
    append(log, &note)
}

/// Puts a write to a leaf into the log.
fn append_write(log: &mut Glog, leaf: &Page) -> bool {
    let key = [1; 16];
    let write = Record::Write {
        tx: 7,
        row: 7,
        key: &key,
        before: Mark::Live,
        after: Mark::Marked,
        leaf: leaf.number(),
        image: leaf.image(),
    };
    append(log, &write)
}

/// Puts a record of a kind into the log.
fn append_one(log: &mut Glog, kind: Kind, leaf: &Page) -> bool {
    match kind {
        Kind::Commit => append_commit(log),
        Kind::Notes => append_note(log),
        Kind::Leaves => append_write(log, leaf),
    }
}

/// Puts a batch's records into the log, and returns how many there are.
fn fill(log: &mut Glog, kind: Kind, leaf: &Page) -> u64 {
    let most = match kind {
        Kind::Commit => 1,
        Kind::Notes | Kind::Leaves => 1000,
    };
    let mut records: u64 = 0;
    for _ in 0..most {
        if !append_one(log, kind, leaf) {
            return records;
        }
        records = records.wrapping_add(1);
    }
    records
}

/// Writes one batch in four steps. False if the device failed.
fn write(log: &mut Glog, disk: &mut FileDisk) -> bool {
    for _ in 0..4 {
        if disk.sectors() < SECTORS || log.log_step(disk).is_err() {
            return false;
        }
    }
    true
}

/// Writes a batch to each place of an extent, from the first on, and returns how many records they have.
fn write_extent(alloc: Global, disk: &mut FileDisk, kind: Kind, leaf: &Page) -> Option<u64> {
    let mut log = Glog::start(alloc, Extent::A, 0).ok()?;
    let mut records: u64 = 0;
    for _ in 0..PLACES {
        records = records.wrapping_add(fill(&mut log, kind, leaf));
        if !write(&mut log, disk) {
            return None;
        }
    }
    Some(records)
}

/// Writes so many extents, and returns how many records they have. `None` if memory is refused or the file fails.
pub(crate) fn run<R: AllocGlobal + Files<File = File>>(
    rt: &R,
    kind: Kind,
    extents: u64,
) -> Option<u64> {
    let leaf = leaf(rt.alloc(), 2)?;
    let mut disk = FileDisk::create(rt, FILE, SECTORS).ok()?;
    let mut records: u64 = 0;
    for _ in 0..extents {
        records = records.wrapping_add(write_extent(rt.alloc(), &mut disk, kind, &leaf)?);
    }
    Some(records)
}

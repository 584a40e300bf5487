//! A device whose log has images alone and no small record, written by hand, and what it is opened to.
use crate::asserts::holds;
use crate::devices::{formatted, index_over};
use Part::{Bytes, Zeros};
use gx_class::Box2Class;
use gx_disk::{MemDisk, SectorDisk};
use gx_geom::Box2;
use gx_machine::{Call, Entry, Query, Reply};
use gx_restart::Index;
use std::alloc::{AllocError, Global};
use std::process::Abort;

// The gate and the first sector of the body after the first of extent A.
const GATE: u64 = 9;

const BODY: u64 = 200;

// A part of a body: these bytes, or so many zeros.
#[derive(Clone, Copy)]
enum Part {
    Bytes(&'static [u8]),
    Zeros(usize),
}

// The boxes 0 0 10 10 of row 7, which is the root's bound too, and 0 0 5 5 of row 8.
const LARGE: Part = Bytes(&[0, 0, 0, 0, 0, 0, 0, 0, 0, 0, 0, 10, 0, 0, 0, 10]);

const SMALL: Part = Bytes(&[0, 0, 0, 0, 0, 0, 0, 0, 0, 0, 0, 5, 0, 0, 0, 5]);

const SEVEN: Part = Bytes(&[0, 0, 0, 0, 0, 0, 0, 7]);

const EIGHT: Part = Bytes(&[0, 0, 0, 0, 0, 0, 0, 8]);

// What pages 1 and 2 have after their level, count and heap: no sequence number, no rightlink, and their own number.
const ROOT: Part = Bytes(&[
    0, 0, 0, 0, 0, 0, 0, 0, 0, 0, 0, 0, 0, 0, 0, 1, 0, 0, 0, 0, 0, 0, 0, 0,
]);

const LEAF: Part = Bytes(&[
    0, 0, 0, 0, 0, 0, 0, 0, 0, 0, 0, 0, 0, 0, 0, 2, 0, 0, 0, 0, 0, 0, 0, 0,
]);

// The front of a write of transaction 1 or 2.
const FIRST: Part = Bytes(&[2, 0, 0, 0, 0, 0, 0, 0, 1]);

const SECOND: Part = Bytes(&[2, 0, 0, 0, 0, 0, 0, 0, 2]);

// The end of a write in page 2: of an insert and of a delete, by the mark before and after.
const INSERTED: Part = Bytes(&[1, 0, 0, 0, 0, 2]);

const DELETED: Part = Bytes(&[0, 1, 0, 0, 0, 2]);

// The image of page 2 with both rows, but for the mark of row 7 after it.
const BOTH: &[Part] = &[
    Bytes(&[0, 0, 0, 2, 0x0f, 0xce, 0, 0]),
    LEAF,
    Bytes(&[0x0f, 0xe7, 0, 0x19, 0x0f, 0xce, 0, 0x19]),
    Zeros(4006),
    SMALL,
    EIGHT,
    Bytes(&[0]),
    LARGE,
];

// The records: the root's bound is wider, transaction 1 inserts both rows and commits, and transaction 2 deletes row 7
// and doesn't.
static RECORDS: [&[Part]; 10] = [
    // the root's bound, and the image of page 1: a root over page 2
    &[
        Bytes(&[1, 0, 0, 0, 0, 0, 0, 0, 0, 0, 0, 0, 2, 1, 0, 0, 0, 1]),
        Bytes(&[0, 1, 0, 1, 0x0f, 0xec, 0, 0]),
        ROOT,
        Bytes(&[0x0f, 0xec, 0, 0x14]),
        Zeros(4040),
        LARGE,
        Bytes(&[0, 0, 0, 2]),
    ],
    // row 7, and the image of page 2 with it
    &[FIRST, SEVEN, LARGE, INSERTED],
    &[
        Bytes(&[0, 0, 0, 1, 0x0f, 0xe7, 0, 0]),
        LEAF,
        Bytes(&[0x0f, 0xe7, 0, 0x19]),
        Zeros(4035),
        LARGE,
        SEVEN,
        Bytes(&[0]),
    ],
    // row 8, and the image of page 2 with both
    &[FIRST, EIGHT, SMALL, INSERTED],
    BOTH,
    &[SEVEN, Bytes(&[0])],
    // the commit
    &[Bytes(&[3, 0, 0, 0, 0, 0, 0, 0, 1, 0, 0, 0, 0, 0, 0, 0, 1])],
    // row 7 deleted, and the image of page 2 with that
    &[SECOND, SEVEN, LARGE, DELETED],
    BOTH,
    &[SEVEN, Bytes(&[1])],
];

// Appends so many zeros.
fn put_zeros(bytes: &mut Vec<u8>, count: usize) -> Result<(), AllocError> {
    for _ in 0..count {
        bytes.push(0)?;
    }
    Ok(())
}

// Appends parts.
fn put_parts(bytes: &mut Vec<u8>, parts: &[Part]) -> Result<(), AllocError> {
    for part in parts {
        match *part {
            Bytes(given) => bytes.extend_from_slice(given)?,
            Zeros(count) => put_zeros(bytes, count)?,
        }
    }
    Ok(())
}

// A body of the records: 0x4098 bytes.
fn body(alloc: Global) -> Result<Vec<u8>, AllocError> {
    let mut bytes = Vec::new(alloc);
    bytes.extend_from_slice(&[0, 0, 0x40, 0x98])?;
    for parts in &RECORDS {
        put_parts(&mut bytes, parts)?;
    }
    bytes.resize(32768, 0)?;
    Ok(bytes)
}

// A device with that log.
fn imaged(alloc: Global) -> Option<MemDisk> {
    let mut disk = formatted(alloc)?;
    let bytes = body(alloc).ok()?;
    if bytes.len() != 32768 || disk.sectors() < 16_776 {
        return None;
    }
    disk.write(BODY, bytes.as_slice()).ok()?;
    let mut gate = [0u8; 512];
    gate[0] = 0xa7;
    disk.write(GATE, &gate).ok()?;
    disk.sync().ok()?;
    Some(disk)
}

// A row with a box from the origin to a corner.
fn entry(row: u64, corner: i32) -> Option<Entry<Box2>> {
    let key = Box2::new(0, 0, corner, corner).ok()?;
    Some(Entry { row, key })
}

// Whether an index has one commit, and just both rows.
fn holds_both(index: &mut Index<MemDisk, Box2Class>) -> Option<bool> {
    let both = [entry(7, 10)?, entry(8, 5)?];
    let everything = Box2::new(-100, -100, 100, 100).ok()?;
    let begun = matches!(index.call(1, Call::Begin), Reply::Ok);
    let found = match index.call(1, Call::Search(Query::Overlap(everything))) {
        Reply::Found(found) => found.as_slice() == both.as_slice(),
        _ => false,
    };
    Some(begun && found)
}

// What a crash leaves of a device that is opened, if one commit and just both rows are found there.
fn opened(alloc: Global, disk: MemDisk) -> Option<MemDisk> {
    let mut index = index_over(alloc, disk)?;
    let held = holds_both(&mut index);
    let engine = index.into_engine();
    let commits = engine.commits();
    let mut disk = engine.into_disk();
    disk.crash(&[]);
    (held == Some(true) && commits == 1).then_some(disk)
}

// It is opened twice.
fn opened_twice(alloc: Global) -> Option<MemDisk> {
    let again = opened(alloc, imaged(alloc)?)?;
    opened(alloc, again)
}

#[test]
fn a_log_of_images_alone_is_opened(rt: HostRuntime) {
    holds(&rt, opened_twice(rt.alloc()).is_some());
}

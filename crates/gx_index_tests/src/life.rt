//! A worked life of the headline (`gx_lives::laws::an_index_lives_as_one_run`), event by event beside the plain index:
//! a format; two sessions in turn, a split, commits, a transaction that is left open; a crash at the write of a
//! checkpoint's selector; an opening that is cut twice; openings that end well. One device of one type lives through
//! all of it, so its turns are those of `gx_lives`: each is a call whose contract is that turn, or a crash of a
//! `MemDisk`, which comes up under a new fuse.
mod beside;

use crate::asserts::holds;
use beside::{Device, EVENTS, Plain, Working, call, interleave, make, work};
use gx_class::Box2Class;
use gx_disk::{Fuse, FuseDisk, MemDisk, SectorDisk, Torn};
use gx_engine::NotOpened;
use gx_events::{Event, Outcome};
use gx_format::sectors_for;
use gx_geom::{Box2, Refusal};
use gx_lives::{format, open};
use gx_machine::{Call, Entry, Query, Reply};
use std::alloc::Global;
use std::process::Abort;

// How many pages the device has, how many entries a node, and how many frames an engine.
const PAGES: u32 = 16;

const MOST: u16 = 4;

const FRAMES: usize = 16;

// A device of which the call after so many fails, and each later one. A write that fails is made all the same.
fn failing(disk: MemDisk, calls: u64) -> Device {
    FuseDisk::new(disk, calls, Fuse::ForEver, true)
}

// A device that was formatted.
fn formatted(alloc: Global) -> Option<Device> {
    let sectors = usize::try_from(sectors_for(PAGES)).ok()?;
    let mut disk = failing(MemDisk::new(alloc, sectors).ok()?, u64::MAX);
    format::<Device, Box2Class>(alloc, &mut disk, PAGES, MOST).ok()?;
    Some(disk)
}

// A row at another point.
fn entry(row: u8) -> Entry<Box2> {
    Entry {
        row: u64::from(row),
        key: Box2::point(i32::from(row), 0),
    }
}

// Two transactions of three rows each, of which a leaf holds four: it is split once.
fn split(engine: &mut Working, plain: &mut Plain) -> Option<bool> {
    let (odd, even) = (
        [entry(1), entry(3), entry(5)],
        [entry(2), entry(4), entry(6)],
    );
    interleave(engine, plain, &inserts(odd), &inserts(even))?;
    Some(engine.commits() == 2 && engine.used() == 3 && engine.counter() == 1)
}

// The calls of a transaction that inserts three rows.
fn inserts([one, two, three]: [Entry<Box2>; 3]) -> [Call<Box2>; 5] {
    [
        Call::Begin,
        Call::Insert(one),
        Call::Insert(two),
        Call::Insert(three),
        Call::Commit,
    ]
}

// A third commit, beside a transaction that is left open: it has inserted row 200 and deleted row 3.
fn leave_open(engine: &mut Working, plain: &mut Plain) -> Option<bool> {
    let commits = [Call::Begin, Call::Insert(entry(7)), Call::Commit];
    let open = [
        Call::Begin,
        Call::Insert(entry(200)),
        Call::Delete(entry(3)),
    ];
    interleave(engine, plain, &commits, &open)?;
    Some(engine.commits() == 3)
}

// Commits the next row in place of this one, while the other session looks for its own.
fn replace(engine: &mut Working, plain: &mut Plain, row: u8) -> Option<()> {
    let commits = [
        Call::Begin,
        Call::Delete(entry(row)),
        Call::Insert(entry(row.saturating_add(1))),
        Call::Commit,
    ];
    let looks = [Call::Search(Query::Equal(entry(200).key))];
    interleave(engine, plain, &commits, &looks)
}

// Makes what is logged durable.
fn flush(engine: &mut Working, plain: &mut Plain) -> Option<()> {
    for _event in 0..EVENTS {
        if let Outcome::Nothing = make(engine, plain, Event::LogStep)? {
            return Some(());
        }
    }
    None
}

// Commits one row in place of another, the first under the number 4, until a checkpoint begins with the write of a
// page. Returns the last number.
fn commit_on(engine: &mut Working, plain: &mut Plain) -> Option<u64> {
    for row in 7..103u8 {
        replace(engine, plain, row)?;
        flush(engine, plain)?;
        engine.dirty()?;
        if let Outcome::More = make(engine, plain, Event::CheckpointStep)? {
            return Some(u64::from(row - 3));
        }
    }
    None
}

// Makes a checkpoint's steps up to the selector's write: the other pages' writes, their sync, and of the turn the
// closed gates, the body, its sync, the gate, its sync and the selector.
fn turn_log(engine: &mut Working, plain: &mut Plain) -> Option<()> {
    for _page in 1..PAGES {
        if engine.dirty().is_some() {
            work(engine, plain, Event::CheckpointStep)?;
        }
    }
    for _call in 0..7u8 {
        work(engine, plain, Event::CheckpointStep)?;
    }
    Some(())
}

// Whether this is the set of a number: of 0 nothing, and from 3 on rows 1 to 6, and the row that came with that commit.
fn is_set(found: &[Entry<Box2>], number: u64) -> bool {
    let Ok(last) = u8::try_from(number.saturating_add(4)) else {
        return false;
    };
    let rows = [
        entry(1),
        entry(2),
        entry(3),
        entry(4),
        entry(5),
        entry(6),
        entry(last),
    ];
    if number == 0 {
        found.is_empty()
    } else {
        found == rows.as_slice()
    }
}

// Whether an engine is at this number, and a lone session finds its set.
fn stands(engine: &mut Working, plain: &mut Plain, number: u64) -> Option<bool> {
    let commits = engine.commits();
    let everything = Box2::new(0, 0, 255, 0).ok()?;
    call(engine, plain, 8, Call::Begin)?;
    let reply = call(engine, plain, 8, Call::Search(Query::Overlap(everything)))?;
    call(engine, plain, 8, Call::Abort)?;
    match reply {
        Reply::Found(found) => Some(commits == number && is_set(found.as_slice(), number)),
        _ => Some(false),
    }
}

// The life up to the checkpoint's write of the selector. Returns the number of the last commit.
fn begin_life(engine: &mut Working, plain: &mut Plain) -> Option<u64> {
    let is_new = stands(engine, plain, 0)?;
    let is_split = split(engine, plain)?;
    let is_open = leave_open(engine, plain)?;
    let number = commit_on(engine, plain)?;
    turn_log(engine, plain)?;
    if is_new && is_split && is_open {
        Some(number)
    } else {
        None
    }
}

// What a crash leaves at the write of the selector, which is all that isn't synced. The machine has no session with a
// transaction then.
fn stopped(alloc: Global, plain: &mut Plain, torn: Torn) -> Option<(MemDisk, u64)> {
    let mut engine = open::<Device, Box2Class>(alloc, formatted(alloc)?, FRAMES).ok()?;
    let number = begin_life(&mut engine, plain);
    let mut disk = engine.into_disk().into_inner();
    let pending = disk.unsynced();
    disk.crash(&[torn]);
    let is_dropped = matches!(plain.call(2, Call::Abort), Reply::Aborted);
    if pending == 1 && is_dropped {
        Some((disk, number?))
    } else {
        None
    }
}

// The first byte of the selector.
fn selector(disk: &mut MemDisk) -> Option<u8> {
    if disk.sectors() <= 2 {
        return None;
    }
    let mut bytes = [0u8; 512];
    disk.read(2, &mut bytes).ok()?;
    bytes.first().copied()
}

// What a crash leaves of an opening that is cut by this call of the device.
fn cut(alloc: Global, disk: MemDisk, calls: u64, torn: Torn) -> Option<MemDisk> {
    match open::<Device, Box2Class>(alloc, failing(disk, calls), FRAMES) {
        Ok(_) => None,
        Err(NotOpened { why, disk }) => {
            let made = disk.calls();
            let mut disk = disk.into_inner();
            disk.crash(&[torn]);
            if why == Refusal::Device && made == calls {
                Some(disk)
            } else {
                None
            }
        }
    }
}

// Whether an opening gives this number and its set; and the next commit then comes.
fn goes_on(engine: &mut Working, plain: &mut Plain, number: u64) -> Option<bool> {
    let stood = stands(engine, plain, number)?;
    let row = u8::try_from(number.saturating_add(4)).ok()?;
    let commits = [
        Call::Begin,
        Call::Delete(entry(row)),
        Call::Insert(entry(row.saturating_add(1))),
        Call::Commit,
    ];
    interleave(engine, plain, &commits, &[])?;
    Some(stood)
}

// What a crash leaves after an opening and a further commit.
fn opened(alloc: Global, plain: &mut Plain, disk: MemDisk, number: u64) -> Option<MemDisk> {
    let disk = failing(disk, u64::MAX);
    let mut engine = open::<Device, Box2Class>(alloc, disk, FRAMES).ok()?;
    let stood = goes_on(&mut engine, plain, number);
    let mut disk = engine.into_disk().into_inner();
    disk.crash(&[]);
    if stood == Some(true) {
        Some(disk)
    } else {
        None
    }
}

// A life whose selector is left so by the crash, with this first byte; and whose opening is cut at these calls.
fn lives(alloc: Global, torn: Torn, first: u8, cuts: [u64; 2]) -> Option<()> {
    let mut plain = Plain::new(alloc).ok()?;
    let (mut disk, number) = stopped(alloc, &mut plain, torn)?;
    if selector(&mut disk)? != first {
        return None;
    }
    let [once, again] = cuts;
    let disk = cut(alloc, disk, once, Torn::Bytes([0xA7; 512]))?;
    let disk = cut(alloc, disk, again, Torn::New)?;
    let disk = opened(alloc, &mut plain, disk, number)?;
    let _disk = opened(alloc, &mut plain, disk, number.saturating_add(1))?;
    Some(())
}

// A format selects extent A, the first opening's checkpoint extent B (`5a`), and the life's checkpoint extent A again.
// So a crash that takes the selector's write back leaves a log of many batches, and one that leaves it just their head.
#[test]
fn a_life_is_one_run(rt: HostRuntime) {
    holds(
        &rt,
        lives(rt.alloc(), Torn::Old, 0x5A, [204, 248]).is_some(),
    );
    holds(&rt, lives(rt.alloc(), Torn::New, 0, [20, 136]).is_some());
}

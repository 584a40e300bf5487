//! Openings of devices in memory.
use crate::asserts::holds;
use crate::devices::formatted;
use gx_class::Box2Class;
use gx_disk::MemDisk;
use gx_engine::{Engine, drive, repeat};
use gx_events::Event;
use gx_geom::Box2;
use gx_machine::{Call, Entry, Query, Reply};
use gx_restart::open;
use std::alloc::Global;
use std::process::Abort;

// A session's call, to its end.
fn ask(
    engine: &mut Engine<MemDisk, Box2Class>,
    session: u8,
    call: Call<Box2>,
) -> Option<Reply<Box2>> {
    drive(engine, session, Event::Ask(session, call))
}

// A box of a row.
fn entry(row: u64, corner: i32) -> Option<Entry<Box2>> {
    let key = Box2::new(corner, corner, 9, 9).ok()?;
    Some(Entry { row, key })
}

// Whether an engine has so many commits, and finds just this entry.
fn has_only(
    engine: &mut Engine<MemDisk, Box2Class>,
    commits: u64,
    only: Entry<Box2>,
) -> Option<bool> {
    ask(engine, 8, Call::Begin)?;
    let everything = Box2::new(-100, -100, 100, 100).ok()?;
    let found = match ask(engine, 8, Call::Search(Query::Overlap(everything)))? {
        Reply::Found(found) => found.as_slice() == [only].as_slice(),
        _ => false,
    };
    Some(found && engine.commits() == commits)
}

// What a crash leaves of an engine's device.
fn cut(engine: Engine<MemDisk, Box2Class>) -> MemDisk {
    let mut disk = engine.into_disk();
    disk.crash(&[]);
    disk
}

// What a crash leaves of a device that is opened, if one commit and just this entry are found there.
fn opened(alloc: Global, disk: MemDisk, only: Entry<Box2>) -> Option<MemDisk> {
    let mut engine = open::<MemDisk, Box2Class>(alloc, disk, 16).ok()?;
    let held = has_only(&mut engine, 1, only);
    let disk = cut(engine);
    if held == Some(true) { Some(disk) } else { None }
}

// Commits an entry, and inserts another one whose commit doesn't come.
fn change(
    engine: &mut Engine<MemDisk, Box2Class>,
    kept: Entry<Box2>,
    lost: Entry<Box2>,
) -> Option<()> {
    ask(engine, 1, Call::Begin)?;
    ask(engine, 1, Call::Insert(kept))?;
    ask(engine, 1, Call::Commit)?;
    ask(engine, 2, Call::Begin)?;
    ask(engine, 2, Call::Insert(lost))?;
    repeat(engine, Event::LogStep)?.ok()
}

// A new device that was changed so, and then cut off.
fn changed(alloc: Global, kept: Entry<Box2>, lost: Entry<Box2>) -> Option<MemDisk> {
    let mut engine = open::<MemDisk, Box2Class>(alloc, formatted(alloc)?, 16).ok()?;
    let done = change(&mut engine, kept, lost);
    let disk = cut(engine);
    if done.is_some() { Some(disk) } else { None }
}

// After two openings the index has what was committed, and not what was cut off.
fn cut_off(alloc: Global) -> Option<MemDisk> {
    let (kept, lost) = (entry(7, 0)?, entry(8, 1)?);
    let again = opened(alloc, changed(alloc, kept, lost)?, kept)?;
    opened(alloc, again, kept)
}

#[test]
fn committed_sets(rt: HostRuntime) {
    holds(&rt, cut_off(rt.alloc()).is_some());
}

// A new device that is opened, if nothing was committed there.
fn opened_as_new(alloc: Global, disk: MemDisk, frames: usize) -> Option<MemDisk> {
    let engine = open::<MemDisk, Box2Class>(alloc, disk, frames).ok()?;
    let is_new = engine.commits() == 0 && engine.used() == 2;
    let disk = engine.into_disk();
    if is_new { Some(disk) } else { None }
}

// A new device is opened twice.
fn opened_twice(alloc: Global) -> Option<MemDisk> {
    let disk = opened_as_new(alloc, formatted(alloc)?, 4096)?;
    opened_as_new(alloc, disk, 16)
}

#[test]
fn new_devices(rt: HostRuntime) {
    holds(&rt, opened_twice(rt.alloc()).is_some());
}

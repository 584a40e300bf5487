//! Sessions in threads over the engine, on a device in memory, and once in a file.
use crate::asserts::{got, holds};
use crate::flushed::flushed;
use crate::fresh::{fresh, fresh_in_file};
use crate::holds::{empty, first_hold, flusher_hold, pairing, search_hold};
use crate::records::replays;
use crate::stormed::{alone, stormed};
use gx_class::Box2Class;
use gx_disk::{DiskFault, FileDisk, RamDisk};
use gx_engine_events::EngineEvents;
use gx_events::Events;
use std::fs;
use std::io::ErrorKind;
use std::marker::Brand;
use std::process::Abort;
use std::sync::ledger::Blank;
use std::test::Fail;

#[test]
fn the_lock_is_free_between_the_events_of_a_call(rt: HostRuntime) -> Result<(), Fail> {
    let alloc = rt.alloc();
    let engine = fresh(alloc, 16, 4, 16)?;
    first_hold::<_, Brand, _>(&rt, alloc, Blank::new(8), engine);
    Ok(())
}

#[test]
fn a_search_stays_open_while_others_commit(rt: HostRuntime) -> Result<(), Fail> {
    let alloc = rt.alloc();
    let engine = fresh(alloc, 16, 4, 16)?;
    search_hold::<_, Brand, _>(&rt, alloc, Blank::new(8), engine, 4);
    Ok(())
}

#[test]
fn a_search_of_a_file_stays_open_while_others_commit(rt: HostRuntime) -> Result<(), Fail> {
    let alloc = rt.alloc();
    let (engine, _ahead) = fresh_in_file(&rt, alloc, "held.index", 16, 4, 16)?;
    search_hold::<_, Brand, _>(&rt, alloc, Blank::new(8), engine, 4);
    fs::remove_file(&rt, "held.index")?;
    Ok(())
}

#[test]
fn a_flusher_makes_a_commit_durable(rt: HostRuntime) -> Result<(), Fail> {
    let alloc = rt.alloc();
    let engine = fresh(alloc, 16, 4, 16)?;
    flusher_hold::<_, Brand, _>(&rt, alloc, Blank::new(8), engine);
    Ok(())
}

#[test]
fn the_record_has_the_replies_that_were_handed_out(rt: HostRuntime) -> Result<(), Fail> {
    let alloc = rt.alloc();
    let engine = fresh(alloc, 1024, 8, 64)?;
    pairing::<_, Brand, _>(&rt, alloc, Blank::new(8), engine);
    Ok(())
}

#[test]
fn a_run_without_calls_has_an_empty_record(rt: HostRuntime) -> Result<(), Fail> {
    let alloc = rt.alloc();
    let engine = fresh(alloc, 16, 4, 16)?;
    empty::<_, Brand>(&rt, alloc, Blank::new(8), engine);
    Ok(())
}

#[test]
fn the_plain_index_replays_a_storm(rt: HostRuntime) -> Result<(), Fail> {
    let alloc = rt.alloc();
    let engine = fresh(alloc, 1024, 8, 64)?;
    stormed::<_, Brand, _>(&rt, alloc, Blank::new(8), engine, None);
    Ok(())
}

#[test]
fn the_plain_index_replays_a_storm_over_a_file_that_is_synced_early(
    rt: HostRuntime,
) -> Result<(), Fail> {
    let alloc = rt.alloc();
    let (engine, ahead) = fresh_in_file(&rt, alloc, "stormed.index", 1024, 8, 64)?;
    stormed::<_, Brand, _>(&rt, alloc, Blank::new(8), engine, Some(ahead));
    fs::remove_file(&rt, "stormed.index")?;
    Ok(())
}

#[test]
fn a_handle_for_early_syncs_is_of_the_devices_own_file(rt: HostRuntime) -> Result<(), Fail> {
    let alloc = rt.alloc();
    let mut disk = FileDisk::create(&rt, "synced.index", 4)?;
    drop(FileDisk::create(&rt, "other.index", 4)?);
    let other = disk.sync_ahead(&rt, alloc, "other.index");
    holds(
        &rt,
        matches!(other, Err(DiskFault::File(ErrorKind::NotFound))),
        "another file is taken for the device's",
    );
    let own = disk.sync_ahead(&rt, alloc, "synced.index");
    holds(&rt, own.is_ok(), "the device's own file isn't taken");
    fs::remove_file(&rt, "synced.index")?;
    fs::remove_file(&rt, "other.index")?;
    Ok(())
}

#[test]
fn a_seed_has_one_record_of_a_session(rt: HostRuntime) -> Result<(), Fail> {
    let alloc = rt.alloc();
    let engine = fresh(alloc, 1024, 8, 64)?;
    alone::<_, Brand, _>(&rt, alloc, Blank::new(8), engine);
    Ok(())
}

#[test]
fn the_plain_index_replays_records_or_says_where_it_differs(rt: HostRuntime) {
    replays(&rt, rt.alloc());
}

/// How many entries the first leaf has, deleted ones among them that no sweep has taken.
fn entries(rt: &impl Abort, engine: EngineEvents<RamDisk, Box2Class>) -> usize {
    let mut engine = engine.into_inner();
    holds(rt, engine.used() >= 2, "there is no leaf");
    let page = got(rt, engine.page(2), "the leaf can't be read");
    page.count()
}

/// Whether a page waits to be written after so many rounds of a flusher, and the entries of the first leaf.
static FLUSHES: [(u64, bool, usize); 2] = [(0, true, 2), (16, false, 1)];

#[test]
fn a_flusher_writes_pages_and_sweeps_a_leaf(rt: HostRuntime) -> Result<(), Fail> {
    let alloc = rt.alloc();
    for (rounds, waits, left) in &FLUSHES {
        let engine = fresh(alloc, 16, 4, 16)?;
        let engine = flushed::<_, Brand, _>(&rt, alloc, Blank::new(8), engine, *rounds);
        holds(
            &rt,
            engine.dirty().is_some() == *waits,
            "a page waits to be written, or none",
        );
        holds(
            &rt,
            entries(&rt, engine) == *left,
            "the deleted entry is gone, or left",
        );
    }
    Ok(())
}

//! Searches, and what they found.
ghost use Rattle.std.specs.Prelude.{◌≢◌};
ghost use Rattle.gx_c.specs.Asking.{SearchesBox, SearchesKind, SearchesOpen, SearchesPlane};
ghost use Rattle.gx_c.specs.Asking.{SearchesSolid, SearchesSpace, TellsMore, TellsOpen};
ghost use Rattle.gx_c.specs.Sent.{IsUntold, query_of, sent_entry, sent_entry3};
ghost use Rattle.gx_c.specs.Stages.{IsCreated, OfPlane, OfSpace, OfStage};

use crate::handle::Handle;
use crate::held::Stage;
use crate::opened::Open;
use crate::sent::{
    SentBox, SentBox3, SentCount, SentEntry, SentEntry3, UNTOLD, box_of, query_of, solid_of,
};
use crate::status::{NOTHING, refused};
use crate::told::{tell_boxes, tell_solids};
use gx_class::{Box2Class, Box3Class, ReadKeys};
use gx_disk::SectorDisk;
use gx_geom::{Box2, Box3, Shape};
use gx_machine::Query;
use gx_phases::is_session;
use gx_queue_disk::QueueDisk;
use std::alloc::Global;

// Writes of what a session found of the plane.
fn more_boxes(index: &mut Open<Box2Class>, session: u8, out: &mut [SentEntry]) -> SentCount
    ensures { TellsOpen sent_entry session index.old index.new out.old out.new result }
{
    if !is_session(session) {
        return UNTOLD;
    }
    tell_boxes(&mut index.found[usize::from(session) - 1], out)
}

// Writes of what a session found of space.
fn more_solids(index: &mut Open<Box3Class>, session: u8, out: &mut [SentEntry3]) -> SentCount
    ensures { TellsOpen sent_entry3 session index.old index.new out.old out.new result }
{
    if !is_session(session) {
        return UNTOLD;
    }
    tell_solids(&mut index.found[usize::from(session) - 1], out)
}

// Asks a search of the plane, and writes of what it found.
fn find_boxes(
    index: &mut Open<Box2Class>,
    session: u8,
    query: Query<Box2>,
    out: &mut [SentEntry],
    count: &mut SentCount,
) -> u16
    ensures finds { SearchesOpen ⟦<Box2 as Shape>⟧ ⟦<Box2Class as ReadKeys>⟧ ⟦<QueueDisk as SectorDisk>⟧.state
        sent_entry session query out.old out.new count.new index.old index.new result }
    ensures untold { result ≢ 0 → IsUntold out.old out.new count.new }
{
    *count = UNTOLD;
    let status = index.search(session, query);
    if status != 0 {
        return status;
    }
    *count = more_boxes(index, session, out);
    status
}

// Searches the plane, if the query is of a kind.
fn search_boxes(
    index: &mut Open<Box2Class>,
    session: u8,
    kind: u8,
    key: Box2,
    out: &mut [SentEntry],
    count: &mut SentCount,
) -> u16
    ensures searches { SearchesKind ⟦<Box2 as Shape>⟧ ⟦<Box2Class as ReadKeys>⟧ ⟦<QueueDisk as SectorDisk>⟧.state
        sent_entry session (query_of kind key) out.old out.new count.new index.old index.new result }
    ensures untold { result ≢ 0 → IsUntold out.old out.new count.new }
{
    match query_of(kind, key) {
        Some(query) => find_boxes(index, session, query, out, count),
        None => {
            *count = UNTOLD;
            NOTHING
        }
    }
}

// Searches the plane, if the corners make a box.
fn search_box(
    index: &mut Open<Box2Class>,
    session: u8,
    kind: u8,
    key: &SentBox,
    out: &mut [SentEntry],
    count: &mut SentCount,
) -> u16
    ensures searches { SearchesBox ⟦<Box2 as Shape>⟧ ⟦<Box2Class as ReadKeys>⟧ ⟦<QueueDisk as SectorDisk>⟧.state
        session kind key.now out.old out.new count.new index.old index.new result }
    ensures untold { result ≢ 0 → IsUntold out.old out.new count.new }
{
    match box_of(key) {
        Ok(key) => search_boxes(index, session, kind, key, out, count),
        Err(why) => {
            *count = UNTOLD;
            refused(why)
        }
    }
}

// Searches the plane, if an index of it is open.
fn search_plane(
    stage: &mut Stage,
    session: u8,
    kind: u8,
    key: &SentBox,
    out: &mut [SentEntry],
    count: &mut SentCount,
) -> u16
    ensures searches { SearchesPlane ⟦<Box2 as Shape>⟧ ⟦<Box2Class as ReadKeys>⟧ ⟦<QueueDisk as SectorDisk>⟧.state
        session kind key.now out.old out.new count.new stage.old stage.new result }
    ensures untold { result ≢ 0 → IsUntold out.old out.new count.new }
{
    match stage {
        Stage::Plane(open) => search_box(open, session, kind, key, out, count),
        _ => {
            *count = UNTOLD;
            NOTHING
        }
    }
}

// Asks a search of space, and writes of what it found.
fn find_solids(
    index: &mut Open<Box3Class>,
    session: u8,
    query: Query<Box3>,
    out: &mut [SentEntry3],
    count: &mut SentCount,
) -> u16
    ensures finds { SearchesOpen ⟦<Box3 as Shape>⟧ ⟦<Box3Class as ReadKeys>⟧ ⟦<QueueDisk as SectorDisk>⟧.state
        sent_entry3 session query out.old out.new count.new index.old index.new result }
    ensures untold { result ≢ 0 → IsUntold out.old out.new count.new }
{
    *count = UNTOLD;
    let status = index.search(session, query);
    if status != 0 {
        return status;
    }
    *count = more_solids(index, session, out);
    status
}

// Searches space, if the query is of a kind.
fn search_solids(
    index: &mut Open<Box3Class>,
    session: u8,
    kind: u8,
    key: Box3,
    out: &mut [SentEntry3],
    count: &mut SentCount,
) -> u16
    ensures searches { SearchesKind ⟦<Box3 as Shape>⟧ ⟦<Box3Class as ReadKeys>⟧ ⟦<QueueDisk as SectorDisk>⟧.state
        sent_entry3 session (query_of kind key) out.old out.new count.new index.old index.new result }
    ensures untold { result ≢ 0 → IsUntold out.old out.new count.new }
{
    match query_of(kind, key) {
        Some(query) => find_solids(index, session, query, out, count),
        None => {
            *count = UNTOLD;
            NOTHING
        }
    }
}

// Searches space, if the corners make a box.
fn search_solid(
    index: &mut Open<Box3Class>,
    session: u8,
    kind: u8,
    key: &SentBox3,
    out: &mut [SentEntry3],
    count: &mut SentCount,
) -> u16
    ensures searches { SearchesSolid ⟦<Box3 as Shape>⟧ ⟦<Box3Class as ReadKeys>⟧ ⟦<QueueDisk as SectorDisk>⟧.state
        session kind key.now out.old out.new count.new index.old index.new result }
    ensures untold { result ≢ 0 → IsUntold out.old out.new count.new }
{
    match solid_of(key) {
        Ok(key) => search_solids(index, session, kind, key, out, count),
        Err(why) => {
            *count = UNTOLD;
            refused(why)
        }
    }
}

// Searches space, if an index of it is open.
fn search_space(
    stage: &mut Stage,
    session: u8,
    kind: u8,
    key: &SentBox3,
    out: &mut [SentEntry3],
    count: &mut SentCount,
) -> u16
    ensures searches { SearchesSpace ⟦<Box3 as Shape>⟧ ⟦<Box3Class as ReadKeys>⟧ ⟦<QueueDisk as SectorDisk>⟧.state
        session kind key.now out.old out.new count.new stage.old stage.new result }
    ensures untold { result ≢ 0 → IsUntold out.old out.new count.new }
{
    match stage {
        Stage::Space(open) => search_solid(open, session, kind, key, out, count),
        _ => {
            *count = UNTOLD;
            NOTHING
        }
    }
}

/// Finds the entries of the plane that match a query of this kind (0, overlap; 1, within; 2, equal; 3, covers), and
/// writes as many as there are places for. The others are kept for `gx_c_more`, until the session's next search. The
/// count says how many were found and how many are written; both are 0 unless the status is 0. The status is 6 if the
/// box's corners are reversed, and 18 if the kind is none of these or no index of the plane is open.
#[unsafe(no_mangle)]
pub extern "C" fn gx_c_search(
    alloc: Global,
    handle: &mut Handle,
    session: u8,
    kind: u8,
    key: &SentBox,
    out: &mut [SentEntry],
    count: &mut SentCount,
) -> u16
    requires { IsCreated handle.old.held }
    ensures searches { OfStage (λ old new. SearchesPlane ⟦<Box2 as Shape>⟧ ⟦<Box2Class as ReadKeys>⟧
        ⟦<QueueDisk as SectorDisk>⟧.state session kind key.now out.old out.new count.new old new result)
        handle.old.held handle.new.held }
    ensures untold { result ≢ 0 → IsUntold out.old out.new count.new }
{
    let mut held = handle.take(alloc);
    let status = search_plane(&mut held.stage, session, kind, key, out, count);
    handle.put(held);
    status
}

/// Finds entries of space, as `gx_c_search` does in the plane.
#[unsafe(no_mangle)]
pub extern "C" fn gx_c_search3(
    alloc: Global,
    handle: &mut Handle,
    session: u8,
    kind: u8,
    key: &SentBox3,
    out: &mut [SentEntry3],
    count: &mut SentCount,
) -> u16
    requires { IsCreated handle.old.held }
    ensures searches { OfStage (λ old new. SearchesSpace ⟦<Box3 as Shape>⟧ ⟦<Box3Class as ReadKeys>⟧
        ⟦<QueueDisk as SectorDisk>⟧.state session kind key.now out.old out.new count.new old new result)
        handle.old.held handle.new.held }
    ensures untold { result ≢ 0 → IsUntold out.old out.new count.new }
{
    let mut held = handle.take(alloc);
    let status = search_space(&mut held.stage, session, kind, key, out, count);
    handle.put(held);
    status
}

// Writes more of what a session found of the plane, if an index of it is open.
fn more_of_plane(
    stage: &mut Stage,
    session: u8,
    out: &mut [SentEntry],
    count: &mut SentCount,
) -> u16
    ensures tells { OfPlane (TellsMore sent_entry session out.old out.new count.new) stage.old stage.new result }
    ensures untold { result ≢ 0 → IsUntold out.old out.new count.new }
{
    match stage {
        Stage::Plane(open) => {
            *count = more_boxes(open, session, out);
            0
        }
        _ => {
            *count = UNTOLD;
            NOTHING
        }
    }
}

// Writes more of what a session found of space, if an index of it is open.
fn more_of_space(
    stage: &mut Stage,
    session: u8,
    out: &mut [SentEntry3],
    count: &mut SentCount,
) -> u16
    ensures tells { OfSpace (TellsMore sent_entry3 session out.old out.new count.new) stage.old stage.new result }
    ensures untold { result ≢ 0 → IsUntold out.old out.new count.new }
{
    match stage {
        Stage::Space(open) => {
            *count = more_solids(open, session, out);
            0
        }
        _ => {
            *count = UNTOLD;
            NOTHING
        }
    }
}

/// Writes more of what a session's last search of the plane found. The count says how many C hadn't had yet, and how
/// many are now.
#[unsafe(no_mangle)]
pub extern "C" fn gx_c_more(
    alloc: Global,
    handle: &mut Handle,
    session: u8,
    out: &mut [SentEntry],
    count: &mut SentCount,
) -> u16
    requires { IsCreated handle.old.held }
    ensures tells { OfStage (λ old new. OfPlane (TellsMore sent_entry session out.old out.new count.new) old new result)
        handle.old.held handle.new.held }
    ensures untold { result ≢ 0 → IsUntold out.old out.new count.new }
{
    let mut held = handle.take(alloc);
    let status = more_of_plane(&mut held.stage, session, out, count);
    handle.put(held);
    status
}

/// Writes more of what a session's last search of space found, as `gx_c_more` does in the plane.
#[unsafe(no_mangle)]
pub extern "C" fn gx_c_more3(
    alloc: Global,
    handle: &mut Handle,
    session: u8,
    out: &mut [SentEntry3],
    count: &mut SentCount,
) -> u16
    requires { IsCreated handle.old.held }
    ensures tells { OfStage (λ old new. OfSpace (TellsMore sent_entry3 session out.old out.new count.new) old new
        result) handle.old.held handle.new.held }
    ensures untold { result ≢ 0 → IsUntold out.old out.new count.new }
{
    let mut held = handle.take(alloc);
    let status = more_of_space(&mut held.stage, session, out, count);
    handle.put(held);
    status
}

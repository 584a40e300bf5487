//! Inserts and deletes entries.
ghost use Rattle.std.specs.Prelude.{◌≡◌};
ghost use Rattle.gx_c.specs.Asking.{WritesBox, WritesPlane, WritesSolid, WritesSpace, writing_of};
ghost use Rattle.gx_c.specs.Stages.{IsCreated, OfStage};
ghost use Rattle.gx_c.specs.declared.entries.Writing.TheVariants.{Delete, Insert};

use crate::handle::Handle;
use crate::held::Stage;
use crate::opened::Open;
use crate::sent::{SentBox, SentBox3, box_of, solid_of};
use crate::status::{NOTHING, refused};
use gx_class::{Box2Class, Box3Class, ReadKeys};
use gx_disk::SectorDisk;
use gx_geom::{Box2, Box3, Shape};
use gx_machine::{Call, Entry};
use gx_queue_disk::QueueDisk;
use std::alloc::Global;

/// What becomes of an entry.
#[derive(Clone, Copy)]
pub(crate) enum Writing {
    Insert,
    Delete,
}

// The call.
fn writing_of<B>(writing: Writing, entry: Entry<B>) -> Call<B>
    ensures { result ≡ writing_of writing entry }
{
    match writing {
        Writing::Insert => Call::Insert(entry),
        Writing::Delete => Call::Delete(entry),
    }
}

// Writes an entry with a box of the plane.
fn write_box(
    index: &mut Open<Box2Class>,
    session: u8,
    writing: Writing,
    row: u64,
    key: &SentBox,
) -> u16
    ensures { WritesBox ⟦<Box2 as Shape>⟧ ⟦<Box2Class as ReadKeys>⟧ ⟦<QueueDisk as SectorDisk>⟧.state
        session writing row key.now index.old index.new result }
{
    match box_of(key) {
        Ok(key) => index.ask(session, writing_of(writing, Entry { row, key })),
        Err(why) => refused(why),
    }
}

// Writes an entry with a box of space.
fn write_solid(
    index: &mut Open<Box3Class>,
    session: u8,
    writing: Writing,
    row: u64,
    key: &SentBox3,
) -> u16
    ensures { WritesSolid ⟦<Box3 as Shape>⟧ ⟦<Box3Class as ReadKeys>⟧ ⟦<QueueDisk as SectorDisk>⟧.state
        session writing row key.now index.old index.new result }
{
    match solid_of(key) {
        Ok(key) => index.ask(session, writing_of(writing, Entry { row, key })),
        Err(why) => refused(why),
    }
}

// Writes an entry of the plane, if an index of it is open.
fn write_plane(stage: &mut Stage, session: u8, writing: Writing, row: u64, key: &SentBox) -> u16
    ensures { WritesPlane ⟦<Box2 as Shape>⟧ ⟦<Box2Class as ReadKeys>⟧ ⟦<QueueDisk as SectorDisk>⟧.state
        session writing row key.now stage.old stage.new result }
{
    match stage {
        Stage::Plane(open) => write_box(open, session, writing, row, key),
        _ => NOTHING,
    }
}

// Writes an entry of space, if an index of it is open.
fn write_space(stage: &mut Stage, session: u8, writing: Writing, row: u64, key: &SentBox3) -> u16
    ensures { WritesSpace ⟦<Box3 as Shape>⟧ ⟦<Box3Class as ReadKeys>⟧ ⟦<QueueDisk as SectorDisk>⟧.state
        session writing row key.now stage.old stage.new result }
{
    match stage {
        Stage::Space(open) => write_solid(open, session, writing, row, key),
        _ => NOTHING,
    }
}

/// Adds an entry of the plane. The status is 6 if the box's corners are reversed, and 18 if no index of the plane is
/// open.
#[unsafe(no_mangle)]
pub extern "C" fn gx_c_insert(
    alloc: Global,
    handle: &mut Handle,
    session: u8,
    row: u64,
    key: &SentBox,
) -> u16
    requires { IsCreated handle.old.held }
    ensures { OfStage (λ old new. WritesPlane ⟦<Box2 as Shape>⟧ ⟦<Box2Class as ReadKeys>⟧
        ⟦<QueueDisk as SectorDisk>⟧.state session Insert row key.now old new result) handle.old.held handle.new.held }
{
    let mut held = handle.take(alloc);
    let status = write_plane(&mut held.stage, session, Writing::Insert, row, key);
    handle.put(held);
    status
}

/// Takes an entry of the plane away. The status is 6 if the box's corners are reversed, and 18 if no index of the plane
/// is open.
#[unsafe(no_mangle)]
pub extern "C" fn gx_c_delete(
    alloc: Global,
    handle: &mut Handle,
    session: u8,
    row: u64,
    key: &SentBox,
) -> u16
    requires { IsCreated handle.old.held }
    ensures { OfStage (λ old new. WritesPlane ⟦<Box2 as Shape>⟧ ⟦<Box2Class as ReadKeys>⟧
        ⟦<QueueDisk as SectorDisk>⟧.state session Delete row key.now old new result) handle.old.held handle.new.held }
{
    let mut held = handle.take(alloc);
    let status = write_plane(&mut held.stage, session, Writing::Delete, row, key);
    handle.put(held);
    status
}

/// Adds an entry of space. The status is 6 if the box's corners are reversed, and 18 if no index of space is open.
#[unsafe(no_mangle)]
pub extern "C" fn gx_c_insert3(
    alloc: Global,
    handle: &mut Handle,
    session: u8,
    row: u64,
    key: &SentBox3,
) -> u16
    requires { IsCreated handle.old.held }
    ensures { OfStage (λ old new. WritesSpace ⟦<Box3 as Shape>⟧ ⟦<Box3Class as ReadKeys>⟧
        ⟦<QueueDisk as SectorDisk>⟧.state session Insert row key.now old new result) handle.old.held handle.new.held }
{
    let mut held = handle.take(alloc);
    let status = write_space(&mut held.stage, session, Writing::Insert, row, key);
    handle.put(held);
    status
}

/// Takes an entry of space away. The status is 6 if the box's corners are reversed, and 18 if no index of space is
/// open.
#[unsafe(no_mangle)]
pub extern "C" fn gx_c_delete3(
    alloc: Global,
    handle: &mut Handle,
    session: u8,
    row: u64,
    key: &SentBox3,
) -> u16
    requires { IsCreated handle.old.held }
    ensures { OfStage (λ old new. WritesSpace ⟦<Box3 as Shape>⟧ ⟦<Box3Class as ReadKeys>⟧
        ⟦<QueueDisk as SectorDisk>⟧.state session Delete row key.now old new result) handle.old.held handle.new.held }
{
    let mut held = handle.take(alloc);
    let status = write_space(&mut held.stage, session, Writing::Delete, row, key);
    handle.put(held);
    status
}

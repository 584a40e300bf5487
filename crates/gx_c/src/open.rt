//! Opens an index on a handle's device, settles it, and closes it.
ghost use Rattle.std.specs.Prelude.{◌≡◌, [], replicate};
ghost use Rattle.gx_c.specs.Asking.{SettlesEach};
ghost use Rattle.gx_c.specs.Openings.{ClosesEach, ClosesOpen, OpensAs, OpensPlane, OpensSpace};
ghost use Rattle.gx_c.specs.Stages.{IsCreated, OfStage};

use crate::handle::Handle;
use crate::held::Stage;
use crate::opened::{Open, none_found};
use crate::rest::Rest;
use crate::status::{MEMORY, NOTHING, refused};
use gx_class::{Box2Class, Box3Class, Probing, ReadKeys};
use gx_disk::SectorDisk;
use gx_geom::{Box2, Box3, Shape};
use gx_queue_disk::QueueDisk;
use gx_restart::open;
use std::alloc::Global;

// Opens a device for a class of keys. What is left of it, if that is refused.
fn opened<K: ReadKeys + Probing>(
    alloc: Global,
    disk: QueueDisk,
    found: Vec<Rest<K::Key>>,
    frames: usize,
) -> (Result<Open<K>, QueueDisk>, u16)
    requires { found.items ≡ replicate 8 [] }
    ensures { OpensAs K.Key.Shape K.ReadKeys ⟦<QueueDisk as SectorDisk>⟧.state frames disk result.0 result.1 }
{
    match open::<QueueDisk, K>(alloc, disk, frames) {
        Ok(engine) => (Ok(Open::new(engine, found)), 0),
        Err(left) => (Err(left.disk), refused(left.why)),
    }
}

// The index of boxes of the plane that a device is opened as; or what is left of the device, if that is refused.
fn plane_of(alloc: Global, disk: QueueDisk, frames: usize) -> (Stage, u16)
    ensures { OpensPlane (OpensAs ⟦<Box2 as Shape>⟧ ⟦<Box2Class as ReadKeys>⟧ ⟦<QueueDisk as SectorDisk>⟧.state
        frames) (Stage.Device disk) result.0 result.1 }
{
    let Ok(found) = none_found(alloc) else {
        return (Stage::Device(disk), MEMORY);
    };
    let (left, status) = opened::<Box2Class>(alloc, disk, found, frames);
    match left {
        Ok(open) => (Stage::Plane(open), status),
        Err(disk) => (Stage::Device(disk), status),
    }
}

// Opens an index of boxes of the plane.
fn open_plane(alloc: Global, stage: &mut Stage, frames: usize) -> u16
    ensures { OpensPlane (OpensAs ⟦<Box2 as Shape>⟧ ⟦<Box2Class as ReadKeys>⟧ ⟦<QueueDisk as SectorDisk>⟧.state
        frames) stage.old stage.new result }
{
    match stage.take() {
        Stage::Device(disk) => {
            let (left, status) = plane_of(alloc, disk, frames);
            stage.put(left);
            status
        }
        other => {
            stage.put(other);
            NOTHING
        }
    }
}

// The index of boxes of space that a device is opened as; or what is left of the device, if that is refused.
fn space_of(alloc: Global, disk: QueueDisk, frames: usize) -> (Stage, u16)
    ensures { OpensSpace (OpensAs ⟦<Box3 as Shape>⟧ ⟦<Box3Class as ReadKeys>⟧ ⟦<QueueDisk as SectorDisk>⟧.state
        frames) (Stage.Device disk) result.0 result.1 }
{
    let Ok(found) = none_found(alloc) else {
        return (Stage::Device(disk), MEMORY);
    };
    let (left, status) = opened::<Box3Class>(alloc, disk, found, frames);
    match left {
        Ok(open) => (Stage::Space(open), status),
        Err(disk) => (Stage::Device(disk), status),
    }
}

// Opens an index of boxes of space.
fn open_space(alloc: Global, stage: &mut Stage, frames: usize) -> u16
    ensures { OpensSpace (OpensAs ⟦<Box3 as Shape>⟧ ⟦<Box3Class as ReadKeys>⟧ ⟦<QueueDisk as SectorDisk>⟧.state
        frames) stage.old stage.new result }
{
    match stage.take() {
        Stage::Device(disk) => {
            let (left, status) = space_of(alloc, disk, frames);
            stage.put(left);
            status
        }
        other => {
            stage.put(other);
            NOTHING
        }
    }
}

// Gates all that is logged.
fn settle(stage: &mut Stage) -> u16
    ensures { SettlesEach ⟦<Box2 as Shape>⟧ ⟦<Box2Class as ReadKeys>⟧ ⟦<Box3 as Shape>⟧ ⟦<Box3Class as ReadKeys>⟧
        ⟦<QueueDisk as SectorDisk>⟧.state stage.old stage.new result }
{
    match stage {
        Stage::Plane(open) => open.settle(),
        Stage::Space(open) => open.settle(),
        _ => NOTHING,
    }
}

// Settles an index, and returns its device.
fn closed<K: ReadKeys + Probing>(had: Open<K>) -> (QueueDisk, u16)
    ensures { ClosesOpen K.Key.Shape K.ReadKeys ⟦<QueueDisk as SectorDisk>⟧.state had result.0 result.1 }
{
    let mut index = had;
    let status = index.settle();
    (index.into_disk(), status)
}

// Settles and closes whatever index is open.
fn close(stage: &mut Stage) -> u16
    ensures { ClosesEach ⟦<Box2 as Shape>⟧ ⟦<Box2Class as ReadKeys>⟧ ⟦<Box3 as Shape>⟧ ⟦<Box3Class as ReadKeys>⟧
        ⟦<QueueDisk as SectorDisk>⟧.state stage.old stage.new result }
{
    match stage.take() {
        Stage::Plane(open) => {
            let (disk, status) = closed(open);
            stage.put(Stage::Device(disk));
            status
        }
        Stage::Space(open) => {
            let (disk, status) = closed(open);
            stage.put(Stage::Device(disk));
            status
        }
        other => {
            stage.put(other);
            NOTHING
        }
    }
}

/// Opens the index of boxes of the plane on the device, with so many frames for pages, 16 to 4,096. The refusals of
/// `gx_restart::open`, with the device as the calls left it; and 18 if there is no device, or an index is open.
#[unsafe(no_mangle)]
pub extern "C" fn gx_c_open(alloc: Global, handle: &mut Handle, frames: usize) -> u16
    requires { IsCreated handle.old.held }
    ensures { OfStage (λ old new. OpensPlane (OpensAs ⟦<Box2 as Shape>⟧ ⟦<Box2Class as ReadKeys>⟧
        ⟦<QueueDisk as SectorDisk>⟧.state frames) old new result) handle.old.held handle.new.held }
{
    let mut held = handle.take(alloc);
    let status = open_plane(alloc, &mut held.stage, frames);
    handle.put(held);
    status
}

/// Opens the index of boxes of space on the device, as `gx_c_open` does one of the plane.
#[unsafe(no_mangle)]
pub extern "C" fn gx_c_open3(alloc: Global, handle: &mut Handle, frames: usize) -> u16
    requires { IsCreated handle.old.held }
    ensures { OfStage (λ old new. OpensSpace (OpensAs ⟦<Box3 as Shape>⟧ ⟦<Box3Class as ReadKeys>⟧
        ⟦<QueueDisk as SectorDisk>⟧.state frames) old new result) handle.old.held handle.new.held }
{
    let mut held = handle.take(alloc);
    let status = open_space(alloc, &mut held.stage, frames);
    handle.put(held);
    status
}

/// Gates all that is logged: the refusals of `Index::settle`, and 18 if no index is open.
#[unsafe(no_mangle)]
pub extern "C" fn gx_c_settle(alloc: Global, handle: &mut Handle) -> u16
    requires { IsCreated handle.old.held }
    ensures { OfStage (λ old new. SettlesEach ⟦<Box2 as Shape>⟧ ⟦<Box2Class as ReadKeys>⟧ ⟦<Box3 as Shape>⟧
        ⟦<Box3Class as ReadKeys>⟧ ⟦<QueueDisk as SectorDisk>⟧.state old new result) handle.old.held handle.new.held }
{
    let mut held = handle.take(alloc);
    let status = settle(&mut held.stage);
    handle.put(held);
    status
}

/// Gates all that is logged and closes the index, whatever the status: that of `gx_c_settle`. Its device is left, with
/// the calls that C has not had.
#[unsafe(no_mangle)]
pub extern "C" fn gx_c_close(alloc: Global, handle: &mut Handle) -> u16
    requires { IsCreated handle.old.held }
    ensures { OfStage (λ old new. ClosesEach ⟦<Box2 as Shape>⟧ ⟦<Box2Class as ReadKeys>⟧ ⟦<Box3 as Shape>⟧
        ⟦<Box3Class as ReadKeys>⟧ ⟦<QueueDisk as SectorDisk>⟧.state old new result) handle.old.held handle.new.held }
{
    let mut held = handle.take(alloc);
    let status = close(&mut held.stage);
    handle.put(held);
    status
}

//! Lays a new index down on a handle's device, and reads for which keys one is formatted.
ghost use Rattle.std.specs.Prelude.{◌≡◌, ◌≢◌};
ghost use Rattle.gx_c.specs.Formats.{FormatsFor, TellsClass};
ghost use Rattle.gx_c.specs.Stages.{IsCreated, OfDevice, OfStage};

use crate::handle::Handle;
use crate::held::Stage;
use crate::status::{NOTHING, refused, resulted};
use gx_class::{Box2Class, Box3Class, KeyClass, ReadKeys};
use gx_disk::SectorDisk;
use gx_queue_disk::QueueDisk;
use gx_restart::{class_of, format};
use std::alloc::Global;

// Formats a device for a class of keys.
fn format_disk<K: ReadKeys>(alloc: Global, disk: &mut QueueDisk, pages: u32, most: u16) -> u16
    ensures { FormatsFor K.ReadKeys ⟦<QueueDisk as SectorDisk>⟧.state pages most disk.old disk.new result }
{
    resulted(format::<QueueDisk, K>(alloc, disk, pages, most))
}

// Formats the device of a stage.
fn format_stage<K: ReadKeys>(alloc: Global, stage: &mut Stage, pages: u32, most: u16) -> u16
    ensures { OfDevice (FormatsFor K.ReadKeys ⟦<QueueDisk as SectorDisk>⟧.state pages most) stage.old stage.new
        result }
{
    match stage {
        Stage::Device(disk) => format_disk::<K>(alloc, disk, pages, most),
        _ => NOTHING,
    }
}

// Reads the class of a device.
fn class_in(disk: &mut QueueDisk, class: &mut u16) -> u16
    ensures tells { TellsClass ⟦<QueueDisk as SectorDisk>⟧.state class.old class.new disk.old disk.new result }
    ensures kept { result ≢ 0 → class.new ≡ class.old }
{
    match class_of(disk) {
        Ok(number) => {
            *class = number;
            0
        }
        Err(why) => refused(why),
    }
}

// Reads the class of a stage's device.
fn class_at(stage: &mut Stage, class: &mut u16) -> u16
    ensures tells { OfDevice (TellsClass ⟦<QueueDisk as SectorDisk>⟧.state class.old class.new) stage.old
        stage.new result }
    ensures kept { result ≢ 0 → class.new ≡ class.old }
{
    match stage {
        Stage::Device(disk) => class_in(disk, class),
        _ => NOTHING,
    }
}

/// Writes the class of keys that the device is formatted for: 1, boxes of the plane; 2, intervals; 3, boxes of space.
/// The refusals of `gx_restart::class_of`; and 18 if there is no device, or an index is open.
#[unsafe(no_mangle)]
pub extern "C" fn gx_c_class(alloc: Global, handle: &mut Handle, class: &mut u16) -> u16
    requires { IsCreated handle.old.held }
    ensures tells { OfStage (λ old new. OfDevice (TellsClass ⟦<QueueDisk as SectorDisk>⟧.state class.old class.new) old
        new result) handle.old.held handle.new.held }
    ensures kept { result ≢ 0 → class.new ≡ class.old }
{
    let mut held = handle.take(alloc);
    let status = class_at(&mut held.stage, class);
    handle.put(held);
    status
}

/// Lays a new index of boxes of the plane down on the device. The refusals of `gx_format::format`; and 18 if there is
/// no device, or an index is open.
#[unsafe(no_mangle)]
pub extern "C" fn gx_c_format(alloc: Global, handle: &mut Handle, pages: u32, most: u16) -> u16
    requires { IsCreated handle.old.held }
    ensures { OfStage (λ old new. OfDevice (FormatsFor ⟦<Box2Class as ReadKeys>⟧ ⟦<QueueDisk as SectorDisk>⟧.state
        pages most) old new result) handle.old.held handle.new.held }
{
    let mut held = handle.take(alloc);
    let status = format_stage::<Box2Class>(alloc, &mut held.stage, pages, most);
    handle.put(held);
    status
}

/// Lays a new index of boxes of space down on the device, as `gx_c_format` does one of the plane.
#[unsafe(no_mangle)]
pub extern "C" fn gx_c_format3(alloc: Global, handle: &mut Handle, pages: u32, most: u16) -> u16
    requires { IsCreated handle.old.held }
    ensures { OfStage (λ old new. OfDevice (FormatsFor ⟦<Box3Class as ReadKeys>⟧ ⟦<QueueDisk as SectorDisk>⟧.state
        pages most) old new result) handle.old.held handle.new.held }
{
    let mut held = handle.take(alloc);
    let status = format_stage::<Box3Class>(alloc, &mut held.stage, pages, most);
    handle.put(held);
    status
}

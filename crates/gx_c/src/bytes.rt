//! The bytes of a device, which come a piece at a time.
ghost use Rattle.gx_c.specs.Bytes.{AddsBytes, BeginsBytes, MakesDevice};
ghost use Rattle.gx_c.specs.Stages.{IsCreated, OfStage};

use crate::handle::Handle;
use crate::held::Stage;
use crate::status::{MEMORY, NOTHING};
use gx_queue_disk::{Image, QueueDisk};
use std::alloc::Global;

// Begins bytes, with room for so many.
fn reserve(alloc: Global, stage: &mut Stage, size: usize) -> u16
    ensures { BeginsBytes stage.old stage.new result }
{
    match stage {
        Stage::Empty => match Image::with_capacity(alloc, size) {
            Ok(image) => {
                stage.put(Stage::Bytes(image));
                0
            }
            Err(_) => MEMORY,
        },
        _ => NOTHING,
    }
}

// Adds bytes behind the others.
fn append(stage: &mut Stage, bytes: &[u8]) -> u16
    ensures { AddsBytes bytes.now stage.old stage.new result }
{
    match stage {
        Stage::Bytes(image) => match image.append(bytes) {
            Ok(()) => 0,
            Err(_) => MEMORY,
        },
        _ => NOTHING,
    }
}

// Makes the device of the bytes.
fn device(alloc: Global, stage: &mut Stage) -> u16
    ensures { MakesDevice stage.old stage.new result }
{
    match stage.take() {
        Stage::Bytes(image) => {
            stage.put(Stage::Device(QueueDisk::new(alloc, image)));
            0
        }
        other => {
            stage.put(other);
            NOTHING
        }
    }
}

/// Begins the bytes of a device, with room for so many. The status is 10 if there is no memory for them, and 18 if
/// bytes have come already; nothing is done then.
#[unsafe(no_mangle)]
pub extern "C" fn gx_c_reserve(alloc: Global, handle: &mut Handle, size: usize) -> u16
    requires { IsCreated handle.old.held }
    ensures { OfStage (λ old new. BeginsBytes old new result) handle.old.held handle.new.held }
{
    let mut held = handle.take(alloc);
    let status = reserve(alloc, &mut held.stage, size);
    handle.put(held);
    status
}

/// Adds bytes of the device behind those that came before. The status is 10 if there is no room and no memory for
/// them, and 18 if none were begun or the device is made; nothing is done then.
#[unsafe(no_mangle)]
pub extern "C" fn gx_c_append(alloc: Global, handle: &mut Handle, bytes: &[u8]) -> u16
    requires { IsCreated handle.old.held }
    ensures { OfStage (λ old new. AddsBytes bytes.now old new result) handle.old.held handle.new.held }
{
    let mut held = handle.take(alloc);
    let status = append(&mut held.stage, bytes);
    handle.put(held);
    status
}

/// Makes a device of the whole sectors of the bytes that came. The status is 18 if none were begun or it is made.
#[unsafe(no_mangle)]
pub extern "C" fn gx_c_device(alloc: Global, handle: &mut Handle) -> u16
    requires { IsCreated handle.old.held }
    ensures { OfStage (λ old new. MakesDevice old new result) handle.old.held handle.new.held }
{
    let mut held = handle.take(alloc);
    let status = device(alloc, &mut held.stage);
    handle.put(held);
    status
}

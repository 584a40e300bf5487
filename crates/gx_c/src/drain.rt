//! Gives C the calls of a handle's device, so that it makes them of its file.
ghost use Rattle.std.specs.Prelude.{◌≡◌, ◌≢◌, [], true, false};
ghost use Rattle.gx_c.specs.Stages.{IsCreated, OfHeld};
ghost use Rattle.gx_c.specs.Waiting.{DrainsOpen, DrainsStage, Puts, Rests, Tells, TellsNext, waiting};

use crate::handle::Handle;
use crate::held::{Held, Stage};
use crate::opened::Open;
use crate::status::NOTHING;
use gx_class::{Box2Class, Box3Class, ReadKeys};
use gx_disk::SectorDisk;
use gx_geom::{Box2, Box3, Shape};
use gx_queue_disk::{CallQueue, DeviceCall, QueueDisk, QueuesCalls};
use std::alloc::Global;

/// A call of the device: of no kind (0) if there is none, a write (1) of so many bytes from a sector on, or a sync (2).
#[repr(C)]
#[derive(Clone, Copy)]
pub struct SentCall {
    pub kind: u32,
    pub first: u64,
    pub size: usize,
}

/// No call.
const NONE: SentCall = SentCall {
    kind: 0,
    first: 0,
    size: 0,
};

// Drains the queue of an open index.
fn drain_open<K: ReadKeys>(index: &mut Open<K>, calls: &mut CallQueue)
    requires { calls.old ≡ [] }
    ensures { DrainsOpen K.Key.Shape K.ReadKeys ⟦<QueueDisk as SectorDisk>⟧.state index.old index.new calls.new }
{
    index.index.drain(calls);
}

// Drains the queue of a stage's device, if it has one.
fn drain(stage: &mut Stage, calls: &mut CallQueue)
    requires { calls.old ≡ [] }
    ensures { DrainsStage ⟦<Box2 as Shape>⟧ ⟦<Box2Class as ReadKeys>⟧ ⟦<Box3 as Shape>⟧ ⟦<Box3Class as ReadKeys>⟧
        ⟦<QueueDisk as SectorDisk>⟧.state stage.old stage.new calls.new }
{
    match stage {
        Stage::Device(disk) => disk.drain(calls),
        Stage::Plane(open) => drain_open(open, calls),
        Stage::Space(open) => drain_open(open, calls),
        _ => {}
    }
}

// Whether calls are left of those that were drained.
fn is_left(calls: &CallQueue) -> bool
    ensures some { result ≡ true → calls.now ≢ [] }
    ensures none { result ≡ false → calls.now ≡ [] }
{
    calls.front().is_some()
}

// Drains the queue if all that was drained before was taken.
fn refill(held: &mut Held)
    ensures same { waiting held.new ≡ waiting held.old }
    ensures all { held.new.calls ≡ [] → waiting held.new ≡ [] }
    ensures rests { Rests ⟦<Box2 as Shape>⟧ ⟦<Box2Class as ReadKeys>⟧ ⟦<Box3 as Shape>⟧ ⟦<Box3Class as ReadKeys>⟧
        ⟦<QueueDisk as SectorDisk>⟧.state held.old held.new }
{
    if is_left(&held.calls) {
        return;
    }
    drain(&mut held.stage, &mut held.calls);
}

// Puts the call in front where C has room for it, and its bytes if they fit.
fn put(front: Option<DeviceCall<'_>>, call: &mut SentCall, bytes: &mut [u8]) -> u16
    ensures { Puts front.entry call.new bytes.old bytes.new result }
{
    match front {
        None => {
            *call = NONE;
            0
        }
        Some(DeviceCall::Sync) => {
            *call = SentCall { kind: 2, ..NONE };
            0
        }
        Some(
            DeviceCall::Write {
                first,
                bytes: written,
            },
        ) => {
            let size = written.len();
            *call = SentCall {
                kind: 1,
                first,
                size,
            };
            if bytes.len() < size {
                return NOTHING;
            }
            bytes[..size].copy_from_slice(written);
            0
        }
    }
}

// Writes the call in front, and takes it away if its bytes fit.
fn tell(calls: &mut CallQueue, call: &mut SentCall, bytes: &mut [u8]) -> u16
    ensures { Tells calls.old calls.new call.new bytes.old bytes.new result }
{
    let status = put(calls.front(), call, bytes);
    if status != 0 {
        return status;
    }
    calls.pop();
    status
}

// Writes the next call.
fn tell_next(held: &mut Held, call: &mut SentCall, bytes: &mut [u8]) -> u16
    ensures { TellsNext ⟦<Box2 as Shape>⟧ ⟦<Box2Class as ReadKeys>⟧ ⟦<Box3 as Shape>⟧ ⟦<Box3Class as ReadKeys>⟧
        ⟦<QueueDisk as SectorDisk>⟧.state held.old held.new call.new bytes.old bytes.new result }
{
    refill(held);
    tell(&mut held.calls, call, bytes)
}

/// Gives C the first of the calls that the device made and C has not had, with the bytes of a write, and takes it away:
/// C gets the writes and syncs of a device in the order in which it made them, each once, with its bytes, and none
/// besides. Nothing of the index changes. The status is 18 if the bytes of a write have no room, which has to be
/// `size`; the call is not taken then.
#[unsafe(no_mangle)]
pub extern "C" fn gx_c_next(
    alloc: Global,
    handle: &mut Handle,
    call: &mut SentCall,
    bytes: &mut [u8],
) -> u16
    requires { IsCreated handle.old.held }
    ensures { OfHeld (λ old new. TellsNext ⟦<Box2 as Shape>⟧ ⟦<Box2Class as ReadKeys>⟧ ⟦<Box3 as Shape>⟧
        ⟦<Box3Class as ReadKeys>⟧ ⟦<QueueDisk as SectorDisk>⟧.state old new call.new bytes.old bytes.new result)
        handle.old.held handle.new.held }
{
    let mut held = handle.take(alloc);
    let status = tell_next(&mut held, call, bytes);
    handle.put(held);
    status
}

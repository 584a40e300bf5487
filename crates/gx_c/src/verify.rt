//! Verifies the index on a handle's device, and reports what it holds.
ghost use Rattle.std.specs.Prelude.{◌≡◌, ◌≢◌};
ghost use Rattle.gx_c.specs.Stages.{IsCreated, OfDevice, OfStage};
ghost use Rattle.gx_c.specs.Verified.{VerifiesAs};

use crate::handle::Handle;
use crate::held::Stage;
use crate::status::{NOTHING, refused};
use gx_class::{Box2Class, Box3Class, Probing, ReadKeys};
use gx_disk::SectorDisk;
use gx_geom::{Box2, Box3, Shape};
use gx_queue_disk::QueueDisk;
use gx_restart::verify;
use std::alloc::Global;

/// What an index holds: the number of its last commit, its entries, and its greatest page in use.
#[repr(C)]
#[derive(Clone, Copy)]
pub struct SentReport {
    pub commits: u64,
    pub entries: u64,
    pub used: u32,
}

// Verifies a device for a class of keys.
fn verify_disk<K: ReadKeys + Probing>(
    alloc: Global,
    disk: &mut QueueDisk,
    frames: usize,
    sent: &mut SentReport,
) -> u16
    ensures verifies { VerifiesAs K.Key.Shape K.ReadKeys ⟦<QueueDisk as SectorDisk>⟧.state frames sent.old sent.new
        disk.old disk.new result }
    ensures kept { result ≢ 0 → sent.new ≡ sent.old }
{
    match verify::<QueueDisk, K>(alloc, disk, frames) {
        Ok(report) => {
            *sent = SentReport {
                commits: report.commits,
                entries: report.entries,
                used: report.used,
            };
            0
        }
        Err(why) => refused(why),
    }
}

// Verifies the device of a stage.
fn verify_stage<K: ReadKeys + Probing>(
    alloc: Global,
    stage: &mut Stage,
    frames: usize,
    sent: &mut SentReport,
) -> u16
    ensures verifies { OfDevice (VerifiesAs K.Key.Shape K.ReadKeys ⟦<QueueDisk as SectorDisk>⟧.state frames sent.old
        sent.new) stage.old stage.new result }
    ensures kept { result ≢ 0 → sent.new ≡ sent.old }
{
    match stage {
        Stage::Device(disk) => verify_disk::<K>(alloc, disk, frames, sent),
        _ => NOTHING,
    }
}

/// Verifies the device as an index of boxes of the plane, with so many frames for pages, in a copy of it: no write and
/// no sync is made. The refusals of `gx_restart::verify`; and 18 if there is no device, or an index is open.
#[unsafe(no_mangle)]
pub extern "C" fn gx_c_verify(
    alloc: Global,
    handle: &mut Handle,
    frames: usize,
    sent: &mut SentReport,
) -> u16
    requires { IsCreated handle.old.held }
    ensures verifies { OfStage (λ old new. OfDevice (VerifiesAs ⟦<Box2 as Shape>⟧ ⟦<Box2Class as ReadKeys>⟧
        ⟦<QueueDisk as SectorDisk>⟧.state frames sent.old sent.new) old new result) handle.old.held handle.new.held }
    ensures kept { result ≢ 0 → sent.new ≡ sent.old }
{
    let mut held = handle.take(alloc);
    let status = verify_stage::<Box2Class>(alloc, &mut held.stage, frames, sent);
    handle.put(held);
    status
}

/// Verifies the device as an index of boxes of space, as `gx_c_verify` does as one of the plane.
#[unsafe(no_mangle)]
pub extern "C" fn gx_c_verify3(
    alloc: Global,
    handle: &mut Handle,
    frames: usize,
    sent: &mut SentReport,
) -> u16
    requires { IsCreated handle.old.held }
    ensures verifies { OfStage (λ old new. OfDevice (VerifiesAs ⟦<Box3 as Shape>⟧ ⟦<Box3Class as ReadKeys>⟧
        ⟦<QueueDisk as SectorDisk>⟧.state frames sent.old sent.new) old new result) handle.old.held handle.new.held }
    ensures kept { result ≢ 0 → sent.new ≡ sent.old }
{
    let mut held = handle.take(alloc);
    let status = verify_stage::<Box3Class>(alloc, &mut held.stage, frames, sent);
    handle.put(held);
    status
}

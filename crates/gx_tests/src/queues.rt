//! A device that keeps its calls in a queue: its calls succeed, and come out of the queue in the order in which they
//! were made.
use crate::asserts::{got, holds};
use gx_disk::SectorDisk;
use gx_queue_disk::{CallQueue, DeviceCall, Image, QueueDisk, QueuesCalls};
use std::process::Abort;

static ONE: [u8; 512] = [0x5a; 512];

static TWO: [u8; 1024] = [0xa7; 1024];

// Writes bytes from a sector on, and returns whether that was done.
fn writes<D: SectorDisk>(disk: &mut D, first: u64, bytes: &[u8]) -> bool {
    let size = bytes.len() as u64;
    let sectors = disk.sectors();
    if size == 0 || size % 512 != 0 || first > sectors || size / 512 > sectors - first {
        return false;
    }
    disk.write(first, bytes).is_ok()
}

// Drains a device into a queue, if that has no call.
fn refills<D: QueuesCalls>(disk: &mut D, calls: &mut CallQueue) -> bool {
    if calls.front().is_some() {
        return false;
    }
    disk.drain(calls);
    true
}

// Takes the first call, and returns whether it is a write of these bytes from this sector on.
fn wrote(calls: &mut CallQueue, at: u64, wanted: &[u8]) -> bool {
    let found = match calls.front() {
        Some(DeviceCall::Write { first, bytes }) => first == at && bytes == wanted,
        Some(DeviceCall::Sync) | None => false,
    };
    calls.pop();
    found
}

// Takes the first call, and returns whether it is a sync.
fn synced(calls: &mut CallQueue) -> bool {
    let found = matches!(calls.front(), Some(DeviceCall::Sync));
    calls.pop();
    found
}

// A device of eight sectors.
fn eight_sectors<R: Abort + AllocGlobal>(rt: &R) -> QueueDisk {
    let mut image = got(rt, Image::with_capacity(rt.alloc(), 4096));
    for _ in 0..8 {
        got(rt, image.append(&ONE));
    }
    QueueDisk::new(rt.alloc(), image)
}

#[test]
fn calls_come_out_as_they_were_made(rt: HostRuntime) {
    let mut disk = eight_sectors(&rt);
    let mut calls = CallQueue::new(rt.alloc());
    holds(&rt, writes(&mut disk, 6, &TWO));
    holds(&rt, disk.sync().is_ok());
    holds(&rt, writes(&mut disk, 0, &ONE));
    holds(&rt, refills(&mut disk, &mut calls));
    holds(&rt, wrote(&mut calls, 6, &TWO));
    holds(&rt, synced(&mut calls));
    holds(&rt, wrote(&mut calls, 0, &ONE));
    holds(&rt, refills(&mut disk, &mut calls));
    holds(&rt, calls.front().is_none());
    holds(&rt, disk.sync().is_ok());
    holds(&rt, refills(&mut disk, &mut calls));
    holds(&rt, synced(&mut calls));
}

//! An opening that stops at each of its writes and syncs, and the next one too: the set stays.
use crate::again::{copy_of, stands};
use crate::fault::RunFault;
use crate::listing::DeviceCall;
use crate::ran::{new_device, run_failing, run_whole};
use crate::replies::is_told;
use crate::upward::Setting;
use crate::ways::{Left, Way};
use gx_disk::MemDisk;
use std::alloc::Global;

/// How many stops there were of the first opening and of the second, and the number that was found after each.
#[derive(Clone, Copy)]
pub(crate) struct Twice {
    pub(crate) first: u64,
    pub(crate) second: u64,
    pub(crate) number: u64,
}

/// A write or sync at which an opening stops, and whether it is made if it is a write.
#[derive(Clone, Copy)]
struct Stop {
    call: u64,
    is_done: bool,
}

/// What a stop left, and how many sectors weren't synced as the crash came.
#[derive(Drop)]
struct Found {
    disk: MemDisk,
    unsynced: usize,
}

// The stops of an opening: at each write, which is made or isn't, and at each sync.
fn stops_of(alloc: Global, disk: &mut MemDisk, frames: usize) -> Result<Vec<Stop>, RunFault> {
    let ran = run_whole(alloc, copy_of(alloc, disk)?, frames, &[], true)?;
    if ran.calls.len() as u64 != ran.passed {
        return Err(RunFault::Memory);
    }
    let mut stops = Vec::new(alloc);
    for (place, kind) in ran.calls.iter().enumerate() {
        let ways: &[bool] = match kind {
            DeviceCall::Read => &[],
            DeviceCall::Write(_) => &[false, true],
            DeviceCall::Sync => &[false],
        };
        for is_done in ways {
            stops.push(Stop {
                call: place as u64,
                is_done: *is_done,
            })?;
        }
    }
    Ok(stops)
}

// Stops the opening of a device, and crashes it.
fn stopped(
    alloc: Global,
    disk: &mut MemDisk,
    frames: usize,
    stop: Stop,
    left: Left,
) -> Result<Found, RunFault> {
    let Stop { call, is_done } = stop;
    let way = Way::stop(is_done, left);
    let ran = run_failing(alloc, copy_of(alloc, disk)?, frames, &[], call, way)?;
    if ran.passed != call || !is_told(&[], &[], &ran) {
        return Err(RunFault::Calls(call));
    }
    let mut disk = ran.disk;
    let unsynced = disk.unsynced();
    left.crash(&mut disk);
    Ok(Found { disk, unsynced })
}

// Stops the second opening, at each of its writes and syncs and with each crash. If all was synced the crashes are the
// same.
fn stop_second(
    alloc: Global,
    setting: Setting<'_>,
    disk: &mut MemDisk,
    twice: &mut Twice,
) -> Result<(), RunFault> {
    let Setting {
        frames,
        expected,
        ..
    } = setting;
    for stop in stops_of(alloc, disk, frames)?.iter() {
        for left in Left::ALL {
            let found = stopped(alloc, disk, frames, *stop, left)?;
            let sets = &expected.sets;
            stands(alloc, found.disk, frames, sets, twice.number, twice.number)?;
            twice.second = twice.second.saturating_add(1);
            if found.unsynced == 0 {
                break;
            }
        }
    }
    Ok(())
}

/// Runs a script to its end; then the opening of the device that it left stops at each write and sync, and the next
/// opening at each of its own.
pub(crate) fn stop_twice(alloc: Global, setting: Setting<'_>) -> Result<Twice, RunFault> {
    let Setting { frames, script, .. } = setting;
    let ran = run_whole(alloc, new_device(alloc)?, frames, script, true)?;
    let mut twice = Twice {
        first: 0,
        second: 0,
        number: ran.sealed,
    };
    let mut disk = ran.disk;
    Left::Old.crash(&mut disk);
    for stop in stops_of(alloc, &mut disk, frames)?.iter() {
        for left in Left::ALL {
            let mut found = stopped(alloc, &mut disk, frames, *stop, left)?;
            twice.first = twice.first.saturating_add(1);
            stop_second(alloc, setting, &mut found.disk, &mut twice)?;
            if found.unsynced == 0 {
                break;
            }
        }
    }
    Ok(twice)
}

//! A script on a device of which a call fails.
use crate::fault::RunFault;
use crate::listing::{DeviceCall, ListingDisk};
use crate::ways::Way;
use gx_class::Box2Class;
use gx_disk::{FuseDisk, MemDisk};
use gx_engine::{Engine, NotOpened};
use gx_format::{format, sectors_for};
use gx_geom::Refusal;
use gx_restart::{Index, Noted, open, run_script};
use std::alloc::Global;

/// How many pages a device has, and how many entries a node.
const PAGES: u32 = 128;

const MOST: u16 = 4;

// A device of which a call fails, and that lists those that don't.
type Device = FuseDisk<ListingDisk<MemDisk>>;

/// How a run ended.
#[derive(Clone, Copy, PartialEq, Eq)]
pub(crate) enum End {
    /// The index wasn't opened.
    NotOpened(Refusal),
    /// The script was asked, and what was logged was then not settled.
    NotSettled(Refusal),
    /// The script was asked, and all is settled.
    Settled,
}

/// What became of a script on a device.
#[derive(Drop)]
pub(crate) struct Ran {
    /// The device as the calls left it.
    pub(crate) disk: MemDisk,
    /// How many calls of it were made before the one that failed, and, if none did, which.
    pub(crate) passed: u64,
    pub(crate) calls: Vec<DeviceCall>,
    /// What the script was answered.
    pub(crate) replies: Vec<u8>,
    /// How many commits were sealed; none if the index wasn't opened.
    pub(crate) sealed: u64,
    pub(crate) end: End,
}

/// A new index.
pub(crate) fn new_device(alloc: Global) -> Result<MemDisk, RunFault> {
    let sectors = usize::try_from(sectors_for(PAGES)).unwrap_or(0);
    let mut disk = MemDisk::new(alloc, sectors)?;
    match format::<MemDisk, Box2Class>(alloc, &mut disk, PAGES, MOST) {
        Ok(()) => Ok(disk),
        Err(why) => Err(RunFault::NotOpened(why)),
    }
}

// What a device is after a run.
fn ended(device: Device, replies: Vec<u8>, sealed: u64, end: End) -> Ran {
    let passed = device.calls();
    let (disk, calls) = device.into_inner().into_parts();
    Ran {
        disk,
        passed,
        calls,
        replies,
        sealed,
        end,
    }
}

// Asks an engine a script, and settles what is logged then, or doesn't.
fn run_on(
    alloc: Global,
    engine: Engine<Device, Box2Class>,
    script: &[u8],
    is_settled: bool,
) -> Result<Ran, RunFault> {
    let mut index = Index::new(engine);
    let mut replies = Vec::new(alloc);
    run_script(
        &mut Noted::new(script),
        &mut Noted::new(&mut replies),
        &mut index,
    )?;
    let end = if is_settled {
        match index.settle() {
            Ok(()) => End::Settled,
            Err(why) => End::NotSettled(why),
        }
    } else {
        End::Settled
    };
    let engine = index.into_engine();
    let sealed = engine.commits();
    Ok(ended(engine.into_disk(), replies, sealed, end))
}

// Opens a device, and runs a script on it.
fn run_over(
    alloc: Global,
    device: Device,
    frames: usize,
    script: &[u8],
    is_settled: bool,
) -> Result<Ran, RunFault> {
    match open::<Device, Box2Class>(alloc, device, frames) {
        Ok(engine) => run_on(alloc, engine, script, is_settled),
        Err(refused) => {
            let NotOpened { why, disk } = refused;
            Ok(ended(disk, Vec::new(alloc), 0, End::NotOpened(why)))
        }
    }
}

/// Opens a device of which a call fails, runs a script on it, and settles what is logged.
pub(crate) fn run_failing(
    alloc: Global,
    disk: MemDisk,
    frames: usize,
    script: &[u8],
    call: u64,
    way: Way,
) -> Result<Ran, RunFault> {
    let inner = ListingDisk::new(alloc, disk);
    let device = FuseDisk::new(inner, call, way.fuse, way.is_done);
    run_over(alloc, device, frames, script, true)
}

/// Opens a device of which no call fails, runs a script on it, and settles what is logged or doesn't.
pub(crate) fn run_whole(
    alloc: Global,
    disk: MemDisk,
    frames: usize,
    script: &[u8],
    is_settled: bool,
) -> Result<Ran, RunFault> {
    let inner = ListingDisk::new(alloc, disk);
    let device = FuseDisk::new(inner, u64::MAX, gx_disk::Fuse::Once, false);
    let ran = run_over(alloc, device, frames, script, is_settled)?;
    match ran.end {
        End::Settled => Ok(ran),
        End::NotOpened(why) | End::NotSettled(why) => Err(RunFault::NotOpened(why)),
    }
}

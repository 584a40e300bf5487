//! How a run ends: what a crash leaves of the device, read back.
ghost use Rattle.std.specs.Prelude.{◌≡◌, length, IfOk};

use crate::storage::counts::Counts;
use crate::storage::draw::below;
use crate::storage::fault::{StorageFault, What};
use crate::storage::run::{Expected, Failing, Run, Setting, start};
use gx_disk::{MemDisk, SectorDisk, Torn};
use gx_glog::Stage;
use gx_plain_reader::{Damage, Reading, read};
use rand_pcg::Pcg32;
use std::alloc::{AllocError, Global};

/// What a crash leaves of the sectors that weren't synced.
#[derive(Clone, Copy)]
enum Left {
    Old,
    New,
    Mixed,
}

/// What was read back of a run.
#[derive(Clone, Copy)]
pub(crate) enum Stood {
    /// What is gated.
    Gated,
    /// The batch in flight too.
    Flight,
}

/// What a crash leaves of a sector.
fn draw_torn(draw: &mut Pcg32) -> Torn {
    match below(draw, 8) {
        0 => Torn::Bytes([0xA7; 512]),
        1 => Torn::Bytes([0x5A; 512]),
        2 => Torn::Bytes([0; 512]),
        3..=5 => Torn::Old,
        _ => Torn::New,
    }
}

/// Crashes a device, and returns what was left.
fn crash(alloc: Global, disk: &mut MemDisk, draw: &mut Pcg32) -> Result<Left, StorageFault> {
    let mut torn = Vec::new(alloc);
    let left = match below(draw, 4) {
        0 => Left::Old,
        1 => Left::New,
        _ => Left::Mixed,
    };
    for _choice in 0..below(draw, 7).saturating_add(1) {
        torn.push(match left {
            Left::Old => Torn::Old,
            Left::New => Torn::New,
            Left::Mixed => draw_torn(draw),
        })?;
    }
    disk.crash(&torn);
    Ok(left)
}

/// So many bytes.
fn zeros(alloc: Global, size: usize) -> Result<Vec<u8>, AllocError>
    ensures { IfOk result (λ bytes. length bytes.items ≡ size) }
{
    vec![in alloc; 0; size]
}

/// The bytes of a device.
fn image(alloc: Global, disk: &mut MemDisk) -> Result<Vec<u8>, StorageFault> {
    let sectors = disk.sectors();
    let mut bytes = zeros(
        alloc,
        usize::try_from(sectors).unwrap_or(0).saturating_mul(512),
    )?;
    let whole = (bytes.len() / 512) as u64;
    if bytes.is_empty() || bytes.len() % 512 != 0 || whole > sectors {
        return Err(StorageFault::Unexpected(What::ReadBack));
    }
    match disk.read(0, &mut bytes) {
        Ok(()) => Ok(bytes),
        Err(_) => Err(StorageFault::Unexpected(What::ReadBack)),
    }
}

/// What the plain reader finds on a device.
fn read_back(alloc: Global, disk: &mut MemDisk) -> Result<Reading, StorageFault> {
    let bytes = image(alloc, disk)?;
    match read(alloc, &bytes, 1) {
        Ok(reading) => Ok(reading),
        Err(Damage::Memory) => Err(StorageFault::Memory),
        Err(damage) => Err(StorageFault::Differs(What::ReadBack, u64::from(damage as u8))),
    }
}

/// What was read back, if it is one of those that are expected.
fn judge(expected: &Expected, left: Left, found: &Reading) -> Result<Stood, StorageFault> {
    let Some(flight) = &expected.flight else {
        expected.gated.stands(found)?;
        return Ok(Stood::Gated);
    };
    let is_settled = expected.last == Stage::GateSync;
    if expected.gate_written && (is_settled || matches!(left, Left::New)) {
        flight.stands(found)?;
        return Ok(Stood::Flight);
    }
    if expected.gate_written && matches!(left, Left::Mixed) && flight.stands(found).is_ok() {
        return Ok(Stood::Flight);
    }
    expected.gated.stands(found)?;
    Ok(Stood::Gated)
}

/// The machine crashes: what is left, as the plain reader finds it.
fn crash_and_read(
    alloc: Global,
    mut disk: MemDisk,
    draw: &mut Pcg32,
) -> Result<(Left, Reading), StorageFault> {
    let left = crash(alloc, &mut disk, draw)?;
    let found = read_back(alloc, &mut disk)?;
    Ok((left, found))
}

/// Ends a run: the machine crashes, and what it leaves is read back.
fn end_run(run: Run) -> Result<Stood, StorageFault> {
    let alloc = run.alloc;
    let (disk, expected, mut draw) = run.into_parts();
    let (left, found) = crash_and_read(alloc, disk, &mut draw)?;
    judge(&expected, left, &found)
}

/// Takes the steps of a run, and gates all at its end.
fn take_steps(run: &mut Run, steps: u64) -> Result<(), StorageFault> {
    for _step in 0..steps {
        run.take_step()?;
    }
    run.gate_all()
}

/// Whether a run came to its end, or the machine stopped.
fn came_to_its_end(taken: Result<(), StorageFault>) -> Result<bool, StorageFault> {
    match taken {
        Ok(()) => Ok(true),
        Err(StorageFault::Stopped) => Ok(false),
        Err(fault) => Err(fault),
    }
}

/// Makes a run. Returns whether it came to its end, what was read back then, and how often each thing was done.
pub(crate) fn make_run(
    alloc: Global,
    setting: Setting,
    failing: Failing,
) -> Result<(bool, Stood, Counts), StorageFault> {
    let mut run = start(alloc, setting, failing)?;
    let taken = take_steps(&mut run, setting.steps);
    let counts = run.counts;
    let stood = end_run(run);
    Ok((came_to_its_end(taken)?, stood?, counts))
}

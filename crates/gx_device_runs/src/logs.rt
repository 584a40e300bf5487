//! A log on a device: records appended, and the calls of its batches and turns.
ghost use Rattle.gx_record.specs.Format.{IsInRange};
ghost use Rattle.gx_record.specs.Seen.{rec_of};

use crate::devices::{Device, blank};
use crate::fault::RunFault;
use crate::words::{Line, Part, say, say_number, say_parts};
use gx_disk::{PAGES_AT, SectorDisk};
use gx_geom::Refusal;
use gx_glog::{Appended, Extent, Glog, PLACES};
use gx_record::Record;
use std::alloc::Global;

/// A device with a log.
#[derive(Drop)]
pub(crate) struct Logged {
    pub(crate) disk: Device,
    pub(crate) log: Glog,
}

impl Logged {
    /// A device of zeros, and a log that begins in extent A.
    pub(crate) fn new(alloc: Global, sectors: usize) -> Result<Logged, RunFault> {
        let log = Glog::start(alloc, Extent::A, 0)?;
        let disk = blank(alloc, sectors)?;
        Ok(Logged { disk, log })
    }
}

/// What is made call by call.
#[derive(Clone, Copy)]
pub(crate) enum Work {
    Batch,
    Turn,
}

impl Work {
    /// How many device calls it has.
    pub(crate) fn calls(self) -> u64 {
        match self {
            Work::Batch => 4,
            Work::Turn => 7,
        }
    }
}

/// Whether a call was made; false if the device failed.
fn is_made<T: Copy>(answer: Result<T, Refusal>) -> Result<bool, RunFault> {
    match answer {
        Ok(_) => Ok(true),
        Err(Refusal::Device) => Ok(false),
        Err(_) => Err(RunFault::Unexpected),
    }
}

/// Makes the next call of a batch.
fn step<D: SectorDisk>(log: &mut Glog, disk: &mut D) -> Result<bool, RunFault> {
    if disk.sectors() < PAGES_AT {
        return Err(RunFault::BadLine);
    }
    is_made(log.log_step(disk))
}

/// Makes the next call of a turn.
fn turn<D: SectorDisk>(log: &mut Glog, disk: &mut D) -> Result<bool, RunFault> {
    if disk.sectors() < PAGES_AT || !log.is_idle() || !log.has_head() {
        return Err(RunFault::BadLine);
    }
    is_made(log.turn_step(disk))
}

/// Makes the next call.
pub(crate) fn make<D: SectorDisk>(
    work: Work,
    log: &mut Glog,
    disk: &mut D,
) -> Result<bool, RunFault> {
    match work {
        Work::Batch => step(log, disk),
        Work::Turn => turn(log, disk),
    }
}

/// Makes the next calls, and returns how many of them the device made.
pub(crate) fn make_calls<D: SectorDisk>(
    work: Work,
    log: &mut Glog,
    disk: &mut D,
    calls: u64,
) -> Result<u64, RunFault> {
    let mut made = 0_u64;
    for _call in 0..calls {
        if make(work, log, disk)? {
            made = made.wrapping_add(1);
        }
    }
    Ok(made)
}

/// Puts a record into the log.
fn append(log: &mut Glog, logged: &Record<'_>) -> Result<Appended, RunFault>
    requires { IsInRange (rec_of logged.now) }
{
    if log.used() >= PLACES {
        return Err(RunFault::BadLine);
    }
    Ok(log.append(logged))
}

/// Puts the record of a commit into the log.
pub(crate) fn append_commit(log: &mut Glog, n: u64) -> Result<Appended, RunFault> {
    append(log, &Record::Commit { tx: 1, n })
}

/// Puts the counters of a fresh tree into the log.
pub(crate) fn append_counters(log: &mut Glog) -> Result<Appended, RunFault> {
    let counters = Record::Counters {
        n: 0,
        counter: 0,
        used: 2,
        next: 1,
    };
    append(log, &counters)
}

/// Puts the counters, with this commit number, first into the other extent.
pub(crate) fn put_head(log: &mut Glog, n: u64) -> Result<Appended, RunFault> {
    let counters = Record::Counters {
        n,
        counter: 0,
        used: 2,
        next: 2,
    };
    if !log.is_idle() {
        return Err(RunFault::BadLine);
    }
    Ok(log.put_first(&counters))
}

/// Puts so many commits into the log, and returns how many are in the batch of the next place.
fn fill(log: &mut Glog, records: u64) -> Result<u64, RunFault> {
    let next = Appended::At(u64::from(log.used()));
    let mut filled = 0_u64;
    for _record in 0..records {
        if append_commit(log, 1)? == next {
            filled = filled.wrapping_add(1);
        }
    }
    Ok(filled)
}

/// An extent by its name.
pub(crate) fn extent(name: &str) -> Extent {
    if name == "A" { Extent::A } else { Extent::B }
}

/// Begins a log in an extent of which so many places are used.
fn start(alloc: Global, extent: Extent, used: u64) -> Result<Glog, Refusal> {
    let used = u8::try_from(used).unwrap_or(PLACES);
    Glog::start(alloc, extent, used.min(PLACES))
}

/// Prints the place that a record went to.
fn say_appended<R: Print>(rt: &R, appended: Appended) -> Result<(), RunFault> {
    match appended {
        Appended::At(place) => say_parts(rt, &[Part::Text(" at"), Part::Number(place)]),
        Appended::NoRoom => say(rt, "no room"),
    }
}

/// Puts the record of a line into the log.
fn appended(log: &mut Glog, line: &Line<'_>) -> Result<Appended, RunFault> {
    match line.asked() {
        "counters" => append_counters(log),
        "commit" => append_commit(log, line.numbers[1]),
        _ => put_head(log, line.numbers[1]),
    }
}

/// A line that puts a record into the log.
pub(crate) fn put_record<R: Print>(
    rt: &R,
    log: &mut Glog,
    line: &Line<'_>,
) -> Result<(), RunFault> {
    say_appended(rt, appended(log, line)?)
}

/// Prints how many places are used, and how many bytes of the buffer are free.
fn say_room<R: Print>(rt: &R, log: &Glog) -> Result<(), RunFault> {
    say_parts(
        rt,
        &[
            Part::Number(u64::from(log.used())),
            Part::Text(" used,"),
            Part::Number(log.free() as u64),
            Part::Text(" bytes free"),
        ],
    )
}

/// Fills the log, or makes calls: how many records went with the next batch, or how many calls the device made.
fn make_by(logged: &mut Logged, name: &str, count: u64) -> Result<u64, RunFault> {
    let Logged { disk, log } = logged;
    match name {
        "fill" => fill(log, count),
        "steps" => make_calls(Work::Batch, log, disk, count),
        _ => make_calls(Work::Turn, log, disk, count),
    }
}

/// A line about the log.
pub(crate) fn call<R: Print>(
    rt: &R,
    alloc: Global,
    logged: &mut Logged,
    line: &Line<'_>,
) -> Result<(), RunFault> {
    let [_, count, used, ..] = line.numbers;
    match line.asked() {
        "start" => {
            logged.log = start(alloc, extent(line.words[1]), used)?;
            say_room(rt, &logged.log)
        }
        "room" => say_room(rt, &logged.log),
        name => say_number(rt, make_by(logged, name, count)?),
    }
}

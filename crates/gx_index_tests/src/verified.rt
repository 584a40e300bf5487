//! Devices in memory that are verified.
use crate::asserts::{got, holds};
use crate::devices::{formatted, index_over};
use crate::dumps::{ABORTED, SWEPT, writes, written};
use gx_class::Box2Class;
use gx_disk::{Fuse, FuseDisk, MemDisk, SectorDisk};
use gx_format::format;
use gx_geom::Refusal;
use gx_glog::Extent;
use gx_restart::{Report, verify};
use std::alloc::Global;
use std::process::Abort;

// A device.
#[derive(Clone, Copy)]
enum Made {
    // of so many sectors, all zeros
    Blank(usize),
    Formatted,
    // on which a script ran
    Written(&'static [u8]),
    CutOff,
    // in a sector of which, at this place, another byte was written
    Changed(u64, usize, u8),
    Longer,
}

fn make(alloc: Global, made: Made) -> Option<MemDisk> {
    match made {
        Made::Blank(sectors) => MemDisk::new(alloc, sectors).ok(),
        Made::Formatted => formatted(alloc),
        Made::Written(script) => written(alloc, script),
        Made::CutOff => cut_off(alloc),
        Made::Changed(sector, at, value) => with_byte(alloc, sector, at, value),
        Made::Longer => longer(alloc),
    }
}

// A device, how many frames there are, and what verifying it returns.
type Case = (Made, usize, Result<Report, Refusal>);

// Fails unless verifying each device returns this.
fn all_answer<T: Abort + AllocGlobal>(rt: &T, cases: &[Case]) {
    for (made, frames, wanted) in cases {
        let mut disk = got(rt, make(rt.alloc(), *made));
        let found = verify::<MemDisk, Box2Class>(rt.alloc(), &mut disk, *frames);
        holds(rt, found == *wanted);
    }
}

// It holds this.
fn holding(commits: u64, entries: u64, used: u32) -> Result<Report, Refusal> {
    Ok(Report {
        commits,
        entries,
        used,
    })
}

// A device whose last script was cut off in a transaction, which is in its log.
fn cut_off(alloc: Global) -> Option<MemDisk> {
    let mut index = index_over(alloc, written(alloc, SWEPT)?)?;
    let is_written = writes(
        &mut index,
        b"1 BEGIN\n1 INSERT 6 0 0 1 1\n1 DELETE 5 0 4 1 5\n",
    );
    let disk = index.into_engine().into_disk();
    if is_written { Some(disk) } else { None }
}

// What was inserted and aborted isn't counted, nor what was deleted, nor what a transaction wrote that was cut off.
#[test]
fn what_stands_is_counted(rt: HostRuntime) {
    let cases = [
        (Made::Formatted, 64, holding(0, 0, 2)),
        (Made::Written(ABORTED), 64, holding(0, 0, 3)),
        (Made::Written(SWEPT), 16, holding(3, 1, 2)),
        (Made::CutOff, 64, holding(3, 1, 2)),
    ];
    all_answer(&rt, &cases);
}

// A device of an index in which one byte was changed.
fn with_byte(alloc: Global, sector: u64, at: usize, value: u8) -> Option<MemDisk> {
    let mut disk = written(alloc, SWEPT)?;
    if disk.sectors() <= sector {
        return None;
    }
    let mut bytes = [0u8; 512];
    disk.read(sector, &mut bytes).ok()?;
    *bytes.get_mut(at)? = value;
    disk.write(sector, &bytes).ok()?;
    Some(disk)
}

// A device with eight sectors more than its index takes, which hold no page.
fn longer(alloc: Global) -> Option<MemDisk> {
    let mut disk = MemDisk::new(alloc, 16_784).ok()?;
    format::<MemDisk, Box2Class>(alloc, &mut disk, 16, 4).ok()?;
    if disk.sectors() != 16_784 {
        return None;
    }
    disk.write(16_776, &[7u8; 4096]).ok()?;
    Some(disk)
}

#[test]
fn refusals(rt: HostRuntime) {
    // the opening's checkpoint has turned the log to its other extent
    let body = Extent::B.bodies();
    let cases = [
        (Made::Blank(4231), 64, Err(Refusal::TooSmall)),
        (Made::Formatted, 15, Err(Refusal::BadParameter)),
        (Made::Changed(0, 0, 0), 64, Err(Refusal::NotFormatted)),
        (Made::Changed(0, 7, b'1'), 64, Err(Refusal::OldVersion)),
        (Made::Changed(1, 7, 9), 64, Err(Refusal::BadParameter)),
        (Made::Changed(1, 3, 17), 64, Err(Refusal::TooSmall)),
        (Made::Changed(body, 0, 255), 64, Err(Refusal::Damaged)),
        (Made::Longer, 64, holding(0, 0, 2)),
    ];
    all_answer(&rt, &cases);
}

// A device whose read of this number fails is refused with that. It is read three times and no more: its magic, its
// parameters, and the sectors that are copied.
#[test]
fn faults(rt: HostRuntime) {
    for calls in 0..4 {
        let inner = got(&rt, written(rt.alloc(), SWEPT));
        let mut disk = FuseDisk::new(inner, calls, Fuse::Once, false);
        let result = verify::<FuseDisk<MemDisk>, Box2Class>(rt.alloc(), &mut disk, 64);
        let is_refused = result == Err(Refusal::Device);
        holds(
            &rt,
            is_refused == (calls < 3) && result.is_ok() == (calls == 3),
        );
    }
}

//! Devices of boxes of space, of boxes of the plane, of intervals, and of none: which class each is of, and what
//! commands make of it.
use crate::asserts::{got, holds};
use crate::ended::Ended;
use gx_class::{Box2Class, Box3Class, IntervalClass, KeyClass};
use gx_commands::{Noted, dump_device, format_over, run_device, verify_device};
use gx_disk::{Fuse, FuseDisk, MemDisk, SectorDisk};
use gx_geom::Refusal;
use gx_restart::class_of;
use std::alloc::Global;
use std::process::Abort;

// How many sectors an index of 16 pages takes.
const SECTORS: usize = 16_776;

// A new device of a class of keys.
fn formatted<K: KeyClass>(alloc: Global) -> Option<MemDisk> {
    let mut disk = MemDisk::new(alloc, SECTORS).ok()?;
    let mut writer = Noted::new(Vec::new(alloc));
    let mut faults = Noted::new(Vec::new(alloc));
    let status = format_over::<MemDisk, K, _, _>(alloc, &mut disk, 16, 4, &mut writer, &mut faults);
    if status == 0 { Some(disk) } else { None }
}

// A new device of boxes of the plane, of which the eighth byte of this sector is then another.
fn changed(alloc: Global, sector: u64, value: u8) -> Option<MemDisk> {
    let mut disk = formatted::<Box2Class>(alloc)?;
    if disk.sectors() <= sector {
        return None;
    }
    let mut bytes = [0; 512];
    disk.read(sector, &mut bytes).ok()?;
    bytes[7] = value;
    disk.write(sector, &bytes).ok()?;
    Some(disk)
}

// A device.
#[derive(Clone, Copy)]
enum Made {
    // of so many sectors, all zeros
    Blank(usize),
    Plane,
    Lines,
    Space,
    // of boxes of the plane, but by its parameters of this class
    Renamed(u8),
    // of boxes of the plane, but by its magic of version 1
    Old,
}

fn make(alloc: Global, made: Made) -> Option<MemDisk> {
    match made {
        Made::Blank(sectors) => MemDisk::new(alloc, sectors).ok(),
        Made::Plane => formatted::<Box2Class>(alloc),
        Made::Lines => formatted::<IntervalClass>(alloc),
        Made::Space => formatted::<Box3Class>(alloc),
        Made::Renamed(class) => changed(alloc, 1, class),
        Made::Old => changed(alloc, 0, b'1'),
    }
}

// Devices, and the class of each.
static CLASSES: [(Made, Result<u16, Refusal>); 9] = [
    (Made::Blank(4231), Err(Refusal::TooSmall)),
    (Made::Blank(4232), Err(Refusal::NotFormatted)),
    (Made::Plane, Ok(1)),
    (Made::Lines, Ok(2)),
    (Made::Space, Ok(3)),
    (Made::Renamed(0), Err(Refusal::BadParameter)),
    (Made::Renamed(4), Err(Refusal::BadParameter)),
    (Made::Renamed(255), Err(Refusal::BadParameter)),
    (Made::Old, Err(Refusal::OldVersion)),
];

#[test]
fn classes(rt: HostRuntime) {
    for (made, class) in &CLASSES {
        let mut disk = got(&rt, make(rt.alloc(), *made));
        holds(&rt, class_of(&mut disk) == *class);
    }
}

// The class of a device whose call of this number fails. It is read twice and no more: its magic and its parameters.
static FAILED_READS: [(u64, Result<u16, Refusal>); 3] = [
    (0, Err(Refusal::Device)),
    (1, Err(Refusal::Device)),
    (2, Ok(3)),
];

#[test]
fn failed_reads(rt: HostRuntime) {
    for (calls, class) in &FAILED_READS {
        let inner = got(&rt, make(rt.alloc(), Made::Space));
        let mut disk = FuseDisk::new(inner, *calls, Fuse::Once, false);
        holds(&rt, class_of(&mut disk) == *class);
    }
}

fn run(alloc: Global, disk: MemDisk, script: &[u8]) -> (MemDisk, Ended) {
    let mut reader = Noted::new(script);
    let mut writer = Noted::new(Vec::new(alloc));
    let mut faults = Noted::new(Vec::new(alloc));
    let (disk, status) = run_device(alloc, disk, 16, &mut reader, &mut writer, &mut faults);
    let left = reader.inner.len();
    (disk, Ended::new(status, writer, faults, left))
}

fn dump(alloc: Global, disk: MemDisk) -> (MemDisk, Ended) {
    let mut writer = Noted::new(Vec::new(alloc));
    let mut faults = Noted::new(Vec::new(alloc));
    let (disk, status) = dump_device(alloc, disk, 16, &mut writer, &mut faults);
    (disk, Ended::new(status, writer, faults, 0))
}

fn verify(alloc: Global, disk: &mut MemDisk) -> Ended {
    let mut writer = Noted::new(Vec::new(alloc));
    let mut faults = Noted::new(Vec::new(alloc));
    let status = verify_device(alloc, disk, 16, &mut writer, &mut faults);
    Ended::new(status, writer, faults, 0)
}

// A command's status, and what it writes.
type Wanted = (u8, &'static [u8]);

// A device, a script, and what running it ends with; and a dump and a check of the device after it.
type Case = (Made, &'static [u8], Wanted, Wanted, Wanted);

const OF_SPACE: &[u8] = b"1 BEGIN\n1 INSERT 7 0 0 0 2 2 2\n1 OVERLAP 2 2 2 9 9 9\n1 COMMIT\n";

const NO_CLASS: Wanted = (1, b"refused 18 bad parameter\n");

const NOT_FORMATTED: Wanted = (1, b"refused 14 not formatted\n");

const OLD_VERSION: Wanted = (1, b"refused 21 old version\n");

static COMMANDS: [Case; 7] = [
    (
        Made::Space,
        OF_SPACE,
        (
            0,
            b"1 ok\n1 inserted\n1 found 1\n1 entry 7 0 0 0 2 2 2\n1 committed 1\n",
        ),
        (
            0,
            b"commits 1 used 2 counter 0\npage 1 level 1 nsn 0 right 0 count 1\nchild 2 0 0 0 2 2 2\npage 2 level 0 nsn 0 right 0 count 1\nentry 7 0 0 0 2 2 2 live\n",
        ),
        (0, b"ok commits 1 entries 1 used 2\n"),
    ),
    // four corners are no line here; each corner is an i32; and corners may be reversed in z
    (
        Made::Space,
        b"1 BEGIN\n1 OVERLAP 0 0 1 1\n1 OVERLAP 0 0 0 1 1 2147483648\n1 OVERLAP 0 0 0 1 1 -1\n1 OVERLAP 0 0 0 1 1 1\n",
        (
            0,
            b"1 ok\nline 2 bad\nline 3 bad\n1 refused 6 bad box\n1 found 0\n",
        ),
        (
            0,
            b"commits 0 used 2 counter 0\npage 1 level 1 nsn 0 right 0 count 1\nchild 2 0 0 0 0 0 0\npage 2 level 0 nsn 0 right 0 count 0\n",
        ),
        (0, b"ok commits 0 entries 0 used 2\n"),
    ),
    (
        Made::Plane,
        b"1 BEGIN\n1 INSERT 7 0 0 2 2\n1 OVERLAP 2 2 9 9\n1 COVERS 0 0 0 1 1 1\n1 COMMIT\n",
        (
            0,
            b"1 ok\n1 inserted\n1 found 1\n1 entry 7 0 0 2 2\nline 4 bad\n1 committed 1\n",
        ),
        (
            0,
            b"commits 1 used 2 counter 0\npage 1 level 1 nsn 0 right 0 count 1\nchild 2 0 0 2 2\npage 2 level 0 nsn 0 right 0 count 1\nentry 7 0 0 2 2 live\n",
        ),
        (0, b"ok commits 1 entries 1 used 2\n"),
    ),
    // an index of intervals, one of a class that there isn't, none, and one of version 1
    (Made::Renamed(2), OF_SPACE, NO_CLASS, NO_CLASS, NO_CLASS),
    (Made::Renamed(4), OF_SPACE, NO_CLASS, NO_CLASS, NO_CLASS),
    (
        Made::Blank(SECTORS),
        OF_SPACE,
        NOT_FORMATTED,
        NOT_FORMATTED,
        NOT_FORMATTED,
    ),
    (Made::Old, OF_SPACE, OLD_VERSION, OLD_VERSION, OLD_VERSION),
];

// Fails unless each command ends so.
fn all_end<T: Abort + AllocGlobal>(rt: &T, case: &Case) {
    let (made, script, run_ends, dump_ends, check_ends) = case;
    let disk = got(rt, make(rt.alloc(), *made));
    let (disk, ran) = run(rt.alloc(), disk, script);
    let (mut disk, dumped) = dump(rt.alloc(), disk);
    let checked = verify(rt.alloc(), &mut disk);
    holds(rt, ran.is(run_ends.0, run_ends.1));
    holds(rt, dumped.is(dump_ends.0, dump_ends.1));
    holds(rt, checked.is(check_ends.0, check_ends.1));
}

#[test]
fn commands(rt: HostRuntime) {
    for case in &COMMANDS {
        all_end(&rt, case);
    }
}

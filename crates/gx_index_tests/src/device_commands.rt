//! Commands over devices in memory: the status, what is written, what is read, and whether the user gets a message.

use crate::asserts::{got, holds};
use crate::ended::Ended;
use gx_class::Box2Class;
use gx_commands::{Noted, dump_over, format_over, run_over};
use gx_disk::{DiskFault, Fuse, FuseDisk, MemDisk, SectorDisk};
use std::alloc::Global;
use std::io::{self, Write};
use std::process::Abort;

// How many sectors an index of 16 pages takes.
const SECTORS: usize = 16_776;

// A device that counts its reads.
#[derive(Drop)]
struct Counted<D> {
    disk: D,
    reads: usize,
}

impl<D: SectorDisk> SectorDisk for Counted<D> {
    ghost state = { λ c. D.state c.disk };

    ghost whole = { λ c. D.whole c.disk };

    ghost counts_now = { λ c. D.counts_now c.disk };

    ghost only_now = { λ c. D.only_now c.disk };

    fn sectors(&self) -> u64 {
        self.disk.sectors()
    }

    fn read(&mut self, first: u64, buffer: &mut [u8]) -> Result<(), DiskFault> {
        self.reads = self.reads.saturating_add(1);
        self.disk.read(first, buffer)
    }

    fn write(&mut self, first: u64, bytes: &[u8]) -> Result<(), DiskFault> {
        self.disk.write(first, bytes)
    }

    fn sync(&mut self) -> Result<(), DiskFault> {
        self.disk.sync()
    }
}

// Runs a script over a device with so many frames. Returns the device.
fn run<D: SectorDisk + Drop>(alloc: Global, disk: D, frames: usize, script: &[u8]) -> (D, Ended) {
    let mut reader = Noted::new(script);
    let mut writer = Noted::new(Vec::new(alloc));
    let mut faults = Noted::new(Vec::new(alloc));
    let (disk, status) = run_over::<D, _, Box2Class, _, _, _>(
        alloc,
        disk,
        frames,
        &mut reader,
        &mut writer,
        &mut faults,
    );
    let left = reader.inner.len();
    (disk, Ended::new(status, writer, faults, left))
}

// A device is formatted.
fn format(alloc: Global, disk: &mut MemDisk, pages: u32, most: u16) -> Ended {
    let mut writer = Noted::new(Vec::new(alloc));
    let mut faults = Noted::new(Vec::new(alloc));
    let status = format_over::<MemDisk, Box2Class, _, _>(
        alloc,
        disk,
        pages,
        most,
        &mut writer,
        &mut faults,
    );
    Ended::new(status, writer, faults, 0)
}

// Dumps the tree of a device's index. Returns the device.
fn dump(alloc: Global, disk: MemDisk) -> (MemDisk, Ended) {
    let mut writer = Noted::new(Vec::new(alloc));
    let mut faults = Noted::new(Vec::new(alloc));
    let (disk, status) = dump_over::<MemDisk, _, Box2Class, _, _>(
        alloc,
        disk,
        16,
        &mut writer,
        &mut faults,
    );
    (disk, Ended::new(status, writer, faults, 0))
}

// A new device with an index of 16 pages.
fn fresh(alloc: Global) -> Option<MemDisk> {
    let mut disk = MemDisk::new(alloc, SECTORS).ok()?;
    if format(alloc, &mut disk, 16, 4).is(0, b"formatted pages 16 fanout 4\n") {
        Some(disk)
    } else {
        None
    }
}

// A script, and its replies.
type Case = (&'static [u8], &'static [u8]);

// Fails unless scripts over this device, one after another, are done and give these replies. Returns the device.
fn all_give<T: Abort + AllocGlobal>(rt: &T, disk: MemDisk, cases: &[Case]) -> MemDisk {
    let mut disk = disk;
    for (script, replies) in cases {
        let (next, ended) = run(rt.alloc(), disk, 16, script);
        holds(rt, ended.is(0, replies));
        disk = next;
    }
    disk
}

static FOUND_AGAIN: [Case; 3] = [
    (
        b"1 BEGIN\n1 INSERT 7 0 0 10 10\n1 COMMIT\n1 BEGIN\n1 OVERLAP 10 10 20 20\n",
        b"1 ok\n1 inserted\n1 committed 1\n1 ok\n1 found 1\n1 entry 7 0 0 10 10\n",
    ),
    (
        b"1 BEGIN\n1 OVERLAP 10 10 20 20\n1 INSERT 8 0 0 1 1\n",
        b"1 ok\n1 found 1\n1 entry 7 0 0 10 10\n1 inserted\n",
    ),
    (
        b"1 BEGIN\n1 OVERLAP 0 0 9 9\n1 INSERT 8 0 0 1 1\n1 COMMIT\n",
        b"1 ok\n1 found 1\n1 entry 7 0 0 10 10\n1 inserted\n1 committed 2\n",
    ),
];

#[test]
fn commits_are_found_again(rt: HostRuntime) {
    let disk = got(&rt, fresh(rt.alloc()));
    all_give(&rt, disk, &FOUND_AGAIN);
}

// A script that commits sixty rows, four of which have room in a node.
fn rows(alloc: Global) -> io::Result<Vec<u8>> {
    let mut script = Vec::new(alloc);
    writeln!(script, "1 BEGIN")?;
    for row in 0..60u32 {
        let (left, right) = (10 * row, 10 * row + 8);
        writeln!(script, "1 INSERT {row} {left} 0 {right} 5")?;
    }
    writeln!(script, "1 COMMIT")?;
    Ok(script)
}

// How often a device is read by a script with so many frames, which has to be done.
fn reads<T: Abort + AllocGlobal>(
    rt: &T,
    disk: MemDisk,
    frames: usize,
    script: &[u8],
) -> (MemDisk, usize) {
    let (counted, ended) = run(rt.alloc(), Counted { disk, reads: 0 }, frames, script);
    holds(rt, ended.status == 0);
    (counted.disk, counted.reads)
}

// There are as many frames as were asked for: 64 hold all leaves, so that a second search of them reads nothing; 16
// don't.
#[test]
fn frames_are_as_many_as_asked_for(rt: HostRuntime) {
    let rows = got(&rt, rows(rt.alloc()).ok());
    let mut disk = got(&rt, MemDisk::new(rt.alloc(), 16_648 + 8 * 64).ok());
    let formatted = format(rt.alloc(), &mut disk, 64, 4);
    holds(&rt, formatted.is(0, b"formatted pages 64 fanout 4\n"));
    let (disk, _) = reads(&rt, disk, 16, rows.as_slice());
    // (from here on an opening finds one body in the log)
    let (disk, _) = reads(&rt, disk, 16, b"");
    let once = b"1 BEGIN\n1 WITHIN 0 1 9999 2\n".as_slice();
    let twice = b"1 BEGIN\n1 WITHIN 0 1 9999 2\n1 WITHIN 0 1 9999 3\n".as_slice();
    let (disk, many_once) = reads(&rt, disk, 64, once);
    let (disk, many_twice) = reads(&rt, disk, 64, twice);
    let (disk, few_once) = reads(&rt, disk, 16, once);
    let (_, few_twice) = reads(&rt, disk, 16, twice);
    holds(&rt, many_twice == many_once && few_once < few_twice);
}

// How many sectors of zeros a device has, and what a script over it is refused with.
static SCRIPTS_REFUSED: [(usize, &[u8]); 2] = [
    (SECTORS, b"refused 14 not formatted\n"),
    (4000, b"refused 17 too small\n"),
];

// How many pages a format is to make, how many entries a node, and what it is refused with.
static FORMATS_REFUSED: [(u32, u16, &[u8]); 3] = [
    (7, 4, b"refused 18 bad parameter\n"),
    (16, 3, b"refused 18 bad parameter\n"),
    (17, 4, b"refused 17 too small\n"),
];

#[test]
fn refusals(rt: HostRuntime) {
    let script = b"1 BEGIN\n".as_slice();
    for (sectors, line) in &SCRIPTS_REFUSED {
        let disk = got(&rt, MemDisk::new(rt.alloc(), *sectors).ok());
        let (_, ended) = run(rt.alloc(), disk, 16, script);
        holds(&rt, ended.is(1, line) && ended.left == script.len());
    }
    let mut disk = got(&rt, MemDisk::new(rt.alloc(), SECTORS).ok());
    for (pages, most, line) in &FORMATS_REFUSED {
        let ended = format(rt.alloc(), &mut disk, *pages, *most);
        holds(&rt, ended.is(1, line));
    }
}

static BEFORE_DUMPS: [Case; 1] = [(
    b"1 BEGIN\n1 INSERT 7 0 0 10 10\n1 COMMIT\n1 BEGIN\n1 INSERT 8 5 5 6 6\n",
    b"1 ok\n1 inserted\n1 committed 1\n1 ok\n1 inserted\n",
)];

static BEHIND_DUMPS: [Case; 1] = [(
    b"1 BEGIN\n1 WITHIN 0 0 10 10\n1 INSERT 9 1 1 2 2\n1 COMMIT\n",
    b"1 ok\n1 found 1\n1 entry 7 0 0 10 10\n1 inserted\n1 committed 2\n",
)];

// The tree has what a transaction that was left open inserted, marked by the opening that undid it; and dumps change
// nothing for the script after them.
#[test]
fn trees_are_told(rt: HostRuntime) {
    let disk = got(&rt, fresh(rt.alloc()));
    let disk = all_give(&rt, disk, &BEFORE_DUMPS);
    let text =
        b"commits 1 used 2 counter 0\npage 1 level 1 nsn 0 right 0 count 1\nchild 2 0 0 10 10\npage 2 level 0 nsn 0 right 0 count 2\nentry 7 0 0 10 10 live\nentry 8 5 5 6 6 marked\n";
    let (disk, first) = dump(rt.alloc(), disk);
    let (disk, second) = dump(rt.alloc(), disk);
    holds(&rt, first.is(0, text) && second.is(0, text));
    all_give(&rt, disk, &BEHIND_DUMPS);
}

// A writer without room ends a dump, as does a device that isn't formatted.
#[test]
fn dumps_that_end_early(rt: HostRuntime) {
    let unformatted = got(&rt, MemDisk::new(rt.alloc(), SECTORS).ok());
    let (_, refused) = dump(rt.alloc(), unformatted);
    holds(&rt, refused.is(1, b"refused 14 not formatted\n"));
    let disk = got(&rt, fresh(rt.alloc()));
    let mut room = [0u8; 20];
    let mut told = [0u8; 1];
    let mut writer = Noted::new(room.as_mut_slice());
    let mut faults = Noted::new(told.as_mut_slice());
    let (_, status) = dump_over::<MemDisk, _, Box2Class, _, _>(
        rt.alloc(),
        disk,
        16,
        &mut writer,
        &mut faults,
    );
    holds(
        &rt,
        status == 1 && &room == b"commits 0 used 2 cou" && told != [0],
    );
}

// How a script over a device that fails may end, by where it first fails: in the opening, the insert, the commit, and
// the settling after it.
const ENDS: [&[u8]; 4] = [
    b"refused 11 device\n",
    b"1 ok\n1 refused 11 device\n1 refused 12 failed\n1 refused 12 failed\n1 refused 12 failed\n",
    b"1 ok\n1 inserted\n1 refused 11 device\n1 refused 12 failed\n1 refused 12 failed\n",
    b"1 ok\n1 inserted\n1 committed 1\n1 ok\n1 inserted\nrefused 11 device\n",
];

// A device fails at one of its calls and all later ones: at the first, at the second, and so on until none is left.
// Each place comes in turn.
#[test]
fn devices_that_fail(rt: HostRuntime) {
    let script = b"1 BEGIN\n1 INSERT 7 0 0 9 9\n1 COMMIT\n1 BEGIN\n1 INSERT 8 0 0 9 9\n".as_slice();
    let mut last = 0usize;
    for passed in 0..200 {
        let disk = got(&rt, fresh(rt.alloc()));
        let disk = FuseDisk::new(disk, passed, Fuse::ForEver, false);
        let (_, ended) = run(rt.alloc(), disk, 16, script);
        if ended.is(0, b"1 ok\n1 inserted\n1 committed 1\n1 ok\n1 inserted\n") {
            break;
        }
        let place = got(&rt, ENDS.iter().position(|end| ended.is(1, end)));
        holds(&rt, last <= place && place.saturating_sub(last) <= 1);
        last = place;
    }
    holds(&rt, last == 3);
}

//! How often an opening reads each page.
use crate::asserts::holds;
use gx_class::Box2Class;
use gx_disk::{DiskFault, MemDisk, SectorDisk};
use gx_engine::{Engine, drive, repeat};
use gx_events::Event;
use gx_format::{format, sectors_for};
use gx_geom::Box2;
use gx_machine::{Call, Entry, Reply};
use gx_restart::open;
use std::alloc::Global;

// How many pages the device has, and how many entries a node: so there are more leaves than frames.
const PAGES: u32 = 64;

const MOST: u16 = 4;

// The least number of frames.
const FRAMES: usize = 16;

// The first sector of a page.
fn first_sector(page: u32) -> u64 {
    16_640 + 8 * u64::from(page)
}

// Counts a read from this sector on, if that is a page's.
fn count(reads: &mut Vec<u32>, first: u64) {
    for page in 1..=PAGES {
        if first_sector(page) == first {
            if let Some(count) = reads.get_mut(page as usize) {
                *count = count.saturating_add(1);
            }
        }
    }
}

// A device that counts how often each page is read.
#[derive(Drop)]
struct Counted<D> {
    disk: D,
    reads: Vec<u32>,
}

impl<D: SectorDisk> SectorDisk for Counted<D> {
    ghost state = { λ c. D.state c.disk };

    ghost whole = { λ c. D.whole c.disk };

    ghost counts_now = { λ c. D.counts_now c.disk };

    ghost only_now = { λ c. D.only_now c.disk };

    fn sectors(&self) -> u64 {
        self.disk.sectors()
    }

    fn read(&mut self, first: u64, buffer: &mut [u8]) -> Result<(), DiskFault> {
        count(&mut self.reads, first);
        self.disk.read(first, buffer)
    }

    fn write(&mut self, first: u64, bytes: &[u8]) -> Result<(), DiskFault> {
        self.disk.write(first, bytes)
    }

    fn sync(&mut self) -> Result<(), DiskFault> {
        self.disk.sync()
    }
}

type CountedEngine = Engine<Counted<MemDisk>, Box2Class>;

// A device that counts from here on.
fn counting(alloc: Global, disk: MemDisk) -> Option<Counted<MemDisk>> {
    let reads = vec![in alloc; 0; PAGES as usize + 1].ok()?;
    Some(Counted { disk, reads })
}

// An engine over a device that counts from here on.
fn opened(alloc: Global, disk: MemDisk) -> Option<CountedEngine> {
    open::<Counted<MemDisk>, Box2Class>(alloc, counting(alloc, disk)?, FRAMES).ok()
}

// Inserts a row.
fn insert(engine: &mut CountedEngine, session: u8, row: u32) -> Option<()> {
    let left = i32::try_from(row).ok()?.checked_mul(10)?;
    let key = Box2::new(left, 0, left.checked_add(8)?, 5).ok()?;
    let entry = Entry {
        row: u64::from(row),
        key,
    };
    match drive(engine, session, Event::Ask(session, Call::Insert(entry)))? {
        Reply::Inserted => Some(()),
        _ => None,
    }
}

// Commits sixty rows.
fn commit_rows(engine: &mut CountedEngine) -> Option<()> {
    drive(engine, 1, Event::Ask(1, Call::Begin))?;
    for row in 0..60 {
        insert(engine, 1, row)?;
    }
    drive(engine, 1, Event::Ask(1, Call::Commit))?;
    Some(())
}

// A device with sixty committed rows, which was opened since, so that its log gives no page of theirs.
fn with_rows(alloc: Global) -> Option<MemDisk> {
    let sectors = usize::try_from(sectors_for(PAGES)).ok()?;
    let mut disk = MemDisk::new(alloc, sectors).ok()?;
    format::<MemDisk, Box2Class>(alloc, &mut disk, PAGES, MOST).ok()?;
    let mut engine = opened(alloc, disk)?;
    let committed = commit_rows(&mut engine);
    let disk = engine.into_disk().disk;
    committed?;
    let engine = opened(alloc, disk)?;
    Some(engine.into_disk().disk)
}

// Inserts a row whose commit doesn't come.
fn lose(engine: &mut CountedEngine) -> Option<()> {
    drive(engine, 2, Event::Ask(2, Call::Begin))?;
    insert(engine, 2, 77)?;
    repeat(engine, Event::LogStep)?.ok()
}

// The same with a row whose commit doesn't come.
fn with_a_loser(alloc: Global) -> Option<MemDisk> {
    let mut engine = opened(alloc, with_rows(alloc)?)?;
    let lost = lose(&mut engine);
    let mut disk = engine.into_disk().disk;
    disk.crash(&[]);
    lost?;
    Some(disk)
}

// How often an opening has read the page that it read most often, and how many pages it has read more than three times.
fn reads(alloc: Global, disk: Option<MemDisk>) -> Option<(u32, usize)> {
    let reads = opened(alloc, disk?)?.into_disk().reads;
    let often = reads.iter().filter(|count| **count > 3).count();
    Some((*reads.iter().max()?, often))
}

// A leaf is read beside its parent, for itself, and along the chain; and that of a row that is undone once more.
#[test]
fn each_page_is_read_three_times(rt: HostRuntime) {
    let alloc = rt.alloc();
    let calm = reads(alloc, with_rows(alloc));
    let undone = reads(alloc, with_a_loser(alloc));
    holds(&rt, calm == Some((3, 0)) && undone == Some((4, 1)));
}

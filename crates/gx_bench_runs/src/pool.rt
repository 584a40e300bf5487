//! Looks at pages of a file through frames: `hits`, with each page in a frame, or `misses`, with few of them. The sum
//! is of what the pages say.

mod looks;

use gx_disk::{FileDisk, PAGE_SECTORS, PAGES_AT, SectorDisk};
use gx_pool::Pool;
use looks::{Leaves, create_all, lay_all, look_at_many};
use std::fs::{File, Files};

/// The file, which is made where the program runs.
pub(crate) const FILE: &str = "pages.device";

/// How many pages and frames there are if each page has a frame.
const KEPT: u32 = 1024;

/// How many pages there are if few have a frame.
const PAGES: u32 = 4096;

/// How many frames there are then.
const FRAMES: usize = 64;

/// What is asked.
#[derive(Clone, Copy)]
pub(crate) enum Kind {
    /// Pages that are in frames.
    Hits,
    /// Pages of which few are.
    Misses,
}

impl Kind {
    /// The one of this name.
    pub(crate) fn named(word: &str) -> Option<Kind> {
        match word {
            "hits" => Some(Kind::Hits),
            "misses" => Some(Kind::Misses),
            _ => None,
        }
    }
}

/// Looks at pages that were made in frames.
fn look_at_kept<R: AllocGlobal>(rt: &R, disk: &mut FileDisk, looks: u64) -> Option<u64> {
    if disk.sectors() < PAGES_AT + PAGE_SECTORS * u64::from(KEPT) {
        return None;
    }
    let mut pool = Pool::with_capacity(rt.alloc(), KEPT as usize, Leaves).ok()?;
    create_all(&mut pool, KEPT);
    look_at_many(&mut pool, disk, KEPT, looks).ok()
}

/// Looks at pages of the file.
fn look_at_file<R: AllocGlobal>(rt: &R, disk: &mut FileDisk, looks: u64) -> Option<u64> {
    if disk.sectors() < PAGES_AT + PAGE_SECTORS * u64::from(PAGES) {
        return None;
    }
    let mut pool = Pool::with_capacity(rt.alloc(), FRAMES, Leaves).ok()?;
    lay_all(rt.alloc(), disk, PAGES)?;
    look_at_many(&mut pool, disk, PAGES, looks).ok()
}

/// Looks so often, and returns the sum. `None` if memory is refused or the file fails.
pub(crate) fn run<R: AllocGlobal + Files<File = File>>(
    rt: &R,
    kind: Kind,
    looks: u64,
) -> Option<u64> {
    let sectors = PAGES_AT + PAGE_SECTORS * u64::from(PAGES);
    let mut disk = FileDisk::create(rt, FILE, sectors).ok()?;
    match kind {
        Kind::Hits => look_at_kept(rt, &mut disk, looks),
        Kind::Misses => look_at_file(rt, &mut disk, looks),
    }
}

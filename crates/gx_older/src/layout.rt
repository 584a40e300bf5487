//! Where the parts of an index lay on a device of the first version, and where they lie now, in sectors.
ghost use Rattle.std.specs.Prelude.{◌≡◌};
ghost use Rattle.gx_older.specs.Renumbered.{older_sectors_of, part, parts_of};

use gx_disk::{LEAST_SECTORS, LOG_AT, MIN_PAGES, PAGE_SECTORS, PAGES_AT};
use gx_glog::{BODIES_A, BODIES_B, BODY_SECTORS, GATES_A, GATES_B};

/// How many batches an extent had places for.
pub const OLDER_PLACES: u64 = 32;

/// How many sectors an extent's bodies had.
pub const OLDER_BODIES: u64 = BODY_SECTORS * OLDER_PLACES;

/// The sector at which the bodies of extent A began, after its gates.
pub const OLDER_BODIES_A: u64 = LOG_AT + OLDER_PLACES;

/// The sector at which the gates of extent B began.
pub const OLDER_GATES_B: u64 = OLDER_BODIES_A + OLDER_BODIES;

/// The sector at which the bodies of extent B began.
pub const OLDER_BODIES_B: u64 = OLDER_GATES_B + OLDER_PLACES;

/// The sector at which page 1 began. Each page began where the one before ended.
pub const OLDER_PAGES_AT: u64 = OLDER_BODIES_B + OLDER_BODIES;

// No version's smallest index takes fewer sectors.
const _: () = prove!(OLDER_PAGES_AT + PAGE_SECTORS * MIN_PAGES as u64 == LEAST_SECTORS);

/// A run of sectors.
#[derive(Clone, Copy)]
pub struct Part {
    /// The first of them on a device of the first version.
    pub from: u64,
    /// The first of them now.
    pub to: u64,
    /// How many they are.
    pub sectors: u64,
}

/// How many sectors an index of so many pages took.
pub fn older_sectors_for(pages: u32) -> u64
    ensures { result ≡ older_sectors_of pages }
{
    OLDER_PAGES_AT + PAGE_SECTORS * u64::from(pages)
}

// So many sectors from one on, and the sector from which on they lie now.
fn run_of(from: u64, to: u64, sectors: u64) -> Part
    ensures { result ≡ part from to sectors }
{
    Part { from, to, sectors }
}

/// The parts of an index of so many pages: what lies in front of the log, each extent's gates and bodies, the pages.
pub(crate) fn parts(pages: u32) -> [Part; 6]
    ensures { result ≡ parts_of pages }
{
    [
        run_of(0, 0, LOG_AT),
        run_of(LOG_AT, GATES_A, OLDER_PLACES),
        run_of(OLDER_BODIES_A, BODIES_A, OLDER_BODIES),
        run_of(OLDER_GATES_B, GATES_B, OLDER_PLACES),
        run_of(OLDER_BODIES_B, BODIES_B, OLDER_BODIES),
        run_of(OLDER_PAGES_AT, PAGES_AT, PAGE_SECTORS * u64::from(pages)),
    ]
}

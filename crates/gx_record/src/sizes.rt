//! How many bytes the spellings of records have: one each for the kind, a count and a mark, two for a slot's number,
//! four for a page's and for how many pages are in use, eight for each other number, and a page's own for its image.

use gx_page::PAGE_SIZE;

/// A page's number and its image.
pub const NUMBERED_IMAGE: usize = 4 + PAGE_SIZE;

/// The bytes in front of the images in a record of pages.
pub const PAGES_HEAD: usize = 1 + 8 + 4 + 1;

/// A record of one page.
pub const PAGE_RECORD: usize = PAGES_HEAD + NUMBERED_IMAGE;

/// A record of three pages, as a split's: none has more.
pub const SPLIT_RECORD: usize = PAGES_HEAD + 3 * NUMBERED_IMAGE;

/// A write's record, without its key.
pub const WRITE_BESIDE_KEY: usize = 1 + 8 + 8 + 1 + 1 + NUMBERED_IMAGE;

/// A note's record, without its key.
pub const NOTE_BESIDE_KEY: usize = 1 + 8 + 8 + 1 + 4;

/// A commit's record.
pub const COMMIT_RECORD: usize = 1 + 8 + 8;

/// An end's record.
pub const END_RECORD: usize = 1 + 8;

/// A record of counters.
pub const COUNTERS_RECORD: usize = 1 + 8 + 8 + 4 + 8;

/// The record of a bit, without its key.
pub const BIT_BESIDE_KEY: usize = 1 + 8 + 8 + 1 + 1 + 4;

/// The record of an entry added, without its key.
pub const ADD_BESIDE_KEY: usize = 1 + 8 + 8 + 4;

/// The record of a key widened, without its key: none has less.
pub const WIDEN_BESIDE_KEY: usize = 1 + 4 + 2;

/// A sweep's record, without its slots.
pub const SWEEP_BESIDE_SLOTS: usize = 1 + 4 + 1;

/// The number of a slot.
pub const SLOT_NUMBER: usize = 2;

/// How many slots a sweep's record has at most.
pub const MOST_SLOTS: usize = 100;

//! Where the parts of an index lie on its device, in sectors: in front the magic, the parameters and the selector of
//! the log, then the log, and after it the pages.

/// The first sector of the log.
pub const LOG_AT: u64 = 8;

/// How many sectors the log has.
pub const LOG_SECTORS: u64 = 16_640;

/// The sector at which page 1 begins. Each page begins where the one before ends.
pub const PAGES_AT: u64 = LOG_AT + LOG_SECTORS;

/// How many sectors a page has.
pub const PAGE_SECTORS: u64 = 8;

/// How many pages an index has at least.
pub const MIN_PAGES: usize = 8;

/// How many pages an index has at most.
pub const MAX_PAGES: usize = 65_536;

/// How many sectors the smallest index takes.
pub const MIN_SECTORS: u64 = PAGES_AT + PAGE_SECTORS * MIN_PAGES as u64;

/// How many sectors the greatest index takes.
pub const MAX_SECTORS: u64 = PAGES_AT + PAGE_SECTORS * MAX_PAGES as u64;

/// How many sectors the smallest index of any version of the format takes. A device of fewer holds none, so this is
/// tested before its magic is read.
pub const LEAST_SECTORS: u64 = 4_232;

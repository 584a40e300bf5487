//! The places of a page's parts, in bytes from its start.

/// The count of slots, two bytes.
pub(crate) const COUNT: usize = 2;

/// The heap's start, two bytes.
pub(crate) const START: usize = 4;

/// The sequence number, eight bytes.
pub(crate) const NSN: usize = 8;

/// The number of the page to the right, four bytes.
pub(crate) const RIGHT: usize = 16;

/// The page's own number, four bytes.
pub(crate) const NUMBER: usize = 20;

/// The directory.
pub(crate) const DIRECTORY: usize = 32;

/// How many bytes a slot takes in the directory.
pub(crate) const SLOT: usize = 4;

/// The place of a slot's length, from the slot's start.
pub(crate) const LENGTH: usize = 2;

//! The first byte of each kind of record.

pub(crate) const PAGES: u8 = 1;

pub(crate) const WRITE: u8 = 2;

pub(crate) const COMMIT: u8 = 3;

pub(crate) const END: u8 = 4;

pub(crate) const COUNTERS: u8 = 5;

pub(crate) const NOTE: u8 = 6;

pub(crate) const BIT: u8 = 7;

pub(crate) const ADD: u8 = 8;

pub(crate) const WIDEN: u8 = 9;

pub(crate) const SWEEP: u8 = 10;

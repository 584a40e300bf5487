//! The device below the log and the pages: whole sectors, and what a crash may leave of them.
#![tactic(auto)]

mod device;
mod file;
mod fuse;
pub mod laws;
mod layout;
mod memory;
mod ram;
mod tally;
mod tear;

pub use device::{DiskFault, SECTOR_SIZE, SectorDisk};
pub use file::{FileDisk, SyncAhead};
pub use fuse::{Fuse, FuseDisk};
pub use layout::{
    LEAST_SECTORS, LOG_AT, LOG_SECTORS, MAX_PAGES, MAX_SECTORS, MIN_PAGES, MIN_SECTORS,
    PAGE_SECTORS, PAGES_AT,
};
pub use memory::{MemDisk, Torn};
pub use ram::RamDisk;

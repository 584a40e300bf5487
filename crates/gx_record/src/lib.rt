//! The records of the log, each with one spelling in bytes.
#![tactic(auto)]

mod decode;
mod encode;
pub mod laws;
mod mark;
mod pages;
mod record;
mod sizes;
mod slots;
mod tags;

pub use mark::Mark;
pub use pages::{PageImage, PageImages};
pub use record::Record;
pub use sizes::{
    ADD_BESIDE_KEY, BIT_BESIDE_KEY, COMMIT_RECORD, COUNTERS_RECORD, END_RECORD, MOST_SLOTS,
    NOTE_BESIDE_KEY, NUMBERED_IMAGE, PAGE_RECORD, PAGES_HEAD, SLOT_NUMBER, SPLIT_RECORD,
    SWEEP_BESIDE_SLOTS, WIDEN_BESIDE_KEY, WRITE_BESIDE_KEY,
};
pub use slots::Slots;

//! Why a run of the storage ends before its end.
use gx_geom::Refusal;
use gx_page::PageFault;
use std::alloc::{AllocError, AllocFailed};

/// What a call returned, or what the device has, if that isn't as expected.
#[derive(Clone, Copy)]
pub(crate) enum What {
    Base,
    Row,
    Tree,
    Descent,
    Addition,
    Mark,
    Right,
    Sweep,
    Split,
    Ending,
    Step,
    Log,
    PageWrite,
    Sync,
    Turn,
    Device,
    Refusal,
    ReadBack,
    PagesInUse,
    Counter,
    Commits,
    Next,
    Page,
    Set,
}

impl What {
    fn name(self) -> &'static str {
        match self {
            What::Base => "a run's beginning",
            What::Row => "a row, by its number",
            What::Tree => "the tree in memory",
            What::Descent => "a descent, by its page",
            What::Addition => "an addition",
            What::Mark => "a mark, by its page",
            What::Right => "the way to the right",
            What::Sweep => "a sweep, by its page",
            What::Split => "a split, by its page",
            What::Ending => "a commit or an end",
            What::Step => "a step",
            What::Log => "the log's calls",
            What::PageWrite => "a page's write",
            What::Sync => "a sync",
            What::Turn => "a turn",
            What::Device => "a call of the device",
            What::Refusal => "a refusal",
            What::ReadBack => "the bytes, by what the plain reader found",
            What::PagesInUse => "how many pages are in use",
            What::Counter => "the counter of splits",
            What::Commits => "the last commit's number",
            What::Next => "the next transaction's number",
            What::Page => "a page, by its number",
            What::Set => "the set, by how many are in it",
        }
    }
}

/// Why a run ends before its end.
#[derive(Clone, Copy)]
pub(crate) enum StorageFault {
    /// Memory was refused.
    Memory,
    /// The machine stopped at a call of the device.
    Stopped,
    /// No page is left for a split.
    PagesFull,
    /// A call answered what it never should.
    Unexpected(What),
    /// The device doesn't have what is expected: in what, and where.
    Differs(What, u64),
}

impl StorageFault {
    /// What it is about, and where.
    pub(crate) fn text_and_place(self) -> (&'static str, u64) {
        match self {
            StorageFault::Memory => ("memory", 0),
            StorageFault::Stopped => ("the machine", 0),
            StorageFault::PagesFull => ("pages full", 0),
            StorageFault::Unexpected(what) => (what.name(), 0),
            StorageFault::Differs(what, place) => (what.name(), place),
        }
    }
}

impl From<AllocError> for StorageFault {
    fn from(_fault: AllocError) -> StorageFault {
        StorageFault::Memory
    }
}

impl<T: Drop> From<AllocFailed<T>> for StorageFault {
    fn from(_fault: AllocFailed<T>) -> StorageFault {
        StorageFault::Memory
    }
}

impl From<PageFault> for StorageFault {
    fn from(_fault: PageFault) -> StorageFault {
        StorageFault::Memory
    }
}

impl From<Refusal> for StorageFault {
    fn from(refusal: Refusal) -> StorageFault {
        match refusal {
            Refusal::Memory => StorageFault::Memory,
            _ => StorageFault::Unexpected(What::Refusal),
        }
    }
}

//! Why a line stops the program.
use crate::storage::StorageFault;
use gx_disk::DiskFault;
use gx_geom::Refusal;
use gx_page::PageFault;
use std::alloc::{AllocError, AllocFailed};
use std::io;

/// Why a line stops the program.
#[derive(Clone, Copy)]
pub(crate) enum RunFault {
    /// No such line is known, or what it asks for isn't there.
    BadLine,
    /// Memory was refused.
    Memory,
    /// A line can't be read or written.
    Stream,
    /// The device failed.
    Device,
    /// What the device has can't be read.
    Damaged,
    /// A call answered what it never should.
    Unexpected,
    /// A run of the storage ended before its end.
    Storage(StorageFault),
}

impl RunFault {
    /// What it is about, and a number.
    pub(crate) fn text_and_place(self) -> (&'static str, u64) {
        match self {
            RunFault::BadLine => ("bad line", 0),
            RunFault::Memory => ("memory", 0),
            RunFault::Stream => ("stream", 0),
            RunFault::Device => ("device", 0),
            RunFault::Damaged => ("damaged", 0),
            RunFault::Unexpected => ("unexpected", 0),
            RunFault::Storage(fault) => fault.text_and_place(),
        }
    }
}

impl From<AllocError> for RunFault {
    fn from(_fault: AllocError) -> RunFault {
        RunFault::Memory
    }
}

impl<T: Drop> From<AllocFailed<T>> for RunFault {
    fn from(_fault: AllocFailed<T>) -> RunFault {
        RunFault::Memory
    }
}

impl From<PageFault> for RunFault {
    fn from(_fault: PageFault) -> RunFault {
        RunFault::Memory
    }
}

impl From<io::Error> for RunFault {
    fn from(_fault: io::Error) -> RunFault {
        RunFault::Stream
    }
}

impl From<Refusal> for RunFault {
    fn from(refusal: Refusal) -> RunFault {
        match refusal {
            Refusal::Memory => RunFault::Memory,
            Refusal::Device => RunFault::Device,
            Refusal::Damaged => RunFault::Damaged,
            _ => RunFault::Unexpected,
        }
    }
}

impl From<DiskFault> for RunFault {
    fn from(fault: DiskFault) -> RunFault {
        match fault {
            DiskFault::Memory => RunFault::Memory,
            _ => RunFault::Device,
        }
    }
}

impl From<StorageFault> for RunFault {
    fn from(fault: StorageFault) -> RunFault {
        RunFault::Storage(fault)
    }
}

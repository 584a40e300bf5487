//! What ends the program early.
use gx_disk::DiskFault;
use gx_geom::Refusal;
use std::alloc::{AllocError, AllocFailed};
use std::io;

/// What ends the program early.
#[derive(Clone, Copy, Debug)]
pub(crate) enum Trouble {
    /// A line hasn't two numbers, or asks for more threads than there are sessions.
    BadLine,
    /// The file can't be opened, or another program has it.
    File,
    /// The index can't be made, opened or settled, or refuses a call.
    Index,
    /// Memory was refused.
    Memory,
    /// A line can't be read or written.
    Stream,
}

impl From<DiskFault> for Trouble {
    fn from(_fault: DiskFault) -> Trouble {
        Trouble::File
    }
}

impl From<Refusal> for Trouble {
    fn from(_why: Refusal) -> Trouble {
        Trouble::Index
    }
}

impl From<AllocError> for Trouble {
    fn from(_fault: AllocError) -> Trouble {
        Trouble::Memory
    }
}

impl<T: Drop> From<AllocFailed<T>> for Trouble {
    fn from(_fault: AllocFailed<T>) -> Trouble {
        Trouble::Memory
    }
}

impl From<io::Error> for Trouble {
    fn from(_fault: io::Error) -> Trouble {
        Trouble::Stream
    }
}

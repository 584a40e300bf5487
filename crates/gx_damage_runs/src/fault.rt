//! Why a line stops the program.
use gx_geom::Refusal;
use gx_page::PageFault;
use gx_plain_reader::Damage;
use gx_restart::ScriptFault;
use std::alloc::{AllocError, AllocFailed};
use std::io;

/// Why a line stops the program.
#[derive(Clone, Copy)]
pub(crate) enum RunFault {
    /// No such line is known.
    BadLine,
    /// Memory was refused.
    Memory,
    /// A line can't be read or written.
    Stream,
    /// A call answered what it never should.
    Unexpected,
}

impl RunFault {
    pub(crate) fn name(self) -> &'static str {
        match self {
            RunFault::BadLine => "bad line",
            RunFault::Memory => "memory",
            RunFault::Stream => "stream",
            RunFault::Unexpected => "unexpected",
        }
    }
}

impl From<AllocError> for RunFault {
    fn from(_fault: AllocError) -> RunFault {
        RunFault::Memory
    }
}

impl<T: Drop> From<AllocFailed<T>> for RunFault {
    fn from(_fault: AllocFailed<T>) -> RunFault {
        RunFault::Memory
    }
}

impl From<PageFault> for RunFault {
    fn from(_fault: PageFault) -> RunFault {
        RunFault::Memory
    }
}

impl From<io::Error> for RunFault {
    fn from(_fault: io::Error) -> RunFault {
        RunFault::Stream
    }
}

impl From<ScriptFault> for RunFault {
    fn from(_fault: ScriptFault) -> RunFault {
        RunFault::Stream
    }
}

impl From<Refusal> for RunFault {
    fn from(refusal: Refusal) -> RunFault {
        match refusal {
            Refusal::Memory => RunFault::Memory,
            _ => RunFault::Unexpected,
        }
    }
}

impl From<Damage> for RunFault {
    fn from(damage: Damage) -> RunFault {
        match damage {
            Damage::Memory => RunFault::Memory,
            _ => RunFault::Unexpected,
        }
    }
}

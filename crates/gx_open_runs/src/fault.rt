//! Why a line stops the program.
use gx_geom::Refusal;
use gx_script::ScriptFault;
use std::alloc::{AllocError, AllocFailed};
use std::io;

/// Why runs end before their end.
#[derive(Clone, Copy)]
pub(crate) enum RunFault {
    /// No such line is known.
    BadLine,
    /// Memory was refused.
    Memory,
    /// A line can't be read or written.
    Stream,
    /// A device isn't opened.
    NotOpened(Refusal),
    /// The number of the last commit isn't one that may be.
    Number(u64),
    /// The set isn't the one of this number.
    Set(u64),
    /// A run of which this call fails makes another number of calls, or ends in another way.
    Calls(u64),
    /// It is answered otherwise.
    Replies(u64),
}

impl RunFault {
    /// A text for it, and a number.
    pub(crate) fn text_and_number(self) -> (&'static str, u64) {
        match self {
            RunFault::BadLine => ("a bad line", 0),
            RunFault::Memory => ("no memory", 0),
            RunFault::Stream => ("a stream", 0),
            RunFault::NotOpened(why) => ("not opened, by refusal", u64::from(why.number())),
            RunFault::Number(number) => ("another number", number),
            RunFault::Set(number) => ("another set at number", number),
            RunFault::Calls(call) => ("other calls where this one fails:", call),
            RunFault::Replies(call) => ("other replies where this call fails:", call),
        }
    }
}

impl From<AllocError> for RunFault {
    fn from(_fault: AllocError) -> RunFault {
        RunFault::Memory
    }
}

impl<T: Drop> From<AllocFailed<T>> for RunFault {
    fn from(_fault: AllocFailed<T>) -> RunFault {
        RunFault::Memory
    }
}

impl From<io::Error> for RunFault {
    fn from(_fault: io::Error) -> RunFault {
        RunFault::Stream
    }
}

impl From<ScriptFault> for RunFault {
    fn from(_fault: ScriptFault) -> RunFault {
        RunFault::Stream
    }
}

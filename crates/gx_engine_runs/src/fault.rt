//! Why a line stops the program.
use gx_geom::Refusal;
use gx_plain_reader::Damage;
use std::alloc::{AllocError, AllocFailed};
use std::io;

/// Why a run ends before its end.
#[derive(Clone, Copy)]
pub(crate) enum RunFault {
    /// No such line is known.
    BadLine,
    /// Memory was refused.
    Memory,
    /// A line can't be read or written.
    Stream,
    /// No index begins.
    NotBegun(Refusal),
    /// A session's reply isn't that of the plain index.
    Reply(u8),
    /// An event of no session comes to what it can't.
    Event,
    /// A call takes too many events.
    Endless(u8),
    /// The image can't be read: the plain reader's first test that failed.
    Damaged(Damage),
    /// The number of the last commit isn't one that may be.
    Number(u64),
    /// The set isn't the one of this number.
    Set(u64),
}

impl RunFault {
    /// A text for it, and a number.
    pub(crate) fn text_and_number(self) -> (&'static str, u64) {
        match self {
            RunFault::BadLine => ("a bad line", 0),
            RunFault::Memory => ("no memory", 0),
            RunFault::Stream => ("a stream", 0),
            RunFault::NotBegun(why) => ("not begun, by refusal", u64::from(why.number())),
            RunFault::Reply(session) => ("another reply of session", u64::from(session)),
            RunFault::Event => ("an event's outcome", 0),
            RunFault::Endless(session) => ("no end of a call of session", u64::from(session)),
            RunFault::Damaged(damage) => ("an image is damaged, by test", u64::from(damage as u8)),
            RunFault::Number(number) => ("another number", number),
            RunFault::Set(number) => ("another set at number", number),
        }
    }
}

impl From<AllocError> for RunFault {
    fn from(_fault: AllocError) -> RunFault {
        RunFault::Memory
    }
}

impl<T: Drop> From<AllocFailed<T>> for RunFault {
    fn from(_fault: AllocFailed<T>) -> RunFault {
        RunFault::Memory
    }
}

impl From<io::Error> for RunFault {
    fn from(_fault: io::Error) -> RunFault {
        RunFault::Stream
    }
}

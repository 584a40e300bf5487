//! What ends a dump before its end.
use gx_geom::Refusal;
use thiserror::Error;

/// What ended a dump before its end.
#[derive(Clone, Copy, Debug, PartialEq, Eq, Drop, Error)]
pub enum DumpFault {
    /// The writer failed, or took nothing.
    #[error("a line of the dump can't be written")]
    Write,
    /// An event was refused, or the index had ended.
    #[error("the index can't be read")]
    Refused(Refusal),
}

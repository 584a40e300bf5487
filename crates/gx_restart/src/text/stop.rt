//! What ends a dump before its end.
use gx_geom::Refusal;

/// What ended a dump before its end.
#[derive(Clone, Copy, Debug, PartialEq, Eq, Drop)]
pub enum Stop {
    /// The writer failed, or took nothing.
    Write,
    /// An event was refused.
    Refused(Refusal),
    /// A page wasn't brought within the bound on events.
    GivenUp,
}

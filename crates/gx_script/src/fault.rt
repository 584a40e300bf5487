//! What ends a script before its end.
use thiserror::Error;

/// What ended a script before its end.
#[derive(Clone, Copy, Debug, PartialEq, Eq, Drop, Error)]
pub enum ScriptFault {
    /// The reader failed, or was read too often.
    #[error("the script can't be read")]
    Read,
    /// The writer failed, or took nothing.
    #[error("a reply can't be written")]
    Write,
}

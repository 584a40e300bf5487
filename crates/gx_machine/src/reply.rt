//! Replies.
use crate::Entries;
use gx_geom::Refusal;

/// What a call is answered.
#[derive(Debug, Drop)]
pub enum Reply<B> {
    /// A transaction is open.
    Ok,
    /// The entry was added.
    Inserted,
    /// The entry was taken away.
    Deleted,
    /// These entries match.
    Found(Entries<B>),
    /// The transaction's changes are kept under this number.
    Committed(u64),
    /// The transaction's changes are dropped.
    Aborted,
    /// The call was refused.
    Refused(Refusal),
}

/// What asking a call gives.
#[derive(Debug, Drop)]
pub enum Asked<B> {
    /// The reply, at once.
    Now(Reply<B>),
    /// The call is open, and is answered later.
    Open,
}

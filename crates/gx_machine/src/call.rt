//! Calls.
use crate::{Entry, Query};

/// What a session asks for.
#[derive(Clone, Copy, Debug, PartialEq, Eq)]
pub enum Call<B> {
    /// Open a transaction.
    Begin,
    /// Add an entry.
    Insert(Entry<B>),
    /// Take an entry away.
    Delete(Entry<B>),
    /// Find the entries that match.
    Search(Query<B>),
    /// End the transaction and keep its changes.
    Commit,
    /// End the transaction and drop its changes.
    Abort,
}

//! Limits of the machine, by name.

/// How many sessions there are. They are numbered from 1 to this.
pub const SESSIONS: usize = 8;

/// The places for claims, over all sessions.
pub const MAX_CLAIMS: usize = 512;

/// The places for predicates that each session has.
pub const MAX_PREDICATES: usize = 16;

/// From this number on, of the last commit or of the next transaction, no transaction begins: the numbers left
/// are those of the transactions that are open.
pub const LAST_NUMBER: u64 = u64::MAX - 8;

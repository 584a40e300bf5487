//! Records of calls and replies.
use crate::{Call, Reply};

/// What a record of calls and replies has, one after another.
#[derive(Debug, Drop)]
pub enum Item<B> {
    /// A session asked a call.
    Asked(u8, Call<B>),
    /// A session's commit was sealed under this number.
    Sealed(u8, u64),
    /// A session was given a reply.
    Replied(u8, Reply<B>),
}

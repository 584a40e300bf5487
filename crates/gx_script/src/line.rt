//! What a line of a script is.
use gx_machine::Call;

/// What a line of a script is.
#[derive(Clone, Copy, Debug, PartialEq, Eq)]
pub enum Line<B> {
    /// It has no words, and gets no reply.
    Blank,
    /// It is too long, or no line of the table.
    Bad,
    /// This session's key has its corners reversed.
    Reversed(u64),
    /// This session makes this call.
    Asks(u64, Call<B>),
}

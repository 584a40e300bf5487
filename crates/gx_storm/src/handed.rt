//! The replies that a session of a storm got.
use gx_geom::{Refusal, Shape};
use gx_machine::Reply;

/// The replies that a session got.
#[derive(Drop)]
pub struct Handed<B: Shape> {
    /// The replies with which its share rose, in their order: the record has these.
    pub replies: Vec<Reply<B>>,
    /// The refusal with the least number with which a call was given up, if one was; the share doesn't count that call.
    pub given_up: Option<Refusal>,
}

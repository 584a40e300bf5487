//! Compares a record with the replies that a session's calls returned.
ghost use Rattle.std.specs.Prelude.{◌≡◌, MatchBool, MatchOption, [], ◌∷◌};
ghost use Rattle.gx_shared.specs.Agreed.{replies_of};

use gx_geom::Shape;
use gx_machine::{Item, Reply, is_same_reply};

/// The reply of an item, if it is one of this session.
fn reply_of<B: Shape>(session: u8, item: &Item<B>) -> Option<&Reply<B>>
    ensures { MatchOption result (replies_of session (item.now ∷ []) ≡ [])
        (λ r. replies_of session (item.now ∷ []) ≡ r.now ∷ []) }
{
    match item {
        Item::Replied(of, reply) if *of == session => Some(reply),
        _ => None,
    }
}

/// Whether the replies of a session in a record are these, in their order.
pub(crate) fn agree<B: Shape>(calls: &[Item<B>], session: u8, replies: &[Reply<B>]) -> bool
    ensures { MatchBool result (replies_of session calls.now ≡ replies.now) (replies_of session calls.now ≡ replies.now
        → ⊥) }
{
    let mut next = 0;
    for place in 0..calls.len() {
        if let Some(reply) = reply_of(session, &calls[place]) {
            if next >= replies.len() || !is_same_reply(reply, &replies[next]) {
                return false;
            }
            next += 1;
        }
    }
    next == replies.len()
}

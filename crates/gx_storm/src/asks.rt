//! An ask goes to the plain index only when the item after it is known.
ghost use Rattle.std.specs.Prelude.{◌≡◌, IfOk, MatchBool, false, true};
ghost use Rattle.gx_machine.specs.declared.item.Item.TheVariants.{Replied};
ghost use Rattle.gx_machine.specs.Keys.{keys_of};
ghost use Rattle.gx_machine.specs.Machine.{Machine};
ghost use Rattle.gx_events.specs.Replay.{Asking, EndsAt, Fits, Point, StandsFor};
ghost use Rattle.gx_plain.specs.Index.{is_used_up};
ghost use Rattle.gx_storm.specs.Following.{EndsWith, Follows, HasNumber, StandsAt};
ghost use Rattle.gx_storm.specs.Following.{asked_of, is_faultless, waiting, waits};

use crate::answers::fits_here;
use gx_geom::{Refusal, Shape};
use gx_machine::{Asked, Call, Item, Reply, is_same_reply};
use gx_plain::PlainIndex;
use std::alloc::AllocError;

/// The ask of an item, which waits for the item after it.
pub(crate) fn asked_of<B: Shape>(item: &Item<B>) -> Option<(u8, Call<B>)>
    ensures { result ≡ asked_of item.now }
{
    match item {
        Item::Asked(session, call) => Some((*session, *call)),
        Item::Sealed(..) | Item::Replied(..) => None,
    }
}

/// Whether an item is this reply to this session.
fn is_reply<B: Shape>(item: &Item<B>, session: u8, reply: &Reply<B>) -> bool
    ensures { MatchBool result (item.now ≡ Replied session reply.now) (item.now ≡ Replied session reply.now → ⊥) }
{
    match item {
        Item::Replied(of, given) => *of == session && is_same_reply(given, reply),
        Item::Asked(..) | Item::Sealed(..) => false,
    }
}

/// Whether an item is the refusal of an ask of this session, because a fault had come before.
fn refuses<B: Shape>(item: &Item<B>, session: u8) -> bool
    ensures { result ≡ true → is_faultless item.now ≡ false }
{
    match item {
        Item::Replied(of, Reply::Refused(Refusal::Failed)) => *of == session,
        _ => false,
    }
}

/// Whether an item fits after an ask. An ask that is refused for a fault isn't put to the plain index.
fn fits_behind<B: Shape>(
    session: u8,
    call: Call<B>,
    item: &Item<B>,
    index: &mut PlainIndex<B>,
) -> Result<bool, AllocError>
    ensures { IfOk result (λ fit. is_faultless item.now ≡ true → is_used_up index.old ≡ false
        → (r : Machine B) → StandsFor r index.old.machine
        → Follows (Fits (keys_of B.Shape) (Asking session call r) item.now) 1 item.now index.old fit index.new) }
{
    if refuses(item, session) {
        return Ok(true);
    }
    index.stands();
    match index.ask(session, call) {
        Asked::Now(reply) => Ok(is_reply(item, session, &reply)),
        Asked::Open => fits_here(item, index),
    }
}

/// Whether an item fits, after the ask that waits for it or if none waits.
pub(crate) fn fits<B: Shape>(
    asking: Option<(u8, Call<B>)>,
    item: &Item<B>,
    index: &mut PlainIndex<B>,
) -> Result<bool, AllocError>
    ensures { IfOk result (λ fit. is_faultless item.now ≡ true → HasNumber asking index.old
        → (p : Point B) → waits p ≡ asking → StandsAt p index.old
        → Follows (Fits (keys_of B.Shape) p item.now) (waiting asking) item.now index.old fit index.new) }
{
    match asking {
        Some((session, call)) => fits_behind(session, call, item, index),
        None => fits_here(item, index),
    }
}

/// Whether a call stays open after it was asked, because no reply came at once.
fn is_open<B: Shape>(given: &Asked<B>) -> bool
    ensures { MatchBool result (given.now ≡ Asked.Open) (given.now ≡ Asked.Open → ⊥) }
{
    match given {
        Asked::Now(_) => false,
        Asked::Open => true,
    }
}

/// Whether an ask opens its call.
fn is_opened<B: Shape>(session: u8, call: Call<B>, index: &mut PlainIndex<B>) -> bool
    ensures { is_used_up index.old ≡ false → (r : Machine B) → StandsFor r index.old.machine
        → EndsWith (EndsAt (keys_of B.Shape) (Asking session call r)) result index.new }
{
    index.stands();
    let given = index.ask(session, call);
    is_open(&given)
}

/// Whether a record may end here: an ask that comes last has its call open.
pub(crate) fn may_end<B: Shape>(asking: Option<(u8, Call<B>)>, index: &mut PlainIndex<B>) -> bool
    ensures { HasNumber asking index.old → (p : Point B) → waits p ≡ asking → StandsAt p index.old
        → EndsWith (EndsAt (keys_of B.Shape) p) result index.new }
{
    match asking {
        Some((session, call)) => is_opened(session, call, index),
        None => true,
    }
}

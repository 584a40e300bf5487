//! Compares an item with the plain index if no ask waits for it.
ghost use Rattle.std.specs.Prelude.{◌≡◌, IfOk, MatchBool, true};
ghost use Rattle.gx_machine.specs.declared.item.Item.TheVariants.{Replied, Sealed};
ghost use Rattle.gx_machine.specs.Keys.{keys_of};
ghost use Rattle.gx_machine.specs.Machine.{Machine};
ghost use Rattle.gx_events.specs.Replay.{FitsAt, StandsFor};
ghost use Rattle.gx_storm.specs.Following.{Follows, is_faultless, kind_of};
ghost use Rattle.gx_storm.specs.declared.answers.Kind.TheVariants as kind;

use gx_geom::{Refusal, Shape};
use gx_machine::{Item, Reply, is_same_reply};
use gx_plain::PlainIndex;
use std::alloc::AllocError;

/// What a reply of a record means to the replay.
#[derive(Clone, Copy)]
pub(crate) enum Kind {
    /// An answer, which the plain index gives too.
    Answer,
    /// The call was closed because no page was free or memory was refused, which the plain index doesn't model.
    Closed,
    /// A fault, which the plain index doesn't model either.
    Fault,
    /// A reply that never ends an open call.
    Never,
}

/// Returns the kind of a reply.
fn kind_of<B: Shape>(reply: &Reply<B>) -> Kind
    ensures { result ≡ kind_of reply.now }
{
    match reply {
        Reply::Refused(Refusal::PagesFull | Refusal::Memory) => Kind::Closed,
        Reply::Refused(Refusal::Device | Refusal::Failed | Refusal::Damaged) => Kind::Fault,
        Reply::Refused(Refusal::BadSession | Refusal::NoCall) => Kind::Never,
        _ => Kind::Answer,
    }
}

/// Whether a commit of the session is sealed under this number.
fn seals<B: Shape>(session: u8, number: u64, index: &mut PlainIndex<B>) -> bool
    ensures { (r : Machine B) → StandsFor r index.old.machine
        → Follows (FitsAt (keys_of B.Shape) r (Sealed session number)) 0 (Sealed session number)
        index.old result index.new }
{
    index.stands();
    match index.seal(session) {
        Some(sealed) => sealed == number,
        None => false,
    }
}

/// Whether an answer is that memory was refused.
fn lacks_memory<B: Shape>(given: &Reply<B>) -> bool
    ensures { MatchBool result (given.now ≡ Reply.Refused Refusal.Memory)
        (given.now ≡ Reply.Refused Refusal.Memory → ⊥) }
{
    match given {
        Reply::Refused(Refusal::Memory) => true,
        _ => false,
    }
}

/// Whether this is the session's answer. A commit that isn't sealed has none.
fn is_answer<B: Shape>(
    session: u8,
    reply: &Reply<B>,
    index: &mut PlainIndex<B>,
) -> Result<bool, AllocError>
    requires { kind_of reply.now ≡ kind.Answer }
    ensures { IfOk result (λ fit. (r : Machine B) → StandsFor r index.old.machine
        → Follows (FitsAt (keys_of B.Shape) r (Replied session reply.now)) 0 (Replied session reply.now)
        index.old fit index.new) }
{
    index.stands();
    if index.seal(session).is_some() {
        return Ok(false);
    }
    let given = index.answer(session);
    if lacks_memory(&given) {
        return Err(AllocError);
    }
    Ok(is_same_reply(&given, reply))
}

/// Whether a reply fits. A fault always fits, and closes the session's call if one is open.
fn replies<B: Shape>(
    session: u8,
    reply: &Reply<B>,
    index: &mut PlainIndex<B>,
) -> Result<bool, AllocError>
    ensures { IfOk result (λ fit. is_faultless (Replied session reply.now) ≡ true
        → (r : Machine B) → StandsFor r index.old.machine
        → Follows (FitsAt (keys_of B.Shape) r (Replied session reply.now)) 0 (Replied session reply.now)
        index.old fit index.new) }
{
    index.stands();
    match kind_of(reply) {
        Kind::Answer => is_answer(session, reply, index),
        Kind::Closed => Ok(index.drop_call(session)),
        Kind::Fault => {
            let _ = index.drop_call(session);
            Ok(true)
        }
        Kind::Never => Ok(false),
    }
}

/// Whether an item fits if no ask waits for it.
pub(crate) fn fits_here<B: Shape>(
    item: &Item<B>,
    index: &mut PlainIndex<B>,
) -> Result<bool, AllocError>
    ensures { IfOk result (λ fit. is_faultless item.now ≡ true → (r : Machine B) → StandsFor r index.old.machine
        → Follows (FitsAt (keys_of B.Shape) r item.now) 0 item.now index.old fit index.new) }
{
    match item {
        Item::Asked(..) => Ok(true),
        Item::Sealed(session, number) => Ok(seals(*session, *number, index)),
        Item::Replied(session, reply) => replies(*session, reply, index),
    }
}

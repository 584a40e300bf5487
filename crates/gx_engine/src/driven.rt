//! Runs a session's call, event by event, to its end.
ghost use Rattle.std.specs.Prelude.{IsSome, MatchOption};
ghost use Rattle.gx_recovery.specs.Known.{Limits};
ghost use Rattle.gx_engine.specs.Driven.{IsDriven, IsGivenUp};
ghost use Rattle.gx_engine.specs.Helping.{WhereHeld};
ghost use Rattle.gx_engine.specs.Calls.{TellsAs};
ghost use Rattle.gx_engine.specs.Made.{Makes};

use crate::engine::Engine;
use crate::laws::a_class_is_lawful;
use gx_class::{Probing, ReadKeys};
use gx_disk::SectorDisk;
use gx_events::{Driver, Event, Next, Outcome};
use gx_index_laws::measures::what_a_call_has_left_is_bounded;
use gx_machine::Reply;

/// How many events are made in a row at most, for one call or of one kind: 2^56.
pub const EVENTS: u64 = 1 << 56;

/// Makes a session's first event, an ask or a move, and then the events that its driver names, to the end of its
/// call: its moves, and the steps of the log and of a checkpoint and the writes of pages that help them.
///
/// Returns the reply with which the call ended, even if an event was refused. Returns `None` if the call hasn't ended
/// within `EVENTS` events: it stays open then. That never happens over an honest device. It takes no memory but what
/// the events take.
pub fn drive<D: SectorDisk, K: ReadKeys + Probing>(
    engine: &mut Engine<D, K>,
    session: u8,
    first: Event<K::Key>,
) -> Option<Reply<K::Key>>
    ensures made { MatchOption result
        (IsGivenUp (Makes K.Key.Shape K.ReadKeys D.state) session first engine.old engine.new)
        (λ reply. IsDriven (Makes K.Key.Shape K.ReadKeys D.state) session first engine.old reply engine.new) }
    ensures told { MatchOption result (TellsAs D.state engine.old engine.new Outcome.More)
        (λ reply. TellsAs D.state engine.old engine.new (Outcome.Replied reply)) }
    ensures ends { (l : Limits) → WhereHeld K.Key.Shape K.ReadKeys D.state l engine.old session first (IsSome result) }
{
    a_class_is_lawful::<K>();
    what_a_call_has_left_is_bounded::<K::Key>();
    let mut driver = Driver::new(session);
    let mut next = first;
    for _turn in 0..EVENTS {
        match driver.next(engine.step(next)) {
            Next::Run(event) => next = event,
            Next::Done(reply) => return Some(reply),
        }
    }
    None
}

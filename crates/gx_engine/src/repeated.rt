//! Repeats an event until nothing is left to do.
ghost use Rattle.std.specs.Prelude.{◌≢◌, Err, IfSome, IsSome, MatchOption};
ghost use Rattle.gx_engine.specs.declared.driven.TheConstants.{EVENTS};
ghost use Rattle.gx_engine.specs.Made.{Makes};
ghost use Rattle.gx_engine.specs.Repeated.{IsFlushing, IsGoingOn, IsRepeated, last_of};

use crate::driven::EVENTS;
use crate::engine::Engine;
use gx_class::{Probing, ReadKeys};
use gx_disk::SectorDisk;
use gx_events::{Event, Outcome};
use gx_geom::Refusal;

/// Repeats an event until there is nothing to do (`Ok`) or it is refused (`Err`, with why). Returns `None` if there was
/// still more to do after `EVENTS` events, which never happens for steps of the log or of a checkpoint. It takes no
/// memory but what the events take: none for steps of the log or of a checkpoint.
#[tactic(auto, using(crate::proofs::Lacking::flushing_never))]
pub fn repeat<D: SectorDisk, K: ReadKeys + Probing>(
    engine: &mut Engine<D, K>,
    event: Event<K::Key>,
) -> Option<Result<(), Refusal>>
    ensures made { MatchOption result
        (IsGoingOn (Makes K.Key.Shape K.ReadKeys D.state) event engine.old EVENTS engine.new)
        (λ ends. IsRepeated (Makes K.Key.Shape K.ReadKeys D.state) event engine.old (last_of ends) engine.new) }
    ensures ends { IsFlushing event → IsSome result }
    ensures memory { IsFlushing event → IfSome result (λ ends. ends ≢ Err Refusal.Memory) }
{
    for _turn in 0..EVENTS {
        match engine.step(event) {
            Outcome::Nothing => return Some(Ok(())),
            Outcome::Refused(why) => return Some(Err(why)),
            Outcome::Replied(_) | Outcome::More | Outcome::Help(_) => {}
        }
    }
    None
}

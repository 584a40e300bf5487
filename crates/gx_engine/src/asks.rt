//! A session asks a call.
ghost use Rattle.std.specs.Prelude.{◌≡◌};
ghost use Rattle.gx_machine.specs.Keys.{keys_of};
ghost use Rattle.gx_engine.specs.Asks.{AskComes, ask_events, outcome_of};
ghost use Rattle.gx_engine.specs.Setting.{LeadsAs};

use crate::Engine;
use crate::laws::a_class_is_lawful;
use crate::work::Work;
use gx_class::ReadKeys;
use gx_disk::SectorDisk;
use gx_events::Outcome;
use gx_machine::{Asked, Call};

/// An ask's reply as an event's outcome.
fn outcome_of<B>(given: Asked<B>) -> Outcome<B>
    ensures { result ≡ outcome_of given }
{
    match given {
        Asked::Now(reply) => Outcome::Replied(reply),
        Asked::Open => Outcome::More,
    }
}

impl<D: SectorDisk, K: ReadKeys> Engine<D, K> {
    /// Asks a call for a session from 1 to 8. It makes no call of the device, reads no page and takes no memory.
    ///
    /// Returns `Replied` if the call is refused, and for a Begin; else `More`, and the call is open. Refused for the
    /// first that holds: `Failed`, `BadSession`, `CallOpen`, `InTransaction` or `NoTransaction`, `HistoryFull`, `Busy`,
    /// `ClaimsFull` or `PredicatesFull`, as `Sessions::ask` says. A refused call changes nothing.
    pub(crate) fn ask(&mut self, session: u8, call: Call<K::Key>) -> Outcome<K::Key>
        ensures comes { AskComes (keys_of K.Key.Shape) session call self.old result self.new }
        ensures leads { LeadsAs K.Key.Shape K.ReadKeys D.state self.old self.new
            (ask_events session call self.old.sessions result) }
    {
        a_class_is_lawful::<K>();
        self.sessions.stands();
        outcome_of(self.sessions.ask(session, call, Work::Rests))
    }
}

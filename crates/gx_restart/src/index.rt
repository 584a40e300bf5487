//! An index for one thread, and its calls.
ghost use Rattle.std.specs.Prelude.{◌≡◌, false};
ghost use Rattle.gx_recovery.specs.Known.{Limits};
ghost use Rattle.gx_restart.specs.Called.{CallsBy, CallsIndex, EndsWhereHeld};
ghost use Rattle.gx_engine.specs.Calls.{TellsAs};
ghost use Rattle.gx_engine.specs.Made.{Makes};
ghost use Rattle.gx_restart.specs.Setting.{RunsOnAs};

use gx_class::{Probing, ReadKeys};
use gx_disk::SectorDisk;
use gx_engine::{Engine, drive};
use gx_events::{Event, Outcome};
use gx_geom::Refusal;
use gx_machine::{Call, Reply};
use std::marker::Model;

/// An index for one thread: an engine whose calls are asked one after another, each run to its end. Contracts see its
/// engine, and whether the bound on a call's events was passed.
#[derive(Drop)]
pub struct Index<D: SectorDisk, K: ReadKeys> {
    pub(crate) engine: Engine<D, K>,
    // whether the bound was passed; the index only refuses from then on
    pub(crate) ended: bool,
}

impl<D: SectorDisk, K: ReadKeys> Model for Index<D, K> {
    ghost use Rattle.gx_restart.specs.States.{State};

    ghost Value = { State K.Key D };

    ghost view = { λ m. record { engine = m.engine; ended = m.ended } };
}

impl<D: SectorDisk, K: ReadKeys> Index<D, K> {
    /// Makes an index over an engine.
    pub fn new(engine: Engine<D, K>) -> Self
        ensures { result ≡ record { engine = engine; ended = false } }
    {
        Index {
            engine,
            ended: false,
        }
    }

    /// Returns the engine, as the calls left it.
    pub fn into_engine(self) -> Engine<D, K>
        ensures { result ≡ self.engine }
    {
        self.engine
    }
}

impl<D: SectorDisk, K: ReadKeys + Probing> Index<D, K> {
    // Makes a call of an index whose bound wasn't passed.
    fn run(&mut self, session: u8, call: Call<K::Key>) -> Reply<K::Key>
        requires { self.old.ended ≡ false }
        ensures calls { CallsBy (Makes K.Key.Shape K.ReadKeys D.state) false self.old session call result self.new }
        ensures told { TellsAs D.state self.old.engine self.new.engine (Outcome.Replied result) }
        ensures ends { (l : Limits) → EndsWhereHeld K.Key.Shape K.ReadKeys D.state l self.old self.new }
    {
        match drive(&mut self.engine, session, Event::Ask(session, call)) {
            Some(reply) => reply,
            None => {
                self.ended = true;
                Reply::Refused(Refusal::Damaged)
            }
        }
    }

    /// Asks a call of a session, and runs its events to the end: its moves, and the steps of the log and of a
    /// checkpoint and the writes of pages that help them.
    ///
    /// Returns the reply with which the call ended. After `Device`, `Failed` and `Damaged` the call stays open, and the
    /// reply to each further one is `Failed`. A call that has not ended within `EVENTS` events is given up with the
    /// reply `Damaged`; from then on the index only refuses, with `Failed`. Over an honest device no call is given up.
    pub fn call(&mut self, session: u8, call: Call<K::Key>) -> Reply<K::Key>
        ensures calls { CallsIndex (Makes K.Key.Shape K.ReadKeys D.state) self.old session call result self.new }
        ensures told { TellsAs D.state self.old.engine self.new.engine (Outcome.Replied result) }
        ensures runs { RunsOnAs K.Key.Shape K.ReadKeys D.state self.old.engine self.new.engine }
        ensures ends { (l : Limits) → EndsWhereHeld K.Key.Shape K.ReadKeys D.state l self.old self.new }
    {
        if self.ended {
            return Reply::Refused(Refusal::Failed);
        }
        self.run(session, call)
    }
}

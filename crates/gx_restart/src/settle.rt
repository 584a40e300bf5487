//! Gates all that is logged.
ghost use Rattle.std.specs.Prelude.{Err, OnOk, ◌≡◌, ◌≢◌};
ghost use Rattle.gx_engine.specs.Calls.{TellsWhy};
ghost use Rattle.gx_engine.specs.Made.{Makes};
ghost use Rattle.gx_engine.specs.Repeated.{IsFlushing};
ghost use Rattle.gx_engine.specs.Resting.{IsAtRest, KeepsSessions};
ghost use Rattle.gx_restart.specs.Settled.{IsExhausted, Settles, SettlesOn};
ghost use Rattle.gx_restart.specs.Setting.{RunsOnAs};

use crate::Index;
use gx_class::{Probing, ReadKeys};
use gx_disk::SectorDisk;
use gx_engine::repeat;
use gx_events::Event;
use gx_geom::Refusal;

impl<D: SectorDisk, K: ReadKeys + Probing> Index<D, K> {
    // Repeats a step of the checkpoint or of the log, until it has nothing to do.
    fn exhaust(&mut self, event: Event<K::Key>) -> Result<(), Refusal>
        requires { IsFlushing event }
        ensures made { IsExhausted (Makes K.Key.Shape K.ReadKeys D.state) event self.old.engine result self.new.engine }
        ensures told { TellsWhy D.state self.old.engine self.new.engine result }
        ensures same { self.new.ended ≡ self.old.ended }
        ensures memory { result ≢ Err Refusal.Memory }
    {
        match repeat(&mut self.engine, event) {
            Some(ends) => ends,
            None => unreachable!(),
        }
    }

    // Steps of the checkpoint, and then of the log, until there is nothing to do.
    fn exhaust_both(&mut self) -> Result<(), Refusal>
        ensures made { SettlesOn (Makes K.Key.Shape K.ReadKeys D.state) self.old.engine result self.new.engine }
        ensures told { TellsWhy D.state self.old.engine self.new.engine result }
        ensures same { self.new.ended ≡ self.old.ended }
        ensures memory { result ≢ Err Refusal.Memory }
    {
        self.exhaust(Event::CheckpointStep)?;
        self.exhaust(Event::LogStep)
    }

    /// Ends a checkpoint that runs or is due, and gates all that is logged: checkpoint steps until there is nothing to
    /// do, and then log steps. It takes no memory, and changes no set, claim or predicate, and no call that is open.
    ///
    /// Refused with `Device`, `Failed` or `Damaged` as an event was. It ends over any device: each step leaves less to
    /// flush.
    pub fn settle(&mut self) -> Result<(), Refusal>
        ensures settles { Settles (Makes K.Key.Shape K.ReadKeys D.state) self.old result self.new }
        ensures told { TellsWhy D.state self.old.engine self.new.engine result }
        ensures runs { RunsOnAs K.Key.Shape K.ReadKeys D.state self.old.engine self.new.engine }
        ensures rests { OnOk result (IsAtRest self.new.engine) }
        ensures keeps { KeepsSessions self.old.engine self.new.engine }
        ensures memory { result ≢ Err Refusal.Memory }
    {
        if self.ended {
            return Err(Refusal::Failed);
        }
        self.exhaust_both()
    }
}

//! One event of an index.
ghost use Rattle.gx_engine.specs.Calls.{TellsAs};
ghost use Rattle.gx_engine.specs.Made.{Makes};
ghost use Rattle.gx_restart.specs.Called.{StepsIndex};
ghost use Rattle.gx_restart.specs.Setting.{RunsOnAs};

use crate::Index;
use gx_class::{Probing, ReadKeys};
use gx_disk::SectorDisk;
use gx_events::{Event, Outcome};
use gx_geom::Refusal;

impl<D: SectorDisk, K: ReadKeys + Probing> Index<D, K> {
    /// Makes one event, and returns its outcome, as `Engine::step` does. A call that it leaves open goes on by the
    /// session's moves; calls of other sessions may come in between.
    ///
    /// Refused with `Failed`, with nothing done, once a call was given up.
    pub fn step(&mut self, event: Event<K::Key>) -> Outcome<K::Key>
        ensures steps { StepsIndex (Makes K.Key.Shape K.ReadKeys D.state) self.old event result self.new }
        ensures told { TellsAs D.state self.old.engine self.new.engine result }
        ensures runs { RunsOnAs K.Key.Shape K.ReadKeys D.state self.old.engine self.new.engine }
    {
        if self.ended {
            return Outcome::Refused(Refusal::Failed);
        }
        self.engine.step(event)
    }
}

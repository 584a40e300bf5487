//! The engine as an engine of events.
ghost use Rattle.std.specs.Prelude.{◌≡◌};

use gx_class::{Probing, ReadKeys};
use gx_disk::SectorDisk;
use gx_engine::Engine;
use gx_engine::laws::a_class_is_lawful;
use gx_events::{Event, Events, Outcome};
use std::marker::Model;

/// An engine over pages and a log that runs by events. Contracts see it as the engine's parts.
#[derive(Drop)]
pub struct EngineEvents<D: SectorDisk, K: ReadKeys> {
    engine: Engine<D, K>,
}

impl<D: SectorDisk, K: ReadKeys> Model for EngineEvents<D, K> {
    ghost use Rattle.gx_engine.specs.States.{Parts};

    ghost Value = { Parts K.Key D };

    ghost view = { λ e. e.engine };
}

impl<D: SectorDisk, K: ReadKeys> EngineEvents<D, K> {
    ghost use Rattle.std.specs.Prelude.{List};
    ghost use Rattle.gx_machine.specs.declared.entry.Entry.{Entry};
    ghost use Rattle.gx_machine.specs.Keys.{keys_of};
    ghost use Rattle.gx_machine.specs.Machine.{Machine};
    ghost use Rattle.gx_events.specs.Engines.{SeenAs};
    ghost use Rattle.gx_recovery.specs.Known.{Limits};
    ghost use Rattle.gx_recovery.specs.Records.{Record};
    ghost use Rattle.gx_index_laws.specs.Classes.{Page};
    ghost use Rattle.gx_index_laws.specs.States as index;
    ghost use Rattle.gx_index_laws.specs.States.{engine_of};
    ghost use Rattle.gx_durable.specs.Classes.{class_of};
    ghost use Rattle.gx_engine.specs.Helping.{HoldsIndex};
    ghost use Rattle.gx_engine_events.specs.Setting.{SeesAs};

    /// Wraps an engine. If the engine holds an index that is seen as a machine, the wrapped engine is seen as that
    /// machine.
    pub fn new(engine: Engine<D, K>) -> Self
        ensures same { result ≡ engine }
        ensures seen { (l : Limits) (bodies : List (List (Record (Entry K.Key) (Page K.Key)))) (i : index.State K.Key)
            (m : Machine K.Key)
            → HoldsIndex K.Key.Shape K.ReadKeys D.state l engine bodies i
            → SeenAs (keys_of K.Key.Shape) (engine_of (class_of K.Key.Shape K.is_proper l) i) m
            → SeesAs K.Key.Shape K.ReadKeys D.state result m }
    {
        EngineEvents { engine }
    }

    /// Returns the engine, as the events left it.
    pub fn into_inner(self) -> Engine<D, K>
        ensures { result ≡ self }
    {
        self.engine
    }
}

impl<D: SectorDisk, K: ReadKeys + Probing> Events<K::Key> for EngineEvents<D, K> {
    ghost use Rattle.std.specs.Prelude.{◌≡◌, max, true};
    ghost use Rattle.gx_machine.specs.Keys.{keys_of};
    ghost use Rattle.gx_machine.specs.Machine.{Machine, newest};
    ghost use Rattle.gx_storage.specs.Flushing.{IsLeastWritable};
    ghost use Rattle.gx_events.specs.Happens.{Happens};
    ghost use Rattle.gx_events.specs.Work.{is_work, replied};
    ghost use Rattle.gx_engine.specs.Made.{Makes};
    ghost use Rattle.gx_engine_events.specs.Setting.{LeavesSetsAs, SeesAs};
    ghost use Rattle.gx_engine_events.specs.One.{one_seen};

    // devices of its kind keep what they acknowledge
    ghost granted = { (d : D) → (D.state d).honest ≡ true };

    ghost sees = { λ e m. SeesAs K.Key.Shape K.ReadKeys D.state e m };

    ghost makes = { λ old event outcome new.
        Makes K.Key.Shape K.ReadKeys D.state old event outcome new };

    ghost uses = { λ e. max 1 e.volume.shelf.used };

    ghost dirties = { λ e page. IsLeastWritable e.volume.shelf.frames page };

    /// Does what the trait says. Also, at each moment within the event, whatever a crash may leave stands for a set
    /// that the machine before the event keeps: one from the last durable commit's to the last one's.
    fn step(&mut self, event: Event<K::Key>) -> Outcome<K::Key>
        ensures happens { (m : Machine K.Key)
            → SeesAs K.Key.Shape K.ReadKeys D.state self.old m
            → (n : Machine K.Key) × Happens (keys_of K.Key.Shape) m event result n
            × SeesAs K.Key.Shape K.ReadKeys D.state self.new n }
        ensures made { Makes K.Key.Shape K.ReadKeys D.state self.old event result self.new }
        ensures quiet { is_work event ≡ true → replied result ≡ 0 }
        ensures leaves { (m : Machine K.Key)
            → SeesAs K.Key.Shape K.ReadKeys D.state self.old m
            → LeavesSetsAs K.Key.Shape K.ReadKeys D.state m self.old self.new }
    {
        a_class_is_lawful::<K>();
        self.engine.step(event)
    }

    fn commits(&self) -> u64
        ensures number { result ≡ self.now.sessions.latest }
        ensures seen { (m : Machine K.Key) → SeesAs K.Key.Shape K.ReadKeys D.state self.now m → result ≡ newest m }
    {
        a_class_is_lawful::<K>();
        self.engine.commits()
    }

    fn used(&self) -> u32
        ensures { result ≡ max 1 self.now.volume.shelf.used }
    {
        self.engine.used().max(1)
    }

    fn dirty(&self) -> Option<u32>
        ensures { IsLeastWritable self.now.volume.shelf.frames result }
    {
        self.engine.dirty()
    }

    ghost one = { λ e m n a b.
        one_seen _ _ _ _ _ (record { total = K.Key.Ord.total; exact = K.Key.Shape.same }) e m n a b };
}

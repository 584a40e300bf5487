//! Laws of an engine's class. Each function is its contract alone.
ghost use Rattle.std.specs.Prelude.{◌≤◌, ℕ, Bool, List};
ghost use Rattle.gx_machine.specs.declared.entry.Entry.{Entry};
ghost use Rattle.gx_page.specs.Contents.{Contents};
ghost use Rattle.gx_node.specs.Reading.{Format};
ghost use Rattle.gx_events.specs.Happenings as laws;
ghost use Rattle.gx_events.specs.declared.event.Event.{Event};
ghost use Rattle.gx_events.specs.declared.outcome.Outcome.{Outcome};
ghost use Rattle.gx_events.specs.Steps.{AreOf, Leads};
ghost use Rattle.gx_recovery.specs.Analysis.{analysis};
ghost use Rattle.gx_recovery.specs.Damage.{IsLog};
ghost use Rattle.gx_recovery.specs.Known.{Limits};
ghost use Rattle.gx_recovery.specs.Records.{Record};
ghost use Rattle.gx_index_laws.specs.Classes.{Class, IsLawful, Page, known_of};
ghost use Rattle.gx_index_laws.specs.Happening.{AreHappening};
ghost use Rattle.gx_index_laws.specs.States.{State, engine_of};
ghost use Rattle.gx_index_laws.specs.Whole.{IsWhole};
ghost use Rattle.gx_durable.specs.Classes.{class_of, reading_of};
ghost use Rattle.gx_engine.specs.Holds.{Holds};
ghost use Rattle.gx_engine.specs.Losing.{AreCutOff};
ghost use Rattle.gx_engine.specs.Running.{AreSteps, Ran};
ghost use Rattle.gx_engine.specs.States.{Parts};

pub mod progress;

use gx_class::ReadKeys;
use gx_disk::SectorDisk;

/// If a node may have four entries, a class of keys satisfies the premises of the whole index's laws.
pub fn a_class_is_lawful<K: ReadKeys>()
    ensures { (l : Limits) → 4 ≤ l.most → IsLawful (class_of K.Key.Shape K.is_proper l) }
{}

/// An event of a whole index changes the set machine that the index is seen as as that event with its outcome may
/// change it.
pub fn an_event_is_the_machines<B>()
    ensures { (c : Class B) → IsLawful c → (i j : State B) → IsWhole c i
        → (event : Event B) (outcome : Outcome B) (events : List (laws.Happening B))
        → AreOf (engine_of c i) event outcome events → AreHappening c i events j
        → Leads c.keys (engine_of c i) event outcome (engine_of c j) }
{}

/// Any events, each as the contract of a step has it, lead from an engine that holds an index to one that holds what
/// the events made of it, in their order; and at each moment of them, whatever a crash may leave stands for a set that
/// one of the indexes on the way keeps.
pub fn any_events_lead_on<D: SectorDisk, B>()
    ensures { (c : Class B) (said : List ℕ → B) (f : Format B) (passes : ℕ → Contents → Bool)
        (steps : List (Event B × Outcome B)) (old new : Parts B D)
        → AreSteps c (reading_of said f) f passes D.state old steps new
        → (bodies : List (List (Record (Entry B) (Page B)))) (i : State B)
        → Holds c (reading_of said f) f passes (D.state old.volume.shelf.disk) old bodies i
        → Ran c (reading_of said f) f passes (D.state old.volume.shelf.disk) (D.state new.volume.shelf.disk) new i }
{}

/// An opening can give sessions all touches that the analysis of an undamaged log returns: they are ordered by
/// transaction and then entry, with no entry twice, and are of no more than eight transactions and 512 entries.
pub fn a_log_tells_who_was_cut_off<B>()
    ensures { (c : Class B) → IsLawful c → (log : List (Record (Entry B) (Page B))) → IsLog (known_of c) log
        → AreCutOff c.keys (analysis (known_of c) log).touched }
{}

//! Events one after another.
ghost use Rattle.std.specs.Prelude.{◌≤◌, List};
ghost use Rattle.gx_machine.specs.Machine.{Machine, fresh_machine};
ghost use Rattle.gx_events.specs.Engines.{SeenAs};
ghost use Rattle.gx_events.specs.Happenings.{Happening};
ghost use Rattle.gx_events.specs.Runs.{steps_of, RunsAs};
ghost use Rattle.gx_index_laws.specs.Classes.{Class, IsLawful};
ghost use Rattle.gx_index_laws.specs.States.{State, engine_of, fresh_state};
ghost use Rattle.gx_index_laws.specs.Whole.{IsWhole};
ghost use Rattle.gx_index_laws.specs.Happening.{AreHappening};

/// Any list of events of a whole index is a run of the machine that it is seen as, event by event a step, and the index
/// is whole at its end. So a fresh index's events are a run of the machine with nothing committed.
pub fn any_events_are_a_run<B>()
    ensures runs { (c : Class B) → IsLawful c → (old new : State B) (events : List (Happening B)) → IsWhole c old
        → AreHappening c old events new
        → (m : Machine B) → SeenAs c.keys (engine_of c old) m → RunsAs c.keys m (steps_of events) (engine_of c new) }
    ensures whole { (c : Class B) (old new : State B) (events : List (Happening B)) → IsWhole c old
        → AreHappening c old events new → IsWhole c new }
    ensures from_fresh { (c : Class B) → IsLawful c → (start : B) → 2 ≤ c.pages
        → (new : State B) (events : List (Happening B))
        → AreHappening c (fresh_state start) events new
        → RunsAs c.keys fresh_machine (steps_of events) (engine_of c new) }
{}

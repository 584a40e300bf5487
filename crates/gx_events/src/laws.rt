//! Laws of records of events.
ghost use Rattle.std.specs.Prelude.{◌≡◌, ℕ, List, [], ◌++◌};
ghost use Rattle.gx_geom.specs.declared.refusal.Refusal.TheVariants.{Memory};
ghost use Rattle.gx_machine.specs.declared.entry.Entry.{Entry};
ghost use Rattle.gx_machine.specs.declared.item.Item.{Item};
ghost use Rattle.gx_machine.specs.declared.reply.Reply.TheVariants.{Found, Refused};
ghost use Rattle.gx_machine.specs.Keys.{Keys, IsLawful};
ghost use Rattle.gx_machine.specs.Machine.{Machine, newest};
ghost use Rattle.gx_events.specs.declared.event.Event.{Event};
ghost use Rattle.gx_events.specs.declared.event.Event.TheVariants.{Move};
ghost use Rattle.gx_events.specs.declared.outcome.Outcome.{Outcome};
ghost use Rattle.gx_events.specs.declared.outcome.Outcome.TheVariants.{Replied};
ghost use Rattle.gx_events.specs.Engines.{Engine, IsSound};
ghost use Rattle.gx_events.specs.Happenings as laws;
ghost use Rattle.gx_events.specs.Runs.{AreHappenings};
ghost use Rattle.gx_events.specs.Steps.{AreOf, Leads};
ghost use Rattle.gx_events.specs.Happens.{Happens};
ghost use Rattle.gx_events.specs.Items.{items_of};
ghost use Rattle.gx_events.specs.Replay.{ReplaysAs};

/// A record that replays as the engine's machine still does so after any event, with what that event adds: so a list of
/// events in any order leaves a record that replays. The empty record replays as the machine that it begins at.
pub fn records_replay<B>()
    ensures event { (k : Keys B) (start old new : Machine B) (items : List (Item B))
        (event : Event B) (outcome : Outcome B)
        → ReplaysAs k start items old → Happens k old event outcome new
        → ReplaysAs k start (items ++ items_of (newest old) (newest new) event outcome) new }
    ensures empty { (k : Keys B) (start : Machine B) → ReplaysAs k start [] start }
{}

/// A search's result may be replaced by a refusal for memory: the machine is the same after either.
pub fn what_is_found_may_be_given_up<B>()
    ensures { (k : Keys B) (old new : Machine B) (s : ℕ) (entries : List (Entry B))
        → Happens k old (Move s) (Replied (Found entries)) new → Happens k old (Move s) (Replied (Refused Memory)) new }
{}

/// An event of an engine with its outcome, as the engine's laws know it, does the same to the machine that the engine
/// is seen as.
pub fn an_engines_events_happen<B>()
    ensures { (k : Keys B) → IsLawful k → (old new : Engine B) → IsSound k old
        → (event : Event B) (outcome : Outcome B) (events : List (laws.Happening B))
        → AreOf old event outcome events → AreHappenings k old events new → Leads k old event outcome new }
{}

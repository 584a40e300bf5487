//! Laws: the calls of an index are turns of its life. Each function is its contract alone.
ghost use Rattle.std.specs.Prelude.{ℕ, List, Option, Result};
ghost use Rattle.gx_engine.specs.Driven.{IsDriven};
ghost use Rattle.gx_engine.specs.Made.{Makes};
ghost use Rattle.gx_engine.specs.States.{Parts};
ghost use Rattle.gx_events.specs.declared.event.Event as event;
ghost use Rattle.gx_events.specs.declared.event.Event.TheVariants.{Ask};
ghost use Rattle.gx_events.specs.declared.outcome.Outcome as outcome;
ghost use Rattle.gx_geom.specs.declared.refusal.Refusal.{Refusal};
ghost use Rattle.gx_machine.specs.declared.call.Call.{Call};
ghost use Rattle.gx_machine.specs.declared.item.Item.{Item};
ghost use Rattle.gx_machine.specs.declared.reply.Reply.{Reply};
ghost use Rattle.gx_restart.specs.Bringing.{Brings, Helps};
ghost use Rattle.gx_restart.specs.Called.{CallsIndex};
ghost use Rattle.gx_restart.specs.declared.fault.DumpFault.{DumpFault};
ghost use Rattle.gx_restart.specs.Dumped.{Dumps};
ghost use Rattle.gx_restart.specs.Settled.{Settles};
ghost use Rattle.gx_restart.specs.States.{State};
ghost use Rattle.gx_script.specs.Corners.{grammar_of};
ghost use Rattle.gx_script.specs.declared.fault.ScriptFault.{ScriptFault};
ghost use Rattle.gx_script.specs.declared.line.Line.{Line};
ghost use Rattle.gx_script.specs.Scripts.{IsDone, IsScript, IsStopped, asked};
ghost use Rattle.gx_shared.specs.Books.{IsMade};
ghost use Rattle.gx_lives.specs.Calling.{AreLines, IsAnswered, IsCalled, IsOneEvent, IsSettled, LivesBy};
ghost use Rattle.gx_lives.specs.Calling.{LivesByReading, LivesBySome};
ghost use Rattle.gx_lives.specs.Lives.{GoesOn, Works};
ghost use Rattle.gx_lives.specs.Lives as life;

use gx_class::{KeyClass, ReadKeys};
use gx_disk::SectorDisk;
use gx_script::Corners;

/// A call of an index (`gx_restart::Index::call`) is turns of its life: events, from its ask to the outcome that gives
/// its reply. So is a call that is given up, which returns `Damaged`; a call that is refused because the index gave up
/// before has none.
pub fn calls_are_turns<D: SectorDisk, K: ReadKeys>()
    ensures answered { (old new : Parts K.Key D) (s : ℕ) (call : Call K.Key) (reply : Reply K.Key)
        → IsDriven (Makes K.Key.Shape K.ReadKeys D.state) s (Ask s call) old reply new
        → LivesBy K.Key.Shape K.ReadKeys D.state (IsAnswered s call reply) old new }
    ensures calls { (old new : State K.Key D) (s : ℕ) (call : Call K.Key) (reply : Reply K.Key)
        → CallsIndex (Makes K.Key.Shape K.ReadKeys D.state) old s call reply new
        → LivesBy K.Key.Shape K.ReadKeys D.state
        (λ steps. IsCalled old.ended s call reply steps new.ended) old.engine new.engine }
{}

/// So is a settling (`gx_restart::Index::settle`): the checkpoint's steps, and then the log's, each until there is
/// nothing to do or one is refused.
pub fn settlings_are_turns<D: SectorDisk, K: ReadKeys>()
    ensures { (old new : State K.Key D) (result : Result (Unit {0}) Refusal)
        → Settles (Makes K.Key.Shape K.ReadKeys D.state) old result new
        → LivesBy K.Key.Shape K.ReadKeys D.state (IsSettled old.ended result) old.engine new.engine }
{}

/// So is a script (`gx_restart::run_script`), whether it is read to its end or stopped by a fault of its reader or
/// writer. Its lines are the events of their calls, one after another, each up to the reply that its text says.
pub fn scripts_are_turns<D: SectorDisk, B: Corners, K: ReadKeys + KeyClass<Key = B>>()
    ensures lines { (number : ℕ) (lines : List (Line B)) (old new : State B D) (text : List ℕ)
        → IsScript (grammar_of B.Corners) (CallsIndex (Makes B.Shape K.ReadKeys D.state))
        number lines old text new → LivesBy B.Shape K.ReadKeys D.state
        (λ steps. AreLines (grammar_of B.Corners) number lines text old.ended steps new.ended) old.engine new.engine }
    ensures done { (had left held holds : Option (List ℕ)) (old new : State B D)
        → (is : IsDone (grammar_of B.Corners) (CallsIndex (Makes B.Shape K.ReadKeys D.state))
        had left held holds old new) → LivesBy B.Shape K.ReadKeys D.state
        (λ steps. AreLines (grammar_of B.Corners) 1 (asked (grammar_of B.Corners) is.input) is.text
        old.ended steps new.ended) old.engine new.engine }
    ensures stopped { (had left held holds : Option (List ℕ)) (old new : State B D) (fault : ScriptFault)
        → IsStopped (grammar_of B.Corners) (CallsIndex (Makes B.Shape K.ReadKeys D.state))
        had left held holds old new fault
        → LivesBySome (grammar_of B.Corners) B.Shape K.ReadKeys D.state
        had left held holds old.ended new.ended old.engine new.engine }
{}

/// A dump (`gx_restart::Index::dump`) is readings, none of which changes the machine: a page that is brought
/// (`Engine::bring_page`), or an event that frees a frame for one. This holds even if it is stopped.
pub fn dumps_are_turns<D: SectorDisk, K: ReadKeys>()
    ensures page { (page : ℕ) (old new : Parts K.Key D) (result : Result (Unit {0}) (outcome.Outcome K.Key))
        → Brings K.Key.Shape K.ReadKeys D.state page old result new
        → GoesOn K.Key.Shape K.ReadKeys D.state (Works old) life.Reads (Works new) }
    ensures dump { (old new : State K.Key D) (result : Result (Unit {0}) DumpFault)
        → Dumps (Brings K.Key.Shape K.ReadKeys D.state) (Helps K.Key.Shape K.ReadKeys D.state) old result new
        → LivesByReading K.Key.Shape K.ReadKeys D.state old.engine new.engine }
{}

/// A hold of a book over an engine (`gx_shared::Book::apply_for`) is one turn of its life, or none if an ask is turned
/// away; a hold for an event of no session (`gx_shared::Book::apply`) is one turn.
pub fn holds_are_turns<D: SectorDisk, K: ReadKeys>()
    ensures session { (old new : Parts K.Key D × List (Item K.Key)) (e : event.Event K.Key) (o : outcome.Outcome K.Key)
        → IsMade (Makes K.Key.Shape K.ReadKeys D.state) old e o new
        → LivesBy K.Key.Shape K.ReadKeys D.state (IsOneEvent e) old.0 new.0 }
    ensures work { (old new : Parts K.Key D) (e : event.Event K.Key) (o : outcome.Outcome K.Key)
        → Makes K.Key.Shape K.ReadKeys D.state old e o new
        → GoesOn K.Key.Shape K.ReadKeys D.state (Works old) (life.Happens e o) (Works new) }
{}

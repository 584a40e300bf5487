//! Laws that relate calls of an index to runs of the set machine. Each function is its contract alone.
ghost use Rattle.std.specs.Prelude.{◌≡◌, ℕ, List, false};
ghost use Rattle.gx_machine.specs.declared.entry.Entry.{Entry};
ghost use Rattle.gx_machine.specs.declared.call.Call.{Call};
ghost use Rattle.gx_machine.specs.declared.reply.Reply.{Reply};
ghost use Rattle.gx_machine.specs.Keys.{keys_of};
ghost use Rattle.gx_node.specs.Reading.{format_of, is_node};
ghost use Rattle.gx_recovery.specs.Known.{Limits};
ghost use Rattle.gx_recovery.specs.Records.{Record};
ghost use Rattle.gx_pool.specs.declared.frames.TheConstants.{FRAMES};
ghost use Rattle.gx_index_laws.specs.declared.TheConstants.{CHECKPOINT_AT};
ghost use Rattle.gx_index_laws.specs.Classes.{Page};
ghost use Rattle.gx_index_laws.specs.States as index;
ghost use Rattle.gx_durable.specs.Classes.{class_of, reading_of};
ghost use Rattle.gx_engine.specs.Holds.{Holds};
ghost use Rattle.gx_engine.specs.States.{Parts};
ghost use Rattle.gx_script.specs.declared.line.Line.{Line};
ghost use Rattle.gx_script.specs.Corners.{grammar_of};
ghost use Rattle.gx_script.specs.Scripts.{IsScript};
ghost use Rattle.gx_events.specs.Engines.{opened_machine};
ghost use Rattle.gx_plain.specs.Decided.{AnswersDecided, Rests, decided_text, seen_by_calls};
ghost use Rattle.gx_plain.specs.Index as plain;
ghost use Rattle.gx_plain.specs.OneRun.{IsOneRun};
ghost use Rattle.gx_plain.specs.Runs.{IsPlain};
ghost use Rattle.gx_restart.specs.Alone.{CallsAlone, RunsFrom};
ghost use Rattle.gx_restart.specs.Called.{CallsIndex};
ghost use Rattle.gx_restart.specs.Decided.{IsDecidedScript, OfItsMachine};
ghost use Rattle.gx_engine.specs.Made.{Makes};
ghost use Rattle.gx_engine.specs.Resting.{IsAtRest};
ghost use Rattle.gx_restart.specs.States.{State};

pub mod idle;

use gx_class::{KeyClass, ReadKeys};
use gx_disk::SectorDisk;
use gx_script::Corners;

/// A call of an index whose bound wasn't passed, over an engine that holds an index's state, is a run of the machine
/// that this state is seen as: the call is asked and replied to, and nothing else is. So the reply is the machine's for
/// that call alone, or it reports a fault.
pub fn each_call_is_asked_alone<D: SectorDisk, K: ReadKeys>()
    ensures { (l : Limits) (s : ℕ) (call : Call K.Key) (reply : Reply K.Key) (old new : State K.Key D)
        → CallsIndex (Makes K.Key.Shape K.ReadKeys D.state) old s call reply new → old.ended ≡ false
        → CallsAlone (class_of K.Key.Shape K.is_proper l) (reading_of K.said (format_of K.KeyClass))
        (format_of K.KeyClass) (is_node (format_of K.KeyClass)) D.state s call reply old.engine new.engine }
{
    gx_engine::laws::a_class_is_lawful::<K>();
    gx_engine::laws::progress::no_call_is_given_up::<D, K>();
}

/// The calls of a script's lines on an index whose bound wasn't passed, over an engine that holds an index's state, are
/// with their replies one run of the machine that this state is seen as, joined over all lines; its replies are those
/// of the text.
pub fn each_script_is_one_run<D: SectorDisk, B: Corners, K: ReadKeys + KeyClass<Key = B>>()
    ensures { (l : Limits) (number : ℕ) (lines : List (Line B)) (old new : State B D) (text : List ℕ)
        → IsScript (grammar_of B.Corners) (CallsIndex (Makes B.Shape K.ReadKeys D.state))
        number lines old text new → old.ended ≡ false
        → RunsFrom (class_of B.Shape K.is_proper l) (reading_of K.said (format_of K.KeyClass))
        (format_of K.KeyClass) (is_node (format_of K.KeyClass)) D.state old.engine new.engine
        (λ m n. IsOneRun (grammar_of B.Corners) (keys_of B.Shape) number lines m n text) }
{
    gx_engine::laws::a_class_is_lawful::<K>();
    gx_engine::laws::progress::no_call_is_given_up::<D, K>();
}

/// If no reply to a script is a refusal because pages, memory or numbers have run out, or for a fault, the calls alone
/// decide its text: it is `decided_text` of what they see of the machine at the start: the last set, its number and the
/// sessions. So it is the text that the plain index gives from the same start. A freshly opened index is such a start:
/// no call of it is open, and its calls see the set that was found.
pub fn texts_are_decided_by_calls<D: SectorDisk, B: Corners, K: ReadKeys + KeyClass<Key = B>>()
    ensures decided { (l : Limits) (number : ℕ) (lines : List (Line B)) (old new : State B D) (text : List ℕ)
        → IsDecidedScript (grammar_of B.Corners) B.Shape K.ReadKeys D.state number lines old text new
        → OfItsMachine B.Shape K.ReadKeys D.state l old
        (λ m. text ≡ decided_text (grammar_of B.Corners) (keys_of B.Shape) number lines (seen_by_calls m)) }
    ensures same { (l : Limits) (number : ℕ) (lines : List (Line B)) (old new : State B D) (text : List ℕ)
        → IsDecidedScript (grammar_of B.Corners) B.Shape K.ReadKeys D.state number lines old text new
        → (first last : plain.Index B) (other : List ℕ) → IsPlain first
        → IsScript (grammar_of B.Corners) (AnswersDecided (plain.CallsIndex (keys_of B.Shape)))
        number lines first other last
        → OfItsMachine B.Shape K.ReadKeys D.state l old (λ m. seen_by_calls m ≡ first.machine → text ≡ other) }
    ensures opened { (number : ℕ) (set : List (Entry B))
        → Rests (opened_machine number set) × (seen_by_calls (opened_machine number set) ≡ opened_machine number set) }
{
    gx_engine::laws::a_class_is_lawful::<K>();
    gx_engine::laws::progress::no_call_is_given_up::<D, K>();
}

/// If a settling over an engine that holds an index's state ended well, each sealed commit is durable.
pub fn a_settled_index_is_durable<D: SectorDisk, K: ReadKeys>()
    ensures { (l : Limits) (e : Parts K.Key D)
        (bodies : List (List (Record (Entry K.Key) (Page K.Key)))) (i : index.State K.Key)
        → Holds (class_of K.Key.Shape K.is_proper l) (reading_of K.said (format_of K.KeyClass)) (format_of K.KeyClass)
        (is_node (format_of K.KeyClass)) (D.state e.volume.shelf.disk) e bodies i
        → IsAtRest e → e.sessions.durable ≡ e.sessions.latest }
{}

/// The limits of an index as numbers: a pool has 4,096 frames at most, and a checkpoint begins once the selected extent
/// has 96 batches.
pub fn limits()
    ensures frames { FRAMES ≡ 4096 }
    ensures checkpoint { CHECKPOINT_AT ≡ 96 }
{}

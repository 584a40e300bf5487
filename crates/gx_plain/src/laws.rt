//! Laws that relate the plain index to runs of the set machine, and laws of every such run.
ghost use Rattle.std.specs.Prelude.{◌≡◌, ℕ, List, true, Some, [], ◌∷◌};
ghost use Rattle.gx_geom.specs.declared.refusal.Refusal.{Refusal};
ghost use Rattle.gx_machine.specs.Runs.{Seals, Durable, Closes, IsStep, IsRun, may_close};
ghost use Rattle.gx_machine.specs.declared.call.Call.{Call};
ghost use Rattle.gx_machine.specs.declared.reply.Reply.{Reply};
ghost use Rattle.gx_machine.specs.Keys.{Keys};
ghost use Rattle.gx_machine.specs.Machine.{Machine};
ghost use Rattle.gx_plain.specs.Index.{Index, AnswersIndex, SealsIndex, DropsIndex, ask_index, fresh_index};
ghost use Rattle.gx_plain.specs.Decided.{AnswersDecided, IsDecidedCall, Rests, decided_text, is_decided};
ghost use Rattle.gx_plain.specs.Index.{CallsIndex};
ghost use Rattle.gx_plain.specs.OneRun.{IsCallRun, IsOneRun};
ghost use Rattle.gx_plain.specs.Runs.{IsPlain, AskIsRun, AnswerIsRun};
ghost use Rattle.gx_script.specs.declared.line.Line.{Line};
ghost use Rattle.gx_script.specs.Corners.{Grammar};
ghost use Rattle.gx_script.specs.Scripts.{IsScript};

pub use gx_machine::laws::{
    acknowledged_commits_survive, busy_names_the_least_conflict, calls_change_no_set,
    committed_transactions_run_alone, durable_keeps_the_last_set, each_step_keeps_locks_apart,
    every_run_is_serial, found_is_what_the_view_has, kept_sets_stay_in_order, keys_are_lawful,
    refused_ask_changes_nothing, runs_join, sessions_never_conflict, sets_keep_their_numbers,
    unseen_faults_permit_nothing_new,
};

/// A fresh index has eight sessions, all its commits are durable, and no fault has made it fail.
pub fn a_fresh_index_is_plain<B>()
    ensures { IsPlain (fresh_index {B = B}) }
{}

/// Asking is one step of the machine, an ask or a Begin refused because numbers are used up, and keeps the index's
/// invariant.
pub fn asking_is_a_step<B>()
    ensures step { (k : Keys B) (s : ℕ) (call : Call B) (index : Index B) → IsPlain index → AskIsRun k s call index }
    ensures plain { (k : Keys B) (s : ℕ) (call : Call B) (index : Index B) → IsPlain index
        → IsPlain (ask_index k s call index).1 }
{}

/// Answering is a run of the machine, and keeps the index plain. The run is an answer; a commit's seal, its becoming
/// durable and its answer; a call closed because memory is refused; or nothing, if there is nothing to answer.
pub fn answering_is_a_run<B>()
    ensures run { (k : Keys B) (s : ℕ) (old new : Index B) (reply : Reply B) → IsPlain old
        → AnswersIndex k s old reply new → AnswerIsRun k s old reply new }
    ensures plain { (k : Keys B) (s : ℕ) (old new : Index B) (reply : Reply B) → IsPlain old
        → AnswersIndex k s old reply new → IsPlain new }
{}

/// Sealing is a run of the machine, a seal and its becoming durable, and keeps the index plain.
pub fn sealing_is_a_run<B>()
    ensures run { (k : Keys B) (s number : ℕ) (old new : Index B) → IsPlain old → SealsIndex k s old (Some number) new
        → IsRun k old.machine (Seals s number ∷ Durable number ∷ []) new.machine }
    ensures plain { (k : Keys B) (s number : ℕ) (old new : Index B) → IsPlain old → SealsIndex k s old (Some number) new
        → IsPlain new }
{}

/// Dropping a call is a step of the machine, a call closed because pages or memory are used up, and keeps the index
/// plain.
pub fn dropping_is_a_step<B>()
    ensures step { (k : Keys B) (s : ℕ) (why : Refusal) (old new : Index B) → IsPlain old → may_close why ≡ true
        → DropsIndex s old true new
        → IsStep k old.machine (Closes s why) new.machine }
    ensures plain { (s : ℕ) (old new : Index B) → IsPlain old → DropsIndex s old true new → IsPlain new }
{}

/// A call that is asked and answered is a run of the machine in which that call is asked and given that reply, and
/// nothing else is; and keeps the index plain.
pub fn each_call_is_a_run<B>()
    ensures run { (k : Keys B) (s : ℕ) (call : Call B) (old new : Index B) (reply : Reply B) → IsPlain old
        → CallsIndex k old s call reply new
        → IsCallRun k s call reply old.machine new.machine }
    ensures plain { (k : Keys B) (s : ℕ) (call : Call B) (old new : Index B) (reply : Reply B) → IsPlain old
        → CallsIndex k old s call reply new → IsPlain new }
{}

/// The calls of a script's lines and their replies are one run of the machine, joined over all lines, whatever pieces
/// the script came in; its replies are those of the text.
pub fn each_script_is_one_run<B>()
    ensures { (grammar : Grammar B) (k : Keys B) (number : ℕ) (lines : List (Line B)) (old new : Index B)
        (text : List ℕ) → IsPlain old → IsScript grammar (CallsIndex k) number lines old text new
        → IsOneRun grammar k number lines old.machine new.machine text }
{}

/// A run of the machine in which one call is asked and answered, from where no call is open and no fault has come, is
/// decided by that call: its reply is the one that asking and answering it alone gives, whatever else becomes durable
/// meanwhile, and so is what calls see of the machine then. This excludes a refusal because pages, memory or numbers
/// are used up, or for a fault.
pub fn a_call_alone_decides_its_reply<B>()
    ensures { (k : Keys B) (s : ℕ) (call : Call B) (reply : Reply B) (old new : Machine B)
        → is_decided reply ≡ true → Rests old → IsCallRun k s call reply old new
        → IsDecidedCall k s call reply old new }
{}

/// If the calls decide each reply to the lines of a script, the replies have the text that the calls alone decide.
pub fn texts_are_decided_by_calls<B>()
    ensures { (grammar : Grammar B) (k : Keys B) (number : ℕ) (lines : List (Line B)) (old new : Index B)
        (text : List ℕ) → IsPlain old → Rests old.machine
        → IsScript grammar (AnswersDecided (CallsIndex k)) number lines old text new
        → text ≡ decided_text grammar k number lines old.machine }
{}

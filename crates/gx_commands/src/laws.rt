//! What a watched script says of the index, and a status of 0 of the device, after a script and after a dump. Each
//! function is its contract alone.
ghost use Rattle.std.specs.Prelude.{◌≡◌, ℕ, List, Option, false, true};
ghost use Rattle.gx_commands.specs.Streams.{Outputs, Stream};
ghost use Rattle.gx_commands.specs.Durably.{EndsDurably};
ghost use Rattle.gx_commands.specs.Dumping.{DumpsOver, TellsKept};
ghost use Rattle.gx_commands.specs.Endings.{RunsOver};
ghost use Rattle.gx_commands.specs.Saying.{SaysSo};
ghost use Rattle.gx_commands.specs.Watching.{IsFaultless, Watches};
ghost use Rattle.gx_commands.specs.declared.watched.Watched.{Watched};
ghost use Rattle.gx_glog.specs.declared.parameters.Parameters.{Parameters};
ghost use Rattle.gx_script.specs.Corners.{Grammar, grammar_of};
ghost use Rattle.gx_script.specs.declared.fault.ScriptFault.{ScriptFault};
ghost use Rattle.gx_script.specs.declared.line.Line.{Line};
ghost use Rattle.gx_script.specs.Scripts.{IsDone, IsScript, IsStopped};

use gx_class::{KeyClass, ReadKeys};
use gx_disk::SectorDisk;
use gx_script::{Answers, Corners};

/// A script over a watched index is one over the index: of the same lines, with the same text, read and written the
/// same.
pub fn a_watched_script_is_a_script<B, I: Answers<B>>()
    ensures lines { (grammar : Grammar B) (number : ℕ) (lines : List (Line B)) (old new : Watched I) (text : List ℕ)
        → IsScript grammar (Watches I.answered) number lines old text new
        → IsScript grammar I.answered number lines old.index text new.index }
    ensures done { (grammar : Grammar B) (had left held holds : Option (List ℕ)) (old new : Watched I)
        → IsDone grammar (Watches I.answered) had left held holds old new
        → IsDone grammar I.answered had left held holds old.index new.index }
    ensures stopped { (grammar : Grammar B) (had left held holds : Option (List ℕ)) (old new : Watched I)
        (fault : ScriptFault)
        → IsStopped grammar (Watches I.answered) had left held holds old new fault
        → IsStopped grammar I.answered had left held holds old.index new.index fault }
{}

/// If the watcher has seen no fault by a script's end, no reply to one of its lines reported one.
pub fn a_script_that_met_nothing_is_faultless<B, I: Answers<B>>()
    ensures { (grammar : Grammar B) (number : ℕ) (lines : List (Line B)) (old new : Watched I) (text : List ℕ)
        → IsScript grammar (Watches I.answered) number lines old text new → new.met ≡ false
        → IsScript grammar (IsFaultless I.answered) number lines old.index text new.index }
{}

/// If a script over an honest device ended with status 0, its calls and their replies are one run of the set machine,
/// which begins with the set that the device's log kept, under its number. On the device that is left all commits are
/// durable, and each image that a crash may leave of it stands for the last set.
pub fn a_run_that_is_done_is_durable<D: SectorDisk, B: Corners, K: ReadKeys + KeyClass<Key = B>>()
    ensures { (number frames : ℕ) (disk after : D) (had left : Stream) (from to : Outputs) →
        (D.state disk).honest ≡ true
        → RunsOver (grammar_of B.Corners) B.Shape K.ReadKeys D.state number frames disk after had left from to 0
        → EndsDurably (grammar_of B.Corners) B.Shape K.ReadKeys D.state number disk after had left from to }
{
    gx_engine::laws::a_class_is_lawful::<K>();
    gx_engine::laws::progress::no_call_is_given_up::<D, K>();
}

/// If a dump over an honest device ended with status 0, it wrote the text of the tree of an index that has the set
/// which the device's log kept, with that set's number.
pub fn a_dump_that_is_done_tells_what_was_kept<
    D: SectorDisk,
    B: Corners,
    K: ReadKeys + KeyClass<Key = B>,
>()
    ensures { (number frames : ℕ) (disk after : D) (from to : Outputs) → (D.state disk).honest ≡ true
        → DumpsOver (grammar_of B.Corners) B.Shape K.ReadKeys D.state number frames disk after from to 0
        → TellsKept (grammar_of B.Corners) B.Shape K.ReadKeys D.state number disk from to }
{}

/// No command changes what an honest device says that it is formatted for, neither as it reads nor in an image that a
/// crash may leave: neither a script, however it ended, nor a dump, nor an opening that was refused.
pub fn a_command_leaves_what_a_device_says<
    D: SectorDisk,
    B: Corners,
    K: ReadKeys + KeyClass<Key = B>,
>()
    ensures run { (p : Parameters) (number frames : ℕ) (disk after : D) (had left : Stream) (from to : Outputs)
        (status : ℕ) → (D.state disk).honest ≡ true → SaysSo p (D.state disk)
        → RunsOver (grammar_of B.Corners) B.Shape K.ReadKeys D.state
        number frames disk after had left from to status → SaysSo p (D.state after) }
    ensures dump { (p : Parameters) (number frames : ℕ) (disk after : D) (from to : Outputs) (status : ℕ)
        → (D.state disk).honest ≡ true → SaysSo p (D.state disk)
        → DumpsOver (grammar_of B.Corners) B.Shape K.ReadKeys D.state
        number frames disk after from to status → SaysSo p (D.state after) }
{}

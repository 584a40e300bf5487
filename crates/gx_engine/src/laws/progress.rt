//! Laws of progress of an engine's events. Each function is its contract alone.
ghost use Rattle.std.specs.Prelude.{◌≤◌, ◌<◌, ℕ};
ghost use Rattle.gx_events.specs.declared.event.Event.TheVariants.{CheckpointStep, LogStep, Move, WritePage};
ghost use Rattle.gx_events.specs.declared.outcome.Outcome.TheVariants.{Help, More};
ghost use Rattle.gx_pool.specs.State.{dirty_count};
ghost use Rattle.gx_pool.specs.declared.frames.TheConstants.{FRAMES};
ghost use Rattle.gx_engine.specs.States.{IsOrderly, Parts};
ghost use Rattle.gx_recovery.specs.Known.{Limits};
ghost use Rattle.gx_engine.specs.Backlog.{backlog};
ghost use Rattle.gx_events.specs.declared.outcome.Need.{Need};
ghost use Rattle.gx_events.specs.declared.outcome.Outcome.{Outcome};
ghost use Rattle.gx_engine.specs.Helping.{AskedEnds, CallEnds, DoesWork, HasWork, HelpComes, NamesWork, PageNamesWork};
ghost use Rattle.gx_engine.specs.Helping.{WaitingLeavesAll, event_of};
ghost use Rattle.gx_engine.specs.Made.{Makes};

use crate::laws::a_class_is_lawful;
use gx_class::ReadKeys;
use gx_disk::SectorDisk;
use gx_index_laws::measures::what_a_call_has_left_is_bounded;

/// What is left to flush falls with each step of the log and of a checkpoint that did work, and with each page that was
/// written: the calls of the batch in flight and of the one that fills, the dirty pages, and the calls of a checkpoint
/// that runs, or that will be due once what fills is in flight. It is below 2^13 with frames for 4,096 pages. So while
/// no session works, and no call of the device fails, the log and a checkpoint have nothing to do after so many steps.
pub fn each_step_leaves_less_to_flush<D: SectorDisk, K: ReadKeys>()
    ensures log { (old new : Parts K.Key D)
        → Makes K.Key.Shape K.ReadKeys D.state old LogStep More new → backlog new < backlog old }
    ensures page { (old new : Parts K.Key D) (page : ℕ)
        → Makes K.Key.Shape K.ReadKeys D.state old (WritePage page) More new
        → backlog new < backlog old }
    ensures checkpoint { (old new : Parts K.Key D)
        → Makes K.Key.Shape K.ReadKeys D.state old CheckpointStep More new
        → backlog new < backlog old }
    ensures few { (e : Parts K.Key D) → dirty_count e.volume.shelf.frames ≤ FRAMES → backlog e < 8192 }
{}

/// What a session's move waits for has work to do: the page that it names may be written; the checkpoint that it names
/// runs or is due; if it names the log, no checkpoint runs, and the log has a call to make. This holds of an engine
/// over an honest device. A move that waits leaves each session's call as much to do as before, and so does each event
/// that helps.
///
/// Over any device a move that waits leaves no more to flush, and an event that has work to do either does it and
/// leaves less to flush, or is refused.
pub fn a_move_that_waits_names_work<D: SectorDisk, K: ReadKeys>()
    ensures work { (l : Limits) → NamesWork K.Key.Shape K.ReadKeys D.state l }
    ensures helps { (old new : Parts K.Key D) (n : Need) (given : Outcome K.Key) → HasWork n old
        → Makes K.Key.Shape K.ReadKeys D.state old (event_of n) given new → DoesWork given old new }
    ensures left { (l : Limits) → WaitingLeavesAll K.Key.Shape K.ReadKeys D.state l }
    ensures flush { (old new : Parts K.Key D) (s : ℕ) (n : Need)
        → Makes K.Key.Shape K.ReadKeys D.state old (Move s) (Help n) new
        → backlog new ≤ backlog old }
{}

/// What the bringing of a page waits for has work to do, in the same sense, and leaves no more to flush. This holds of
/// an engine over an honest device.
///
/// Over any device what has work to do, when called directly, does it and leaves less to flush, or is refused; and what
/// is left to flush is below 2^13 in any engine.
pub fn a_page_that_waits_names_work<D: SectorDisk, K: ReadKeys>()
    ensures work { (l : Limits) → PageNamesWork K.Key.Shape K.ReadKeys D.state l }
    ensures helps { (old new : Parts K.Key D) (n : Need) (given : Outcome K.Key) → HasWork n old
        → HelpComes (D.state old.volume.shelf.disk) (D.state new.volume.shelf.disk) n old new given
        → DoesWork given old new }
    ensures few { (e : Parts K.Key D) → IsOrderly e → backlog e < 8192 }
{}

/// A session's call that is moved alone, with the events that help it, ends: it takes fewer than 2^55 events. This
/// holds of an engine over an honest device.
pub fn a_call_alone_ends<D: SectorDisk, K: ReadKeys>()
    ensures { (l : Limits) → CallEnds K.Key.Shape K.ReadKeys D.state l }
{
    a_class_is_lawful::<K>();
    what_a_call_has_left_is_bounded::<K::Key>();
}

/// No call of an engine over an honest device is given up.
pub fn no_call_is_given_up<D: SectorDisk, K: ReadKeys>()
    ensures { (l : Limits) → AskedEnds K.Key.Shape K.ReadKeys D.state l }
{
    a_class_is_lawful::<K>();
    what_a_call_has_left_is_bounded::<K::Key>();
}

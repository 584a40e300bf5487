//! Laws of lives. Each function is its contract alone.
ghost use Rattle.std.specs.Prelude.{◌≡◌, ◌≤◌, ◌<◌, ◌^◌, ℕ, List};
ghost use Rattle.gx_engine.specs.States.{Parts};
ghost use Rattle.gx_events.specs.declared.event.Event.TheVariants.{Move};
ghost use Rattle.gx_events.specs.declared.outcome.Outcome.TheVariants.{Replied};
ghost use Rattle.gx_glog.specs.declared.parameters.Parameters.{Parameters};
ghost use Rattle.gx_machine.specs.declared.reply.Reply.TheVariants.{Committed};
ghost use Rattle.gx_machine.specs.Invariants.{AllIdle, KeptInOrder};
ghost use Rattle.gx_machine.specs.Keys.{Keys, keys_of};
ghost use Rattle.gx_machine.specs.Machine.{Machine, newest, set_of};
ghost use Rattle.gx_machine.specs.Runs.{Step, IsRun};
ghost use Rattle.gx_restart.specs.Beginning.{HasFailed};
ghost use Rattle.gx_restart.specs.Setting.{IsRefusedAs};
ghost use Rattle.gx_opening.specs.Formatted.{IsAllowed};
ghost use Rattle.gx_lives.specs.Bearing.{AreOf, Bears, HasSet, IsOf};
ghost use Rattle.gx_lives.specs.Later.{FindsOpened};
ghost use Rattle.gx_lives.specs.Lives.{GoesOn, Lies, Lives, MayBeLeft, Stage, Turn, Works};
ghost use Rattle.gx_lives.specs.Lives as life;
ghost use Rattle.gx_lives.specs.OneRun.{IsNew, IsOneRun, IsRunFrom};
ghost use Rattle.gx_lives.specs.Serially.{AreSerial, FindExactly};
ghost use Rattle.gx_lives.specs.Told.{Tells};

use gx_class::ReadKeys;
use gx_disk::SectorDisk;
use gx_geom::{Refusal, Shape};
use gx_node::laws::{inners, leaves};

// A class's number fits its field.
fn is_class(_class: u16)
    ensures { _class < 2 ^ 16 }
{}

/// Any list of events, crashes and openings that an index on a device lives through is a run of the set machine: each
/// event is what the machine does by that event's outcome, each opening that ends well is one crash of the machine, to
/// a set that it kept then, and nothing else changes the machine. An engine at work is seen as that machine, and
/// whatever a crash may leave of a device alone stands for a set that the machine keeps.
///
/// A crash may come at each moment of an event and of an opening, and a device may have unsynced writes when an engine
/// is given up or an opening is refused.
pub fn every_life_is_the_machines<D: SectorDisk, K: ReadKeys>()
    ensures { (p : Parameters) → IsAllowed K.CLASS p
        → (turns : List (Turn K.Key)) (m : Machine K.Key) (old new : Stage K.Key D)
        → Lives K.Key.Shape K.ReadKeys D.state old turns new
        → Bears K.Key.Shape K.ReadKeys D.state p m old
        → (n : Machine K.Key) × AreOf (keys_of K.Key.Shape) m turns n
        × Bears K.Key.Shape K.ReadKeys D.state p n new }
{
    gx_engine::laws::a_class_is_lawful::<K>();
    is_class(K::CLASS);
}

/// Whatever a crash may leave, now or at any moment of the event or the opening that begins now, stands for a set
/// that the machine keeps under the number of the image's log: from the last durable commit's to the last one's.
pub fn a_crash_leaves_a_set_of_the_machine<D: SectorDisk, K: ReadKeys>()
    ensures { (p : Parameters) → IsAllowed K.CLASS p → (m : Machine K.Key) (now : Stage K.Key D)
        → Bears K.Key.Shape K.ReadKeys D.state p m now → (image : List ℕ)
        → MayBeLeft K.Key.Shape K.ReadKeys D.state now image
        → HasSet K.Key.Shape K.ReadKeys D.state p m image }
{
    gx_engine::laws::a_class_is_lawful::<K>();
    is_class(K::CLASS);
}

/// An opening in a life finds no damage: whatever came before, it is refused only with `Device` or `Memory`. Each crash
/// leaves a log whose bodies are whole, over pages that can be read and are a legal tree for it; and the undo of what
/// it cut off ends.
pub fn an_opening_finds_no_damage<D: SectorDisk, K: ReadKeys>()
    ensures { (p : Parameters) → IsAllowed K.CLASS p → (m : Machine K.Key) (old new : D) (why : Refusal)
        → Bears K.Key.Shape K.ReadKeys D.state p m (Lies old)
        → IsRefusedAs K.Key.Shape K.ReadKeys D.state old new why
        → HasFailed why }
{
    gx_engine::laws::a_class_is_lawful::<K>();
    is_class(K::CLASS);
}

/// A life from a device that bears a machine, whose sessions are idle and whose kept sets are in order, is one run from
/// that machine.
pub fn a_life_is_one_run<D: SectorDisk, K: ReadKeys>()
    ensures { (p : Parameters) → IsAllowed K.CLASS p → (start : Machine K.Key)
        → AllIdle start → KeptInOrder (keys_of K.Key.Shape) start
        → (disk : D) → Bears K.Key.Shape K.ReadKeys D.state p start (Lies disk)
        → (turns : List (Turn K.Key)) (now : Stage K.Key D)
        → Lives K.Key.Shape K.ReadKeys D.state (Lies disk) turns now
        → IsRunFrom K.Key.Shape K.ReadKeys D.state p start turns now }
{
    every_life_is_the_machines::<D, K>();
    every_life_is_a_run::<K::Key>();
    a_crash_leaves_a_set_of_the_machine::<D, K>();
    an_opening_finds_no_damage::<D, K>();
    a_run_that_begins_idle_is_serial::<K::Key>();
    gx_machine::laws::acknowledged_commits_survive::<K::Key>();
}

/// The headline. An index is formatted on an honest device, which succeeds, and then lives through any list of events,
/// crashes at any moment, and openings. This life is one run of the set machine, from nothing committed: a step for
/// each ask and each reply, and one crash for each opening that ended well. This run is serial, by the numbers of its
/// commits, and each search that it answers finds exactly what matches in its view. The engine at work is seen as the
/// machine that this run led to; whatever a crash may leave has a set that this machine keeps, of the first n commits;
/// n covers each commit that was replied to; and an opening of the device is refused only if a call of the device
/// failed or memory was refused.
pub fn an_index_lives_as_one_run<D: SectorDisk, K: ReadKeys>()
    ensures { (p : Parameters) → p.class ≡ K.CLASS → (disk : D) → IsNew K.KeyClass K.start_key D.state p disk
        → (turns : List (Turn K.Key)) (now : Stage K.Key D)
        → Lives K.Key.Shape K.ReadKeys D.state (Lies disk) turns now
        → IsOneRun K.Key.Shape K.ReadKeys D.state p turns now }
{
    gx_engine::laws::a_class_is_lawful::<K>();
    gx_format::laws::phases::<D>();
    leaves::<K>();
    inners::<K>();
    gx_machine::laws::kept_sets_stay_in_order::<K::Key>();
    a_life_is_one_run::<D, K>();
}

/// A search of a later life finds what was committed. An index lives from its format to a device, and that is opened.
/// The opening has the set that the run's machine keeps under a number, which is at least that of each commit that was
/// replied to. From then on, until an insert or a delete is replied to as done, each search that gets a reply finds
/// exactly the entries of that set which match, in order, each once: whatever else comes in between, crashes and
/// openings too.
pub fn a_later_search_finds_what_was_opened<D: SectorDisk, K: ReadKeys>()
    ensures { (p : Parameters) → p.class ≡ K.CLASS → (disk : D) → IsNew K.KeyClass K.start_key D.state p disk
        → (turns : List (Turn K.Key)) (closed : D) (engine : Parts K.Key D)
        → Lives K.Key.Shape K.ReadKeys D.state (Lies disk) turns (Lies closed)
        → GoesOn K.Key.Shape K.ReadKeys D.state (Lies closed) life.Opens (Works engine)
        → FindsOpened K.Key.Shape K.ReadKeys D.state p turns closed engine }
{
    an_index_lives_as_one_run::<D, K>();
    every_life_is_the_machines::<D, K>();
    gx_machine::laws::keys_are_lawful::<K::Key>();
    gx_machine::laws::kept_sets_stay_in_order::<K::Key>();
    gx_machine::laws::found_is_what_the_view_has::<K::Key>();
    gx_machine::laws::calls_change_no_set::<K::Key>();
    gx_machine::laws::only_open_commits_are_sealed::<K::Key>();
}

/// A run that begins with idle sessions, and with kept sets that are in order, is serial, and each search that gets a
/// reply finds exactly what matches in its view.
pub fn a_run_that_begins_idle_is_serial<B: Shape>()
    ensures serial { (start new : Machine B) (steps : List (Step B))
        → AllIdle start → KeptInOrder (keys_of B.Shape) start
        → IsRun (keys_of B.Shape) start steps new → AreSerial (keys_of B.Shape) start steps }
    ensures finds { (start new : Machine B) (steps : List (Step B)) → KeptInOrder (keys_of B.Shape) start
        → IsRun (keys_of B.Shape) start steps new → FindExactly (keys_of B.Shape) start steps }
{
    gx_machine::laws::keys_are_lawful::<B>();
    gx_machine::laws::every_run_is_serial::<B>();
    gx_machine::laws::committed_transactions_run_alone::<B>();
    gx_machine::laws::kept_sets_stay_in_order::<B>();
    gx_machine::laws::found_is_what_the_view_has::<B>();
}

/// A life is a run of the machine: a step for each ask and each reply, and one crash for each opening that ends well.
/// So all that holds of runs holds of lives.
pub fn every_life_is_a_run<B>()
    ensures { (k : Keys B) (turns : List (Turn B)) (old new : Machine B) → AreOf k old turns new
        → (steps : List (Step B)) × Tells turns steps × IsRun k old steps new }
{}

/// A commit that was replied to is kept by each later opening, whatever came in between: the number that is opened is
/// at least the commit's, and the set is the one which that number had.
pub fn acknowledged_commits_are_opened<B>()
    ensures { (k : Keys B) (old answered last opened : Machine B) (s committed : ℕ) (turns : List (Turn B))
        → IsOf k old (life.Happens (Move s) (Replied (Committed committed))) answered → AreOf k answered turns last
        → IsOf k last life.Opens opened → (committed ≤ newest opened) × (opened.latest ≡ set_of (newest opened) last) }
{
    gx_machine::laws::acknowledged_commits_survive::<B>();
}

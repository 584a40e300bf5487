//! A call that looks begins at the root, and reads one page a move, in its session.
ghost use Rattle.std.specs.Prelude.{◌≡◌, ◌≢◌, ◌-◌, ◌<◌, [], true, false, length, IfErr, IfNone, IfOk, IfSome, OnOk};
ghost use Rattle.gx_machine.specs.declared.call.Call.{Call};
ghost use Rattle.gx_machine.specs.Machine.{is_session};
ghost use Rattle.gx_node.specs.Owner.{look_fails};
ghost use Rattle.gx_storage.specs.Bringing.{bringing};
ghost use Rattle.gx_store.specs.Faults.{store_fails};
ghost use Rattle.gx_tree.specs.declared.look.Look.{Look};
ghost use Rattle.gx_tree.specs.Wants.{wants};
ghost use Rattle.gx_phases.specs.declared.phase.Phase.TheVariants.{Open};
ghost use Rattle.gx_phases.specs.States.{phase_at};
ghost use Rattle.gx_engine.specs.Calls.{IsRead, TellsWhere};
ghost use Rattle.gx_engine.specs.declared.work.Work.TheVariants.{Looks};
ghost use Rattle.gx_engine.specs.Holds.{MayHaveFound};
ghost use Rattle.gx_engine.specs.Looks.{IsFirst, IsFirstUnless, ReadsIn, ReadsOn, RefusesIn, RefusesLook};
ghost use Rattle.gx_engine.specs.Looks.{look_events, work_before};
ghost use Rattle.gx_engine.specs.Moves.{calling};
ghost use Rattle.gx_storage.specs.Setting.{IsWhyOfLookAs, StaysAs, ToldAs, Unlogged, tree_at};
ghost use Rattle.gx_engine.specs.Setting.{MovesAs, StopComesAs, phase_in};

use crate::Engine;
use crate::laws::a_class_is_lawful;
use crate::work::Work;
use gx_class::{Probing, ReadKeys};
use gx_disk::SectorDisk;
use gx_events::Outcome;
use gx_geom::{Refusal, Shape};
use gx_phases::{Phase, Sessions};
use gx_storage::Storage;
use gx_storage::laws::a_volume_shows_the_logs_tree;
use gx_store::StoreFault;
use gx_tree::{Look, LookFault, StepFault, TraversalItem, Wanted};
use std::alloc::AllocError;

/// The look of a session's call, if that is at one.
pub(crate) fn look_in<B: Shape>(phase: &Phase<B, Work<B>>) -> Option<&Look<B>>
    ensures some { IfSome result (λ look. (call : Call B) × (phase.now ≡ Open call (Looks look.now))) }
    ensures none { IfNone result ((call : Call B) (look : Look B) → phase.now ≢ Open call (Looks look)) }
{
    match phase {
        Phase::Open(_, Work::Looks(look)) => Some(look),
        Phase::Open(_, Work::Rests | Work::Descends(..) | Work::Seeks(_))
        | Phase::Free
        | Phase::Working
        | Phase::Undoing(..)
        | Phase::Waiting(_) => None,
    }
}

/// Reads the next page of a call's look in its session. Returns whether no page is left to read.
fn read_in<D: SectorDisk, K: ReadKeys + Probing>(
    storage: &mut Storage<D, K>,
    sessions: &mut Sessions<K::Key, Work<K::Key>>,
    session: u8,
    wanted: &Wanted<K>,
) -> Result<bool, LookFault<StoreFault>>
    requires session { is_session session ≡ true }
    requires looks { (call : Call K.Key) × (look : Look K.Key)
        × (phase_at (session - 1) sessions.old.phases ≡ Open call (Looks look)) × (0 < length look.stack.items) }
    ensures unlogged { Unlogged K.Key.Shape K.ReadKeys D.state (bringing storage.old) storage.old storage.new }
    ensures stays { StaysAs K.KeyClass D.state storage.old.shelf storage.new.shelf }
    ensures reads { IfOk result (λ done. (call : Call K.Key) (look : Look K.Key)
        → phase_at (session - 1) sessions.old.phases ≡ Open call (Looks look)
        → ReadsIn (tree_at K.KeyClass D.state storage.new.shelf)
        (wants K.passes wanted.now.keys wanted.now.row) (K.passes wanted.now.bounds) session call look
        sessions.old sessions.new done) }
    ensures refused { IfErr result (λ fault. (call : Call K.Key) (look : Look K.Key)
        → phase_at (session - 1) sessions.old.phases ≡ Open call (Looks look)
        → RefusesIn (tree_at K.KeyClass D.state storage.new.shelf) session call look
        sessions.old sessions.new fault) }
    ensures only { sessions.new ≡ record sessions.old { phases = sessions.new.phases } }
    ensures why { IfErr result (IsWhyOfLookAs K.KeyClass D.state (bringing storage.old) storage.new.shelf) }
    ensures told { ToldAs D.state (look_fails store_fails) storage.old.shelf storage.new.shelf result }
{
    match sessions.work_mut(session) {
        Work::Looks(look) => match storage.look_step(wanted, look) {
            Ok(()) => Ok(look.is_done()),
            Err(fault) => Err(fault),
        },
        Work::Rests | Work::Descends(..) | Work::Seeks(_) => unreachable!(),
    }
}

impl<D: SectorDisk, K: ReadKeys + Probing> Engine<D, K> {
    // The look with which a call begins, at the root.
    pub(crate) fn first_look(&self) -> Result<Look<K::Key>, AllocError>
        ensures { IfOk result (IsFirst self.now) }
    {
        Look::new(self.alloc, TraversalItem::new(1, self.storage.counter()))
    }

    // Reads the next page of a call's look in its session. Returns whether no page is left to read.
    fn step_look(&mut self, session: u8, wanted: &Wanted<K>) -> Result<bool, LookFault<StoreFault>>
        requires session { is_session session ≡ true }
        requires looks { (call : Call K.Key) × (look : Look K.Key)
            × (phase_in session self.old ≡ Open call (Looks look)) × (0 < length look.stack.items) }
        ensures unlogged { Unlogged K.Key.Shape K.ReadKeys D.state
            (bringing self.old.volume) self.old.volume self.new.volume }
        ensures stays { StaysAs K.KeyClass D.state self.old.volume.shelf self.new.volume.shelf }
        ensures reads { IfOk result (λ done. (call : Call K.Key) (look : Look K.Key)
            → phase_in session self.old ≡ Open call (Looks look)
            → ReadsOn (tree_at K.KeyClass D.state self.new.volume.shelf)
            (wants K.passes wanted.now.keys wanted.now.row) (K.passes wanted.now.bounds) session call look
            self.old self.new done) }
        ensures refused { IfErr result (λ fault. (call : Call K.Key) (look : Look K.Key)
            → phase_in session self.old ≡ Open call (Looks look)
            → RefusesLook (tree_at K.KeyClass D.state self.new.volume.shelf) session call look
            self.old self.new fault) }
        ensures why { IfErr result (IsWhyOfLookAs K.KeyClass D.state (bringing self.old.volume) self.new.volume.shelf) }
        ensures told { ToldAs D.state (look_fails store_fails) self.old.volume.shelf self.new.volume.shelf result }
    {
        read_in(&mut self.storage, &mut self.sessions, session, wanted)
    }

    // Sets a call to rest again if its look hadn't begun.
    fn unless_begun(&mut self, session: u8, begun: bool)
        requires session { is_session session ≡ true }
        ensures held { (call : Call K.Key) (look : Look K.Key) → phase_in session self.old ≡ Open call (Looks look)
            → self.new ≡ calling session call (work_before begun look) self.old }
        ensures volume { self.new.volume ≡ self.old.volume }
    {
        if begun {
            return;
        }
        self.sessions.replace_work(session, Work::Rests);
    }

    // A call's look reads its next page; one that hasn't begun reads the root. Returns whether no page is left to read.
    // `Err` has the outcome if the page was refused: then the call's state is unchanged, or the call is closed, or the
    // engine has failed.
    pub(crate) fn read_look(
        &mut self,
        session: u8,
        wanted: &Wanted<K>,
        begun: bool,
    ) -> Result<bool, Outcome<K::Key>>
        requires session { is_session session ≡ true }
        requires looks { (call : Call K.Key) × (look : Look K.Key)
            × (phase_in session self.old ≡ Open call (Looks look)) × (0 < length look.stack.items)
            × IsFirstUnless begun self.old look }
        requires works { self.old.sessions.failed ≡ false }
        ensures unlogged { OnOk result (Unlogged K.Key.Shape K.ReadKeys D.state
            (bringing self.old.volume) self.old.volume self.new.volume) }
        ensures stays { OnOk result (StaysAs K.KeyClass D.state self.old.volume.shelf self.new.volume.shelf) }
        ensures reads { IfOk result (λ done. (call : Call K.Key) (look : Look K.Key)
            → phase_in session self.old ≡ Open call (Looks look)
            → ReadsOn (tree_at K.KeyClass D.state self.new.volume.shelf)
            (wants K.passes wanted.now.keys wanted.now.row) (K.passes wanted.now.bounds) session call look
            self.old self.new done) }
        ensures stops { IfErr result (λ outcome. (call : Call K.Key) (look : Look K.Key)
            → phase_in session self.old ≡ Open call (Looks look)
            → StopComesAs K.KeyClass D.state session (calling session call (work_before begun look) self.old) self.new
            outcome) }
        ensures moves { IfErr result (λ outcome. (call : Call K.Key) (look : Look K.Key)
            → phase_in session self.old ≡ Open call (Looks look) → MayHaveFound call []
            → MovesAs K.Key.Shape K.ReadKeys D.state session
            (calling session call (work_before begun look) self.old) self.new outcome
            (look_events session call outcome)) }
        ensures device { IsRead D.state self.old self.new }
        ensures told { TellsWhere D.state self.old self.new result }
    {
        a_class_is_lawful::<K>();
        self.sessions.stands();
        self.storage.in_order();
        self.storage.most();
        a_volume_shows_the_logs_tree::<D, K>();
        match self.step_look(session, wanted) {
            Ok(done) => Ok(done),
            Err(LookFault::Memory) => Err(self.close(session, Refusal::Memory)),
            Err(LookFault::Step(StepFault::Pages(fault))) => {
                self.unless_begun(session, begun);
                Err(self.refuse(fault))
            }
            Err(LookFault::Step(StepFault::Damaged)) => {
                self.unless_begun(session, begun);
                Err(self.break_off(Refusal::Damaged))
            }
        }
    }
}

//! The moves of inserts and deletes.
ghost use Rattle.std.specs.Prelude.{◌≡◌, ◌-◌, true, false, Some};
ghost use Rattle.gx_machine.specs.declared.call.Call.{Call};
ghost use Rattle.gx_machine.specs.declared.call.Call.TheVariants.{Delete, Insert};
ghost use Rattle.gx_machine.specs.Machine.{is_session};
ghost use Rattle.gx_tree.specs.Descending.{next_of};
ghost use Rattle.gx_node.specs.Reach as reach;
ghost use Rattle.gx_phases.specs.declared.phase.Phase.TheVariants.{Open};
ghost use Rattle.gx_engine.specs.Calls.{IsRead, TellsAs};
ghost use Rattle.gx_engine.specs.declared.work.Work as declared;
ghost use Rattle.gx_engine.specs.declared.work.Work.TheVariants.{Descends};
ghost use Rattle.gx_engine.specs.Moves.{calling};
ghost use Rattle.gx_engine.specs.Writes.{AreWriting, WritesAs};
ghost use Rattle.gx_engine.specs.Setting.{MovesSoAs, phase_in};

pub(crate) mod descents;
pub(crate) mod looks;
pub(crate) mod seeks;

use crate::Engine;
use crate::work::Work;
use gx_class::{Probing, ReadKeys};
use gx_disk::SectorDisk;
use gx_events::Outcome;
use gx_geom::{Refusal, Shape};
use gx_machine::Entry;
use gx_phases::Phase;
use gx_tree::{Descended, TraversalItem};

impl<D: SectorDisk, K: ReadKeys> Engine<D, K> {
    // Sets a call to descend at this item, to which it came from this page.
    fn go_to(&mut self, session: u8, from: u32, item: TraversalItem) -> Outcome<K::Key>
        requires session { is_session session ≡ true }
        ensures outcome { result ≡ Outcome.More }
        ensures there { (call : Call K.Key) (was : declared.Work K.Key) → phase_in session self.old ≡ Open call was
            → self.new ≡ calling session call (Descends from item) self.old }
        ensures device { IsRead D.state self.old self.new }
        ensures told { TellsAs D.state self.old self.new result }
    {
        self.sessions
            .replace_work(session, Work::Descends(from, item));
        Outcome::More
    }

    // Starts a call's descent again at the root.
    fn begin_again(&mut self, session: u8) -> Outcome<K::Key>
        requires session { is_session session ≡ true }
        ensures outcome { result ≡ Outcome.More }
        ensures there { (call : Call K.Key) (was : declared.Work K.Key) → phase_in session self.old ≡ Open call was
            → self.new ≡ calling session call (Descends 0 (record { page = 1; seen = self.old.volume.shelf.counter }))
            self.old }
        ensures device { IsRead D.state self.old self.new }
        ensures told { TellsAs D.state self.old self.new result }
    {
        let root = TraversalItem::new(1, self.storage.counter());
        self.go_to(session, 0, root)
    }

    // A step at an item's page has gone down, and the descent with it.
    fn go_down(
        &mut self,
        session: u8,
        from: &TraversalItem,
        did: &Descended<K::Key>,
    ) -> Outcome<K::Key>
        requires session { is_session session ≡ true }
        ensures outcome { result ≡ Outcome.More }
        ensures there { (next : reach.TraversalItem) → next_of did.now ≡ Some next
            → (call : Call K.Key) (was : declared.Work K.Key) → phase_in session self.old ≡ Open call was
            → self.new ≡ calling session call (Descends from.now.page next) self.old }
        ensures device { IsRead D.state self.old self.new }
        ensures told { TellsAs D.state self.old self.new result }
    {
        let next = did
            .next()
            .unwrap_or(TraversalItem::new(from.page(), from.seen()));
        self.go_to(session, from.page(), next)
    }
}

impl<D: SectorDisk, K: ReadKeys + Probing> Engine<D, K> {
    /// Makes a move of a session's open insert. The insert looks for its pair, one page a move. If a leaf has it, the
    /// insert seeks it and clears its mark. If none has it, the insert descends and adds it to a leaf, with one more
    /// move for each bound that is widened, each full leaf that is swept and each full node that is split on the way.
    /// Each move before the last returns `More` and leaves less to do. The last returns `Replied(Inserted)` once the
    /// pair is in a leaf, noted, and its record is logged, or `Replied(Refused(Present))` if it is live already. It
    /// makes no write and no sync of the device.
    ///
    /// Returns `Help(Checkpoint)` if a move would log while a checkpoint runs or `CHECKPOINT_AT` places of the extent
    /// are taken; `Help` with the event that has to come first, if its record doesn't fit the batch that fills, or no
    /// frame is free for a page. The insert's state is unchanged then. The call is closed with `Memory` if memory is
    /// refused, which only its look takes, and with `PagesFull` if too few pages are left. If the device failed, or a
    /// page can't be read, the engine has failed, and the reply is `Device` or `Damaged`.
    pub(crate) fn insert(&mut self, session: u8, entry: Entry<K::Key>) -> Outcome<K::Key>
        requires session { is_session session ≡ true }
        requires inserts { (work : declared.Work K.Key) × (phase_in session self.old ≡ Open (Insert entry) work) }
        requires works { self.old.sessions.failed ≡ false }
        ensures comes { WritesAs K.Key.Shape K.KeyClass D.state session (Insert entry) self.old self.new result }
        ensures moves { MovesSoAs K.Key.Shape K.ReadKeys D.state session self.old self.new result
            (AreWriting session (Insert entry) result) }
        ensures device { IsRead D.state self.old self.new }
        ensures told { TellsAs D.state self.old self.new result }
    {
        self.sessions.stands();
        match self.sessions.phase(session) {
            Phase::Open(_, Work::Descends(parent, item)) => {
                let parent = *parent;
                let item = *item;
                self.descend(session, entry, parent, item)
            }
            Phase::Open(_, Work::Seeks(leaf)) => {
                let leaf = *leaf;
                self.insert_at(session, entry, leaf)
            }
            Phase::Open(_, Work::Rests | Work::Looks(_))
            | Phase::Free
            | Phase::Working
            | Phase::Undoing(..)
            | Phase::Waiting(_) => self.insert_look(session, entry),
        }
    }

    /// Makes a move of a session's open delete. The delete looks for its pair, seeks it in its leaf, and marks it:
    /// `Replied(Deleted)`. If no leaf has the pair, or it is marked already, the reply is `Refused(Absent)`. All else
    /// is as for an insert; a delete takes no pages.
    pub(crate) fn delete(&mut self, session: u8, entry: Entry<K::Key>) -> Outcome<K::Key>
        requires session { is_session session ≡ true }
        requires deletes { (work : declared.Work K.Key) × (phase_in session self.old ≡ Open (Delete entry) work) }
        requires works { self.old.sessions.failed ≡ false }
        ensures comes { WritesAs K.Key.Shape K.KeyClass D.state session (Delete entry) self.old self.new result }
        ensures moves { MovesSoAs K.Key.Shape K.ReadKeys D.state session self.old self.new result
            (AreWriting session (Delete entry) result) }
        ensures device { IsRead D.state self.old self.new }
        ensures told { TellsAs D.state self.old self.new result }
    {
        self.sessions.stands();
        match self.sessions.phase(session) {
            Phase::Open(_, Work::Seeks(leaf)) => {
                let leaf = *leaf;
                self.delete_at(session, entry, leaf)
            }
            // no delete descends
            Phase::Open(_, Work::Descends(..)) => self.break_off(Refusal::Damaged),
            Phase::Open(_, Work::Rests | Work::Looks(_))
            | Phase::Free
            | Phase::Working
            | Phase::Undoing(..)
            | Phase::Waiting(_) => self.delete_look(session, entry),
        }
    }
}

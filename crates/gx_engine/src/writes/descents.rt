//! The descent of an insert whose pair is in no leaf yet: from the root to a leaf that has room.
ghost use Rattle.std.specs.Prelude.{◌≡◌, ◌≢◌, ◌-◌, ◌≤◌, true, false, length};
ghost use Rattle.gx_machine.specs.declared.call.Call.TheVariants.{Insert};
ghost use Rattle.gx_machine.specs.Keys.{keys_of};
ghost use Rattle.gx_machine.specs.Machine.{is_session};
ghost use Rattle.gx_tree.specs.declared.descent.Way.TheVariants.{Add};
ghost use Rattle.gx_tree.specs.Descending.{WayAt};
ghost use Rattle.gx_phases.specs.declared.phase.Phase.TheVariants.{Open};
ghost use Rattle.gx_phases.specs.Moves.{HasWrite, is_open, transaction_of, written_state};
ghost use Rattle.gx_disk.specs.declared.layout.TheConstants.{MAX_PAGES};
ghost use Rattle.gx_node.specs.Owner.{split_fails, step_fails};
ghost use Rattle.gx_store.specs.Faults.{store_fails};
ghost use Rattle.gx_engine.specs.Calls.{IsRead, TellsAs};
ghost use Rattle.gx_engine.specs.declared.work.Work.TheVariants.{Descends};
ghost use Rattle.gx_engine.specs.States.{is_due};
ghost use Rattle.gx_engine.specs.Sweeping.{is_held};
ghost use Rattle.gx_engine.specs.Writes.{AddsAs, MakesRoomAs, SplitsAs, WritesAs, write_events};
ghost use Rattle.gx_storage.specs.Setting.{IsSteadyAs, ToldAs, store_at, tree_at};
ghost use Rattle.gx_engine.specs.Setting.{AddingAs, IsFullAs, LeafSweepingAs, MovesAs, RootSplittingAs, SplittingAs};
ghost use Rattle.gx_engine.specs.Setting.{SteppingAs, may_sweep, phase_in};

use crate::Engine;
use crate::laws::a_class_is_lawful;
use crate::work::Work;
use gx_class::ReadKeys;
use gx_disk::SectorDisk;
use gx_events::{Need, Outcome};
use gx_geom::Refusal;
use gx_machine::{Entry, Reply};
use gx_node::laws::{small_pairs, small_removals};
use gx_storage::laws::a_volume_shows_keys;
use gx_store::StoreFault;
use gx_tree::{Descended, RootSplit, Split, SplitFault, StepFault, TraversalItem};

impl<D: SectorDisk, K: ReadKeys> Engine<D, K> {
    // Makes a descent's step at the page of its item, as storage does.
    fn step_down(
        &mut self,
        item: &TraversalItem,
        coming: &K::Key,
    ) -> Result<Descended<K::Key>, StepFault<StoreFault>>
        requires early { is_due self.old ≡ false }
        ensures step { SteppingAs K.Key.Shape K.ReadKeys D.state self.old.volume self.new.volume
            item.now coming.now result }
        ensures only { self.new ≡ record self.old { volume = self.new.volume } }
        ensures device { IsRead D.state self.old self.new }
        ensures told { ToldAs D.state (step_fails store_fails) self.old.volume.shelf self.new.volume.shelf result }
    {
        self.storage.descend(item, coming)
    }

    // Adds an entry's pair to the leaf of an item for a session's transaction, as storage does.
    fn add_pair(
        &mut self,
        session: u8,
        entry: &Entry<K::Key>,
        item: &TraversalItem,
    ) -> Result<(), StepFault<StoreFault>>
        requires session { is_session session ≡ true }
        requires early { is_due self.old ≡ false }
        ensures adds { AddingAs K.Key.Shape K.ReadKeys D.state self.old.volume self.new.volume
            (transaction_of session self.old.sessions) entry.now item.now.page result }
        ensures only { self.new ≡ record self.old { volume = self.new.volume } }
        ensures device { IsRead D.state self.old self.new }
        ensures told { ToldAs D.state (step_fails store_fails) self.old.volume.shelf self.new.volume.shelf result }
    {
        let transaction = self.sessions.transaction(session);
        self.storage.add(transaction, item.page(), entry)
    }

    // Notes that an insert's pair, which was absent, was added to the leaf of an item, and replies to the call.
    fn note_added(
        &mut self,
        session: u8,
        entry: Entry<K::Key>,
        item: &TraversalItem,
    ) -> Outcome<K::Key>
        requires session { is_session session ≡ true }
        requires write { HasWrite entry (phase_in session self.old) }
        ensures outcome { result ≡ Outcome.Replied Reply.Inserted }
        ensures noted { self.new ≡ record self.old {
          sessions = written_state (keys_of K.Key.Shape) session
              (record { entry = entry; before = true; leaf = item.now.page }) self.old.sessions;
        } }
        ensures device { IsRead D.state self.old self.new }
    {
        self.sessions.note(session, entry, true, item.page());
        Outcome::Replied(Reply::Inserted)
    }

    // Adds an insert's pair to the leaf with room to which it descended, and notes that.
    fn add_here(
        &mut self,
        session: u8,
        entry: Entry<K::Key>,
        parent: u32,
        item: TraversalItem,
    ) -> Outcome<K::Key>
        requires session { is_session session ≡ true }
        requires descends { phase_in session self.old ≡ Open (Insert entry) (Descends parent item) }
        requires works { self.old.sessions.failed ≡ false }
        requires early { is_due self.old ≡ false }
        ensures comes { AddsAs K.Key.Shape K.KeyClass D.state session (Insert entry) item.page self.old self.new
            result }
        ensures moves { (IsSteadyAs D.state self.old.volume.shelf
            → WayAt K.cost K.joined self.old.volume.most (store_at K.KeyClass D.state self.old.volume.shelf) item
            entry.key Add) → MovesAs K.Key.Shape K.ReadKeys D.state session self.old self.new result
            (write_events session (Insert entry) result) }
        ensures device { IsRead D.state self.old self.new }
        ensures told { TellsAs D.state self.old self.new result }
    {
        a_class_is_lawful::<K>();
        small_pairs::<K>(self.storage.most());
        K::known(&entry.key);
        self.sessions.stands();
        self.storage.in_order();
        match self.add_pair(session, &entry, &item) {
            Ok(()) => self.note_added(session, entry, &item),
            Err(StepFault::Pages(fault)) => self.refuse(fault),
            Err(StepFault::Damaged) => self.break_off(Refusal::Damaged),
        }
    }

    // Removes from a leaf the marked pairs that no session claims, as storage does.
    fn sweep_leaf(&mut self, item: &TraversalItem) -> Result<bool, StepFault<StoreFault>>
        requires early { is_due self.old ≡ false }
        ensures sweeps { LeafSweepingAs K.Key.Shape K.ReadKeys D.state
            (is_held (keys_of K.Key.Shape) self.old) self.old.volume self.new.volume item.now.page result }
        ensures only { self.new ≡ record self.old { volume = self.new.volume } }
        ensures device { IsRead D.state self.old self.new }
        ensures told { ToldAs D.state (step_fails store_fails) self.old.volume.shelf self.new.volume.shelf result }
    {
        let sessions = &self.sessions;
        self.storage
            .sweep(item.page(), |entry| sessions.is_claimed(&entry))
    }

    // Splits the node of an item below its parent, as storage does.
    fn split_node(
        &mut self,
        parent: u32,
        item: &TraversalItem,
    ) -> Result<Option<Split<K::Key>>, SplitFault<StoreFault>>
        requires early { is_due self.old ≡ false }
        ensures splits { SplittingAs K.Key.Shape K.ReadKeys D.state self.old.volume self.new.volume
            item.now.page parent result }
        ensures only { self.new ≡ record self.old { volume = self.new.volume } }
        ensures fits { (self.new.volume.shelf.used ≤ self.new.volume.shelf.pages)
            × (self.new.volume.shelf.pages ≤ MAX_PAGES) }
        ensures device { IsRead D.state self.old self.new }
        ensures told { ToldAs D.state (split_fails store_fails) self.old.volume.shelf self.new.volume.shelf result }
    {
        let split = self.storage.split(item.page(), parent, &mut self.keys);
        self.storage.in_order();
        split
    }

    // Splits the root, as storage does.
    fn split_root(&mut self) -> Result<RootSplit<K::Key>, SplitFault<StoreFault>>
        requires early { is_due self.old ≡ false }
        ensures splits { RootSplittingAs K.Key.Shape K.ReadKeys D.state self.old.volume self.new.volume result }
        ensures only { self.new ≡ record self.old { volume = self.new.volume } }
        ensures fits { (self.new.volume.shelf.used ≤ self.new.volume.shelf.pages)
            × (self.new.volume.shelf.pages ≤ MAX_PAGES) }
        ensures device { IsRead D.state self.old self.new }
        ensures told { ToldAs D.state (split_fails store_fails) self.old.volume.shelf self.new.volume.shelf result }
    {
        let split = self.storage.split_root(&mut self.keys);
        self.storage.in_order();
        split
    }

    // Splits the full node of a descent's item, below the root, unless its parent has no room for that. The descent
    // begins again.
    fn split_below(&mut self, session: u8, parent: u32, item: TraversalItem) -> Outcome<K::Key>
        requires session { is_session session ≡ true }
        requires open { is_open (phase_in session self.old) ≡ true }
        requires works { self.old.sessions.failed ≡ false }
        requires early { is_due self.old ≡ false }
        requires below { item.page ≢ 1 }
        ensures comes { (entry : Entry K.Key) → phase_in session self.old ≡ Open (Insert entry) (Descends parent item)
            → SplitsAs K.Key.Shape K.KeyClass D.state session (Insert entry) item.page self.old self.new result }
        ensures moves { (entry : Entry K.Key) → phase_in session self.old ≡ Open (Insert entry) (Descends parent item)
            → IsFullAs K.KeyClass D.state self.old item.page
            → MovesAs K.Key.Shape K.ReadKeys D.state session self.old self.new result
            (write_events session (Insert entry) result) }
        ensures device { IsRead D.state self.old self.new }
        ensures told { TellsAs D.state self.old self.new result }
    {
        a_class_is_lawful::<K>();
        self.sessions.stands();
        match self.split_node(parent, &item) {
            Ok(_) => self.begin_again(session),
            Err(SplitFault::PagesFull) => self.close(session, Refusal::PagesFull),
            Err(SplitFault::Step(StepFault::Pages(fault))) => self.refuse(fault),
            Err(SplitFault::Step(StepFault::Damaged)) => self.break_off(Refusal::Damaged),
        }
    }

    // Splits the full root, and starts the descent again.
    fn split_top(&mut self, session: u8, parent: u32, item: TraversalItem) -> Outcome<K::Key>
        requires session { is_session session ≡ true }
        requires open { is_open (phase_in session self.old) ≡ true }
        requires works { self.old.sessions.failed ≡ false }
        requires early { is_due self.old ≡ false }
        requires top { item.page ≡ 1 }
        ensures comes { (entry : Entry K.Key) → phase_in session self.old ≡ Open (Insert entry) (Descends parent item)
            → SplitsAs K.Key.Shape K.KeyClass D.state session (Insert entry) item.page self.old self.new result }
        ensures moves { (entry : Entry K.Key) → phase_in session self.old ≡ Open (Insert entry) (Descends parent item)
            → IsFullAs K.KeyClass D.state self.old item.page
            → MovesAs K.Key.Shape K.ReadKeys D.state session self.old self.new result
            (write_events session (Insert entry) result) }
        ensures device { IsRead D.state self.old self.new }
        ensures told { TellsAs D.state self.old self.new result }
    {
        a_class_is_lawful::<K>();
        self.sessions.stands();
        match self.split_root() {
            Ok(_) => self.begin_again(session),
            Err(SplitFault::PagesFull) => self.close(session, Refusal::PagesFull),
            Err(SplitFault::Step(StepFault::Pages(fault))) => self.refuse(fault),
            Err(SplitFault::Step(StepFault::Damaged)) => self.break_off(Refusal::Damaged),
        }
    }

    // Splits the full node of a descent's item, which has no pair that a sweep removes.
    fn split_here(&mut self, session: u8, parent: u32, item: TraversalItem) -> Outcome<K::Key>
        requires session { is_session session ≡ true }
        requires open { is_open (phase_in session self.old) ≡ true }
        requires works { self.old.sessions.failed ≡ false }
        requires early { is_due self.old ≡ false }
        ensures comes { (entry : Entry K.Key) → phase_in session self.old ≡ Open (Insert entry) (Descends parent item)
            → SplitsAs K.Key.Shape K.KeyClass D.state session (Insert entry) item.page self.old self.new result }
        ensures moves { (entry : Entry K.Key) → phase_in session self.old ≡ Open (Insert entry) (Descends parent item)
            → IsFullAs K.KeyClass D.state self.old item.page
            → (IsSteadyAs D.state self.old.volume.shelf
            → may_sweep K.Key.Shape K.KeyClass D.state item.page self.old ≡ false)
            → MovesAs K.Key.Shape K.ReadKeys D.state session self.old self.new result
            (write_events session (Insert entry) result) }
        ensures device { IsRead D.state self.old self.new }
        ensures told { TellsAs D.state self.old self.new result }
    {
        if item.page() == 1 {
            self.split_top(session, parent, item)
        } else {
            self.split_below(session, parent, item)
        }
    }

    // Sweeps the full leaf to which a descent has come, or splits it if it has nothing to sweep.
    fn make_room(&mut self, session: u8, parent: u32, item: TraversalItem) -> Outcome<K::Key>
        requires session { is_session session ≡ true }
        requires open { is_open (phase_in session self.old) ≡ true }
        requires works { self.old.sessions.failed ≡ false }
        requires early { is_due self.old ≡ false }
        ensures comes { (entry : Entry K.Key) → phase_in session self.old ≡ Open (Insert entry) (Descends parent item)
            → MakesRoomAs K.Key.Shape K.KeyClass D.state session (Insert entry) item.page self.old self.new result }
        ensures moves { (entry : Entry K.Key) → phase_in session self.old ≡ Open (Insert entry) (Descends parent item)
            → (IsSteadyAs D.state self.old.volume.shelf
            → (((tree_at K.KeyClass D.state self.old.volume.shelf).node item.page).level ≡ 0)
            × (self.old.volume.most ≤ length ((tree_at K.KeyClass D.state self.old.volume.shelf).node item.page).pairs))
            → MovesAs K.Key.Shape K.ReadKeys D.state session self.old self.new result
            (write_events session (Insert entry) result) }
        ensures device { IsRead D.state self.old self.new }
        ensures told { TellsAs D.state self.old self.new result }
    {
        a_class_is_lawful::<K>();
        small_removals::<K>();
        self.sessions.stands();
        self.storage.most();
        self.storage.in_order();
        match self.sweep_leaf(&item) {
            Ok(true) => Outcome::More,
            Ok(false) => self.split_here(session, parent, item),
            Err(StepFault::Pages(fault)) => self.refuse(fault),
            Err(StepFault::Damaged) => self.break_off(Refusal::Damaged),
        }
    }

    // Makes a descent's next step, if no checkpoint is due.
    fn descend_on(
        &mut self,
        session: u8,
        entry: Entry<K::Key>,
        parent: u32,
        item: TraversalItem,
    ) -> Outcome<K::Key>
        requires session { is_session session ≡ true }
        requires descends { phase_in session self.old ≡ Open (Insert entry) (Descends parent item) }
        requires works { self.old.sessions.failed ≡ false }
        requires early { is_due self.old ≡ false }
        ensures comes { WritesAs K.Key.Shape K.KeyClass D.state session (Insert entry) self.old self.new result }
        ensures moves { MovesAs K.Key.Shape K.ReadKeys D.state session self.old self.new result
            (write_events session (Insert entry) result) }
        ensures device { IsRead D.state self.old self.new }
        ensures told { TellsAs D.state self.old self.new result }
    {
        a_class_is_lawful::<K>();
        a_volume_shows_keys::<D, K>();
        K::known(&entry.key);
        self.sessions.stands();
        self.storage.in_order();
        match self.step_down(&item, &entry.key) {
            Ok(did) => match did {
                Descended::Widened(..) => self.go_down(session, &item, &did),
                Descended::Down(_) => self.go_down(session, &item, &did),
                Descended::Again => self.begin_again(session),
                Descended::Leaf => self.add_here(session, entry, parent, item),
                Descended::FullLeaf => self.make_room(session, parent, item),
                Descended::FullInner => self.split_here(session, parent, item),
            },
            Err(StepFault::Pages(fault)) => self.refuse(fault),
            Err(StepFault::Damaged) => self.break_off(Refusal::Damaged),
        }
    }

    /// Makes a move of a session's open insert while it descends: its pair is in no leaf yet. The step at the page of
    /// its item goes down to the entry of least penalty, whose bound is widened first if it doesn't cover the key; or
    /// adds the pair to a leaf that has room, and replies to the call; or sweeps a full leaf that has something to
    /// sweep, and stays there; or splits any other full node, after which the descent begins again at the root, as it
    /// does if its page was split meanwhile. Unless it replies, it returns `More`. Only splits take pages. Each change
    /// is logged. It makes no write and no sync of the device and takes no memory.
    ///
    /// Returns `Help(Checkpoint)` exactly if a checkpoint runs or `CHECKPOINT_AT` places of the extent are taken, and
    /// nothing has changed. Returns `Help` with the event that has to come first, if the record doesn't fit the batch
    /// that fills or a page couldn't be brought; the insert's state is unchanged then. If too few pages are left for a
    /// split the call is closed: `Replied(Refused(PagesFull))`. If the device failed, or a page can't be read, the
    /// engine has failed, and the reply is `Device` or `Damaged`.
    pub(crate) fn descend(
        &mut self,
        session: u8,
        entry: Entry<K::Key>,
        parent: u32,
        item: TraversalItem,
    ) -> Outcome<K::Key>
        requires session { is_session session ≡ true }
        requires descends { phase_in session self.old ≡ Open (Insert entry) (Descends parent item) }
        requires works { self.old.sessions.failed ≡ false }
        ensures comes { WritesAs K.Key.Shape K.KeyClass D.state session (Insert entry) self.old self.new result }
        ensures moves { MovesAs K.Key.Shape K.ReadKeys D.state session self.old self.new result
            (write_events session (Insert entry) result) }
        ensures device { IsRead D.state self.old self.new }
        ensures told { TellsAs D.state self.old self.new result }
    {
        if self.is_due() {
            return Outcome::Help(Need::Checkpoint);
        }
        self.descend_on(session, entry, parent, item)
    }
}

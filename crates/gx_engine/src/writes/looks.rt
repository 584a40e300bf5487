//! An insert or a delete looks for its pair.
ghost use Rattle.std.specs.Prelude.{◌≡◌, ◌-◌, ◌<◌, [], ◌∷◌, true, false, length, IfErr, OnErr, OnOk};
ghost use Rattle.gx_machine.specs.declared.call.Call.{Call};
ghost use Rattle.gx_machine.specs.declared.entry.Entry.{Entry};
ghost use Rattle.gx_machine.specs.declared.call.Call.TheVariants.{Delete, Insert};
ghost use Rattle.gx_machine.specs.Machine.{is_session};
ghost use Rattle.gx_tree.specs.declared.look.Look.{Look};
ghost use Rattle.gx_events.specs.Happenings.{FindsAbsent, Works};
ghost use Rattle.gx_phases.specs.declared.phase.Phase.TheVariants.{Open};
ghost use Rattle.gx_phases.specs.Moves.{WritesEntry, answered_state, is_open};
ghost use Rattle.gx_engine.specs.Calls.{IsRead, TellsAs, TellsWhere};
ghost use Rattle.gx_engine.specs.declared.work.Work as declared;
ghost use Rattle.gx_engine.specs.declared.work.Work.TheVariants.{Looks, Rests};
ghost use Rattle.gx_engine.specs.Looks.{HasEnded, IsFirstUnless, LooksFor, Turns, leaf_found, work_before};
ghost use Rattle.gx_engine.specs.Moves.{calling};
ghost use Rattle.gx_engine.specs.Writes.{AreWriting, OnlyReads, WritesAs, is_looking, write_events};
ghost use Rattle.gx_storage.specs.Setting.{StaysAs};
ghost use Rattle.gx_engine.specs.Setting.{MovesAs, MovesOnAs, MovesSoAs, ReachesAs, phase_in};

use crate::Engine;
use crate::laws::a_class_is_lawful;
use crate::looks::look_in;
use crate::work::Work;
use gx_class::{Probing, ReadKeys};
use gx_disk::SectorDisk;
use gx_events::Outcome;
use gx_geom::{Refusal, Shape};
use gx_machine::{Entry, Reply};
use gx_storage::laws::{a_volume_shows_keys, a_volume_shows_the_logs_tree};
use gx_tree::{Look, TraversalItem, Wanted};

/// The leaf in which a look has found a pair first.
fn leaf_found<B: Shape>(look: &Look<B>) -> Option<u32>
    ensures { result ≡ leaf_found look.now.found.items }
{
    match look.found() {
        [] => None,
        [one, ..] => Some(one.leaf),
    }
}

/// `Ok` if a look has ended, else `Err` with the outcome that work is left.
fn ended_if<B: Shape>(done: bool) -> Result<(), Outcome<B>>
    ensures ends { OnOk result (done ≡ true) }
    ensures goes { IfErr result (λ outcome. outcome ≡ Outcome.More) }
{
    if done { Ok(()) } else { Err(Outcome::More) }
}

impl<D: SectorDisk, K: ReadKeys + Probing> Engine<D, K> {
    // The leaf in which a write's look has found its pair.
    fn leaf_of_look(&self, session: u8) -> Option<u32>
        requires session { is_session session ≡ true }
        ensures { (call : Call K.Key) (look : Look K.Key) → phase_in session self.now ≡ Open call (Looks look)
            → result ≡ leaf_found look.found.items }
    {
        match look_in(self.sessions.phase(session)) {
            Some(look) => leaf_found(look),
            None => None,
        }
    }

    // What follows a page that a write's look has read: a seek of its pair, if the look has found that, from the leaf
    // in which it was; else the look goes on, if a page is left to read. Returns `Ok` if none is left and no leaf has
    // the pair, else `Err` with the outcome.
    fn turn_look(&mut self, session: u8, done: bool) -> Result<(), Outcome<K::Key>>
        requires session { is_session session ≡ true }
        ensures turns { (call : Call K.Key) (look : Look K.Key) → phase_in session self.old ≡ Open call (Looks look)
            → Turns session call look done self.old self.new result }
        ensures device { IsRead D.state self.old self.new }
        ensures told { TellsWhere D.state self.old self.new result }
    {
        self.sessions.stands();
        match self.leaf_of_look(session) {
            Some(leaf) => {
                self.sessions.replace_work(session, Work::Seeks(leaf));
                Err(Outcome::More)
            }
            None => ended_if(done),
        }
    }

    // A write's look reads its next page; one that hasn't begun reads the root. It goes on, or seeks its pair if it has
    // found that. Returns `Ok` if nothing is left to read and no leaf has the pair, else `Err` with the outcome.
    fn look_on(
        &mut self,
        session: u8,
        entry: &Entry<K::Key>,
        begun: bool,
    ) -> Result<(), Outcome<K::Key>>
        requires session { is_session session ≡ true }
        requires looks { (call : Call K.Key) × (look : Look K.Key)
            × (phase_in session self.old ≡ Open call (Looks look)) × (0 < length look.stack.items)
            × IsFirstUnless begun self.old look }
        requires works { self.old.sessions.failed ≡ false }
        ensures goes_on { OnOk result ((call : Call K.Key) (look : Look K.Key) → WritesEntry entry.now call
            → phase_in session self.old ≡ Open call (Looks look)
            → HasEnded session call self.old self.new × MovesOnAs K.Key.Shape K.ReadKeys D.state session
            (calling session call (work_before begun look) self.old) self.new) }
        ensures stays { OnOk result (StaysAs K.KeyClass D.state self.old.volume.shelf self.new.volume.shelf) }
        ensures reads { OnErr result ((call : Call K.Key) (look : Look K.Key)
            → phase_in session self.old ≡ Open call (Looks look) → OnlyReads self.old self.new) }
        ensures comes { IfErr result (λ outcome. (call : Call K.Key) (look : Look K.Key) → WritesEntry entry.now call
            → phase_in session self.old ≡ Open call (Looks look)
            → WritesAs K.Key.Shape K.KeyClass D.state session call (calling session call (work_before begun look)
            self.old) self.new outcome) }
        ensures moves { IfErr result (λ outcome. (call : Call K.Key) (look : Look K.Key) → WritesEntry entry.now call
            → phase_in session self.old ≡ Open call (Looks look)
            → MovesAs K.Key.Shape K.ReadKeys D.state session
            (calling session call (work_before begun look) self.old) self.new outcome
            (write_events session call outcome)) }
        ensures device { IsRead D.state self.old self.new }
        ensures told { TellsWhere D.state self.old self.new result }
    {
        a_class_is_lawful::<K>();
        a_volume_shows_the_logs_tree::<D, K>();
        a_volume_shows_keys::<D, K>();
        self.sessions.stands();
        self.storage.most();
        let wanted = Wanted::<K>::entry(entry);
        let read = self.read_look(session, &wanted, begun);
        self.storage.in_order();
        let done = read?;
        self.turn_look(session, done)
    }

    // A write's look begins at the root.
    fn begin_look(&mut self, session: u8, entry: &Entry<K::Key>) -> Result<(), Outcome<K::Key>>
        requires session { is_session session ≡ true }
        requires rests { (call : Call K.Key) × (phase_in session self.old ≡ Open call Rests) }
        requires works { self.old.sessions.failed ≡ false }
        ensures goes_on { OnOk result ((call : Call K.Key) → WritesEntry entry.now call
            → phase_in session self.old ≡ Open call Rests
            → HasEnded session call self.old self.new
            × MovesOnAs K.Key.Shape K.ReadKeys D.state session self.old self.new) }
        ensures stays { OnOk result (StaysAs K.KeyClass D.state self.old.volume.shelf self.new.volume.shelf) }
        ensures reads { OnErr result (OnlyReads self.old self.new) }
        ensures comes { IfErr result (λ outcome. (call : Call K.Key) → WritesEntry entry.now call
            → phase_in session self.old ≡ Open call Rests
            → WritesAs K.Key.Shape K.KeyClass D.state session call self.old self.new outcome) }
        ensures moves { IfErr result (λ outcome. (call : Call K.Key) → WritesEntry entry.now call
            → phase_in session self.old ≡ Open call Rests
            → MovesAs K.Key.Shape K.ReadKeys D.state session self.old self.new outcome
            (write_events session call outcome)) }
        ensures device { IsRead D.state self.old self.new }
        ensures told { TellsWhere D.state self.old self.new result }
    {
        a_class_is_lawful::<K>();
        self.sessions.stands();
        match self.first_look() {
            Ok(look) => {
                self.sessions.replace_work(session, Work::Looks(look));
                self.look_on(session, entry, false)
            }
            Err(_) => Err(self.close(session, Refusal::Memory)),
        }
    }

    // A write's look begins at the root, or goes on, and reads a page. Returns `Ok` if nothing is left to read and no
    // leaf has the pair, else `Err` with the outcome.
    fn write_look(&mut self, session: u8, entry: &Entry<K::Key>) -> Result<(), Outcome<K::Key>>
        requires session { is_session session ≡ true }
        requires looks { (call : Call K.Key) × (work : declared.Work K.Key)
            × LooksFor entry.now call work (phase_in session self.old) }
        requires works { self.old.sessions.failed ≡ false }
        ensures ends { OnOk result ((call : Call K.Key) (work : declared.Work K.Key)
            → LooksFor entry.now call work (phase_in session self.old) → HasEnded session call self.old self.new) }
        ensures stays { OnOk result (StaysAs K.KeyClass D.state self.old.volume.shelf self.new.volume.shelf) }
        ensures reaches { OnOk result ((call : Call K.Key) (work : declared.Work K.Key)
            → LooksFor entry.now call work (phase_in session self.old)
            → ReachesAs K.Key.Shape K.ReadKeys D.state session self.old self.new) }
        ensures reads { OnErr result (OnlyReads self.old self.new) }
        ensures comes { IfErr result (λ outcome. (call : Call K.Key) (work : declared.Work K.Key)
            → LooksFor entry.now call work (phase_in session self.old)
            → WritesAs K.Key.Shape K.KeyClass D.state session call self.old self.new outcome) }
        ensures moves { IfErr result (λ outcome. (call : Call K.Key) (work : declared.Work K.Key)
            → LooksFor entry.now call work (phase_in session self.old)
            → MovesAs K.Key.Shape K.ReadKeys D.state session self.old self.new outcome
            (write_events session call outcome)) }
        ensures device { IsRead D.state self.old self.new }
        ensures told { TellsWhere D.state self.old self.new result }
    {
        a_class_is_lawful::<K>();
        self.sessions.stands();
        match look_in(self.sessions.phase(session)) {
            Some(look) => if look.is_done() {
                Ok(())
            } else {
                self.look_on(session, entry, true)
            },
            None => self.begin_look(session, entry),
        }
    }

    // Sets an insert to descend from the root: its look has ended, and no leaf has its pair.
    fn begin_descent(&mut self, session: u8) -> Outcome<K::Key>
        requires session { is_session session ≡ true }
        requires works { self.old.sessions.failed ≡ false }
        ensures outcome { result ≡ Outcome.More }
        ensures descends { (entry : Entry K.Key) (look : Look K.Key)
            → phase_in session self.old ≡ Open (Insert entry) (Looks look)
            → (work : declared.Work K.Key) × (self.new ≡ calling session (Insert entry) work self.old) }
        ensures moves { (entry : Entry K.Key) (look : Look K.Key)
            → phase_in session self.old ≡ Open (Insert entry) (Looks look) → length look.stack.items ≡ 0
            → MovesAs K.Key.Shape K.ReadKeys D.state session self.old self.new Outcome.More (Works ∷ []) }
        ensures device { IsRead D.state self.old self.new }
        ensures told { TellsAs D.state self.old self.new result }
    {
        a_class_is_lawful::<K>();
        self.sessions.stands();
        let root = TraversalItem::new(1, self.storage.counter());
        self.sessions.replace_work(session, Work::Descends(0, root));
        Outcome::More
    }

    // Replies to a delete whose look has ended while no leaf has its pair.
    fn find_absent(&mut self, session: u8) -> Outcome<K::Key>
        requires session { is_session session ≡ true }
        requires open { is_open (phase_in session self.old) ≡ true }
        requires works { self.old.sessions.failed ≡ false }
        ensures outcome { result ≡ Outcome.Replied (Reply.Refused Refusal.Absent) }
        ensures closed { self.new ≡ record self.old { sessions = answered_state session self.old.sessions } }
        ensures moves { (entry : Entry K.Key) (look : Look K.Key)
            → phase_in session self.old ≡ Open (Delete entry) (Looks look) → length look.stack.items ≡ 0
            → MovesAs K.Key.Shape K.ReadKeys D.state session self.old self.new
            (Outcome.Replied (Reply.Refused Refusal.Absent)) (FindsAbsent session entry ∷ []) }
        ensures device { IsRead D.state self.old self.new }
        ensures told { TellsAs D.state self.old self.new result }
    {
        a_class_is_lawful::<K>();
        self.sessions.stands();
        self.close(session, Refusal::Absent)
    }

    /// Makes a move of a session's open insert while it looks for its pair. Each move reads one page, the first one the
    /// root, and returns `More`. If the page has the pair, live or marked, the insert seeks it from there on; if no
    /// page is left to read, it descends from the root. It makes no write and no sync of the device. The look takes
    /// memory for what it stacks and finds, and what follows it takes none.
    ///
    /// Returns `Help` with the event that has to come first, if a page couldn't be brought; the insert's state is
    /// unchanged then. If memory is refused the call is closed: `Replied(Refused(Memory))`. If the device failed, or a
    /// page can't be read, the engine has failed, and the reply is `Device` or `Damaged`.
    pub(crate) fn insert_look(&mut self, session: u8, entry: Entry<K::Key>) -> Outcome<K::Key>
        requires session { is_session session ≡ true }
        requires looks { (work : declared.Work K.Key) × (phase_in session self.old ≡ Open (Insert entry) work)
            × (is_looking work ≡ true) }
        requires works { self.old.sessions.failed ≡ false }
        ensures comes { WritesAs K.Key.Shape K.KeyClass D.state session (Insert entry) self.old self.new result }
        ensures reads { OnlyReads self.old self.new }
        ensures moves { MovesSoAs K.Key.Shape K.ReadKeys D.state session self.old self.new result
            (AreWriting session (Insert entry) result) }
        ensures device { IsRead D.state self.old self.new }
        ensures told { TellsAs D.state self.old self.new result }
    {
        a_class_is_lawful::<K>();
        match self.write_look(session, &entry) {
            Ok(()) => self.begin_descent(session),
            Err(outcome) => outcome,
        }
    }

    /// Makes a move of a session's open delete while it looks for its pair: as an insert's, but if no page is left to
    /// read, no leaf has the pair, and the reply is `Refused(Absent)`.
    pub(crate) fn delete_look(&mut self, session: u8, entry: Entry<K::Key>) -> Outcome<K::Key>
        requires session { is_session session ≡ true }
        requires looks { (work : declared.Work K.Key) × (phase_in session self.old ≡ Open (Delete entry) work)
            × (is_looking work ≡ true) }
        requires works { self.old.sessions.failed ≡ false }
        ensures comes { WritesAs K.Key.Shape K.KeyClass D.state session (Delete entry) self.old self.new result }
        ensures reads { OnlyReads self.old self.new }
        ensures moves { MovesSoAs K.Key.Shape K.ReadKeys D.state session self.old self.new result
            (AreWriting session (Delete entry) result) }
        ensures device { IsRead D.state self.old self.new }
        ensures told { TellsAs D.state self.old self.new result }
    {
        a_class_is_lawful::<K>();
        match self.write_look(session, &entry) {
            Ok(()) => self.find_absent(session),
            Err(outcome) => outcome,
        }
    }
}

//! A search's moves.
ghost use Rattle.std.specs.Prelude.{◌≡◌, ◌-◌, ◌<◌, true, false, map, length, IfErr, IfOk, OnOk};
ghost use Rattle.gx_machine.specs.declared.call.Call.TheVariants.{Search};
ghost use Rattle.gx_machine.specs.declared.query.Query.{Query};
ghost use Rattle.gx_machine.specs.Keys.{keys_of};
ghost use Rattle.gx_machine.specs.Machine.{is_session};
ghost use Rattle.gx_events.specs.Engines as laws;
ghost use Rattle.gx_index_laws.specs.Classes.{entry_of};
ghost use Rattle.gx_tree.specs.declared.look.Look.{Look};
ghost use Rattle.gx_tree.specs.Found.{pairs_found};
ghost use Rattle.gx_phases.specs.declared.phase.Phase.TheVariants.{Open};
ghost use Rattle.gx_engine.specs.Calls.{IsRead, TellsAs, TellsWhere};
ghost use Rattle.gx_engine.specs.declared.work.Work as declared;
ghost use Rattle.gx_engine.specs.declared.work.Work.TheVariants.{Looks, Rests};
ghost use Rattle.gx_engine.specs.Looks.{HasEnded, IsFirstUnless, is_at_rest, work_before};
ghost use Rattle.gx_engine.specs.Moves.{calling};
ghost use Rattle.gx_engine.specs.Searches.{AreSearching, FindComes, search_events};
ghost use Rattle.gx_engine.specs.Writes.{OnlyReads};
ghost use Rattle.gx_engine.specs.Setting.{MovesAs, MovesOnAs, MovesSoAs, ReachesAs, SearchComesAs, phase_in};

use crate::Engine;
use crate::laws::a_class_is_lawful;
use crate::looks::look_in;
use crate::work::Work;
use gx_class::{Probing, ReadKeys};
use gx_disk::SectorDisk;
use gx_events::Outcome;
use gx_geom::{Refusal, Shape};
use gx_machine::{Entries, Entry, Query, Reply};
use gx_phases::Phase;
use gx_storage::laws::{a_volume_shows_keys, a_volume_shows_the_logs_tree};
use gx_tree::{Found, Wanted};
use std::alloc::{AllocError, Global};

/// The entries that were found, in the order in which they were found.
fn entries_found<B: Shape>(alloc: Global, found: &[Found<B>]) -> Result<Vec<Entry<B>>, AllocError>
    ensures { IfOk result (λ entries. entries.items ≡ map (λ one. one.entry) found.now) }
{
    found.iter().map(|one| one.entry).collect(alloc)
}

/// The entries that were found, in their order, each once.
fn gathered<B: Shape>(alloc: Global, found: &[Found<B>]) -> Result<Vec<Entry<B>>, AllocError>
    ensures { IfOk result (λ set. set.items ≡ laws.gathered (keys_of B.Shape) (map entry_of (pairs_found found.now))) }
{
    let mut set = entries_found(alloc, found)?;
    gx_machine::put_in_order(&mut set);
    Ok(set)
}

/// Whether a call is open that hasn't begun.
fn is_at_rest<B: Shape>(phase: &Phase<B, Work<B>>) -> bool
    ensures { result ≡ is_at_rest phase.now }
{
    match phase {
        Phase::Open(_, Work::Rests) => true,
        Phase::Open(_, Work::Looks(_) | Work::Descends(..) | Work::Seeks(_))
        | Phase::Free
        | Phase::Working
        | Phase::Undoing(..)
        | Phase::Waiting(_) => false,
    }
}

impl<D: SectorDisk, K: ReadKeys + Probing> Engine<D, K> {
    // The entries that a search's look has found, which has ended: in order, each once.
    fn answer_of(&self, session: u8) -> Result<Vec<Entry<K::Key>>, AllocError>
        requires session { is_session session ≡ true }
        requires looks { (query : Query K.Key) × (look : Look K.Key)
            × (phase_in session self.now ≡ Open (Search query) (Looks look)) }
        ensures { IfOk result (λ set. (query : Query K.Key) (look : Look K.Key)
            → phase_in session self.now ≡ Open (Search query) (Looks look)
            → set.items ≡ laws.gathered (keys_of K.Key.Shape) (map entry_of (pairs_found look.found.items))) }
    {
        match look_in(self.sessions.phase(session)) {
            Some(look) => gathered(self.alloc, look.found()),
            None => unreachable!(),
        }
    }

    // Replies to a search with the result of its look, which has ended.
    fn find(&mut self, session: u8, query: Query<K::Key>) -> Outcome<K::Key>
        requires session { is_session session ≡ true }
        requires ends { (look : Look K.Key) × (phase_in session self.old ≡ Open (Search query) (Looks look))
            × (length look.stack.items ≡ 0) }
        requires works { self.old.sessions.failed ≡ false }
        ensures comes { FindComes session self.old self.new result }
        ensures moves { MovesAs K.Key.Shape K.ReadKeys D.state session self.old self.new result
            (search_events session query result) }
        ensures device { IsRead D.state self.old self.new }
        ensures told { TellsAs D.state self.old self.new result }
    {
        a_class_is_lawful::<K>();
        self.sessions.stands();
        match self.answer_of(session) {
            Ok(entries) => {
                self.sessions.answer(session);
                Outcome::Replied(Reply::Found(Entries::new(entries)))
            }
            Err(_) => self.close(session, Refusal::Memory),
        }
    }

    // A search's look reads its next page; one that hasn't begun reads the root. Returns `Ok` if nothing is left to
    // read, else `Err` with the outcome.
    fn read_on(
        &mut self,
        session: u8,
        query: &Query<K::Key>,
        begun: bool,
    ) -> Result<(), Outcome<K::Key>>
        requires session { is_session session ≡ true }
        requires looks { (look : Look K.Key) × (phase_in session self.old ≡ Open (Search query.now) (Looks look))
            × (0 < length look.stack.items) × IsFirstUnless begun self.old look }
        requires works { self.old.sessions.failed ≡ false }
        ensures goes_on { OnOk result ((look : Look K.Key)
            → phase_in session self.old ≡ Open (Search query.now) (Looks look)
            → HasEnded session (Search query.now) self.old self.new
            × MovesOnAs K.Key.Shape K.ReadKeys D.state session
            (calling session (Search query.now) (work_before begun look) self.old) self.new) }
        ensures comes { IfErr result (λ outcome. (look : Look K.Key)
            → phase_in session self.old ≡ Open (Search query.now) (Looks look)
            → SearchComesAs K.KeyClass D.state session query.now
            (calling session (Search query.now) (work_before begun look) self.old) self.new outcome) }
        ensures moves { IfErr result (λ outcome. (look : Look K.Key)
            → phase_in session self.old ≡ Open (Search query.now) (Looks look)
            → MovesAs K.Key.Shape K.ReadKeys D.state session
            (calling session (Search query.now) (work_before begun look) self.old) self.new outcome
            (search_events session query.now outcome)) }
        ensures device { IsRead D.state self.old self.new }
        ensures told { TellsWhere D.state self.old self.new result }
    {
        a_class_is_lawful::<K>();
        a_volume_shows_the_logs_tree::<D, K>();
        a_volume_shows_keys::<D, K>();
        self.sessions.stands();
        self.storage.most();
        let wanted = Wanted::<K>::matching(query);
        let read = self.read_look(session, &wanted, begun);
        self.storage.in_order();
        let done = read?;
        if done { Ok(()) } else { Err(Outcome::More) }
    }

    // A search's look begins at the root.
    fn begin_search(&mut self, session: u8, query: &Query<K::Key>) -> Result<(), Outcome<K::Key>>
        requires session { is_session session ≡ true }
        requires rests { phase_in session self.old ≡ Open (Search query.now) Rests }
        requires works { self.old.sessions.failed ≡ false }
        ensures ends { OnOk result (HasEnded session (Search query.now) self.old self.new
            × MovesOnAs K.Key.Shape K.ReadKeys D.state session self.old self.new) }
        ensures comes { IfErr result (SearchComesAs K.KeyClass D.state session query.now self.old self.new) }
        ensures moves { IfErr result (λ outcome. MovesAs K.Key.Shape K.ReadKeys D.state session
            self.old self.new outcome (search_events session query.now outcome)) }
        ensures device { IsRead D.state self.old self.new }
        ensures told { TellsWhere D.state self.old self.new result }
    {
        a_class_is_lawful::<K>();
        self.sessions.stands();
        match self.first_look() {
            Ok(look) => {
                self.sessions.replace_work(session, Work::Looks(look));
                self.read_on(session, query, false)
            }
            Err(_) => Err(self.close(session, Refusal::Memory)),
        }
    }

    // A search's look begins at the root, or goes on, and reads a page. Returns `Ok` if nothing is left to read, else
    // `Err` with the outcome.
    fn search_look(&mut self, session: u8, query: &Query<K::Key>) -> Result<(), Outcome<K::Key>>
        requires session { is_session session ≡ true }
        requires searches { (work : declared.Work K.Key) × (phase_in session self.old ≡ Open (Search query.now) work) }
        requires works { self.old.sessions.failed ≡ false }
        ensures ends { OnOk result (HasEnded session (Search query.now) self.old self.new) }
        ensures reaches { OnOk result (ReachesAs K.Key.Shape K.ReadKeys D.state session self.old self.new) }
        ensures comes { IfErr result (SearchComesAs K.KeyClass D.state session query.now self.old self.new) }
        ensures moves { IfErr result (λ outcome. MovesAs K.Key.Shape K.ReadKeys D.state session
            self.old self.new outcome (search_events session query.now outcome)) }
        ensures device { IsRead D.state self.old self.new }
        ensures told { TellsWhere D.state self.old self.new result }
    {
        a_class_is_lawful::<K>();
        self.sessions.stands();
        let phase = self.sessions.phase(session);
        match look_in(phase) {
            Some(look) => if look.is_done() {
                Ok(())
            } else {
                self.read_on(session, query, true)
            },
            None => if is_at_rest(phase) {
                self.begin_search(session, query)
            } else {
                // no search descends or seeks
                Err(self.break_off(Refusal::Damaged))
            },
        }
    }

    /// Makes a move of a session's open search. Each move reads one page, the first one the root. The move that reads
    /// the last page returns `Replied(Found)` with the matching pairs that were live while it looked, in order. Each
    /// move before it returns `More` and leaves less to do. It makes no write and no sync of the device, and takes
    /// memory for what it stacks and finds.
    ///
    /// Returns `Help` with the event that has to come first, if a page couldn't be brought; the search's state is
    /// unchanged then. If memory is refused the call is closed: `Replied(Refused(Memory))`. If the device failed, or a
    /// page can't be read, the engine has failed, and the reply is `Device` or `Damaged`.
    pub(crate) fn search(&mut self, session: u8, query: Query<K::Key>) -> Outcome<K::Key>
        requires session { is_session session ≡ true }
        requires searches { (work : declared.Work K.Key) × (phase_in session self.old ≡ Open (Search query) work) }
        requires works { self.old.sessions.failed ≡ false }
        ensures comes { SearchComesAs K.KeyClass D.state session query self.old self.new result }
        ensures reads { OnlyReads self.old self.new }
        ensures moves { MovesSoAs K.Key.Shape K.ReadKeys D.state session self.old self.new result
            (AreSearching session query result) }
        ensures device { IsRead D.state self.old self.new }
        ensures told { TellsAs D.state self.old self.new result }
    {
        a_class_is_lawful::<K>();
        match self.search_look(session, &query) {
            Ok(()) => self.find(session, query),
            Err(outcome) => outcome,
        }
    }
}

//! A session of the plain index.
ghost use Rattle.std.specs.Prelude.{◌≡◌, ◌≤◌, ◌<◌, ◌+◌, ◌^◌, Some, None, IfOk};
ghost use Rattle.std.specs.Prelude.{MatchOption, vec_len, vec_capacity};
ghost use Rattle.gx_machine.specs.Keys.{keys_of};

use crate::{held, views};
use gx_geom::{Refusal, Shape};
use gx_machine::{
    Asked, Call, Conflicts, Entries, Entry, MAX_CLAIMS, MAX_PREDICATES, Query, Reply,
};
use std::alloc::{AllocError, Global};
use std::marker::Model;

/// The phase of a session.
#[derive(Clone, Copy)]
pub enum SlotPhase<B> {
    /// It has no transaction.
    Idle,
    /// It has one, perhaps with a call open.
    Open(Option<Call<B>>),
    /// It has asked for its abort.
    Aborting,
    /// Its commit is sealed under this number.
    Committing(u64),
}

/// A session, with room for its predicates, for all that it may claim, and for all of that to be taken away.
#[derive(Drop)]
pub struct Slot<B: Shape> {
    phase: SlotPhase<B>,
    claims: Vec<Entry<B>>,
    predicates: Vec<Query<B>>,
    added: Vec<Entry<B>>,
    taken: Vec<Entry<B>>,
}

impl<B: Shape> Model for Slot<B> {
    ghost use Rattle.std.specs.Prelude.{◌≤◌, vec_capacity};
    ghost use Rattle.gx_machine.specs.Keys.{keys};
    ghost use Rattle.gx_machine.specs.Sets.{InOrder};
    ghost use Rattle.gx_machine.specs.Sessions.{Session};

    ghost Value = { Session B };

    ghost use Rattle.gx_plain.specs.Slots.{session_of, IsRoomy, TakesClaimed};

    ghost view = { λ s. session_of s.phase
        (record { claims = s.claims.items; predicates = s.predicates.items })
        (record { added = s.added.items; taken = s.taken.items }) };

    ghost invariant = { λ s. IsRoomy (vec_capacity s.claims) (vec_capacity s.predicates) (vec_capacity s.taken)
        × TakesClaimed (keys B.cmp B.overlap B.inside) s.phase s.claims.items s.taken.items
        × InOrder (keys B.cmp B.overlap B.inside) s.added.items };
}

fn refused<B>(why: Refusal) -> Asked<B>
    ensures { result ≡ Asked.Now (Reply.Refused why) }
{
    Asked::Now(Reply::Refused(why))
}

impl<B: Shape> Slot<B> {
    ghost use Rattle.gx_plain.specs.Slots.{IsFree, IsOpen, IsWrite, IsDeleting, IsCommitting};
    ghost use Rattle.gx_plain.specs.Slots.{CanAnswer, changes_of, added_by, opened_by, begins};
    ghost use Rattle.gx_plain.specs.Slots.{Closes, SlotAnswers, SlotSeals, NothingSealed, SlotDrops, answer_search};
    ghost use Rattle.gx_machine.specs.Sets.{InOrder};
    ghost use Rattle.gx_machine.specs.Sessions.{view, answer_insert, answer_delete};
    ghost use Rattle.gx_machine.specs.Sessions.{Idle, Open, Aborting, Committing, locks_of};
    ghost use Rattle.gx_machine.specs.Sessions.{claims_of, with_claim, with_predicate, unless_busy};
    ghost use Rattle.gx_machine.specs.Sessions.{asked_with, ask_idle, ask_open, ask_session};

    /// A session with no transaction, and with its room.
    pub fn new(alloc: Global) -> Result<Self, AllocError>
        ensures { IfOk result (λ slot. slot ≡ Idle) }
    {
        Ok(Slot {
            phase: SlotPhase::Idle,
            claims: Vec::with_capacity(alloc, MAX_CLAIMS)?,
            predicates: Vec::with_capacity(alloc, MAX_PREDICATES)?,
            added: Vec::new(alloc),
            taken: Vec::with_capacity(alloc, MAX_CLAIMS)?,
        })
    }

    /// How many claims it holds.
    pub fn claims(&self) -> usize
        ensures { result ≡ claims_of self.now }
    {
        match self.phase {
            SlotPhase::Idle | SlotPhase::Committing(_) => 0,
            SlotPhase::Open(_) | SlotPhase::Aborting => self.claims.len(),
        }
    }

    /// Whether the call begins a transaction.
    pub fn begins(&self, call: &Call<B>) -> bool
        ensures { result ≡ begins call.now self.now }
    {
        matches!(call, Call::Begin) && matches!(self.phase, SlotPhase::Idle)
    }

    /// Asks a call, where `least` is the least other session that conflicts and `spent` the claims held in all. It
    /// takes no memory.
    ///
    /// The reply comes at once if the call is refused and for a Begin; else the call is open until it is answered.
    /// Refusals, the first that holds: `CallOpen` if a call is open, or the session is aborting or waits for its
    /// commit; `InTransaction` for a Begin in a transaction, `NoTransaction` for any other call outside of one; `Busy`
    /// if a session is given that conflicts; `ClaimsFull` if 512 claims are spent, and `PredicatesFull` if the session
    /// has 16, unless it holds this one already. A refused call changes nothing.
    pub fn ask(&mut self, call: Call<B>, least: Option<u8>, spent: usize) -> Asked<B>
        requires { claims_of self.old ≤ spent }
        ensures asked { result ≡ (ask_session (keys_of B.Shape) call least spent self.old).0 }
        ensures session { self.new ≡ (ask_session (keys_of B.Shape) call least spent self.old).1 }
    {
        match self.phase {
            SlotPhase::Idle => self.ask_idle(call),
            SlotPhase::Open(None) => self.ask_open(call, least, spent),
            SlotPhase::Open(Some(_)) | SlotPhase::Aborting | SlotPhase::Committing(_) => {
                refused(Refusal::CallOpen)
            }
        }
    }

    fn ask_idle(&mut self, call: Call<B>) -> Asked<B>
        requires { self.old ≡ Idle }
        ensures asked { result ≡ (ask_idle call).0 }
        ensures session { self.new ≡ (ask_idle call).1 }
    {
        match call {
            Call::Begin => {
                self.claims.clear();
                self.predicates.clear();
                self.added.clear();
                self.taken.clear();
                self.phase = SlotPhase::Open(None);
                Asked::Now(Reply::Ok)
            }
            _ => refused(Refusal::NoTransaction),
        }
    }

    fn ask_open(&mut self, call: Call<B>, least: Option<u8>, spent: usize) -> Asked<B>
        requires free { IsFree self.old }
        requires spent { claims_of self.old ≤ spent }
        ensures asked { result ≡ (ask_open (keys_of B.Shape) call least spent
            (locks_of self.old) (changes_of self.old)).0 }
        ensures session { self.new
            ≡ (ask_open (keys_of B.Shape) call least spent (locks_of self.old) (changes_of self.old)).1 }
    {
        match call {
            Call::Begin => refused(Refusal::InTransaction),
            Call::Insert(e) => self.ask_write(Call::Insert(e), e, least, spent),
            Call::Delete(e) => self.ask_write(Call::Delete(e), e, least, spent),
            Call::Search(query) => self.ask_search(query, least),
            Call::Commit => self.ask_commit(least),
            Call::Abort => self.ask_abort(),
        }
    }

    fn ask_write(&mut self, call: Call<B>, e: Entry<B>, least: Option<u8>, spent: usize) -> Asked<B>
        requires write { IsWrite e call }
        requires free { IsFree self.old }
        requires spent { claims_of self.old ≤ spent }
        ensures asked { result
            ≡ (asked_with call (unless_busy least (with_claim (keys_of B.Shape) e spent (locks_of self.old)))
            (locks_of self.old) (changes_of self.old)).0 }
        ensures session { self.new
            ≡ (asked_with call (unless_busy least (with_claim (keys_of B.Shape) e spent (locks_of self.old)))
            (locks_of self.old) (changes_of self.old)).1 }
    {
        if let Some(other) = least {
            return refused(Refusal::Busy(other));
        }
        if held::claim(e, &mut self.claims, spent) {
            self.phase = SlotPhase::Open(Some(call));
            Asked::Open
        } else {
            refused(Refusal::ClaimsFull)
        }
    }

    fn ask_search(&mut self, query: Query<B>, least: Option<u8>) -> Asked<B>
        requires { IsFree self.old }
        ensures asked { result
            ≡ (asked_with (Call.Search query) (unless_busy least
            (with_predicate (keys_of B.Shape) query (locks_of self.old)))
            (locks_of self.old) (changes_of self.old)).0 }
        ensures session { self.new
            ≡ (asked_with (Call.Search query) (unless_busy least
            (with_predicate (keys_of B.Shape) query (locks_of self.old)))
            (locks_of self.old) (changes_of self.old)).1 }
    {
        if let Some(other) = least {
            return refused(Refusal::Busy(other));
        }
        if held::hold(query, &mut self.predicates) {
            self.phase = SlotPhase::Open(Some(Call::Search(query)));
            Asked::Open
        } else {
            refused(Refusal::PredicatesFull)
        }
    }

    fn ask_commit(&mut self, least: Option<u8>) -> Asked<B>
        requires { IsFree self.old }
        ensures asked { result ≡ (asked_with Call.Commit (unless_busy least (Ok (locks_of self.old)))
            (locks_of self.old) (changes_of self.old)).0 }
        ensures session { self.new ≡ (asked_with Call.Commit (unless_busy least (Ok (locks_of self.old)))
            (locks_of self.old) (changes_of self.old)).1 }
    {
        if let Some(other) = least {
            return refused(Refusal::Busy(other));
        }
        self.phase = SlotPhase::Open(Some(Call::Commit));
        Asked::Open
    }

    fn ask_abort(&mut self) -> Asked<B>
        requires { IsFree self.old }
        ensures asked { result ≡ Asked.Open }
        ensures session { self.new ≡ Aborting (locks_of self.old) }
    {
        self.phase = SlotPhase::Aborting;
        Asked::Open
    }

    /// How many entries its transaction has added.
    pub fn added(&self) -> usize
        ensures { result ≡ added_by self.now }
    {
        match self.phase {
            SlotPhase::Idle | SlotPhase::Aborting | SlotPhase::Committing(_) => 0,
            SlotPhase::Open(_) => self.added.len(),
        }
    }

    fn insert(&mut self, e: Entry<B>, latest: &mut Vec<Entry<B>>, added: usize) -> Reply<B>
        requires open { IsOpen self.old }
        requires room { vec_len latest.old + added ≤ vec_capacity latest.old }
        requires counted { added_by self.old ≤ added }
        requires in_order { InOrder (keys_of B.Shape) latest.old.items }
        ensures closes { Closes (answer_insert (keys_of B.Shape) e latest.old.items
            (changes_of self.old)) self.old result self.new }
        ensures latest { latest.new.items ≡ latest.old.items }
        ensures room { vec_len latest.new + added + added_by self.new ≤ vec_capacity latest.new + added_by self.old }
    {
        self.phase = SlotPhase::Open(None);
        if views::has(&e, latest, &self.added, &self.taken) {
            return Reply::Refused(Refusal::Present);
        }
        if latest.reserve(added.saturating_add(1)).is_err()
            || gx_machine::include(e, &mut self.added).is_err()
        {
            return Reply::Refused(Refusal::Memory);
        }
        gx_machine::exclude(&e, &mut self.taken);
        Reply::Inserted
    }

    fn delete(&mut self, e: Entry<B>, latest: &[Entry<B>]) -> Reply<B>
        requires open { IsDeleting e self.old }
        requires few { claims_of self.old ≤ MAX_CLAIMS }
        requires in_order { InOrder (keys_of B.Shape) latest.now }
        ensures reply { result ≡ (answer_delete (keys_of B.Shape) e latest.now (changes_of self.old)).0 }
        ensures session { self.new ≡ Open (locks_of self.old)
            (answer_delete (keys_of B.Shape) e latest.now (changes_of self.old)).1 None }
        ensures added { added_by self.new ≤ added_by self.old }
    {
        self.phase = SlotPhase::Open(None);
        if !views::has(&e, latest, &self.added, &self.taken) {
            return Reply::Refused(Refusal::Absent);
        }
        gx_machine::include_within_capacity(e, &mut self.taken);
        gx_machine::exclude(&e, &mut self.added);
        Reply::Deleted
    }

    fn search(&mut self, query: Query<B>, latest: &[Entry<B>]) -> Reply<B>
        requires open { IsOpen self.old }
        requires in_order { InOrder (keys_of B.Shape) latest.now }
        ensures closes { Closes (answer_search (keys_of B.Shape) query latest.now (changes_of self.old))
            self.old result self.new }
        ensures added { added_by self.new ≡ added_by self.old }
    {
        self.phase = SlotPhase::Open(None);
        match views::search(
            *self.added.allocator(),
            &query,
            latest,
            &self.added,
            &self.taken,
        ) {
            Ok(entries) => Reply::Found(Entries::new(entries)),
            Err(AllocError) => Reply::Refused(Refusal::Memory),
        }
    }

    /// Seals its open commit under the next number, which it returns.
    fn seal_open(&mut self, latest: &mut Vec<Entry<B>>, commits: &mut u64) -> u64
        requires open { IsCommitting self.old }
        requires in_order { InOrder (keys_of B.Shape) latest.old.items }
        requires room { vec_len latest.old + added_by self.old ≤ vec_capacity latest.old }
        requires more { commits.old + 1 < 2 ^ 64 }
        ensures set { latest.new.items ≡ view (keys_of B.Shape) latest.old.items (changes_of self.old) }
        ensures number { result ≡ commits.old + 1 }
        ensures commits { commits.new ≡ commits.old + 1 }
        ensures session { self.new ≡ Committing result }
        ensures in_order { InOrder (keys_of B.Shape) latest.new.items }
        ensures capacity { vec_capacity latest.old ≤ vec_capacity latest.new }
        ensures grown { vec_len latest.new ≤ vec_len latest.old + added_by self.old }
    {
        views::take_over(latest, &self.added, &self.taken);
        let number = *commits + 1;
        *commits = number;
        self.phase = SlotPhase::Committing(number);
        number
    }

    /// Replies to its commit, sealed under this number.
    fn committed(&mut self, number: u64) -> Reply<B>
        ensures reply { result ≡ Reply.Committed number }
        ensures session { self.new ≡ Idle }
    {
        self.phase = SlotPhase::Idle;
        Reply::Committed(number)
    }

    /// Replies to its abort.
    fn aborted(&mut self) -> Reply<B>
        ensures reply { result ≡ Reply.Aborted }
        ensures session { self.new ≡ Idle }
    {
        self.phase = SlotPhase::Idle;
        Reply::Aborted
    }

    /// Seals its commit: the set becomes what its transaction sees, the number of commits rises by one and is the
    /// commit's, and its claims and predicates are free. None, and nothing changes, if it has no commit open.
    pub fn seal(&mut self, latest: &mut Vec<Entry<B>>, commits: &mut u64) -> Option<u64>
        requires in_order { InOrder (keys_of B.Shape) latest.old.items }
        requires room { vec_len latest.old + added_by self.old ≤ vec_capacity latest.old }
        requires more { commits.old + 1 < 2 ^ 64 }
        ensures seals { MatchOption result
            (NothingSealed (keys_of B.Shape) self.old latest.old.items commits.old
            self.new latest.new.items commits.new)
            (SlotSeals (keys_of B.Shape) self.old latest.old.items commits.old self.new latest.new.items commits.new) }
        ensures room { vec_len latest.new + added_by self.new ≤ vec_len latest.old + added_by self.old }
        ensures capacity { vec_capacity latest.old ≤ vec_capacity latest.new }
        ensures opened { commits.new + opened_by self.new ≤ commits.old + opened_by self.old }
        ensures claims { claims_of self.new ≤ claims_of self.old }
        ensures in_order { InOrder (keys_of B.Shape) latest.new.items }
    {
        match self.phase {
            SlotPhase::Open(Some(Call::Commit)) => Some(self.seal_open(latest, commits)),
            _ => None,
        }
    }

    /// Closes its open call without an answer: the call may be asked again. False, and nothing changes, if it has none.
    pub fn drop_call(&mut self) -> bool
        ensures drops { SlotDrops self.old result self.new }
        ensures added { added_by self.new ≡ added_by self.old }
        ensures opened { opened_by self.new ≡ opened_by self.old }
        ensures claims { claims_of self.new ≡ claims_of self.old }
    {
        match self.phase {
            SlotPhase::Open(Some(_)) => {
                self.phase = SlotPhase::Open(None);
                true
            }
            _ => false,
        }
    }

    /// Answers the session. The set is the last committed one, for which there is room for all that sessions
    /// have added, and `commits` the number of commits. A commit that isn't sealed is sealed and answered in one.
    ///
    /// Refusals: `NoCall` if nothing is open; `Present` for an insert of an entry that the session sees; `Absent` for a
    /// delete of one that it doesn't; `Memory` for an insert or a search that needs memory and is refused it.
    pub fn answer(
        &mut self,
        latest: &mut Vec<Entry<B>>,
        commits: &mut u64,
        added: usize,
    ) -> Reply<B>
        requires can_answer { CanAnswer commits.old self.old }
        requires in_order { InOrder (keys_of B.Shape) latest.old.items }
        requires room { vec_len latest.old + added ≤ vec_capacity latest.old }
        requires counted { added_by self.old ≤ added }
        requires more { commits.old + 1 < 2 ^ 64 }
        requires few { claims_of self.old ≤ MAX_CLAIMS }
        ensures answers { SlotAnswers (keys_of B.Shape) self.old latest.old.items commits.old result
            self.new latest.new.items commits.new }
        ensures room { vec_len latest.new + added + added_by self.new ≤ vec_capacity latest.new + added_by self.old }
        ensures opened { commits.new + opened_by self.new ≤ commits.old + opened_by self.old }
        ensures claims { claims_of self.new ≤ claims_of self.old }
        ensures can_answer { CanAnswer commits.new self.new }
        ensures in_order { InOrder (keys_of B.Shape) latest.new.items }
        ensures rises { commits.old ≤ commits.new }
    {
        match self.phase {
            SlotPhase::Idle | SlotPhase::Open(None) => Reply::Refused(Refusal::NoCall),
            SlotPhase::Open(Some(Call::Insert(e))) => self.insert(e, latest, added),
            SlotPhase::Open(Some(Call::Delete(e))) => self.delete(e, latest),
            SlotPhase::Open(Some(Call::Search(query))) => self.search(query, latest),
            SlotPhase::Open(Some(Call::Begin | Call::Abort)) => unreachable!(),
            SlotPhase::Open(Some(Call::Commit)) => {
                let number = self.seal_open(latest, commits);
                self.committed(number)
            }
            SlotPhase::Committing(number) => self.committed(number),
            SlotPhase::Aborting => self.aborted(),
        }
    }
}

impl<B: Shape> Conflicts<B> for Slot<B> {
    ghost use Rattle.gx_machine.specs.Keys.{keys};
    ghost use Rattle.gx_machine.specs.Sessions.{session_conflicts};

    ghost bars = { λ slot call. session_conflicts (keys B.cmp B.overlap B.inside) call slot };

    fn conflicts(&self, call: &Call<B>) -> bool {
        match self.phase {
            SlotPhase::Idle | SlotPhase::Committing(_) => false,
            SlotPhase::Open(_) | SlotPhase::Aborting => match call {
                Call::Insert(e) | Call::Delete(e) => held::write_conflicts(
                    e,
                    &self.claims,
                    &self.predicates,
                ),
                Call::Search(query) => held::any_matching(query, &self.claims),
                Call::Begin | Call::Commit | Call::Abort => false,
            },
        }
    }
}

//! The plain index.
ghost use Rattle.std.specs.Prelude.{vec_len, vec_capacity, nat_le, ◌||◌, ◌&&◌, ◌≡◌, ◌<◌, ◌≤◌, ◌+◌, ◌-◌, Some, IfOk};
ghost use Rattle.std.specs.Prelude.{MatchOption, ⊤, false, true, ◌^◌, length, sum_by, slice_set, replicate};
ghost use Rattle.std.specs.List.{slice_index_or};
ghost use Rattle.gx_machine.specs.declared.limits.TheConstants.{MAX_CLAIMS};
ghost use Rattle.gx_machine.specs.Keys.{keys_of};
ghost use Rattle.gx_machine.specs.Machine.{is_session, least_conflicting, claims_held};
ghost use Rattle.gx_machine.specs.Sessions.{Idle, claims_of, ask_session};
ghost use Rattle.gx_machine.specs.Sets.{InOrder};
ghost use Rattle.gx_plain.specs.Slots.{added_by, opened_by, begins, CanAnswer};
ghost use Rattle.gx_plain.specs.Slots.{SlotAnswers, SlotSeals, NothingSealed, SlotDrops};

use crate::slot::Slot;
use gx_geom::{Refusal, Shape};
use gx_machine::{Asked, Call, Entry, LAST_NUMBER, Reply, SESSIONS};
use std::alloc::{AllocError, Global};
use std::marker::Model;

/// Whether a transaction would begin, and the numbers are used up.
fn lacks_numbers(begins: bool, commits: u64, next: u64) -> bool
    ensures { result ≡ (begins && (nat_le LAST_NUMBER commits || nat_le LAST_NUMBER next)) }
{
    begins && (commits >= LAST_NUMBER || next >= LAST_NUMBER)
}

/// The place of a session in the list, if there is one of that number.
fn place_of(session: u8) -> Option<usize>
    ensures place { MatchOption result (is_session session ≡ false) (λ place. (is_session session ≡ true)
        × (place ≡ session - 1)) }
    ensures within { MatchOption result ⊤ (λ place. place < SESSIONS) }
{
    let place = usize::from(session).checked_sub(1)?;
    if place < SESSIONS { Some(place) } else { None }
}

/// All sessions, with no transaction.
fn idle_slots<B: Shape>(alloc: Global) -> Result<Vec<Slot<B>>, AllocError>
    ensures { IfOk result (λ slots. slots.items ≡ replicate SESSIONS Idle) }
{
    let mut slots = Vec::with_capacity(alloc, SESSIONS)?;
    for _ in 0..SESSIONS {
        slots.push(Slot::new(alloc)?)?;
    }
    Ok(slots)
}

/// The least other session that conflicts with a call of `session`.
fn least_conflicting<B: Shape>(slots: &[Slot<B>], call: &Call<B>, session: u8) -> Option<u8>
    requires { length slots.now ≤ SESSIONS }
    ensures { result ≡ least_conflicting (keys_of B.Shape) call.now session 1 slots.now }
{
    gx_machine::least_conflicting(slots, call, session)
}

/// The claims held in all.
fn claims_held<B: Shape>(slots: &[Slot<B>]) -> usize
    requires { sum_by claims_of slots.now < 2 ^ 64 }
    ensures { result ≡ claims_held slots.now }
{
    slots.iter().map(|slot| slot.claims()).sum()
}

/// The entries that open transactions have added, in all.
fn added<B: Shape>(slots: &[Slot<B>]) -> usize
    requires { sum_by added_by slots.now < 2 ^ 64 }
    ensures { result ≡ sum_by added_by slots.now }
{
    slots.iter().map(|slot| slot.added()).sum()
}

/// Whether the call begins a transaction of the session at a place.
fn begins_at<B: Shape>(slots: &[Slot<B>], place: usize, call: &Call<B>) -> bool
    requires { place < length slots.now }
    ensures { result ≡ begins call.now (slice_index_or slots.now place Idle) }
{
    slots[place].begins(call)
}

/// Asks a call of the session at a place.
fn ask_at<B: Shape>(
    slots: &mut Vec<Slot<B>>,
    place: usize,
    call: Call<B>,
    least: Option<u8>,
    spent: usize,
) -> Asked<B>
    requires within { place < length slots.old.items }
    requires spent { claims_of (slice_index_or slots.old.items place Idle) ≤ spent }
    ensures asked { result ≡ (ask_session (keys_of B.Shape) call least spent
        (slice_index_or slots.old.items place Idle)).0 }
    ensures session { slots.new.items ≡ slice_set slots.old.items place
        (ask_session (keys_of B.Shape) call least spent (slice_index_or slots.old.items place Idle)).1 }
{
    slots[place].ask(call, least, spent)
}

/// Answers the session at a place.
fn answer_at<B: Shape>(
    slots: &mut Vec<Slot<B>>,
    place: usize,
    latest: &mut Vec<Entry<B>>,
    commits: &mut u64,
    added: usize,
) -> Reply<B>
    requires within { place < length slots.old.items }
    requires can_answer { CanAnswer commits.old (slice_index_or slots.old.items place Idle) }
    requires in_order { InOrder (keys_of B.Shape) latest.old.items }
    requires room { vec_len latest.old + added ≤ vec_capacity latest.old }
    requires counted { added_by (slice_index_or slots.old.items place Idle) ≤ added }
    requires more { commits.old + 1 < 2 ^ 64 }
    requires few { claims_of (slice_index_or slots.old.items place Idle) ≤ MAX_CLAIMS }
    ensures answers { SlotAnswers (keys_of B.Shape) (slice_index_or slots.old.items place Idle)
        latest.old.items commits.old result
        (slice_index_or slots.new.items place Idle) latest.new.items commits.new }
    ensures others { slots.new.items ≡ slice_set slots.old.items place (slice_index_or slots.new.items place Idle) }
    ensures room { vec_len latest.new + added + added_by (slice_index_or slots.new.items place Idle)
        ≤ vec_capacity latest.new + added_by (slice_index_or slots.old.items place Idle) }
    ensures opened { commits.new + opened_by (slice_index_or slots.new.items place Idle)
        ≤ commits.old + opened_by (slice_index_or slots.old.items place Idle) }
    ensures claims { claims_of (slice_index_or slots.new.items place Idle)
        ≤ claims_of (slice_index_or slots.old.items place Idle) }
    ensures can_answer { CanAnswer commits.new (slice_index_or slots.new.items place Idle) }
    ensures in_order { InOrder (keys_of B.Shape) latest.new.items }
    ensures rises { commits.old ≤ commits.new }
{
    slots[place].answer(latest, commits, added)
}

/// Seals the commit of the session at a place.
fn seal_at<B: Shape>(
    slots: &mut Vec<Slot<B>>,
    place: usize,
    latest: &mut Vec<Entry<B>>,
    commits: &mut u64,
) -> Option<u64>
    requires within { place < length slots.old.items }
    requires in_order { InOrder (keys_of B.Shape) latest.old.items }
    requires room { vec_len latest.old + added_by (slice_index_or slots.old.items place Idle)
        ≤ vec_capacity latest.old }
    requires more { commits.old + 1 < 2 ^ 64 }
    ensures seals { MatchOption result
        (NothingSealed (keys_of B.Shape) (slice_index_or slots.old.items place Idle) latest.old.items commits.old
        (slice_index_or slots.new.items place Idle) latest.new.items commits.new)
        (SlotSeals (keys_of B.Shape) (slice_index_or slots.old.items place Idle) latest.old.items commits.old
        (slice_index_or slots.new.items place Idle) latest.new.items commits.new) }
    ensures others { slots.new.items ≡ slice_set slots.old.items place (slice_index_or slots.new.items place Idle) }
    ensures room { vec_len latest.new + added_by (slice_index_or slots.new.items place Idle)
        ≤ vec_len latest.old + added_by (slice_index_or slots.old.items place Idle) }
    ensures capacity { vec_capacity latest.old ≤ vec_capacity latest.new }
    ensures opened { commits.new + opened_by (slice_index_or slots.new.items place Idle)
        ≤ commits.old + opened_by (slice_index_or slots.old.items place Idle) }
    ensures claims { claims_of (slice_index_or slots.new.items place Idle)
        ≤ claims_of (slice_index_or slots.old.items place Idle) }
    ensures in_order { InOrder (keys_of B.Shape) latest.new.items }
{
    slots[place].seal(latest, commits)
}

/// Closes the open call of the session at a place.
fn drop_at<B: Shape>(slots: &mut Vec<Slot<B>>, place: usize) -> bool
    requires { place < length slots.old.items }
    ensures drops { SlotDrops (slice_index_or slots.old.items place Idle) result
        (slice_index_or slots.new.items place Idle) }
    ensures others { slots.new.items ≡ slice_set slots.old.items place (slice_index_or slots.new.items place Idle) }
    ensures added { added_by (slice_index_or slots.new.items place Idle)
        ≡ added_by (slice_index_or slots.old.items place Idle) }
    ensures opened { opened_by (slice_index_or slots.new.items place Idle)
        ≡ opened_by (slice_index_or slots.old.items place Idle) }
    ensures claims { claims_of (slice_index_or slots.new.items place Idle)
        ≡ claims_of (slice_index_or slots.old.items place Idle) }
{
    slots[place].drop_call()
}

/// An index of entries as a set machine over a sorted list: for up to eight sessions, in memory.
///
/// It is the plain program of the definitions, slow and exact. Other indexes are compared with it.
#[derive(Drop)]
pub struct PlainIndex<B: Shape> {
    committed: Vec<Entry<B>>,
    commits: u64,
    next: u64,
    slots: Vec<Slot<B>>,
}

impl<B: Shape> Model for PlainIndex<B> {
    ghost use Rattle.std.specs.Prelude.{false, [], vec_capacity};
    ghost use Rattle.gx_machine.specs.Keys.{keys};
    ghost use Rattle.gx_plain.specs.Index.{Index};

    ghost Value = { Index B };

    ghost use Rattle.gx_plain.specs.Kept.{IsKept};

    ghost view = { λ i. record {
      machine = record {
        older = [];
        latest = i.committed.items;
        oldest = i.commits;
        sessions = i.slots.items;
        failed = false;
      };
      next = i.next;
    } };

    ghost invariant = { λ i. IsKept (keys B.cmp B.overlap B.inside) i.committed.items (vec_capacity i.committed)
        i.commits i.next i.slots.items };
}

impl<B: Shape> PlainIndex<B> {
    ghost use Rattle.gx_plain.specs.Index.{fresh_index, ask_index, AnswersIndex, CallsIndex, SealsIndex, DropsIndex};
    ghost use Rattle.gx_plain.specs.Runs.{IsPlain};

    /// Makes an index with nothing committed. It allocates the memory for all claims and predicates, and for deletes.
    pub fn new(alloc: Global) -> Result<Self, AllocError>
        ensures { IfOk result (λ index. index ≡ fresh_index) }
    {
        Ok(PlainIndex {
            committed: Vec::new(alloc),
            commits: 0,
            next: 1,
            slots: idle_slots(alloc)?,
        })
    }

    /// Asks a call of a session, from 1 to 8. It takes no memory.
    ///
    /// The reply comes at once if the call is refused, and for a Begin; else the call is open until it gets its reply.
    /// Refused for the first that holds: `BadSession` for another number; `CallOpen` if the session has a call open,
    /// has asked for its abort or waits for its commit; `InTransaction` for a Begin in a transaction, `NoTransaction`
    /// for another call outside of one; `HistoryFull` for a Begin if the number of the last commit or of the next
    /// transaction is 2^64 - 9 or more; `Busy` with the least other session that conflicts; `ClaimsFull` and
    /// `PredicatesFull` if the places are taken. A refused call changes nothing.
    pub fn ask(&mut self, session: u8, call: Call<B>) -> Asked<B>
        ensures asked { result ≡ (ask_index (keys_of B.Shape) session call self.old).0 }
        ensures index { self.new ≡ (ask_index (keys_of B.Shape) session call self.old).1 }
    {
        let Some(place) = place_of(session) else {
            return Asked::Now(Reply::Refused(Refusal::BadSession));
        };
        let begins = begins_at(&self.slots, place, &call);
        if lacks_numbers(begins, self.commits, self.next) {
            return Asked::Now(Reply::Refused(Refusal::HistoryFull));
        }
        let least = least_conflicting(&self.slots, &call, session);
        let spent = claims_held(&self.slots);
        self.next += u64::from(begins);
        ask_at(&mut self.slots, place, call, least, spent)
    }

    /// Replies to the open call of a session, or to its abort. A commit is sealed, durable and replied to in one step.
    ///
    /// Refused with `BadSession` for a number outside of 1 to 8; `NoCall` if nothing is open; `Present` for an insert
    /// of an entry that the session sees; `Absent` for a delete of one that it doesn't; `Memory` for an insert or a
    /// search that needs memory and is refused it. The call is then closed, and may be asked again.
    pub fn answer(&mut self, session: u8) -> Reply<B>
        ensures { AnswersIndex (keys_of B.Shape) session self.old result self.new }
    {
        let Some(place) = place_of(session) else {
            return Reply::Refused(Refusal::BadSession);
        };
        let added = added(&self.slots);
        answer_at(
            &mut self.slots,
            place,
            &mut self.committed,
            &mut self.commits,
            added,
        )
    }

    /// Seals the open commit of a session under the next number, which it returns: the last committed set becomes what
    /// the session sees, durable at once, and its claims and predicates are free. `answer` of the session then returns
    /// `Committed` with that number. Returns `None`, and changes nothing, if the session has no open commit.
    pub fn seal(&mut self, session: u8) -> Option<u64>
        ensures { SealsIndex (keys_of B.Shape) session self.old result self.new }
    {
        let place = place_of(session)?;
        seal_at(
            &mut self.slots,
            place,
            &mut self.committed,
            &mut self.commits,
        )
    }

    /// Closes the open call of a session without an answer. The session keeps its transaction, its claims and its
    /// predicates, and the call may be asked again. Returns `false`, and changes nothing, if the session has no open
    /// call; an abort and a sealed commit are no open calls.
    pub fn drop_call(&mut self, session: u8) -> bool
        ensures { DropsIndex session self.old result self.new }
    {
        match place_of(session) {
            Some(place) => drop_at(&mut self.slots, place),
            None => false,
        }
    }

    /// The index's invariant: eight sessions, each commit durable, and no fault has made it fail.
    pub fn stands(&self)
        ensures { IsPlain self.now }
    {
        let _ = &self.slots;
    }

    /// Asks a call and, if it is then open, answers it. The refusals are those of `ask` and of `answer`.
    pub fn call(&mut self, session: u8, call: Call<B>) -> Reply<B>
        ensures { CallsIndex (keys_of B.Shape) self.old session call result self.new }
    {
        match self.ask(session, call) {
            Asked::Now(reply) => reply,
            Asked::Open => self.answer(session),
        }
    }
}

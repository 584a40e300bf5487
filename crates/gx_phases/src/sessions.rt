//! All sessions.
ghost use Rattle.std.specs.Borrow.{sem};
ghost use Rattle.std.specs.Prelude.{◌≡◌, ◌<◌, ◌≤◌, ◌+◌, ◌-◌, Bool, true, IfOk, IfSome, List, replicate};
ghost use Rattle.gx_machine.specs.declared.limits.TheConstants.{SESSIONS};
ghost use Rattle.gx_machine.specs.Machine.{is_session};
ghost use Rattle.gx_phases.specs.declared.phase.Phase.TheVariants as phase;

use crate::phase::Phase;
use crate::{asks, steps};
use gx_geom::{Refusal, Shape};
use gx_machine::{Asked, Call, Entry, LAST_NUMBER, Reply, SESSIONS};
use gx_txn::{Note, Transactions};
use std::alloc::{AllocError, Global};
use std::marker::Model;

/// All sessions, with no transaction.
fn free_phases<B: Shape, W: Drop>(alloc: Global) -> Result<Vec<Phase<B, W>>, AllocError>
    ensures { IfOk result (λ phases. phases.items ≡ replicate SESSIONS phase.Free) }
{
    let mut phases = Vec::with_capacity(alloc, SESSIONS)?;
    for _ in 0..SESSIONS {
        phases.push(Phase::Free)?;
    }
    Ok(phases)
}

/// The phase of each of eight sessions, its transaction's number, its locks and its notes; and the numbers of the next
/// transaction, of the last commit and of the last one that is durable.
///
/// A session is a number from 1 to 8. Only `new` takes memory.
#[derive(Drop)]
pub struct Sessions<B: Shape, W> {
    phases: Vec<Phase<B, W>>,
    table: Transactions<B>,
    transactions: Vec<u64>,
    next: u64,
    latest: u64,
    durable: u64,
    failed: bool,
}

impl<B: Shape, W> Model for Sessions<B, W> {
    ghost use Rattle.gx_machine.specs.Keys.{keys};
    ghost use Rattle.gx_phases.specs.States.{State, IsKept};

    ghost Value = { State B W };

    ghost view = { λ s. record {
      phases = s.phases.items;
      table = s.table;
      transactions = s.transactions.items;
      next = s.next;
      latest = s.latest;
      durable = s.durable;
      failed = s.failed;
    } };

    ghost invariant = { λ s. IsKept (keys B.cmp B.overlap B.inside)
        (record {
          phases = s.phases.items;
          table = s.table;
          transactions = s.transactions.items;
          next = s.next;
          latest = s.latest;
          durable = s.durable;
          failed = s.failed;
        }) };
}

impl<B: Shape, W: Drop> Sessions<B, W> {
    ghost use Rattle.gx_machine.specs.Keys.{keys_of};
    ghost use Rattle.gx_machine.specs.declared.entry.Entry.{Entry};
    ghost use Rattle.gx_machine.specs.declared.call.Call.TheVariants.{Insert};
    ghost use Rattle.gx_machine.specs.declared.limits.TheConstants.{LAST_NUMBER};
    ghost use Rattle.gx_events.specs.Happenings.{IsHappening};
    ghost use Rattle.gx_txn.specs.Tables.{held_by, claimed_in, locks_for, IsKept as HeldIsKept};
    ghost use Rattle.gx_phases.specs.States.{fresh_state, engine_of, phase_at, with_phase_of, IsKept};
    ghost use Rattle.gx_phases.specs.Moves.{is_open, asks_commit, HasWrite, is_undoing, waits_for};
    ghost use Rattle.gx_phases.specs.Lending.{lends_work_of};
    ghost use Rattle.gx_phases.specs.Moves.{has_work, with_work, transaction_of, covered, next_of, Acknowledged};
    ghost use Rattle.gx_phases.specs.Moves.{RestoredOne, TakesUp, may_lose, answered_state, written_state};
    ghost use Rattle.gx_phases.specs.Moves.{sealed_state, ended_state, synced_state, failed_state};
    ghost use Rattle.gx_phases.specs.Asked.{Begun, IsAsked, asked_event, begins, is_full};

    /// Makes sessions without a transaction. The last commit's number is `latest`, commits are durable up to `durable`,
    /// and the next transaction gets the number `next`. It allocates all places for claims, notes and predicates.
    pub fn new(alloc: Global, latest: u64, durable: u64, next: u64) -> Result<Self, AllocError>
        requires sealed { durable ≤ latest }
        ensures { IfOk result (λ sessions. sessions ≡ fresh_state W latest durable next) }
    {
        Ok(Sessions {
            phases: free_phases(alloc)?,
            table: Transactions::new(alloc)?,
            transactions: vec![in alloc; 0; SESSIONS]?,
            next,
            latest,
            durable,
            failed: false,
        })
    }

    /// Whether the numbers of transactions or of commits are used up.
    fn is_full(&self) -> bool
        ensures { result ≡ is_full self.now }
    {
        self.latest >= LAST_NUMBER || self.next >= LAST_NUMBER
    }

    /// Whether a call begins a transaction of a session.
    fn begins(&self, session: u8, call: &Call<B>) -> bool
        requires { is_session session ≡ true }
        ensures { result ≡ begins call.now (phase_at (session - 1) self.now.phases) }
    {
        asks::is_free(&self.phases[asks::place_of(session)]) && asks::is_begin(call)
    }

    /// Begins a transaction of a session without one.
    fn begin_transaction(&mut self, session: u8) -> Asked<B>
        requires session { is_session session ≡ true }
        ensures { Begun (is_full self.old) session self.old result self.new }
    {
        if self.is_full() {
            return asks::refused(Refusal::HistoryFull);
        }
        asks::set_phase(&mut self.phases, session, Phase::Working);
        self.transactions[asks::place_of(session)] = self.next;
        self.next += 1;
        Asked::Now(Reply::Ok)
    }

    /// Asks a call of a session, from 1 to 8, whose work over the tree begins in this state. It takes no memory.
    ///
    /// The reply comes at once if the call is refused, and for a Begin, which gives the session the next transaction's
    /// number; else the call is open. Refused for the first that holds: `Failed` once a fault has made the engine fail;
    /// `BadSession` for another number; `CallOpen` if the session has a call open, undoes or waits for its commit;
    /// `InTransaction` for a Begin in a transaction, `NoTransaction` for another call outside of one; `HistoryFull` for
    /// a Begin if the number of the last commit or of the next transaction is 2^64 - 9 or more; `Busy` with the least
    /// other session that conflicts; `ClaimsFull` and `PredicatesFull` if the places are taken. A refused call changes
    /// nothing.
    pub fn ask(&mut self, session: u8, call: Call<B>, work: W) -> Asked<B>
        ensures asked { IsAsked (keys_of B.Shape) session call work self.old result self.new }
        ensures event { (live : Entry B → Bool) (older : List (List (Entry B)))
            → IsHappening (keys_of B.Shape) (engine_of live older self.old) (asked_event session call self.old result)
            (engine_of live older self.new) }
    {
        if self.failed {
            return asks::refused(Refusal::Failed);
        }
        if !asks::is_session(session) {
            return asks::refused(Refusal::BadSession);
        }
        if self.begins(session, &call) {
            return self.begin_transaction(session);
        }
        asks::ask_at(&mut self.phases, &mut self.table, session, call, work)
    }

    /// A session's phase.
    pub fn phase(&self, session: u8) -> &Phase<B, W>
        requires { is_session session ≡ true }
        ensures { result.now ≡ phase_at (session - 1) self.now.phases }
    {
        &self.phases[asks::place_of(session)]
    }

    /// The number of a session's transaction, or of the last one that it had.
    pub fn transaction(&self, session: u8) -> u64
        requires { is_session session ≡ true }
        ensures { result ≡ transaction_of session self.now }
    {
        self.transactions[asks::place_of(session)]
    }

    /// The number that the next transaction gets.
    pub fn next(&self) -> u64
        ensures { result ≡ self.now.next }
    {
        self.next
    }

    /// The number of the last commit that is sealed.
    pub fn latest(&self) -> u64
        ensures { result ≡ self.now.latest }
    {
        self.latest
    }

    /// The number up to which commits are durable.
    pub fn durable(&self) -> u64
        ensures { result ≡ self.now.durable }
    {
        self.durable
    }

    /// The invariant of sessions, on any device.
    pub fn stands(&self)
        ensures { IsKept (keys_of B.Shape) self.now }
    {
        let _ = &self.failed;
    }

    /// Whether a fault has made the engine fail.
    pub fn has_failed(&self) -> bool
        ensures failed { result ≡ self.now.failed }
        ensures kept { IsKept (keys_of B.Shape) self.now }
    {
        self.failed
    }

    /// Whether some session claims the entry, so that no sweep may take it.
    pub fn is_claimed(&self, e: &Entry<B>) -> bool
        ensures { result ≡ claimed_in (keys_of B.Shape) e.now self.now.table }
    {
        self.table.is_claimed(e)
    }

    /// The notes of what a session's transaction wrote, in the order of their entries.
    pub fn notes(&self, session: u8) -> &[Note<B>]
        requires { is_session session ≡ true }
        ensures notes { result.now ≡ (held_by session self.now.table).notes }
        ensures kept { HeldIsKept (keys_of B.Shape) (held_by session self.now.table) }
    {
        self.table.notes(session)
    }

    /// Gives an open call or an undo this work, and returns what it had. A session with neither returns this work.
    pub fn replace_work(&mut self, session: u8, work: W) -> W
        requires { is_session session ≡ true }
        ensures given { result ≡ (with_work work (phase_at (session - 1) self.old.phases)).0 }
        ensures state { self.new ≡ with_phase_of session
            (with_work work (phase_at (session - 1) self.old.phases)).1 self.old }
    {
        steps::replace_work(&mut self.phases, session, work)
    }

    /// Lends the work of a session's open call or undo, where it is kept.
    pub fn work_mut(&mut self, session: u8) -> &mut W
        requires session { is_session session ≡ true }
        requires works { has_work (phase_at (session - 1) self.old.phases) ≡ true }
        ensures* writes_back { sem 𝓛 (lends_work_of B.row W.row B.Shape session self.entry result) }
        ensures work { result.now ≡ (with_work result.now (phase_at (session - 1) self.old.phases)).0 }
    {
        let phase = &mut self.phases[asks::place_of(session)];
        phase.work_mut()
    }

    /// Closes a session's open call, which gets its reply. Its locks stay.
    pub fn answer(&mut self, session: u8)
        requires session { is_session session ≡ true }
        requires open { is_open (phase_at (session - 1) self.old.phases) ≡ true }
        ensures { self.new ≡ answered_state session self.old }
    {
        steps::close(&mut self.phases, session);
    }

    /// Notes what a session's open insert or delete of this entry wrote in a leaf, and closes the call: `before` is the
    /// entry's mark from before this write, set if it was marked or absent. Of all writes of an entry, the first one's
    /// `before` and the last one's leaf are kept.
    pub fn note(&mut self, session: u8, entry: Entry<B>, before: bool, leaf: u32)
        requires session { is_session session ≡ true }
        requires write { HasWrite entry (phase_at (session - 1) self.old.phases) }
        ensures { self.new ≡ written_state (keys_of B.Shape) session
            (record { entry = entry; before = before; leaf = leaf }) self.old }
    {
        self.table.note(session, entry, before, leaf);
        steps::close(&mut self.phases, session);
    }

    /// Seals the commit that a session has asked: gives it the next number, which is returned, and the session waits
    /// until that is durable. Its locks and notes are free.
    pub fn seal(&mut self, session: u8) -> u64
        requires session { is_session session ≡ true }
        requires commit { asks_commit (phase_at (session - 1) self.old.phases) ≡ true }
        ensures number { result ≡ self.old.latest + 1 }
        ensures state { self.new ≡ sealed_state session self.old }
    {
        let number = self.latest + 1;
        steps::release(&mut self.table, session);
        asks::set_phase(&mut self.phases, session, Phase::Waiting(number));
        self.latest = number;
        number
    }

    /// The number of a session's commit, if the session waits for it and it is durable.
    fn covered(&self, session: u8) -> Option<u64>
        requires { is_session session ≡ true }
        ensures { result ≡ covered self.now.durable (waits_for (phase_at (session - 1) self.now.phases)) }
    {
        match steps::waits_for(&self.phases[asks::place_of(session)]) {
            None => None,
            Some(number) => if number <= self.durable {
                Some(number)
            } else {
                None
            },
        }
    }

    /// Acknowledges a session's commit exactly if its number is durable: returns that number, and the session is free.
    /// Else nothing changes.
    pub fn acknowledge(&mut self, session: u8) -> Option<u64>
        requires { is_session session ≡ true }
        ensures number { result ≡ covered self.old.durable (waits_for (phase_at (session - 1) self.old.phases)) }
        ensures state { Acknowledged result session self.old self.new }
    {
        match self.covered(session) {
            None => None,
            Some(number) => {
                steps::free(&mut self.phases, session);
                Some(number)
            }
        }
    }

    /// How many notes an undo of a session has restored, if one is left: the place of the note to be restored next.
    pub fn next_restored(&self, session: u8) -> Option<usize>
        requires { is_session session ≡ true }
        ensures next { result ≡ next_of session self.now }
        ensures small { IfSome result (λ restored. restored < usize.MAX) }
    {
        match steps::restored_by(&self.phases[asks::place_of(session)]) {
            None => None,
            Some(restored) => if restored < self.table.notes(session).len() {
                Some(restored)
            } else {
                None
            },
        }
    }

    /// Counts one more note as restored, by a write in this leaf, and takes the state of the work on the next. The note
    /// keeps its mark from before, and has this leaf from now on. If none is left, nothing changes.
    pub fn restored(&mut self, session: u8, leaf: u32, work: W)
        requires { is_session session ≡ true }
        ensures { RestoredOne (next_of session self.old) session leaf work self.old self.new }
    {
        if let Some(restored) = self.next_restored(session) {
            steps::write_again(&mut self.table, session, restored, leaf);
            asks::set_phase(
                &mut self.phases,
                session,
                Phase::Undoing(restored + 1, work),
            );
        }
    }

    /// Ends a session's undo: frees its locks and notes, and the session.
    pub fn end_undo(&mut self, session: u8)
        requires session { is_session session ≡ true }
        requires undoes { is_undoing (phase_at (session - 1) self.old.phases) ≡ true }
        ensures { self.new ≡ ended_state session self.old }
    {
        steps::release(&mut self.table, session);
        steps::free(&mut self.phases, session);
    }

    /// Notes that commits are durable up to this number, which is sealed.
    pub fn synced(&mut self, number: u64)
        requires rises { self.old.durable ≤ number }
        requires sealed { number ≤ self.old.latest }
        ensures { self.new ≡ synced_state number self.old }
    {
        self.durable = number;
    }

    /// Notes that a fault has made the engine fail: from now on it only refuses.
    pub fn fail(&mut self)
        ensures { self.new ≡ failed_state self.old }
    {
        self.failed = true;
    }

    /// Takes up one note of a transaction that a crash has left to be undone: the session, which has no transaction or
    /// undoes one, claims the note's entry, has noted it, and undoes this transaction from its first note on.
    ///
    /// Refused as a claim is: `Busy` with the least other session that claims the entry, `ClaimsFull` if 512 claims are
    /// held in all and the session doesn't have this one. Then nothing changes.
    pub fn hold_loser(
        &mut self,
        session: u8,
        transaction: u64,
        note: Note<B>,
        work: W,
    ) -> Result<(), Refusal>
        requires session { is_session session ≡ true }
        requires loser { may_lose (phase_at (session - 1) self.old.phases) ≡ true }
        ensures { TakesUp (keys_of B.Shape) (locks_for (keys_of B.Shape) (Insert note.entry) session
            self.old.table) session transaction note work
            self.old result self.new }
    {
        match steps::hold(&mut self.table, session, note) {
            Ok(()) => {
                asks::set_phase(&mut self.phases, session, Phase::Undoing(0, work));
                self.transactions[asks::place_of(session)] = transaction;
                Ok(())
            }
            Err(why) => Err(why),
        }
    }
}

//! What all sessions hold.
ghost use Rattle.std.specs.Prelude.{◌≡◌, ◌≤◌, ◌<◌, ◌+◌, ◌-◌, IfOk, OnOk, length, replicate, slice_set, true};
ghost use Rattle.std.specs.List.{slice_index_or};
ghost use Rattle.gx_machine.specs.declared.limits.TheConstants.{SESSIONS};
ghost use Rattle.gx_machine.specs.Keys.{keys_of};
ghost use Rattle.gx_machine.specs.Machine.{is_session};
ghost use Rattle.gx_machine.specs.Sessions.{has_query, with_claim, with_predicate};
ghost use Rattle.gx_txn.specs.Tables.{nothing_held, claims_in, claims, IsKept, Takes};

use crate::Note;
use crate::holding::Holding;
use gx_geom::{Refusal, Shape};
use gx_machine::{Call, Entry, Query, SESSIONS, least_conflicting};
use std::alloc::{AllocError, Global};
use std::marker::Model;

/// All sessions, holding nothing.
fn free_slots<B: Shape>(alloc: Global) -> Result<Vec<Holding<B>>, AllocError>
    ensures { IfOk result (λ slots. slots.items ≡ replicate SESSIONS nothing_held) }
{
    let mut slots = Vec::with_capacity(alloc, SESSIONS)?;
    for _ in 0..SESSIONS {
        slots.push(Holding::new(alloc)?)?;
    }
    Ok(slots)
}

/// The claims held in all.
fn claims_held<B: Shape>(slots: &[Holding<B>]) -> usize
    requires { length slots.now ≤ SESSIONS }
    ensures { result ≡ claims_in slots.now }
{
    let mut held = 0;
    for slot in slots {
        held += slot.claim_count();
    }
    held
}

/// Claims an entry for the session at a place; `spent` claims are held in all.
fn claim_at<B: Shape>(
    slots: &mut Vec<Holding<B>>,
    place: usize,
    e: Entry<B>,
    spent: usize,
) -> Result<(), Refusal>
    requires within { place < length slots.old.items }
    requires spent { length (slice_index_or slots.old.items place nothing_held).locks.claims ≤ spent }
    ensures takes { Takes (with_claim (keys_of B.Shape) e spent
        (slice_index_or slots.old.items place nothing_held).locks)
        (slice_index_or slots.old.items place nothing_held) result (slice_index_or slots.new.items place nothing_held) }
    ensures claimed { OnOk result (claims (keys_of B.Shape) e (slice_index_or slots.new.items place nothing_held)
        ≡ true) }
    ensures others { slots.new.items ≡ slice_set slots.old.items place
        (slice_index_or slots.new.items place nothing_held) }
{
    slots[place].claim(e, spent)
}

/// Holds a predicate for the session at a place.
fn hold_at<B: Shape>(
    slots: &mut Vec<Holding<B>>,
    place: usize,
    query: Query<B>,
) -> Result<(), Refusal>
    requires { place < length slots.old.items }
    ensures takes { Takes (with_predicate (keys_of B.Shape) query
        (slice_index_or slots.old.items place nothing_held).locks)
        (slice_index_or slots.old.items place nothing_held) result (slice_index_or slots.new.items place nothing_held) }
    ensures held { OnOk result (has_query (keys_of B.Shape) query
        (slice_index_or slots.new.items place nothing_held).locks.predicates ≡ true) }
    ensures others { slots.new.items ≡ slice_set slots.old.items place
        (slice_index_or slots.new.items place nothing_held) }
{
    slots[place].hold(query)
}

/// Claims, predicates and notes of all sessions, with a place for each of them taken at the start.
///
/// A session is a number from 1 to 8. Contracts see a list of eight: for each session its locks, as the set machine
/// has them, and its notes in the order of their entries. Only `new` takes memory.
#[derive(Drop)]
pub struct Transactions<B: Shape> {
    slots: Vec<Holding<B>>,
}

impl<B: Shape> Model for Transactions<B> {
    ghost use Rattle.std.specs.Prelude.{◌≡◌, List, length};
    ghost use Rattle.gx_machine.specs.declared.limits.TheConstants.{SESSIONS};
    ghost use Rattle.gx_txn.specs.Tables.{Held};

    ghost Value = { List (Held B) };

    ghost view = { λ t. t.slots.items };

    ghost invariant = { λ t. length t.slots.items ≡ SESSIONS };
}

impl<B: Shape> Transactions<B> {
    ghost use Rattle.gx_machine.specs.declared.call.Call.TheVariants.{Insert, Search};
    ghost use Rattle.gx_machine.specs.declared.entry.Entry.{Entry};
    ghost use Rattle.gx_txn.specs.Notes.{noting};
    ghost use Rattle.gx_txn.specs.Tables.{held_by, with_held, with_notes, locks_for, claimed_in, TakesIn};

    /// No session holds anything. It takes all places: 512 claims and 512 notes and 16 predicates for each session.
    pub fn new(alloc: Global) -> Result<Self, AllocError>
        ensures { IfOk result (λ t. t ≡ replicate SESSIONS nothing_held) }
    {
        Ok(Transactions {
            slots: free_slots(alloc)?,
        })
    }

    /// Claims an entry for a session that is about to write it (an insert or a delete of it).
    ///
    /// Refused for the first that holds: `Busy` with the least other session that claims the entry or holds a predicate
    /// that matches it, whether that session is open or is undoing its writes; `ClaimsFull` if 512 claims are held in
    /// all and the session doesn't have this one. A refused claim changes nothing; an entry that the session claims
    /// already takes no second place.
    pub fn claim(&mut self, session: u8, e: Entry<B>) -> Result<(), Refusal>
        requires { is_session session ≡ true }
        ensures takes { TakesIn (locks_for (keys_of B.Shape) (Insert e) session self.old)
            session self.old result self.new }
        ensures claimed { OnOk result (claims (keys_of B.Shape) e (held_by session self.new) ≡ true) }
    {
        if let Some(other) = least_conflicting(&self.slots, &Call::Insert(e), session) {
            return Err(Refusal::Busy(other));
        }
        let spent = claims_held(&self.slots);
        claim_at(&mut self.slots, usize::from(session) - 1, e, spent)
    }

    /// Holds a predicate for a session that is about to search.
    ///
    /// Refused for the first that holds: `Busy` with the least other session that claims a matching entry;
    /// `PredicatesFull` if the session holds 16 and doesn't have this one. A refused predicate changes nothing; one
    /// that the session holds already takes no second place.
    pub fn predicate(&mut self, session: u8, query: Query<B>) -> Result<(), Refusal>
        requires { is_session session ≡ true }
        ensures takes { TakesIn (locks_for (keys_of B.Shape) (Search query) session self.old)
            session self.old result self.new }
        ensures held { OnOk result (has_query (keys_of B.Shape) query
            (held_by session self.new).locks.predicates ≡ true) }
    {
        if let Some(other) = least_conflicting(&self.slots, &Call::Search(query), session) {
            return Err(Refusal::Busy(other));
        }
        hold_at(&mut self.slots, usize::from(session) - 1, query)
    }

    /// Notes that a session wrote an entry in a leaf: `before` is the entry's mark from before this write, set if it
    /// was marked or absent. The session claims the entry.
    ///
    /// Of all writes of the entry, the first one's `before` and the last one's leaf are kept.
    pub fn note(&mut self, session: u8, entry: Entry<B>, before: bool, leaf: u32)
        requires session { is_session session ≡ true }
        requires claimed { claims (keys_of B.Shape) entry (held_by session self.old) ≡ true }
        ensures { self.new ≡ with_held session (with_notes (noting (keys_of B.Shape)
            (record { entry = entry; before = before; leaf = leaf }) (held_by session self.old).notes)
            (held_by session self.old)) self.old }
    {
        self.slots[usize::from(session) - 1].note(Note {
            entry,
            before,
            leaf,
        });
    }

    /// The notes of a session, in the order of their entries.
    pub fn notes(&self, session: u8) -> &[Note<B>]
        requires { is_session session ≡ true }
        ensures notes { result.now ≡ (held_by session self.now).notes }
        ensures kept { IsKept (keys_of B.Shape) (held_by session self.now) }
    {
        self.slots[usize::from(session) - 1].notes()
    }

    /// Whether some session claims the entry, so that no sweep may take it.
    pub fn is_claimed(&self, e: &Entry<B>) -> bool
        ensures { result ≡ claimed_in (keys_of B.Shape) e.now self.now }
    {
        self.slots.iter().any(|slot| slot.claims(e))
    }

    /// Frees all that a session holds, as the record of its commit, or of its undone transaction's end, is appended.
    pub fn end(&mut self, session: u8)
        requires { is_session session ≡ true }
        ensures { self.new ≡ with_held session nothing_held self.old }
    {
        let ended = &mut self.slots[usize::from(session) - 1];
        ended.release();
    }
}

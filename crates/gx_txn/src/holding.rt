//! What one session holds.
ghost use Rattle.std.specs.Prelude.{◌≡◌, ◌≤◌, IfOk, OnOk, length, true};
ghost use Rattle.gx_machine.specs.declared.limits.TheConstants.{MAX_CLAIMS};
ghost use Rattle.gx_machine.specs.Keys.{keys_of};

use crate::claims::Claims;
use crate::predicates::Predicates;
use crate::{Note, search};
use gx_geom::{Refusal, Shape};
use gx_machine::{Call, Conflicts, Entry, MAX_CLAIMS, Query};
use std::alloc::{AllocError, Global};
use std::marker::Model;

/// A session's claims and notes, each in the order of entries, and its predicates, with room for all of them.
#[derive(Drop)]
pub struct Holding<B: Shape> {
    claims: Claims<B>,
    predicates: Predicates<B>,
    notes: Vec<Note<B>>,
}

impl<B: Shape> Model for Holding<B> {
    ghost use Rattle.std.specs.Prelude.{◌≤◌, vec_capacity};
    ghost use Rattle.gx_machine.specs.declared.limits.TheConstants.{MAX_CLAIMS};
    ghost use Rattle.gx_machine.specs.Keys.{keys};
    ghost use Rattle.gx_txn.specs.Tables.{Held, IsKept};

    ghost Value = { Held B };

    ghost view = { λ h. record {
      locks = record { claims = h.claims; predicates = h.predicates };
      notes = h.notes.items;
    } };

    ghost invariant = { λ h. (MAX_CLAIMS ≤ vec_capacity h.notes)
        × IsKept (keys B.cmp B.overlap B.inside) (record {
          locks = record { claims = h.claims; predicates = h.predicates };
          notes = h.notes.items;
        }) };
}

impl<B: Shape> Holding<B> {
    ghost use Rattle.gx_machine.specs.Sessions.{with_claim, with_predicate, has_query};
    ghost use Rattle.gx_txn.specs.Notes.{noting};
    ghost use Rattle.gx_txn.specs.Tables.{nothing_held, with_notes, claims, IsKept, Takes};

    /// Nothing, with room for all that a session may hold.
    pub fn new(alloc: Global) -> Result<Self, AllocError>
        ensures { IfOk result (λ h. h ≡ nothing_held) }
    {
        Ok(Holding {
            claims: Claims::new(alloc)?,
            predicates: Predicates::new(alloc)?,
            notes: Vec::with_capacity(alloc, MAX_CLAIMS)?,
        })
    }

    /// Whether the session claims the entry.
    pub fn claims(&self, e: &Entry<B>) -> bool
        ensures { result ≡ claims (keys_of B.Shape) e.now self.now }
    {
        self.claims.has(e)
    }

    /// How many claims it holds.
    pub fn claim_count(&self) -> usize
        ensures count { result ≡ length self.now.locks.claims }
        ensures kept { IsKept (keys_of B.Shape) self.now }
    {
        self.claims.len()
    }

    /// Claims an entry; `spent` claims are held in all. Returns `ClaimsFull`, and changes nothing, exactly if the
    /// session doesn't claim it and all places are used.
    pub fn claim(&mut self, e: Entry<B>, spent: usize) -> Result<(), Refusal>
        requires { length self.old.locks.claims ≤ spent }
        ensures takes { Takes (with_claim (keys_of B.Shape) e spent self.old.locks) self.old result self.new }
        ensures claimed { OnOk result (claims (keys_of B.Shape) e self.new ≡ true) }
    {
        match self.claims.find(&e) {
            Ok(_) => Ok(()),
            Err(_) if spent >= MAX_CLAIMS => Err(Refusal::ClaimsFull),
            Err(place) => {
                self.claims.insert_at(place, e);
                Ok(())
            }
        }
    }

    /// Holds a predicate. Returns `PredicatesFull`, and changes nothing, exactly if the session doesn't have it and its
    /// places are used.
    pub fn hold(&mut self, query: Query<B>) -> Result<(), Refusal>
        ensures takes { Takes (with_predicate (keys_of B.Shape) query self.old.locks) self.old result self.new }
        ensures held { OnOk result (has_query (keys_of B.Shape) query self.new.locks.predicates ≡ true) }
    {
        if self.predicates.has(&query) {
            return Ok(());
        }
        if !self.predicates.has_room() {
            return Err(Refusal::PredicatesFull);
        }
        self.predicates.push(query);
        Ok(())
    }

    /// Notes a write of an entry that the session claims.
    pub fn note(&mut self, note: Note<B>)
        requires { claims (keys_of B.Shape) note.entry self.old ≡ true }
        ensures { self.new ≡ with_notes (noting (keys_of B.Shape) note self.old.notes) self.old }
    {
        match search::find_note(&note, &self.notes) {
            Ok(place) => {
                self.notes[place].leaf = note.leaf;
            }
            Err(place) => search::insert_at(&mut self.notes, place, note),
        }
    }

    /// The notes, lent.
    pub fn notes(&self) -> &[Note<B>]
        ensures notes { result.now ≡ self.now.notes }
        ensures kept { IsKept (keys_of B.Shape) self.now }
    {
        self.notes.as_slice()
    }

    /// Releases all that is held.
    pub fn release(&mut self)
        ensures { self.new ≡ nothing_held }
    {
        self.claims.clear();
        self.predicates.clear();
        self.notes.clear();
    }
}

impl<B: Shape> Conflicts<B> for Holding<B> {
    ghost use Rattle.gx_machine.specs.Keys.{keys};
    ghost use Rattle.gx_machine.specs.Sessions.{conflicts};

    ghost bars = { λ h call. conflicts (keys B.cmp B.overlap B.inside) call h.locks };

    fn conflicts(&self, call: &Call<B>) -> bool {
        match call {
            Call::Insert(e) | Call::Delete(e) => {
                let is_claimed = self.claims.has(e);
                is_claimed || self.predicates.any_matches(e)
            }
            Call::Search(query) => self.claims.any_matching(query),
            Call::Begin | Call::Commit | Call::Abort => false,
        }
    }
}

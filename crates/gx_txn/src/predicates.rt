//! The predicates of one session.
ghost use Rattle.std.specs.Prelude.{◌≡◌, ◌<◌, ◌++◌, ◌∷◌, [], IfOk, length, nat_lt};
ghost use Rattle.std.specs.List.{list_any};
ghost use Rattle.gx_machine.specs.declared.limits.TheConstants.{MAX_PREDICATES};
ghost use Rattle.gx_machine.specs.Keys.{keys_of, matches};
ghost use Rattle.gx_machine.specs.Sessions.{has_query};

use crate::lanes::{Around, LiesIn, OverlappedBy, SameAs, some_passes};
use crate::search::put_last;
use gx_geom::Shape;
use gx_machine::{Entry, MAX_PREDICATES, Query, is_same_query};
use std::alloc::{AllocError, Global};
use std::marker::Model;

/// The queries that a session watches, in the order of asking, with room for all of them. Beside them are the keys of
/// each kind of query, so that a write tests them without asking for the kind.
#[derive(Drop)]
pub struct Predicates<B: Shape> {
    asked: Vec<Query<B>>,
    overlap: Vec<B>,
    within: Vec<B>,
    equal: Vec<B>,
    covers: Vec<B>,
}

impl<B: Shape> Model for Predicates<B> {
    ghost use Rattle.std.specs.Prelude.{List, ◌≤◌, vec_capacity};
    ghost use Rattle.gx_machine.specs.declared.limits.TheConstants.{MAX_PREDICATES};
    ghost use Rattle.gx_machine.specs.declared.query.Query.{Query};
    ghost use Rattle.gx_txn.specs.Watched.{AreByKind};

    ghost Value = { List (Query B) };

    ghost view = { λ p. p.asked.items };

    ghost invariant = { λ p. (MAX_PREDICATES ≤ vec_capacity p.asked) × (MAX_PREDICATES ≤ vec_capacity p.overlap)
        × (MAX_PREDICATES ≤ vec_capacity p.within) × (MAX_PREDICATES ≤ vec_capacity p.equal)
        × (MAX_PREDICATES ≤ vec_capacity p.covers)
        × AreByKind p.asked.items p.overlap.items p.within.items p.equal.items p.covers.items };
}

impl<B: Shape> Predicates<B> {
    /// No predicates, with room for all that a session may have.
    pub fn new(alloc: Global) -> Result<Self, AllocError>
        ensures { IfOk result (λ p. p ≡ []) }
    {
        Ok(Predicates {
            asked: Vec::with_capacity(alloc, MAX_PREDICATES)?,
            overlap: Vec::with_capacity(alloc, MAX_PREDICATES)?,
            within: Vec::with_capacity(alloc, MAX_PREDICATES)?,
            equal: Vec::with_capacity(alloc, MAX_PREDICATES)?,
            covers: Vec::with_capacity(alloc, MAX_PREDICATES)?,
        })
    }

    /// Whether there is a place for one more.
    pub fn has_room(&self) -> bool
        ensures { result ≡ nat_lt (length self.now) MAX_PREDICATES }
    {
        self.asked.len() < MAX_PREDICATES
    }

    /// Whether the query is one of them.
    pub fn has(&self, query: &Query<B>) -> bool
        ensures { result ≡ has_query (keys_of B.Shape) query.now self.now }
    {
        self.asked.iter().any(|p| is_same_query(query, p))
    }

    /// Whether one of them matches the entry.
    pub fn any_matches(&self, e: &Entry<B>) -> bool
        ensures { result ≡ list_any (λ q. matches (keys_of B.Shape) q e.now) self.now }
    {
        let overlapped = some_passes(&OverlappedBy(e.key), &self.overlap);
        let around = some_passes(&Around(e.key), &self.within);
        let same = some_passes(&SameAs(e.key), &self.equal);
        let inside = some_passes(&LiesIn(e.key), &self.covers);
        overlapped | around | same | inside
    }

    /// Holds one more. There is room: fewer than all places are taken.
    pub fn push(&mut self, query: Query<B>)
        requires { length self.old < MAX_PREDICATES }
        ensures { self.new ≡ self.old ++ query ∷ [] }
    {
        put_last(&mut self.asked, query);
        match query {
            Query::Overlap(q) => put_last(&mut self.overlap, q),
            Query::Within(q) => put_last(&mut self.within, q),
            Query::Equal(q) => put_last(&mut self.equal, q),
            Query::Covers(q) => put_last(&mut self.covers, q),
        }
    }

    /// Releases all predicates.
    pub fn clear(&mut self)
        ensures { self.new ≡ [] }
    {
        self.asked.clear();
        self.overlap.clear();
        self.within.clear();
        self.equal.clear();
        self.covers.clear();
    }
}

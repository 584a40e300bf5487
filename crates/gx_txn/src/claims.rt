//! The claims of one session.
ghost use Rattle.std.specs.Prelude.{insert, ◌≡◌, ◌<◌, ◌≤◌, IfOk, [], length};
ghost use Rattle.std.specs.List.{list_any};
ghost use Rattle.gx_machine.specs.declared.limits.TheConstants.{MAX_CLAIMS};
ghost use Rattle.gx_machine.specs.Keys.{keys_of, matches};
ghost use Rattle.gx_machine.specs.Sets.{has, InOrder};
ghost use Rattle.gx_machine.specs.Orders.{IsSearched};

use crate::lanes::{Around, Is, LiesIn, Overlaps, some_passes};
use crate::marks::RowMarks;
use crate::search;
use gx_geom::Shape;
use gx_machine::{Entry, MAX_CLAIMS, Query};
use std::alloc::{AllocError, Global};
use std::marker::Model;

/// The entries that a session claims, in the order in which they are put, with room for all of them. Beside them are
/// their keys alone, which a search goes over, and marks of their rows, which most other entries don't have.
#[derive(Drop)]
pub struct Claims<B: Shape> {
    entries: Vec<Entry<B>>,
    keys: Vec<B>,
    rows: RowMarks,
}

impl<B: Shape> Model for Claims<B> {
    ghost use Rattle.std.specs.Prelude.{List, ◌≤◌, vec_capacity};
    ghost use Rattle.gx_machine.specs.declared.entry.Entry.{Entry};
    ghost use Rattle.gx_machine.specs.declared.limits.TheConstants.{MAX_CLAIMS};
    ghost use Rattle.gx_txn.specs.Claimed.{IsTabled};

    ghost Value = { List (Entry B) };

    ghost view = { λ c. c.entries.items };

    ghost invariant = { λ c. (MAX_CLAIMS ≤ vec_capacity c.entries) × (MAX_CLAIMS ≤ vec_capacity c.keys)
        × IsTabled c.rows c.keys.items c.entries.items };
}

impl<B: Shape> Claims<B> {
    /// No claims, with room for all that a session may have.
    pub fn new(alloc: Global) -> Result<Self, AllocError>
        ensures { IfOk result (λ c. c ≡ []) }
    {
        Ok(Claims {
            entries: Vec::with_capacity(alloc, MAX_CLAIMS)?,
            keys: Vec::with_capacity(alloc, MAX_CLAIMS)?,
            rows: RowMarks::new(alloc)?,
        })
    }

    /// How many claims there are.
    pub fn len(&self) -> usize
        ensures { result ≡ length self.now }
    {
        self.entries.len()
    }

    /// Where the entry is, or where it goes.
    pub fn find(&self, e: &Entry<B>) -> Result<usize, usize>
        requires { InOrder (keys_of B.Shape) self.now }
        ensures { IsSearched (keys_of B.Shape) e.now self.now result }
    {
        gx_machine::find(e, &self.entries)
    }

    /// Whether the entry is claimed. It is searched for only if its row is marked.
    pub fn has(&self, e: &Entry<B>) -> bool
        requires { InOrder (keys_of B.Shape) self.now }
        ensures { result ≡ has (keys_of B.Shape) e.now self.now }
    {
        self.rows.has(e.row) && gx_machine::has_in_order(e, &self.entries)
    }

    /// Whether a claim matches the query.
    pub fn any_matching(&self, query: &Query<B>) -> bool
        ensures { result ≡ list_any (matches (keys_of B.Shape) query.now) self.now }
    {
        match *query {
            Query::Overlap(q) => some_passes(&Overlaps(q), &self.keys),
            Query::Within(q) => some_passes(&LiesIn(q), &self.keys),
            Query::Equal(q) => some_passes(&Is(q), &self.keys),
            Query::Covers(q) => some_passes(&Around(q), &self.keys),
        }
    }

    /// Puts an entry at a place. There is room: fewer than all places are taken.
    pub fn insert_at(&mut self, place: usize, e: Entry<B>)
        requires within { place ≤ length self.old }
        requires room { length self.old < MAX_CLAIMS }
        ensures { self.new ≡ insert self.old place e }
    {
        self.rows.set(e.row);
        search::insert_at(&mut self.keys, place, e.key);
        search::insert_at(&mut self.entries, place, e);
    }

    /// Releases all claims.
    pub fn clear(&mut self)
        ensures { self.new ≡ [] }
    {
        self.entries.clear();
        self.keys.clear();
        self.rows.clear();
    }
}

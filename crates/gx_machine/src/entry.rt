//! Entries, and lists of them.
ghost use Rattle.std.specs.Prelude.{◌≡◌};

use gx_geom::Shape;
use std::cmp::Ordering;
use std::marker::Model;

/// A row and a key. One row may have several keys; each is a separate entry.
#[derive(Clone, Copy, Debug, PartialEq, Eq, PartialOrd, Ord)]
pub struct Entry<B> {
    /// The row's number.
    pub row: u64,
    /// The key.
    pub key: B,
}

impl<B: Shape> Entry<B> {
    ghost use Rattle.std.specs.Prelude.{◌<◌};
    ghost use Rattle.gx_machine.specs.Keys.{keys_of, entry_cmp};

    /// How it is ordered beside another: by row, and then by key.
    pub fn compared_with(&self, other: &Entry<B>) -> Ordering
        ensures order { result ≡ entry_cmp (keys_of B.Shape) self.now other.now }
        ensures by_row { self.now.row < other.now.row → result ≡ Ordering.Less }
        ensures by_key { self.now.row ≡ other.now.row → result ≡ B.cmp self.now.key other.now.key }
    {
        self.cmp(other)
    }
}

/// The entries of an answer, in order by row and then by key.
#[derive(Debug, Drop)]
pub struct Entries<B> {
    entries: Vec<Entry<B>>,
}

impl<B> Model for Entries<B> {
    ghost use Rattle.std.specs.Prelude.{List};
    ghost use Rattle.gx_machine.specs.declared.entry.Entry.{Entry};

    ghost Value = { List (Entry B) };

    ghost view = { λ e. e.entries.items };
}

impl<B> Entries<B> {
    /// The entries of a vector, in its order. Takes no memory.
    pub fn new(entries: Vec<Entry<B>>) -> Self
        ensures { result ≡ entries.items }
    {
        Entries { entries }
    }

    /// The entries, lent.
    pub fn as_slice(&self) -> &[Entry<B>]
        ensures { result.now ≡ self.now }
    {
        self.entries.as_slice()
    }
}

//! What a look wants.
ghost use Rattle.std.specs.Prelude.{◌≡◌, not, ◌&&◌, ◌==◌};
ghost use Rattle.std.specs.Ordering.{is_eq};
ghost use Rattle.gx_machine.specs.Keys.{keys_of, key_matches};
ghost use Rattle.gx_node.specs.Trees.{Pair};
ghost use Rattle.gx_tree.specs.Wants.{has_row, wants};

use gx_class::Probing;
use gx_machine::{Entry, Query};

/// What a look wants: the live pairs that match a query, or the pair of a row and a key, live or marked.
#[derive(Drop)]
pub struct Wanted<K: Probing> {
    pub(crate) keys: K::Probe,
    pub(crate) bounds: K::Probe,
    pub(crate) row: Option<u64>,
}

impl<K: Probing> Wanted<K> {
    /// What a search wants: the live pairs whose keys match.
    pub fn matching(query: &Query<K::Key>) -> Self
        ensures pairs { (x : Pair K.Key) → K.is_key x.key
            → wants K.passes result.keys result.row x
            ≡ (not x.marked && key_matches (keys_of K.Key.Shape) query.now x.key) }
        ensures bounds { (b : K.Key) → K.is_key b → K.passes result.bounds b ≡ K.may_match query.now b }
    {
        Wanted {
            keys: K::probe_keys(query),
            bounds: K::probe_bounds(query),
            row: None,
        }
    }

    /// What a write's look wants: the pair of its row and its key, live or marked.
    pub fn entry(entry: &Entry<K::Key>) -> Self
        ensures pairs { (x : Pair K.Key) → K.is_key x.key
            → wants K.passes result.keys result.row x
            ≡ ((x.row == entry.now.row) && is_eq (K.Key.cmp x.key entry.now.key)) }
        ensures bounds { (b : K.Key) → K.is_key b
            → K.passes result.bounds b ≡ K.may_match (Query.Equal entry.now.key) b }
    {
        let query = Query::Equal(entry.key);
        Wanted {
            keys: K::probe_keys(&query),
            bounds: K::probe_bounds(&query),
            row: Some(entry.row),
        }
    }

    /// Whether a pair whose key passes is wanted.
    pub(crate) fn takes(&self, row: u64, marked: bool) -> bool
        ensures { (x : Pair K.Key) → x.row ≡ row → x.marked ≡ marked → has_row self.now.row x ≡ result }
    {
        match self.row {
            None => !marked,
            Some(wanted) => row == wanted,
        }
    }
}

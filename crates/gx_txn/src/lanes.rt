//! Tests of many keys in a row, with no branch on what was found.
ghost use Rattle.std.specs.Prelude.{◌≡◌, Bool};
ghost use Rattle.std.specs.List.{list_any};
ghost use Rattle.std.specs.Ordering.{is_eq};

use gx_geom::Shape;
use std::cmp::Ordering;

/// A test of keys.
pub trait Test<B> {
    /// Whether a key passes.
    ghost test: { Self → B → Bool };

    /// Whether the key passes.
    fn passes(&self, key: &B) -> bool
        ensures { result ≡ test self.now key.now };
}

/// Whether some key passes. All are tested, whatever the first of them give, so no branch is taken on what was found.
pub fn some_passes<B: Copy, T: Test<B>>(test: &T, keys: &[B]) -> bool
    ensures { result ≡ list_any (T.test test.now) keys.now }
{
    let mut found = false;
    for key in keys {
        let key = *key;
        found |= test.passes(&key);
    }
    found
}

/// Of keys: those that overlap this one.
#[derive(Drop)]
pub struct Overlaps<B>(pub B);

impl<B: Shape> Test<B> for Overlaps<B> {
    ghost test = { λ t key. B.overlap key t.0 };

    fn passes(&self, key: &B) -> bool {
        key.overlaps(&self.0)
    }
}

/// Of keys, of entries or of queries: those that lie in this one.
#[derive(Drop)]
pub struct LiesIn<B>(pub B);

impl<B: Shape> Test<B> for LiesIn<B> {
    ghost test = { λ t key. B.inside key t.0 };

    fn passes(&self, key: &B) -> bool {
        key.within(&self.0)
    }
}

/// Of keys: this one.
#[derive(Drop)]
pub struct Is<B>(pub B);

impl<B: Shape> Test<B> for Is<B> {
    ghost test = { λ t key. is_eq (B.cmp key t.0) };

    fn passes(&self, key: &B) -> bool {
        key.cmp(&self.0) == Ordering::Equal
    }
}

/// Of the keys of queries: those that this key overlaps.
#[derive(Drop)]
pub struct OverlappedBy<B>(pub B);

impl<B: Shape> Test<B> for OverlappedBy<B> {
    ghost test = { λ t query. B.overlap t.0 query };

    fn passes(&self, query: &B) -> bool {
        self.0.overlaps(query)
    }
}

/// Of keys, of entries or of queries: those in which this one lies.
#[derive(Drop)]
pub struct Around<B>(pub B);

impl<B: Shape> Test<B> for Around<B> {
    ghost test = { λ t key. B.inside t.0 key };

    fn passes(&self, key: &B) -> bool {
        self.0.within(key)
    }
}

/// Of the keys of queries: those that are this key.
#[derive(Drop)]
pub struct SameAs<B>(pub B);

impl<B: Shape> Test<B> for SameAs<B> {
    ghost test = { λ t query. is_eq (B.cmp t.0 query) };

    fn passes(&self, query: &B) -> bool {
        self.0.cmp(query) == Ordering::Equal
    }
}

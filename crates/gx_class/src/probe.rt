//! Queries tested on the bytes of keys.
ghost use Rattle.std.specs.Prelude.{◌≡◌, Bool, length};
ghost use Rattle.gx_machine.specs.Keys.{keys_of, key_matches};

use crate::KeyClass;
use gx_machine::Query;

/// A class whose keys can be tested in place. A query is turned into a probe once, and the probe is tested on the bytes
/// of each key, whether it is an entry's key or a bound.
pub trait Probing: KeyClass {
    /// A query in the form in which it is tested on keys.
    type Probe: Drop;

    /// Whether a key passes.
    ghost passes: { Self.Probe → Self.Key → Bool };

    /// The probe that exactly the keys that match the query pass.
    fn probe_keys(query: &Query<Self::Key>) -> Self::Probe
        ensures { (key : Self.Key) → Self.is_key key → passes result key
            ≡ key_matches (keys_of Self.Key.Shape) query.now key };

    /// The probe that the bounds pass below which a key may match the query.
    fn probe_bounds(query: &Query<Self::Key>) -> Self::Probe
        ensures { (bound : Self.Key) → Self.is_key bound → passes result bound ≡ Self.may_match query.now bound };

    /// Whether the key with these bytes passes.
    fn test(probe: &Self::Probe, bytes: &[u8]) -> bool
        requires { length bytes.now ≡ Self.KEY }
        ensures { (key : Self.Key) → Self.is_key key → bytes.now ≡ Self.spelling key → result ≡ passes probe.now key };
}

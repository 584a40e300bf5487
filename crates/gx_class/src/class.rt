//! What the tree needs of its keys: the methods of a generalized search tree's key class (Hellerstein, Naughton,
//! Pfeffer 1995). Compress and Decompress are a lossless `encode` and `decode` here.
ghost use Rattle.std.specs.Prelude.{◌≡◌, ◌<◌, ◌≤◌, ◌*◌, ℕ, Bool, true, List, length, slice_index, Option, Some, IfSome};
ghost use Rattle.gx_machine.specs.declared.query.Query.{Query};
ghost use Rattle.gx_machine.specs.Keys.{keys_of, key_matches};
ghost use Rattle.gx_class.specs.Sides.{LeavesEach};
ghost use Rattle.gx_class.specs.declared.class.TheConstants.{MAX_KEY};

use gx_geom::Shape;
use gx_machine::Query;

/// The most bytes that a key is written in. So 100 entries of a key and nine bytes more, with their places, fit a page.
pub const MAX_KEY: usize = 24;

/// A class of keys. Every value of `Key` in a program is a key of the class, so that each law holds of it.
pub trait KeyClass {
    /// What the keys are.
    type Key: Shape;

    /// The number by which a device names the class.
    ghost CLASS: { ℕ };

    const CLASS: u16;

    /// How many bytes a key is written in, `MAX_KEY` at most.
    ghost KEY: { ℕ };

    const KEY: usize;

    /// Which values are keys.
    ghost is_key: { Self.Key → Type 0 };

    /// The key of a tree's first bound.
    ghost start_key: { Self.Key };

    /// Whether a key below the bound may match the query.
    ghost may_match: { Query Self.Key → Self.Key → Bool };

    /// The least key that covers both.
    ghost joined: { Self.Key → Self.Key → Self.Key };

    /// How much the bound grows by the key, and how large it is.
    ghost cost: { Self.Key → Self.Key → ℕ × ℕ };

    /// The side of each key.
    ghost sides_of: { List Self.Key → ℕ → List Bool };

    /// The bytes of a key.
    ghost spelling: { Self.Key → List ℕ };

    /// The key that bytes spell, if they spell one.
    ghost reading: { List ℕ → Option Self.Key };

    /// Does nothing; its contract says that the value is a key of the class.
    fn known(key: &Self::Key)
        ensures { is_key key.now };

    /// The key of a tree's first bound.
    fn start() -> Self::Key
        ensures { result ≡ start_key };

    /// Whether a key below the bound may match the query: Consistent. False only if no key below can match.
    fn consistent(query: &Query<Self::Key>, bound: &Self::Key) -> bool
        ensures { result ≡ may_match query.now bound.now };

    /// Whether the key matches the query.
    fn matches(query: &Query<Self::Key>, key: &Self::Key) -> bool
        ensures { result ≡ key_matches (keys_of Self.Key.Shape) query.now key.now };

    /// The least key that covers both: Union.
    fn union(first: Self::Key, second: Self::Key) -> Self::Key
        ensures { result ≡ joined first second };

    /// How much the bound grows by the key, and how large it is: Penalty. The bound for which this is least is chosen,
    /// as Guttman (1984) chooses the box that needs least enlargement, then the smaller.
    fn penalty(bound: &Self::Key, key: &Self::Key) -> (u128, u128)
        ensures { result ≡ cost bound.now key.now };

    /// The penalty of the bound of which these are the bytes. A class may replace it by one that reads no key.
    fn penalty_in(bytes: &[u8], key: &Self::Key) -> (u128, u128)
        requires { length bytes.now ≡ KEY }
        ensures { (bound : Self.Key) → is_key bound → bytes.now ≡ spelling bound → result ≡ cost bound key.now }
    {
        match Self::decode(bytes) {
            Some(bound) => Self::penalty(&bound, key),
            None => (0, 0),
        }
    }

    /// PickSplit: splits 2 to 101 keys, with at least `least` on each side. In `sides`, which has a place for each key,
    /// `true` means the second group.
    fn pick_split(keys: &[Self::Key], least: usize, sides: &mut [bool])
        requires some { 1 ≤ least }
        requires enough { 2 * least ≤ length keys.now }
        requires few { length keys.now ≤ 101 }
        requires as_many { length sides.old ≡ length keys.now }
        ensures { sides.new ≡ sides_of keys.now least };

    /// Writes the key's bytes over `out`, which has room for just these.
    fn encode(key: Self::Key, out: &mut [u8])
        requires { length out.old ≡ KEY }
        ensures { out.new ≡ spelling key };

    /// The key of which these are the bytes. `None` if they are no key's.
    fn decode(bytes: &[u8]) -> Option<Self::Key>
        ensures only { IfSome result (λ key. is_key key × (bytes.now ≡ spelling key)) }
        ensures back { (key : Self.Key) → is_key key → bytes.now ≡ spelling key → result ≡ Some key };

    /// The start key is a key.
    ghost start_is_key: { is_key start_key };

    /// Each key covers itself.
    ghost covers_itself: { (a : Self.Key) → is_key a → Self.Key.inside a a ≡ true };

    /// What covers a cover covers.
    ghost covers_through: { (a b c : Self.Key) → is_key a → is_key b → is_key c → Self.Key.inside a b ≡ true
        → Self.Key.inside b c ≡ true
        → Self.Key.inside a c ≡ true };

    /// A key that matches may match below every bound that covers it.
    ghost match_is_consistent: { (q : Query Self.Key) (k b : Self.Key) → is_key k → is_key b
        → key_matches (keys_of Self.Key.Shape) q k ≡ true → Self.Key.inside k b ≡ true
        → may_match q b ≡ true };

    /// A union is a key.
    ghost union_is_key: { (a b : Self.Key) → is_key a → is_key b → is_key (joined a b) };

    /// A union covers both.
    ghost union_covers_first: { (a b : Self.Key) → is_key a → is_key b → Self.Key.inside a (joined a b) ≡ true };

    ghost union_covers_second: { (a b : Self.Key) → is_key a → is_key b → Self.Key.inside b (joined a b) ≡ true };

    /// Whatever covers both covers the union.
    ghost union_is_least: { (a b c : Self.Key) → is_key a → is_key b → Self.Key.inside a c ≡ true
        → Self.Key.inside b c ≡ true
        → Self.Key.inside (joined a b) c ≡ true };

    /// A split leaves each side its least number.
    ghost split_leaves_each: { (xs : List Self.Key) (least : ℕ) → 1 ≤ least → 2 * least ≤ length xs → length xs ≤ 101
        → LeavesEach (length xs) least (sides_of xs least) };

    /// A key is short.
    ghost key_is_short: { KEY ≤ MAX_KEY };

    /// Each key has as many bytes.
    ghost spelling_length: { (k : Self.Key) → is_key k → length (spelling k) ≡ KEY };

    /// A key's bytes spell that key.
    ghost reading_back: { (k : Self.Key) → is_key k → reading (spelling k) ≡ Some k };

    /// Bytes spell no key but the one whose bytes they are.
    ghost reading_only: { (bytes : List ℕ) (k : Self.Key) → ((i : ℕ) → slice_index bytes i < 256)
        → reading bytes ≡ Some k
        → is_key k × (bytes ≡ spelling k) };
}

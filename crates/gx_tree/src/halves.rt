//! How a full node's entries are split in two.
ghost use Rattle.std.specs.Prelude.{◌≡◌, ◌≤◌, ◌<◌, ◌++◌, ◌∷◌, [], ◌⊎◌, true, List, length, map, IfSome, IfNone};
ghost use Rattle.gx_node.specs.Reading.{format_of, is_node};
ghost use Rattle.gx_node.specs.declared.items.TheConstants.{MAX_ENTRIES};
ghost use Rattle.gx_node.specs.Trees.{size};
ghost use Rattle.gx_node.specs.Keyed.{rules_of};
ghost use Rattle.gx_tree.specs.Splitting.{AreHalves, HalvesKeys, UnitesAny, Unites, keys_in, least_of, on_side};
ghost use Rattle.gx_node.specs.Store.{node_of};

use gx_class::KeyClass;
use gx_node::{Inner, Leaf, MAX_ENTRIES};
use gx_page::Page;
use std::marker::Model;

/// A split of a node's entries in two: the side of each, and the union of each side's keys.
#[derive(Drop)]
pub(crate) struct Halves<B> {
    sides: [bool; MAX_ENTRIES],
    count: usize,
    left: B,
    right: B,
}

impl<B> Model for Halves<B> {
    ghost use Rattle.std.specs.Prelude.{◌≤◌, take};
    ghost use Rattle.gx_node.specs.declared.items.TheConstants.{MAX_ENTRIES};
    ghost use Rattle.gx_tree.specs.Halved.{Halved};

    ghost Value = { Halved B };

    ghost view = { λ h. record { sides = take h.count h.sides; left = h.left; right = h.right } };

    ghost invariant = { λ h. h.count ≤ MAX_ENTRIES };
}

impl<B: Copy> Halves<B> {
    /// The side of each entry, `true` for those that go.
    pub(crate) fn sides(&self) -> &[bool]
        ensures { result.now ≡ self.now.sides }
    {
        &self.sides[..self.count]
    }

    /// The union of the keys that stay.
    pub(crate) fn left(&self) -> B
        ensures { result ≡ self.now.left }
    {
        self.left
    }

    /// The union of the keys that go.
    pub(crate) fn right(&self) -> B
        ensures { result ≡ self.now.right }
    {
        self.right
    }
}

/// The union of a key and those before it, if there are any.
fn united<K: KeyClass>(union: Option<K::Key>, key: K::Key) -> K::Key
    ensures { (keys : List K.Key) → UnitesAny K.Key.inside union keys → Unites K.Key.inside result (keys ++ key ∷ []) }
{
    K::known(&key);
    let Some(union) = union else {
        return key;
    };
    K::known(&union);
    K::union(union, key)
}

/// The union of a side's keys. `None` if there are none.
fn union_of<K: KeyClass>(keys: &[K::Key], sides: &[bool], side: bool) -> Option<K::Key>
    requires { length sides.now ≡ length keys.now }
    ensures { UnitesAny K.Key.inside result (on_side side sides.now keys.now) }
{
    let mut union = None;
    for slot in 0..keys.len() {
        if sides[slot] == side {
            union = Some(united::<K>(union, keys[slot]));
        }
    }
    union
}

/// Splits a full node's keys by the class's PickSplit. `None` if there are fewer than `most`.
fn halves_of<K: KeyClass>(keys: &[K::Key], most: usize) -> Option<Halves<K::Key>>
    requires most { (4 ≤ most) × (most ≤ MAX_ENTRIES) }
    requires few { length keys.now ≤ MAX_ENTRIES }
    ensures halves { IfSome result (HalvesKeys K.Key.inside (K.sides_of keys.now (least_of most)) keys.now) }
    ensures few { IfSome result (λ h. length h.sides ≤ MAX_ENTRIES) }
    ensures full { IfSome result (λ _. most ≤ length keys.now) }
    ensures none { IfNone result (length keys.now < most) }
{
    let count = keys.len();
    if count < most {
        return None;
    }
    let mut sides = [false; MAX_ENTRIES];
    K::pick_split(keys, (2 * most / 5).max(2), &mut sides[..count]);
    let left = union_of::<K>(keys, &sides[..count], false)?;
    let right = union_of::<K>(keys, &sides[..count], true)?;
    Some(Halves {
        sides,
        count,
        left,
        right,
    })
}

/// Reads the keys of a leaf's pairs.
fn pair_keys<K: KeyClass>(leaf: &Leaf<K>, keys: &mut [K::Key])
    requires { length keys.old ≡ length leaf.now.pairs }
    ensures { keys.new ≡ map (λ x. x.key) leaf.now.pairs }
{
    for slot in 0..leaf.len() {
        keys[slot] = leaf.entry(slot).0.key;
    }
}

/// Reads the keys of an inner node's children.
fn child_keys<K: KeyClass>(inner: &Inner<K>, keys: &mut [K::Key])
    requires { length keys.old ≡ length inner.now.children }
    ensures { keys.new ≡ map (λ c. c.key) inner.now.children }
{
    for slot in 0..inner.len() {
        keys[slot] = inner.child(slot).0;
    }
}

/// Reads the keys of a node's entries.
fn node_keys<K: KeyClass>(page: &Page, room: u32, keys: &mut [K::Key])
    requires node { is_node (format_of K.KeyClass) room page.now ≡ true }
    requires as_many { length keys.old ≡ length page.now.items }
    ensures { keys.new ≡ keys_in (node_of (format_of K.KeyClass) page.now) }
{
    if page.level() == 0 {
        pair_keys(&Leaf::<K>::of(page), keys);
    } else {
        child_keys(&Inner::<K>::of(page, room), keys);
    }
}

/// Splits the entries of a full node by the class's PickSplit (Guttman 1984), where a node has at most `most` entries,
/// with at least two fifths of `most`, and two, on each side. `None` if the node isn't full, or has more than
/// `MAX_ENTRIES`.
///
/// The node's keys overwrite the first of `keys`.
#[tactic(auto, using(crate::proofs::Parted::size_is))]
pub(crate) fn halve<K: KeyClass>(
    page: &Page,
    room: u32,
    most: usize,
    keys: &mut [K::Key],
) -> Option<Halves<K::Key>>
    requires node { is_node (format_of K.KeyClass) room page.now ≡ true }
    requires most { (4 ≤ most) × (most ≤ MAX_ENTRIES) }
    requires space { MAX_ENTRIES ≤ length keys.old }
    ensures halves { IfSome result (λ h. AreHalves (rules_of K.Key.Shape most) K.sides_of
        (node_of (format_of K.KeyClass) page.now) h.sides h.left h.right) }
    ensures few { IfSome result (λ h. length h.sides ≤ MAX_ENTRIES) }
    ensures full { IfSome result (λ _. most ≤ size (node_of (format_of K.KeyClass) page.now)) }
    ensures none { IfNone result ((size (node_of (format_of K.KeyClass) page.now) < most)
        ⊎ (MAX_ENTRIES < size (node_of (format_of K.KeyClass) page.now))) }
{
    let count = page.count();
    if count > MAX_ENTRIES {
        return None;
    }
    let keys = &mut keys[..count];
    node_keys::<K>(page, room, keys);
    halves_of::<K>(keys, most)
}

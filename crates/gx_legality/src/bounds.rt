//! The test of a node by itself, and below its parent's entry.
ghost use Rattle.std.specs.Prelude.{◌≡◌, ◌↔◌, ℕ, true, IsTrue, slice_get, None, Some, OnOk, IfErr, MatchOption};
ghost use Rattle.gx_node.specs.Reading.{format_of, is_node};
ghost use Rattle.gx_node.specs.Seen.{child_seen};
ghost use Rattle.gx_node.specs.Legal.{Bounds};
ghost use Rattle.gx_node.specs.Lists.{Each};
ghost use Rattle.gx_node.specs.Keyed.{rules_of};
ghost use Rattle.gx_node.specs.Store.{node_of};
ghost use Rattle.gx_legality.specs.Nodes.{FitsAlone, FailsAlone, FitsBelow, FailsBelow};

use crate::fault::Rule;
use gx_class::KeyClass;
use gx_geom::Shape;
use gx_node::{Inner, Leaf};
use gx_page::Page;

/// Tests a node by itself, where a node has at most `most` entries and there were so many splits.
pub(crate) fn test_alone<K: KeyClass>(page: &Page, counter: u64, most: u16) -> Result<(), Rule>
    ensures fits { OnOk result (FitsAlone most counter (node_of (format_of K.KeyClass) page.now)) }
    ensures fails { IfErr result (FailsAlone most counter (node_of (format_of K.KeyClass) page.now)) }
{
    if usize::from(most) < page.count() {
        return Err(Rule::TooManyEntries);
    }
    if page.level() != 0 && page.count() == 0 {
        return Err(Rule::NoChild);
    }
    if counter < page.nsn() {
        return Err(Rule::SequenceNumber);
    }
    Ok(())
}

/// A slot's bound and page. `None` for a slot after the last, and on a leaf.
pub(crate) fn child_at<K: KeyClass>(page: &Page, room: u32, slot: usize) -> Option<(K::Key, u32)>
    requires { is_node (format_of K.KeyClass) room page.now ≡ true }
    ensures { MatchOption result (slice_get (node_of (format_of K.KeyClass) page.now).children slot ≡ None)
        (λ child. slice_get (node_of (format_of K.KeyClass) page.now).children slot ≡ Some (child_seen child)) }
{
    if page.level() == 0 {
        return None;
    }
    let inner = Inner::<K>::of(page, room);
    if slot < inner.len() {
        Some(inner.child(slot))
    } else {
        None
    }
}

/// Whether a bound covers each key of a leaf.
fn covers_pairs<K: KeyClass>(bound: &K::Key, leaf: &Leaf<K>) -> bool
    ensures { IsTrue result ↔ Each (λ x. K.Key.inside x.key bound.now ≡ true) leaf.now.pairs }
{
    for slot in 0..leaf.len() {
        if !bound.covers(&leaf.entry(slot).0.key) {
            return false;
        }
    }
    true
}

/// Whether a bound covers each bound of an inner node.
fn covers_children<K: KeyClass>(bound: &K::Key, inner: &Inner<K>) -> bool
    ensures { IsTrue result ↔ Each (λ c. K.Key.inside c.key bound.now ≡ true) inner.now.children }
{
    for slot in 0..inner.len() {
        if !bound.covers(&inner.child(slot).0) {
            return false;
        }
    }
    true
}

/// Whether a bound covers each key of a node.
fn covers_node<K: KeyClass>(bound: &K::Key, page: &Page, room: u32) -> bool
    requires { is_node (format_of K.KeyClass) room page.now ≡ true }
    ensures { (most : ℕ) → IsTrue result ↔ Bounds (rules_of K.Key.Shape most) bound.now
        (node_of (format_of K.KeyClass) page.now) }
{
    if page.level() == 0 {
        covers_pairs(bound, &Leaf::<K>::of(page))
    } else {
        covers_children(bound, &Inner::<K>::of(page, room))
    }
}

/// Tests a node below the entry of a slot, with this bound, of a node of this level.
pub(crate) fn test_below<K: KeyClass>(
    page: &Page,
    room: u32,
    level: u16,
    slot: usize,
    bound: &K::Key,
) -> Result<(), Rule>
    requires { is_node (format_of K.KeyClass) room page.now ≡ true }
    ensures fits { (most : ℕ)
        → OnOk result (FitsBelow (rules_of K.Key.Shape most) level bound.now
        (node_of (format_of K.KeyClass) page.now)) }
    ensures fails { (most : ℕ)
        → IfErr result (FailsBelow (rules_of K.Key.Shape most) level bound.now slot
        (node_of (format_of K.KeyClass) page.now)) }
{
    if u32::from(page.level()) + 1 != u32::from(level) {
        return Err(Rule::ChildLevel(slot));
    }
    if !covers_node::<K>(bound, page, room) {
        return Err(Rule::Bound(slot));
    }
    Ok(())
}

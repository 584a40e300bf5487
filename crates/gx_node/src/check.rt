//! The test of a whole page.
ghost use Rattle.std.specs.Prelude.{◌≡◌, ◌↔◌, IsTrue};
ghost use Rattle.gx_page.specs.Format.{IsWellFormed};
ghost use Rattle.gx_node.specs.Reading.{format_of, is_node, are_pairs, are_children};
ghost use Rattle.gx_node.specs.Entries.{HoldsNode};
ghost use Rattle.gx_node.specs.Trees.{Node};

use crate::entry::{is_child, is_pair};
use gx_class::KeyClass;
use gx_page::Page;

/// Whether each item is a leaf's entry.
#[tactic(auto, using(crate::proofs::Slots::all_are_pairs))]
pub(crate) fn are_pairs<K: KeyClass>(page: &Page) -> bool
    ensures well_formed { IsWellFormed page.now }
    ensures test { result ≡ are_pairs (format_of K.KeyClass) page.now.items }
{
    for slot in 0..page.count() {
        if !is_pair::<K>(page.get(slot)) {
            return false;
        }
    }
    true
}

/// Whether each item is an inner node's entry, where `used` is the greatest page in use.
#[tactic(auto, using(crate::proofs::Slots::all_are_children))]
pub(crate) fn are_children<K: KeyClass>(page: &Page, used: u32) -> bool
    ensures well_formed { IsWellFormed page.now }
    ensures test { result ≡ are_children (format_of K.KeyClass) used page.now.items }
{
    for slot in 0..page.count() {
        if !is_child::<K>(page.get(slot), used) {
            return false;
        }
    }
    true
}

/// Whether the page holds a node of the class, where `used` is the greatest page in use: each item of a leaf is a key,
/// a row and a mark, and each item of a page of another level is a key and a page from 1 to `used`. A page for which
/// this is false is damaged.
pub fn is_node<K: KeyClass>(page: &Page, used: u32) -> bool
    ensures test { result ≡ is_node (format_of K.KeyClass) used page.now }
    ensures exact { IsTrue result ↔ ((node : Node K.Key) × HoldsNode K.is_key K.spelling used page.now node) }
{
    if page.level() == 0 {
        are_pairs::<K>(page)
    } else {
        are_children::<K>(page, used)
    }
}

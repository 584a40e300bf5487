//! Edits of a leaf in place. None takes memory, and each leaves a leaf of the same page number, level,
//! sequence number and rightlink.
ghost use Rattle.std.specs.Prelude.{◌≡◌, ◌<◌, ◌≤◌, ◌∷◌, ◌++◌, [], true, length, Some, slice_get, slice_set};
ghost use Rattle.gx_node.specs.Lists.{staying};
ghost use Rattle.gx_node.specs.Trees.{Pair};
ghost use Rattle.gx_node.specs.Edits.{with_pairs, marked_as};
ghost use Rattle.gx_node.specs.Reading.{format_of, is_leaf, leaf_of};
ghost use Rattle.gx_node.specs.Seen.{pair_seen};
ghost use Rattle.gx_node.specs.declared.items.TheConstants.{MAX_ENTRIES};

use crate::entry::{PAIR_TAIL, write_pair};
use crate::items::{append_item, keep_staying};
use gx_class::{KeyClass, MAX_KEY};
use gx_machine::Entry;
use gx_page::Page;

/// Puts a pair after the last of a leaf that has fewer than 100.
pub fn append<K: KeyClass>(page: &mut Page, entry: Entry<K::Key>, marked: bool)
    requires leaf { is_leaf (format_of K.KeyClass) page.old ≡ true }
    requires room { length (leaf_of (format_of K.KeyClass) page.old).pairs < MAX_ENTRIES }
    ensures leaf { is_leaf (format_of K.KeyClass) page.new ≡ true }
    ensures node { leaf_of (format_of K.KeyClass) page.new ≡ with_pairs (leaf_of (format_of K.KeyClass) page.old)
        ((leaf_of (format_of K.KeyClass) page.old).pairs ++ pair_seen (entry, marked) ∷ []) }
    ensures number { page.new.number ≡ page.old.number }
{
    let size = K::KEY + PAIR_TAIL;
    let mut bytes = [0; MAX_KEY + PAIR_TAIL];
    write_pair::<K>(entry.row, entry.key, marked, &mut bytes[..size]);
    append_item(page, &bytes[..size]);
}

/// Sets or clears the mark of a slot's pair: a pair is deleted by its mark (Kornacker, Mohan, Hellerstein 1997).
pub fn set_mark<K: KeyClass>(page: &mut Page, slot: usize, marked: bool)
    requires leaf { is_leaf (format_of K.KeyClass) page.old ≡ true }
    requires slot { slot < length (leaf_of (format_of K.KeyClass) page.old).pairs }
    ensures leaf { is_leaf (format_of K.KeyClass) page.new ≡ true }
    ensures node { (pair : Pair K.Key) → slice_get (leaf_of (format_of K.KeyClass) page.old).pairs slot ≡ Some pair
        → leaf_of (format_of K.KeyClass) page.new ≡ with_pairs (leaf_of (format_of K.KeyClass) page.old)
        (slice_set (leaf_of (format_of K.KeyClass) page.old).pairs slot (marked_as marked pair)) }
    ensures number { page.new.number ≡ page.old.number }
{
    page.set_byte(slot, K::KEY + 8, u8::from(marked));
}

/// Takes the pairs out whose side is `true`.
/// A split keeps the one side on the leaf's page so, and the other on a copy of it.
pub fn keep<K: KeyClass>(page: &mut Page, sides: &[bool])
    requires leaf { is_leaf (format_of K.KeyClass) page.old ≡ true }
    requires sides { length sides.now ≡ length (leaf_of (format_of K.KeyClass) page.old).pairs }
    ensures leaf { is_leaf (format_of K.KeyClass) page.new ≡ true }
    ensures node { leaf_of (format_of K.KeyClass) page.new ≡ with_pairs (leaf_of (format_of K.KeyClass) page.old)
        (staying sides.now (leaf_of (format_of K.KeyClass) page.old).pairs) }
    ensures number { page.new.number ≡ page.old.number }
{
    keep_staying(page, sides);
}

//! Small changes of a page: what one pair or one bound becomes, by its bytes. Each tests whether the page is one that
//! the change fits, and makes the change where it is. None takes memory, and the page's number, level, sequence number
//! and rightlink stay.
ghost use Rattle.std.specs.Prelude.{◌≡◌, ◌+◌, ◌≤◌, ◌++◌, true, length, drop};
ghost use Rattle.std.specs.Bool.{OnTrue, OnFalse};
ghost use Rattle.std.specs.List.{list_all, position};
ghost use Rattle.gx_page.specs.Edits.{with_items};
ghost use Rattle.gx_node.specs.Reading.{format_of, is_leaf};
ghost use Rattle.gx_node.specs.Small.{is_item_of, slots_in, has_marked, is_bound, are_bounds, sides_with};
ghost use Rattle.gx_node.specs.Small.{mark_fits, mark_made, pair_fits, pair_made, bound_fits, bound_made};
ghost use Rattle.gx_node.specs.Small.{slots_fit, slots_made};
ghost use Rattle.gx_node.specs.declared.items.TheConstants.{MAX_ENTRIES};

use crate::check::are_pairs;
use crate::entry::{CHILD_TAIL, PAIR_TAIL, mark_of, read_key, u64_of, write_pair};
use crate::items::{append_item, keep_staying};
use gx_class::{KeyClass, MAX_KEY};
use gx_page::Page;

/// The most items that a page has.
const MAX_ITEMS: usize = 812;

/// Whether the page is a leaf of the class.
fn is_leaf<K: KeyClass>(page: &Page) -> bool
    ensures { result ≡ is_leaf (format_of K.KeyClass) page.now }
{
    page.level() == 0 && are_pairs::<K>(page)
}

/// Whether a leaf's item is the pair's.
fn is_item_of<K: KeyClass>(item: &[u8], row: u64, key: &[u8]) -> bool
    requires { length item.now ≡ K.KEY + 9 }
    ensures { result ≡ is_item_of (format_of K.KeyClass) row key.now item.now }
{
    let (front, tail) = item.split_at(K::KEY);
    u64_of(tail.split_at(8).0) == row && front == key
}

/// The first slot of a leaf whose item is the pair's.
fn slot_of<K: KeyClass>(page: &Page, row: u64, key: &[u8]) -> Option<usize>
    requires { is_leaf (format_of K.KeyClass) page.now ≡ true }
    ensures { result ≡ position (is_item_of (format_of K.KeyClass) row key.now) page.now.items }
{
    let count = page.count();
    for slot in 0..count {
        if is_item_of::<K>(page.get(slot), row, key) {
            return Some(slot);
        }
    }
    None
}

/// Sets or clears the mark of a leaf's pair, of which the key's bytes are given: of the first, should there be several.
/// Returns false, and leaves the page unchanged, if the page is no leaf of the class or doesn't have the pair.
pub fn mark_pair<K: KeyClass>(page: &mut Page, row: u64, key: &[u8], marked: bool) -> bool
    ensures fits { result ≡ mark_fits (format_of K.KeyClass) row key.now page.old }
    ensures made { OnTrue result (page.new ≡ with_items page.old
        (mark_made (format_of K.KeyClass) row key.now marked page.old.items)) }
    ensures unchanged { OnFalse result (page.new ≡ page.old) }
{
    if !is_leaf::<K>(page) {
        return false;
    }
    let Some(slot) = slot_of::<K>(page, row, key) else {
        return false;
    };
    page.set_byte(slot, K::KEY + 8, u8::from(marked));
    true
}

/// Puts a live pair after the last of a leaf that has fewer than `most` and doesn't have this one. Returns false, and
/// leaves the page unchanged, if the page is no leaf of the class, has `most` pairs or has the pair, live or marked, or
/// if the bytes spell no key of the class.
pub fn add_pair<K: KeyClass>(page: &mut Page, most: usize, row: u64, key: &[u8]) -> bool
    requires { most ≤ MAX_ENTRIES }
    ensures fits { result ≡ pair_fits (format_of K.KeyClass) most row key.now page.old }
    ensures made { OnTrue result (page.new ≡ with_items page.old (pair_made row key.now page.old.items)) }
    ensures unchanged { OnFalse result (page.new ≡ page.old) }
{
    if !is_leaf::<K>(page) || most <= page.count() {
        return false;
    }
    let Some(spelled) = read_key::<K>(key) else {
        return false;
    };
    if slot_of::<K>(page, row, key).is_some() {
        return false;
    }
    let size = K::KEY + PAIR_TAIL;
    let mut bytes = [0; MAX_KEY + PAIR_TAIL];
    write_pair::<K>(row, spelled, false, &mut bytes[..size]);
    append_item(page, &bytes[..size]);
    true
}

/// Whether an item is as long as an inner node's entry and begins with a key.
fn is_bound<K: KeyClass>(item: &[u8]) -> bool
    ensures { result ≡ is_bound (format_of K.KeyClass) item.now }
{
    if item.len() != K::KEY + CHILD_TAIL {
        return false;
    }
    read_key::<K>(item.split_at(K::KEY).0).is_some()
}

/// Whether each item is.
fn are_bounds<K: KeyClass>(page: &Page) -> bool
    ensures { result ≡ are_bounds (format_of K.KeyClass) page.now.items }
{
    for slot in 0..page.count() {
        if !is_bound::<K>(page.get(slot)) {
            return false;
        }
    }
    true
}

/// Writes a key's bytes over `out`, and after them those of an item that follow its own key.
fn write_bound<K: KeyClass>(key: &[u8], item: &[u8], out: &mut [u8])
    requires key { length key.now ≡ K.KEY }
    requires item { length item.now ≡ K.KEY + 4 }
    requires out { length out.old ≡ K.KEY + 4 }
    ensures { out.new ≡ key.now ++ drop K.KEY item.now }
{
    let (front, tail) = out.split_at_mut(K::KEY);
    front.copy_from_slice(key);
    tail.copy_from_slice(item.split_at(K::KEY).1);
}

/// Puts a key's bytes in the place of the key of a slot's bound. The slot names the page that it named. Returns false,
/// and leaves the page unchanged, if the page is of level 0, has an item that is no bound of the class or doesn't have
/// the slot, or if the bytes spell no key of the class. Which pages the bounds name isn't tested.
pub fn set_key<K: KeyClass>(page: &mut Page, slot: usize, key: &[u8]) -> bool
    ensures fits { result ≡ bound_fits (format_of K.KeyClass) slot key.now page.old }
    ensures made { OnTrue result (page.new ≡ with_items page.old
        (bound_made (format_of K.KeyClass) slot key.now page.old.items)) }
    ensures unchanged { OnFalse result (page.new ≡ page.old) }
{
    if page.level() == 0 || !are_bounds::<K>(page) {
        return false;
    }
    if page.count() <= slot || read_key::<K>(key).is_none() {
        return false;
    }
    let size = K::KEY + CHILD_TAIL;
    let mut bytes = [0; MAX_KEY + CHILD_TAIL];
    write_bound::<K>(key, page.get(slot), &mut bytes[..size]);
    page.replace(slot, &bytes[..size]);
    true
}

/// Whether a leaf has each of the slots that the bytes spell, with a marked pair.
fn have_marked<K: KeyClass>(page: &Page, slots: &[u8]) -> bool
    requires { is_leaf (format_of K.KeyClass) page.now ≡ true }
    ensures { result ≡ list_all (has_marked (format_of K.KeyClass) page.now.items) (slots_in slots.now) }
{
    let mut rest = slots;
    while let [high, low, behind @ ..] = rest {
        let slot = usize::from(u16::from_be_bytes([*high, *low]));
        if page.count() <= slot || !mark_of::<K>(page.get(slot)) {
            return false;
        }
        rest = behind;
    }
    true
}

/// Sets the sides of the slots that the bytes spell. A slot that has no side is skipped.
fn set_sides(slots: &[u8], sides: &mut [bool])
    ensures { sides.new ≡ sides_with sides.old (slots_in slots.now) }
{
    let mut rest = slots;
    while let [high, low, behind @ ..] = rest {
        let slot = usize::from(u16::from_be_bytes([*high, *low]));
        if slot < sides.len() {
            sides[slot] = true;
        }
        rest = behind;
    }
}

/// Removes from a page the items of the slots that the bytes spell.
fn take_out(page: &mut Page, slots: &[u8])
    ensures { page.new ≡ with_items page.old (slots_made (slots_in slots.now) page.old.items) }
{
    let mut sides = [false; MAX_ITEMS];
    let count = page.count();
    set_sides(slots, &mut sides[..count]);
    keep_staying(page, &sides[..count]);
}

/// Removes the pairs in some slots from a leaf. The slots are spelled in two bytes each, the greater first, and a last
/// byte alone isn't read. Each is the slot that a pair has before any goes, so their order makes no difference. Returns
/// false, and leaves the page unchanged, if the page is no leaf of the class, doesn't have one of the slots, or has a
/// live pair in one.
pub fn remove_slots<K: KeyClass>(page: &mut Page, slots: &[u8]) -> bool
    ensures fits { result ≡ slots_fit (format_of K.KeyClass) (slots_in slots.now) page.old }
    ensures made { OnTrue result (page.new ≡ with_items page.old (slots_made (slots_in slots.now) page.old.items)) }
    ensures unchanged { OnFalse result (page.new ≡ page.old) }
{
    if !is_leaf::<K>(page) || !have_marked::<K>(page, slots) {
        return false;
    }
    take_out(page, slots);
    true
}

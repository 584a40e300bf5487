//! Nodes written in place: each edit byte for byte, on nodes of 0, 1, 99 and 100 entries, of boxes and of intervals;
//! and damaged pages.
ghost use Rattle.std.specs.Prelude.{◌≡◌, true, length};
ghost use Rattle.gx_node.specs.Reading.{format_of, is_leaf, leaf_of, is_inner, inner_of};

use crate::asserts::{holds, same};
use crate::pages::fresh;
use gx_class::{Box2Class, IntervalClass, KeyClass};
use gx_geom::{Box2, Interval, Refusal};
use gx_machine::Entry;
use gx_node::{Inner, Leaf, MAX_ENTRIES, inner_edits, is_node, leaf_edits};
use gx_page::Page;
use std::process::Abort;

/// A class with a key for each small number, and the bytes that the key is to have.
pub(crate) trait Numbered: KeyClass {
    fn key(rt: &impl Abort, n: u8) -> Self::Key;

    fn bytes(n: u8) -> [u8; 16];
}

impl Numbered for Box2Class {
    fn key(rt: &impl Abort, n: u8) -> Box2 {
        let end = i32::from(n) + 1;
        Box2::new(-1, i32::from(n), end, end)
            .ok()
            .expect(rt, "a box")
    }

    fn bytes(n: u8) -> [u8; 16] {
        let end = n.wrapping_add(1);
        [255, 255, 255, 255, 0, 0, 0, n, 0, 0, 0, end, 0, 0, 0, end]
    }
}

impl Numbered for IntervalClass {
    fn key(rt: &impl Abort, n: u8) -> Interval {
        Interval::new(-1, i64::from(n))
            .ok()
            .expect(rt, "an interval")
    }

    fn bytes(n: u8) -> [u8; 16] {
        [
            255, 255, 255, 255, 255, 255, 255, 255, 0, 0, 0, 0, 0, 0, 0, n,
        ]
    }
}

/// Puts bytes after the last item of a page.
fn write(rt: &impl Abort, page: &mut Page, item: &[u8]) {
    assert!(rt; !item.is_empty() && item.len() <= 4060);
    let last = page.count();
    holds(rt, page.insert(last, item));
}

/// A pair's 25 bytes: the key's 16, the row in eight, and the mark.
fn write_pair(rt: &impl Abort, page: &mut Page, key: [u8; 16], row: u8, mark: u8) {
    let mut item = [0; 25];
    item[..16].copy_from_slice(&key);
    item[23] = row;
    item[24] = mark;
    write(rt, page, &item);
}

/// A child's 20 bytes: the key's 16, and the page in four.
fn write_child(rt: &impl Abort, page: &mut Page, key: [u8; 16], child: u8) {
    let mut item = [0; 20];
    item[..16].copy_from_slice(&key);
    item[19] = child;
    write(rt, page, &item);
}

/// The bytes of a key.
#[derive(Clone, Copy)]
pub(crate) enum Key {
    /// The key of a number.
    Of(u8),
    /// No key: the first corner is greater than the second.
    Reversed,
}

impl Key {
    pub(crate) fn bytes<K: Numbered>(self) -> [u8; 16] {
        match self {
            Key::Of(n) => K::bytes(n),
            Key::Reversed => {
                let mut bytes = K::bytes(1);
                bytes[0] = 1;
                bytes
            }
        }
    }
}

/// An item of a page.
#[derive(Clone, Copy)]
pub(crate) enum Item {
    /// A pair with this row and this mark.
    Pair(Key, u8, u8),
    /// A child on this page.
    Child(Key, u8),
    /// Neither.
    Other(&'static [u8]),
}

/// A page's level, and its items.
pub(crate) type Node = (u16, &'static [Item]);

fn write_item<K: Numbered>(rt: &impl Abort, page: &mut Page, item: Item) {
    match item {
        Item::Pair(key, row, mark) => write_pair(rt, page, key.bytes::<K>(), row, mark),
        Item::Child(key, child) => write_child(rt, page, key.bytes::<K>(), child),
        Item::Other(bytes) => write(rt, page, bytes),
    }
}

/// Page 2 with these items, a sequence number and a rightlink.
pub(crate) fn put_node<K: Numbered>(rt: &impl Abort, page: &mut Page, (level, items): &Node) {
    start(page, *level);
    for item in *items {
        write_item::<K>(rt, page, *item);
    }
}

/// How many pairs a leaf has.
fn pairs<K: KeyClass>(rt: &impl Abort, page: &Page) -> usize
    ensures leaf { is_leaf (format_of K.KeyClass) page.now ≡ true }
    ensures count { result ≡ length (leaf_of (format_of K.KeyClass) page.now).pairs }
{
    match Leaf::<K>::read(page) {
        Ok(leaf) => leaf.len(),
        Err(_) => panic!(rt; "no leaf"),
    }
}

/// How many children an inner node has, if 200 pages are taken.
fn children<K: KeyClass>(rt: &impl Abort, page: &Page) -> usize
    ensures inner { is_inner (format_of K.KeyClass) 200 page.now ≡ true }
    ensures count { result ≡ length (inner_of (format_of K.KeyClass) page.now).children }
{
    match Inner::<K>::read(page, 200) {
        Ok(inner) => inner.len(),
        Err(_) => panic!(rt; "no inner node"),
    }
}

fn put_pair<K: Numbered>(rt: &impl Abort, page: &mut Page, n: u8, row: u8, marked: bool) {
    assert!(rt; pairs::<K>(rt, page) < MAX_ENTRIES);
    let row = u64::from(row);
    let key = K::key(rt, n);
    leaf_edits::append::<K>(page, Entry { row, key }, marked);
}

fn set_mark<K: KeyClass>(rt: &impl Abort, page: &mut Page, slot: usize, marked: bool) {
    assert!(rt; slot < pairs::<K>(rt, page));
    leaf_edits::set_mark::<K>(page, slot, marked);
}

/// Takes the pairs that go out of a leaf, or those that stay.
fn take_pairs_out<K: KeyClass>(rt: &impl Abort, page: &mut Page, going: bool) {
    let count = pairs::<K>(rt, page);
    assert!(rt; count <= 100);
    leaf_edits::keep::<K>(page, &sides(going)[..count]);
}

fn put_child<K: Numbered>(rt: &impl Abort, page: &mut Page, n: u8, child: u8) {
    assert!(rt; children::<K>(rt, page) < MAX_ENTRIES && 1 <= child && child <= 200);
    inner_edits::append::<K>(page, K::key(rt, n), u32::from(child), 200);
}

fn set_bound<K: Numbered>(rt: &impl Abort, page: &mut Page, slot: usize, n: u8) {
    assert!(rt; slot < children::<K>(rt, page));
    inner_edits::set_bound::<K>(page, slot, K::key(rt, n), 200);
}

/// Takes the children that go out of an inner node, or those that stay.
fn take_children_out<K: KeyClass>(rt: &impl Abort, page: &mut Page, going: bool) {
    let count = children::<K>(rt, page);
    assert!(rt; count <= 100);
    inner_edits::keep::<K>(page, &sides(going)[..count], 200);
}

/// How many entries the nodes have that are edited.
static COUNTS: [u8; 4] = [0, 1, 99, 100];

/// Whether an entry goes when its node is split: of five the first two.
fn goes(n: u8) -> bool {
    n % 5 < 2
}

/// For each entry whether it goes, or whether it stays.
fn sides(going: bool) -> [bool; 100] {
    let mut sides = [false; 100];
    for n in 0..100u8 {
        sides[usize::from(n)] = goes(n) == going;
    }
    sides
}

/// The child of an entry.
fn child_of(n: u8) -> u8 {
    200u8.saturating_sub(n)
}

/// The number of the key that an entry's bound becomes.
fn later(n: u8) -> u8 {
    n.saturating_add(100)
}

/// Page 2 with a sequence number and a rightlink.
fn start(page: &mut Page, level: u16) {
    page.reset(level, 2);
    page.set_nsn(0x0102_0304_0506_0708);
    page.set_right(0x0a0b_0c0d);
}

/// Fails unless a page has the image that is wanted. The count says which of the nodes it is.
pub(crate) fn is_alike(rt: &impl Abort, page: &Page, wanted: &Page, count: u8) {
    let is_alike = page.image() == wanted.image();
    same(rt, &(count, is_alike), &(count, true));
}

/// A leaf whose pairs of the numbers 0, 3, 6 and so on are marked.
fn put_pairs<K: Numbered>(rt: &impl Abort, page: &mut Page, count: u8) {
    start(page, 0);
    for n in 0..count {
        put_pair::<K>(rt, page, n, 255 - n, n % 3 == 0);
    }
}

/// From then on those of 1, 4, 7 and so on are.
fn mark_others<K: Numbered>(rt: &impl Abort, page: &mut Page, count: u8) {
    for n in 0..count {
        set_mark::<K>(rt, page, usize::from(n), n % 3 == 1);
    }
}

/// A leaf whose pairs from a number on, each third, are marked.
fn write_pairs<K: Numbered>(rt: &impl Abort, page: &mut Page, count: u8, first: u8) {
    start(page, 0);
    for n in 0..count {
        write_pair(rt, page, K::bytes(n), 255 - n, u8::from(n % 3 == first));
    }
}

fn leaf_is_edited<K: Numbered>(rt: &impl Abort, page: &mut Page, wanted: &mut Page, count: u8) {
    put_pairs::<K>(rt, page, count);
    write_pairs::<K>(rt, wanted, count, 0);
    is_alike(rt, page, wanted, count);
    mark_others::<K>(rt, page, count);
    write_pairs::<K>(rt, wanted, count, 1);
    is_alike(rt, page, wanted, count);
}

/// Splits a leaf of so many pairs.
fn split_leaf<K: Numbered>(rt: &impl Abort, page: &mut Page, other: &mut Page, count: u8) {
    start(page, 0);
    for n in 0..count {
        put_pair::<K>(rt, page, n, n, false);
    }
    other.copy_from(page);
    take_pairs_out::<K>(rt, page, true);
    take_pairs_out::<K>(rt, other, false);
}

/// The entries of a split node that go, or those that stay: a leaf's pairs, or an inner node's children with later
/// bounds.
fn write_side<K: Numbered>(rt: &impl Abort, page: &mut Page, level: u16, count: u8, going: bool) {
    start(page, level);
    for n in 0..count {
        if goes(n) == going && level == 0 {
            write_pair(rt, page, K::bytes(n), n, 0);
        } else if goes(n) == going {
            write_child(rt, page, K::bytes(later(n)), child_of(n));
        }
    }
}

/// Fails unless these two pages hold what stays of a split node of so many entries, and what goes.
fn are_sides<K: Numbered>(
    rt: &impl Abort,
    (page, other): (&Page, &Page),
    wanted: &mut Page,
    level: u16,
    count: u8,
) {
    write_side::<K>(rt, wanted, level, count, false);
    is_alike(rt, page, wanted, count);
    write_side::<K>(rt, wanted, level, count, true);
    is_alike(rt, other, wanted, count);
}

/// Leaves of each number of pairs are made, changed and split.
fn leaves<K: Numbered>(rt: &(impl Abort + AllocGlobal)) {
    let mut page = fresh(rt, 0, 2);
    let mut other = fresh(rt, 5, 7);
    let mut wanted = fresh(rt, 0, 9);
    for count in &COUNTS {
        leaf_is_edited::<K>(rt, &mut page, &mut wanted, *count);
        split_leaf::<K>(rt, &mut page, &mut other, *count);
        are_sides::<K>(rt, (&page, &other), &mut wanted, 0, *count);
    }
}

/// An inner node of so many children, compared with what is written by hand.
fn inner_is_made<K: Numbered>(rt: &impl Abort, page: &mut Page, wanted: &mut Page, count: u8) {
    start(page, 3);
    start(wanted, 3);
    for n in 0..count {
        put_child::<K>(rt, page, n, child_of(n));
        write_child(rt, wanted, K::bytes(n), child_of(n));
    }
    is_alike(rt, page, wanted, count);
}

/// Changes each bound of an inner node of so many children, and splits it.
fn split_inner<K: Numbered>(rt: &impl Abort, page: &mut Page, other: &mut Page, count: u8) {
    for n in 0..count {
        set_bound::<K>(rt, page, usize::from(n), later(n));
    }
    other.copy_from(page);
    take_children_out::<K>(rt, page, true);
    take_children_out::<K>(rt, other, false);
}

/// Inner nodes of each number of children are made, changed and split.
fn inners<K: Numbered>(rt: &(impl Abort + AllocGlobal)) {
    let mut page = fresh(rt, 1, 2);
    let mut other = fresh(rt, 5, 7);
    let mut wanted = fresh(rt, 0, 9);
    for count in &COUNTS {
        inner_is_made::<K>(rt, &mut page, &mut wanted, *count);
        split_inner::<K>(rt, &mut page, &mut other, *count);
        are_sides::<K>(rt, (&page, &other), &mut wanted, 3, *count);
    }
}

#[test]
fn leaves_of_boxes(rt: HostRuntime) {
    leaves::<Box2Class>(&rt);
}

#[test]
fn leaves_of_intervals(rt: HostRuntime) {
    leaves::<IntervalClass>(&rt);
}

#[test]
fn inner_nodes(rt: HostRuntime) {
    inners::<Box2Class>(&rt);
    inners::<IntervalClass>(&rt);
}

/// Fails unless a page is damaged, read as either kind, if 200 pages are taken.
fn damaged<K: KeyClass>(rt: &impl Abort, page: &Page) {
    let leaf = Leaf::<K>::read(page).err();
    let inner = Inner::<K>::read(page, 200).err();
    same(rt, &[leaf, inner], &[Some(Refusal::Damaged); 2]);
    holds(rt, !is_node::<K>(page, 200));
}

/// Pages that are no nodes: a mark, a key or a child that there can't be, an item that is too short, and items of the
/// other kind.
static DAMAGED: [Node; 10] = [
    (
        0,
        &[Item::Pair(Key::Of(0), 0, 0), Item::Pair(Key::Of(1), 1, 2)],
    ),
    (
        0,
        &[Item::Pair(Key::Of(0), 0, 0), Item::Pair(Key::Of(1), 1, 255)],
    ),
    (
        0,
        &[
            Item::Pair(Key::Of(0), 0, 0),
            Item::Pair(Key::Reversed, 1, 0),
        ],
    ),
    (
        1,
        &[Item::Child(Key::Of(0), 200), Item::Child(Key::Of(1), 0)],
    ),
    (
        1,
        &[Item::Child(Key::Of(0), 200), Item::Child(Key::Of(1), 201)],
    ),
    (
        1,
        &[Item::Child(Key::Of(0), 200), Item::Child(Key::Reversed, 1)],
    ),
    (0, &[Item::Other(&[0; 24])]),
    (1, &[Item::Other(&[0; 24])]),
    (1, &[Item::Pair(Key::Of(0), 0, 0)]),
    (0, &[Item::Child(Key::Of(0), 1)]),
];

fn are_damaged<K: Numbered>(rt: &impl Abort, page: &mut Page) {
    for node in &DAMAGED {
        put_node::<K>(rt, page, node);
        damaged::<K>(rt, page);
    }
}

#[test]
fn damaged_nodes(rt: HostRuntime) {
    let mut page = fresh(&rt, 0, 2);
    are_damaged::<Box2Class>(&rt, &mut page);
    are_damaged::<IntervalClass>(&rt, &mut page);
}

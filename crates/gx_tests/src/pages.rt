//! Pages byte for byte: images after each edit, each fault at its boundary, and each call once.

use crate::asserts::{holds, same};
use crate::boxes::make_box;
use crate::reaches::{Reach, ReachClass};
use gx_class::{Box2Class, KeyClass};
use gx_page::{PAGE_SIZE, Page, PageFault};
use std::process::Abort;
use std::thread::{self, Threads};

/// A part of a block: its place, and its bytes.
type Part<'a> = (usize, &'a [u8]);

/// Writes bytes over those of a block from a place on.
fn write(rt: &impl Abort, bytes: &mut [u8; PAGE_SIZE], at: usize, part: &[u8]) {
    assert!(rt; at <= PAGE_SIZE && part.len() <= PAGE_SIZE - at);
    bytes[at..at + part.len()].copy_from_slice(part);
}

/// Zeros with these parts written over them.
fn block(rt: &impl Abort, parts: &[Part]) -> [u8; PAGE_SIZE] {
    let mut bytes = [0u8; PAGE_SIZE];
    for (at, part) in parts {
        write(rt, &mut bytes, *at, part);
    }
    bytes
}

/// An empty page.
pub(crate) fn fresh<R: Abort + AllocGlobal>(rt: &R, level: u16, number: u32) -> Page {
    Page::fresh(rt.alloc(), level, number)
        .ok()
        .expect(rt, "memory for a page")
}

/// The page of an image.
fn page_of<R: Abort + AllocGlobal>(rt: &R, image: &[u8]) -> Page {
    Page::from_image(rt.alloc(), image)
        .ok()
        .expect(rt, "a page's image")
}

/// Fails unless these bytes are the page's image.
fn has_image(rt: &impl Abort, page: &Page, bytes: &[u8]) {
    same(rt, &page.image(), &bytes);
}

/// Fails unless the page's image is zeros with these parts.
fn shows(rt: &impl Abort, page: &Page, parts: &[Part]) {
    has_image(rt, page, &block(rt, parts));
}

/// Fails unless these bytes are the page's heap.
fn has_heap(rt: &impl Abort, page: &Page, bytes: &[u8]) {
    same(rt, &page.heap(), &bytes);
}

/// Fails unless the page has two items, and this one at slot 1.
fn has_second(rt: &impl Abort, page: &Page, item: &[u8]) {
    assert!(rt; page.count() == 2);
    same(rt, &page.get(1), &item);
}

/// Puts the item in. False if the page has no room.
fn try_put(rt: &impl Abort, page: &mut Page, slot: usize, item: &[u8]) -> bool {
    if page.count() < slot || item.is_empty() || 4060 < item.len() {
        panic!(rt; "a slot or an item that no page has")
    }
    page.insert(slot, item)
}

/// Puts the item in; fails if the page has no room.
fn put_item(rt: &impl Abort, page: &mut Page, slot: usize, item: &[u8]) {
    holds(rt, try_put(rt, page, slot, item));
}

fn take_out(rt: &impl Abort, page: &mut Page, slot: usize) {
    assert!(rt; slot < page.count());
    page.remove(slot);
}

fn change_byte(rt: &impl Abort, page: &mut Page, slot: usize, index: usize, byte: u8) {
    assert!(rt; slot < page.count() && index < page.get(slot).len());
    page.set_byte(slot, index, byte);
}

fn change(rt: &impl Abort, page: &mut Page, slot: usize, item: &[u8]) {
    assert!(rt; slot < page.count() && item.len() == page.get(slot).len());
    page.replace(slot, item);
}

/// Fails unless the bytes' check gives this: the page's number, or the fault.
fn check_gives(rt: &impl Abort, bytes: &[u8], given: Result<u32, PageFault>) {
    same(rt, &Page::check(bytes), &given);
}

/// The empty page 2.
static FRESH: [Part<'static>; 2] = [(4, &[0x10]), (23, &[2])];

/// The live entry 7 `0 0 10 10`.
const ENTRY: [u8; 25] = [
    0, 0, 0, 0, 0, 0, 0, 0, 0, 0, 0, 10, 0, 0, 0, 10, 0, 0, 0, 0, 0, 0, 0, 7, 0,
];

/// Page 2 with that entry.
static ENTRY_PAGE: [Part<'static>; 4] = [
    (0, &[0, 0, 0, 1, 0x0f, 0xe7, 0, 0]),
    (20, &[0, 0, 0, 2]),
    (32, &[0x0f, 0xe7, 0, 0x19]),
    (4071, &ENTRY),
];

/// The image of page 2 with that entry, and a byte changed.
fn entry_image(rt: &impl Abort, at: usize, byte: u8) -> [u8; PAGE_SIZE] {
    let mut bytes = block(rt, &ENTRY_PAGE);
    write(rt, &mut bytes, at, &[byte]);
    bytes
}

/// An entry of an inner node that ends in a 2.
const ROOT_ENTRY: [u8; 20] = [0, 0, 0, 0, 0, 0, 0, 0, 0, 0, 0, 0, 0, 0, 0, 0, 0, 0, 0, 2];

/// Page 1, of level 1, with that entry.
static ROOT: [Part<'static>; 4] = [
    (0, &[0, 1, 0, 1, 0x0f, 0xec]),
    (23, &[1]),
    (32, &[0x0f, 0xec, 0, 0x14]),
    (4095, &[2]),
];

#[test]
fn fresh_pages_and_a_first_item(rt: HostRuntime) {
    let mut leaf = fresh(&rt, 0, 2);
    shows(&rt, &leaf, &FRESH);
    put_item(&rt, &mut leaf, 0, &ENTRY);
    shows(&rt, &leaf, &ENTRY_PAGE);
    let mut root = fresh(&rt, 1, 1);
    put_item(&rt, &mut root, 0, &ROOT_ENTRY);
    shows(&rt, &root, &ROOT);
    root.reset(0, 2);
    shows(&rt, &root, &FRESH);
}

/// What page 2 shows of its items: their count and the heap's start, the directory, and the heap.
type Items = (&'static [u8], &'static [u8], Part<'static>);

/// The item `abc`, then `de` after it, then `f` between the two, and then these without `abc`.
static ONE: Items = (&[1, 0x0f, 0xfd], &[0x0f, 0xfd, 0, 3], (4093, b"abc"));

static TWO: Items = (
    &[2, 0x0f, 0xfb],
    &[0x0f, 0xfd, 0, 3, 0x0f, 0xfb, 0, 2],
    (4091, b"deabc"),
);

static THREE: Items = (
    &[3, 0x0f, 0xfa],
    &[0x0f, 0xfd, 0, 3, 0x0f, 0xfc, 0, 1, 0x0f, 0xfa, 0, 2],
    (4090, b"defabc"),
);

static LEFT: Items = (
    &[2, 0x0f, 0xfd],
    &[0x0f, 0xff, 0, 1, 0x0f, 0xfd, 0, 2],
    (4093, b"def"),
);

fn shows_items(rt: &impl Abort, page: &Page, (counts, directory, heap): &Items) {
    shows(rt, page, &[(3, counts), (23, &[2]), (32, directory), *heap]);
}

#[test]
fn three_inserts_and_a_removal(rt: HostRuntime) {
    let mut page = fresh(&rt, 0, 2);
    put_item(&rt, &mut page, 0, b"abc");
    shows_items(&rt, &page, &ONE);
    put_item(&rt, &mut page, 1, b"de");
    shows_items(&rt, &page, &TWO);
    put_item(&rt, &mut page, 1, b"f");
    shows_items(&rt, &page, &THREE);
    has_heap(&rt, &page, b"defabc");
    take_out(&rt, &mut page, 0);
    shows_items(&rt, &page, &LEFT);
}

/// The longest item that a page takes.
const LONGEST: [u8; 4060] = [7; 4060];

/// Page 3 with that item.
static FULL: [Part<'static>; 5] = [
    (3, &[1, 0, 0x24]),
    (23, &[3]),
    (33, &[0x24]),
    (34, &[0x0f, 0xdc]),
    (36, &LONGEST),
];

#[test]
fn the_longest_item_fills_a_page(rt: HostRuntime) {
    let mut page = fresh(&rt, 0, 3);
    put_item(&rt, &mut page, 0, &LONGEST);
    shows(&rt, &page, &FULL);
    holds(&rt, !try_put(&rt, &mut page, 1, &[9]));
    shows(&rt, &page, &FULL);
}

/// A byte of the entry's page and its new value, and what the check gives.
static CHECKS: [(usize, u8, Result<u32, PageFault>); 13] = [
    (6, 1, Err(PageFault::Reserved)),
    (7, 1, Err(PageFault::Reserved)),
    (24, 1, Err(PageFault::Reserved)),
    (31, 1, Err(PageFault::Reserved)),
    // the slot's length, none, its place, the heap's start, and a directory past the end
    (35, 0x18, Err(PageFault::Directory)),
    (35, 0, Err(PageFault::Directory)),
    (33, 0xe8, Err(PageFault::Directory)),
    (5, 0xe6, Err(PageFault::Directory)),
    (2, 0x10, Err(PageFault::Directory)),
    (3, 2, Err(PageFault::Directory)),
    (36, 1, Err(PageFault::Free)),
    (4070, 1, Err(PageFault::Free)),
    (4071, 1, Ok(2)),
];

#[test]
fn each_fault_at_its_boundary(rt: HostRuntime) {
    for (at, byte, given) in &CHECKS {
        check_gives(&rt, &entry_image(&rt, *at, *byte), *given);
    }
    check_gives(&rt, &[0; PAGE_SIZE - 1], Err(PageFault::Size));
    check_gives(&rt, &[0; PAGE_SIZE + 1], Err(PageFault::Size));
}

/// What is written over an empty page, one after the other, and the fault that comes first then.
static FAULTS: [(usize, &[u8], PageFault); 3] = [
    (40, &[1], PageFault::Free),
    (4, &[0x0f, 0xff], PageFault::Directory),
    (6, &[1], PageFault::Reserved),
];

#[test]
fn one_fault_comes_before_another(rt: HostRuntime) {
    let mut bytes = block(&rt, &FRESH);
    check_gives(&rt, &bytes, Ok(2));
    for (at, part, fault) in &FAULTS {
        write(&rt, &mut bytes, *at, part);
        check_gives(&rt, &bytes, Err(*fault));
    }
}

/// Fails unless a load of the bytes gives this.
fn load_gives(rt: &impl Abort, page: &mut Page, bytes: &[u8], given: Result<(), PageFault>) {
    same(rt, &page.load(bytes), &given);
}

/// Fails unless the page has this number and so many items.
fn counts(rt: &impl Abort, page: &Page, number: u32, count: usize) {
    same(rt, &page.number(), &number);
    same(rt, &page.count(), &count);
}

#[test]
fn images_given_and_taken(rt: HostRuntime) {
    let bytes = entry_image(&rt, 0, 0);
    let page = page_of(&rt, &bytes);
    has_image(&rt, &page, &bytes);
    let mut other = fresh(&rt, 0, 9);
    let changed = entry_image(&rt, 36, 1);
    load_gives(&rt, &mut other, &changed, Err(PageFault::Free));
    counts(&rt, &other, 9, 0);
    load_gives(&rt, &mut other, &bytes, Ok(()));
    counts(&rt, &other, 2, 1);
    other.reset(5, 6);
    other.copy_from(&page);
    has_image(&rt, &other, &bytes);
}

/// The bytes of the last three fields of a head that counts up from 1.
const LAST: [u8; 16] = [3, 4, 5, 6, 7, 8, 9, 10, 11, 12, 13, 14, 15, 16, 17, 18];

/// Fails unless the bytes of the page's level, and of its last three fields, count up from 1.
fn counts_up(rt: &impl Abort, page: &Page) {
    let image = page.image();
    same(rt, &&image[..2], &[1, 2].as_slice());
    same(rt, &&image[8..24], &LAST.as_slice());
}

/// A page's level, sequence number, right neighbour and number.
fn fields(page: &Page) -> (u16, u64, u32, u32) {
    (page.level(), page.nsn(), page.right(), page.number())
}

#[test]
fn each_call_once(rt: HostRuntime) {
    let mut page = fresh(&rt, 0, 3);
    put_item(&rt, &mut page, 0, b"mountain");
    put_item(&rt, &mut page, 0, b"sea");
    has_second(&rt, &page, b"mountain");
    change_byte(&rt, &mut page, 1, 0, b'f');
    has_second(&rt, &page, b"fountain");
    change(&rt, &mut page, 1, b"curtains");
    has_second(&rt, &page, b"curtains");
    page.set_level(0x0102);
    page.set_nsn(0x0304_0506_0708_090a);
    page.set_right(0x0b0c_0d0e);
    page.set_number(0x0f10_1112);
    counts_up(&rt, &page);
    let set = (0x0102, 0x0304_0506_0708_090a, 0x0b0c_0d0e, 0x0f10_1112);
    same(&rt, &fields(&page), &set);
}

/// The key with which an item begins.
fn key_of<K: KeyClass>(item: &[u8]) -> Option<K::Key> {
    match item.get(..K::KEY) {
        Some(bytes) => K::decode(bytes),
        None => None,
    }
}

/// Moves a page's only item after the only one of another.
fn move_the_only_item(rt: &impl Abort, from: &mut Page, to: &mut Page) {
    assert!(rt; from.count() == 1);
    put_item(rt, to, 1, from.get(0));
    from.remove(0);
    same(rt, &[from.count(), to.count()], &[0, 2]);
}

#[test]
fn an_item_moves_and_a_page_is_read_again(rt: HostRuntime) {
    let mut page = page_of(&rt, &entry_image(&rt, 0, 0));
    let mut other = fresh(&rt, 0, 9);
    put_item(&rt, &mut other, 0, &ENTRY);
    move_the_only_item(&rt, &mut page, &mut other);
    load_gives(&rt, &mut page, &[], Err(PageFault::Size));
    load_gives(&rt, &mut page, other.image(), Ok(()));
    has_image(&rt, &page, other.image());
}

#[test]
fn an_item_begins_with_a_key_of_its_class(rt: HostRuntime) {
    let key = make_box(&rt, (0, 0, 10, 10));
    same(&rt, &key_of::<Box2Class>(&ENTRY), &Some(key));
    same(&rt, &key_of::<ReachClass>(&ENTRY), &Some(Reach(0)));
}

#[test]
fn a_page_goes_to_another_thread(rt: HostRuntime) {
    let page = fresh(&rt, 4, 5);
    let (number, level) = thread::join(&rt, move || page.number(), || 4u8);
    same(&rt, &(number, level), &(5, 4));
}

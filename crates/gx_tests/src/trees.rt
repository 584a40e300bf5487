//! Seeks and descents, a page a step, at a tree that was built by hand. Looks are run by `gx_engine_runs`.

use crate::asserts::{got, holds, same};
use crate::boxes::{Rectangle, make_box};
use crate::pages::fresh;
use gx_class::{Box2Class, KeyClass};
use gx_geom::{Box2, Refusal};
use gx_machine::Entry;
use gx_memory_tree::MemoryPages;
use gx_page::Page;
use gx_tree::{
    Pages, Sought, StepFault, TraversalItem, Wanted, Way, descend_step, seek_step, way_step,
};
use std::convert::Infallible;
use std::process::Abort;

/// A tree of boxes in memory.
type Tree = MemoryPages<Box2Class>;

/// The head of a tree's page: level, sequence number, rightlink.
type Header = (u16, u64, u32);

/// A page of a tree, and each box of it with a leaf's row or an inner node's child.
type Node = (Header, &'static [(u32, Rectangle)]);

/// A live row's bytes.
fn pair_item(row: u64, key: Box2) -> [u8; 25] {
    let mut item = [0; 25];
    Box2Class::encode(key, &mut item[..16]);
    item[16..24].copy_from_slice(&row.to_be_bytes());
    item
}

/// A child's bytes.
fn child_item(child: u32, key: Box2) -> [u8; 20] {
    let mut item = [0; 20];
    Box2Class::encode(key, &mut item[..16]);
    item[16..].copy_from_slice(&child.to_be_bytes());
    item
}

fn put_item(rt: &impl Abort, page: &mut Page, item: &[u8]) {
    assert!(rt; !item.is_empty() && item.len() <= 4060);
    let slot = page.count();
    holds(rt, page.insert(slot, item));
}

fn put_entry(rt: &impl Abort, page: &mut Page, number: u32, corners: Rectangle) {
    let key = make_box(rt, corners);
    if page.level() == 0 {
        put_item(rt, page, &pair_item(u64::from(number), key));
    } else {
        put_item(rt, page, &child_item(number, key));
    }
}

/// A page of a tree.
fn page_of<R: Abort + AllocGlobal>(rt: &R, number: u32, node: &Node) -> Page {
    let ((level, nsn, right), entries) = node;
    let mut page = fresh(rt, *level, number);
    page.set_nsn(*nsn);
    page.set_right(*right);
    for (number, corners) in *entries {
        put_entry(rt, &mut page, *number, *corners);
    }
    page
}

fn add(rt: &impl Abort, pages: &mut Vec<Page>, page: Page) {
    holds(rt, pages.push(page).is_ok());
}

/// The pages of a tree, page 1 first.
fn pages_of<R: Abort + AllocGlobal>(rt: &R, nodes: &[Node]) -> Vec<Page> {
    let mut pages = Vec::new(rt.alloc());
    let mut number = 1_u32;
    for node in nodes {
        add(rt, &mut pages, page_of(rt, number, node));
        number = number.wrapping_add(1);
    }
    pages
}

/// Pages that can be taken, whatever they hold.
fn spare<R: Abort + AllocGlobal>(rt: &R, count: usize) -> Vec<Page> {
    let mut pages = Vec::new(rt.alloc());
    for _ in 0..count {
        add(rt, &mut pages, fresh(rt, 9, 9));
    }
    pages
}

#[test]
fn a_page_of_another_number_is_no_tree(rt: HostRuntime) {
    let mut pages = Vec::new(rt.alloc());
    add(&rt, &mut pages, fresh(&rt, 0, 2));
    let tree = Tree::new(pages, Vec::new(rt.alloc()), 0);
    same(&rt, &tree.err(), &Some(Refusal::Damaged));
}

/// Seven rows in three leaves: page 2 was split twice.
static SPLIT_TWICE: [Node; 4] = [
    (
        (1, 0, 0),
        &[
            (2, (100, 2, 101, 5)),
            (3, (0, 0, 101, 1)),
            (4, (100, 6, 101, 11)),
        ],
    ),
    ((0, 2, 4), &[(1, (100, 4, 101, 5)), (3, (100, 2, 101, 3))]),
    ((0, 0, 0), &[(2, (0, 0, 1, 1)), (4, (100, 0, 101, 1))]),
    (
        (0, 1, 3),
        &[
            (5, (100, 6, 101, 7)),
            (6, (100, 8, 101, 9)),
            (7, (100, 10, 101, 11)),
        ],
    ),
];

/// The tree of these, with two splits made, and 12 pages that can be taken.
fn split_twice<R: Abort + AllocGlobal>(rt: &R) -> Tree {
    got(rt, Tree::new(pages_of(rt, &SPLIT_TWICE), spare(rt, 12), 2))
}

/// A page, and what a seek's step says there of the row 2.
static SEEKS: [(u32, Result<Sought, StepFault<Infallible>>); 5] = [
    (2, Ok(Sought::Right(4))),
    (4, Ok(Sought::Right(3))),
    (3, Ok(Sought::Here(0, false))),
    (1, Err(StepFault::Damaged)),
    (5, Err(StepFault::Damaged)),
];

fn seeks_go_right(rt: &impl Abort, pages: &mut Tree, wanted: &Wanted<Box2Class>) {
    for (page, said) in &SEEKS {
        same(
            rt,
            &(*page, seek_step(pages, wanted, *page)),
            &(*page, *said),
        );
    }
}

// A pair is sought from the leaf in which it was, and is found two leaves to the right.
#[test]
fn a_seek_goes_right(rt: HostRuntime) {
    let key = make_box(&rt, (0, 0, 1, 1));
    let wanted = Wanted::entry(&Entry { row: 2, key });
    seeks_go_right(&rt, &mut split_twice(&rt), &wanted);
}

const NEAR: Rectangle = (100, 3, 101, 4);

const FAR: Rectangle = (100, 9, 102, 12);

/// What page 4's bound becomes by that box.
const WIDER: Rectangle = (100, 6, 102, 12);

/// The page and the number of an item, a box that comes, how many entries a node may have, and what a step of a descent
/// says: a word, with the slot, the page and the bound.
type Said = (
    (u32, u64),
    Rectangle,
    usize,
    (&'static str, usize, u32, Option<Rectangle>),
);

static WAYS: [Said; 6] = [
    ((1, 2), NEAR, 4, ("down", 0, 2, None)),
    ((1, 2), FAR, 4, ("widen", 2, 4, Some(WIDER))),
    ((1, 2), NEAR, 3, ("full inner", 0, 0, None)),
    ((2, 1), NEAR, 4, ("again", 0, 0, None)),
    ((2, 2), NEAR, 4, ("add", 0, 0, None)),
    ((4, 2), NEAR, 3, ("full leaf", 0, 0, None)),
];

fn way(
    pages: &mut Tree,
    item: &TraversalItem,
    coming: &Box2,
    most: usize,
) -> (&'static str, usize, u32, Option<Box2>) {
    match way_step(pages, item, coming, most) {
        Ok(Way::Down(slot, page)) => ("down", slot, page, None),
        Ok(Way::Widen(slot, page, bound)) => ("widen", slot, page, Some(bound)),
        Ok(Way::FullInner) => ("full inner", 0, 0, None),
        Ok(Way::Again) => ("again", 0, 0, None),
        Ok(Way::Add) => ("add", 0, 0, None),
        Ok(Way::FullLeaf) => ("full leaf", 0, 0, None),
        Err(_) => ("fault", 0, 0, None),
    }
}

/// Fails unless a descent's step says this.
fn says(rt: &impl Abort, pages: &mut Tree, said: &Said) {
    let ((page, seen), coming, most, (word, slot, child, bound)) = *said;
    let item = TraversalItem::new(page, seen);
    let bound = match bound {
        Some(corners) => Some(make_box(rt, corners)),
        None => None,
    };
    let found = way(pages, &item, &make_box(rt, coming), most);
    same(rt, &found, &(word, slot, child, bound));
}

// A descent goes to the child of least enlargement, begins again if a page was split since, and says what is full.
#[test]
fn a_descent_goes_down(rt: HostRuntime) {
    let mut pages = split_twice(&rt);
    for said in &WAYS {
        says(&rt, &mut pages, said);
    }
}

/// A step of a descent: the page and the number of the item to which it goes down.
fn goes_down(
    pages: &mut Tree,
    item: &TraversalItem,
    coming: &Box2,
    most: usize,
) -> Result<Option<(u32, u64)>, StepFault<Infallible>> {
    match descend_step(pages, item, coming, most)?.next() {
        Some(next) => Ok(Some((next.page(), next.seen()))),
        None => Ok(None),
    }
}

/// The page and the number of an item, how many entries a node may have, and to which item a descent goes down.
type Step = (
    (u32, u64),
    usize,
    Result<Option<(u32, u64)>, StepFault<Infallible>>,
);

/// The bound is widened by the first of these, and stays so; a leaf, a root without room, a page that was split since,
/// and one that isn't there stop the others.
static STEPS: [Step; 6] = [
    ((1, 1), 4, Ok(Some((4, 2)))),
    ((1, 1), 4, Ok(Some((4, 2)))),
    ((4, 2), 4, Ok(None)),
    ((1, 1), 3, Ok(None)),
    ((2, 1), 4, Ok(None)),
    ((5, 2), 4, Err(StepFault::Damaged)),
];

/// Fails unless the root's third child is this one, and two splits were made.
fn has_third(rt: &impl Abort, pages: &Tree, child: &[u8]) {
    assert!(rt; pages.used() >= 1);
    let root = pages.page(1);
    assert!(rt; root.count() > 2);
    same(rt, &root.get(2), &child);
    same(rt, &pages.counter(), &2);
}

/// Fails unless a descent for the coming key goes down so, and the root's third child is this one then.
fn goes(
    rt: &impl Abort,
    pages: &mut Tree,
    coming: &Box2,
    (item, most, wanted): &Step,
    third: &[u8],
) {
    let item = TraversalItem::new(item.0, item.1);
    same(rt, &goes_down(pages, &item, coming, *most), wanted);
    has_third(rt, pages, third);
}

// A step of a descent widens the bound by which it goes down, once, and remembers the child with the counter of now.
#[test]
fn a_descent_widens_a_bound(rt: HostRuntime) {
    let far = make_box(&rt, FAR);
    let widened = child_item(4, make_box(&rt, WIDER));
    let mut pages = split_twice(&rt);
    for step in &STEPS {
        goes(&rt, &mut pages, &far, step, &widened);
    }
}

//! Boxes, and pages that have them as keys.
ghost use Rattle.std.specs.Prelude.{◌≡◌, ◌<◌, ◌≤◌, ◌+◌, ◌-◌, length};

use gx_class::{Box2Class, KeyClass};
use gx_geom::Box2;
use gx_page::Page;
use std::alloc::Global;

/// The corners' numbers: both ends of an `i32` and their neighbours, and those round zero.
const NUMBERS: [i32; 7] = [i32::MIN, i32::MIN + 1, -1, 0, 1, i32::MAX - 1, i32::MAX];

/// How many pairs of those numbers are in order.
const SIDES: usize = 28;

/// How many boxes have these as their sides.
pub(crate) const BOXES: usize = SIDES * SIDES;

/// Every box with such corners.
#[derive(Drop)]
pub(crate) struct Boxes {
    sides: [(i32, i32); SIDES],
}

/// The sides that begin at a number, from a place on.
fn write_sides(sides: &mut [(i32, i32)], at: usize, from: usize)
    requires from { from < 7 }
    requires room { at + (7 - from) ≤ length sides.old }
    ensures { length sides.new ≡ length sides.old }
{
    for to in from..NUMBERS.len() {
        sides[at + (to - from)] = (NUMBERS[from], NUMBERS[to]);
    }
}

impl Boxes {
    pub(crate) fn new() -> Boxes {
        let mut sides = [(0, 0); SIDES];
        write_sides(&mut sides, 0, 0);
        write_sides(&mut sides, 7, 1);
        write_sides(&mut sides, 13, 2);
        write_sides(&mut sides, 18, 3);
        write_sides(&mut sides, 22, 4);
        write_sides(&mut sides, 25, 5);
        write_sides(&mut sides, 27, 6);
        Boxes { sides }
    }

    /// A box; the numbers go round.
    pub(crate) fn get(&self, n: usize) -> Box2 {
        let (x1, x2) = self.sides[n / SIDES % SIDES];
        let (y1, y2) = self.sides[n % SIDES];
        Box2::new(x1, y1, x2, y2).unwrap_or(Box2::point(0, 0))
    }
}

/// Puts an item after the last. `None` if the page has no room.
fn push(page: &mut Page, item: &[u8]) -> Option<()>
    requires { (1 ≤ length item.now) × (length item.now ≤ 4060) }
{
    let last = page.count();
    if page.insert(last, item) {
        Some(())
    } else {
        None
    }
}

/// The bytes of a live or a marked pair.
fn pair(key: Box2, row: usize) -> [u8; 25] {
    let mut item = [0; 25];
    Box2Class::encode(key, &mut item[..16]);
    item[23] = (row % 256) as u8;
    item[24] = (row % 3 % 2) as u8;
    item
}

/// The bytes of a child on page 1.
fn child(bound: Box2) -> [u8; 20] {
    let mut item = [0; 20];
    Box2Class::encode(bound, &mut item[..16]);
    item[19] = 1;
    item
}

/// A leaf and an inner node with the same boxes.
#[derive(Drop)]
pub(crate) struct Pages {
    pub(crate) leaf: Page,
    pub(crate) inner: Page,
}

impl Pages {
    /// So many of the boxes, from a number on; each third pair of the leaf is marked.
    pub(crate) fn new(alloc: Global, boxes: &Boxes, first: usize, count: usize) -> Option<Pages> {
        let leaf = Page::fresh(alloc, 0, 2).ok()?;
        let inner = Page::fresh(alloc, 1, 3).ok()?;
        let mut pages = Pages { leaf, inner };
        for k in 0..count {
            let n = first.wrapping_add(k);
            pages.push_box(boxes.get(n), n)?;
        }
        Some(pages)
    }

    /// Puts a box after the last. `None` if there is no room.
    fn push_box(&mut self, key: Box2, row: usize) -> Option<()> {
        push(&mut self.leaf, &pair(key, row))?;
        push(&mut self.inner, &child(key))
    }
}

//! Boxes and refusals: printed texts, the greatest box, and each call once.
use crate::asserts::{got, holds, same};
use gx_geom::{Box2, Refusal, Shape};
use std::process::Abort;

/// A box by its corners: x1, y1, x2, y2.
pub type Rectangle = (i32, i32, i32, i32);

/// The box of these corners; fails if they are reversed.
pub fn make_box(rt: &impl Abort, (x1, y1, x2, y2): Rectangle) -> Box2 {
    Box2::new(x1, y1, x2, y2).ok().expect(rt, "a box")
}

static REFUSALS: [(Refusal, u8, &str); 22] = [
    (Refusal::NoTransaction, 1, "no transaction"),
    (Refusal::InTransaction, 2, "in transaction"),
    (Refusal::Present, 3, "present"),
    (Refusal::Absent, 4, "absent"),
    (Refusal::Busy(8), 5, "busy 8"),
    (Refusal::Busy(255), 5, "busy 255"),
    (Refusal::BadBox, 6, "bad box"),
    (Refusal::PagesFull, 7, "pages full"),
    (Refusal::ClaimsFull, 8, "claims full"),
    (Refusal::PredicatesFull, 9, "predicates full"),
    (Refusal::Memory, 10, "memory"),
    (Refusal::Device, 11, "device"),
    (Refusal::Failed, 12, "failed"),
    (Refusal::Damaged, 13, "damaged"),
    (Refusal::NotFormatted, 14, "not formatted"),
    (Refusal::BadSession, 15, "bad session"),
    (Refusal::CallOpen, 16, "call open"),
    (Refusal::TooSmall, 17, "too small"),
    (Refusal::BadParameter, 18, "bad parameter"),
    (Refusal::NoCall, 19, "no call"),
    (Refusal::HistoryFull, 20, "history full"),
    (Refusal::OldVersion, 21, "old version"),
];

fn is_written(rt: &impl Abort, refusal: &Refusal, number: u8, text: &str) {
    let written = refusal.text();
    same(rt, &refusal.number(), &number);
    same(rt, &written.as_str(), &text);
}

#[test]
fn refusals_have_numbers_and_texts(rt: HostRuntime) {
    for (refusal, number, text) in &REFUSALS {
        is_written(&rt, refusal, *number, text);
    }
}

#[test]
fn the_greatest_box_has_an_area_and_a_text(rt: HostRuntime) {
    let all = make_box(&rt, (i32::MIN, i32::MIN, i32::MAX, i32::MAX));
    same(&rt, &all.area(), &18_446_744_065_119_617_025);
    let text = got(&rt, all.to_string(rt.alloc()));
    let wanted = "-2147483648 -2147483648 2147483647 2147483647";
    same(&rt, &text.as_str(), &wanted);
}

#[test]
fn reversed_corners_are_no_box(rt: HostRuntime) {
    let answers = [Box2::new(1, 0, 0, 0), Box2::new(0, 1, 0, 0)];
    same(&rt, &answers, &[Err(Refusal::BadBox); 2]);
}

// Two boxes, whether they overlap, and whether the first is within the second.
type Pair = (Rectangle, Rectangle, bool, bool);

static PAIRS: [Pair; 5] = [
    ((0, -1, 2, 3), (2, 3, 5, 7), true, false),
    ((0, -1, 2, 3), (3, 3, 3, 3), false, false),
    ((2, 0, 2, 0), (0, -1, 2, 3), true, true),
    ((0, -1, 2, 3), (0, -1, 2, 3), true, true),
    ((0, -1, 2, 3), (1, -1, 2, 3), true, false),
];

// The relations as the trait has them.
fn relations<S: Shape>(a: &S, b: &S) -> (bool, bool, bool) {
    (a.overlaps(b), a.within(b), b.covers(a))
}

fn are_related(rt: &impl Abort, (first, second, overlap, within): &Pair) {
    let a = make_box(rt, *first);
    let b = make_box(rt, *second);
    let wanted = (*overlap, *within, *within);
    same(rt, &(a.overlaps(&b), a.within(&b), b.covers(&a)), &wanted);
    same(rt, &relations(&a, &b), &wanted);
    same(rt, &b.overlaps(&a), overlap);
}

#[test]
fn boxes_overlap_and_cover(rt: HostRuntime) {
    for pair in &PAIRS {
        are_related(&rt, pair);
    }
}

#[test]
fn a_union_and_corners(rt: HostRuntime) {
    let near = make_box(&rt, (0, -1, 2, 3));
    let far = make_box(&rt, (2, 3, 5, 7));
    same(&rt, &near.union(&far), &make_box(&rt, (0, -1, 5, 7)));
    same(
        &rt,
        &[far.x1(), far.y1(), far.x2(), far.y2()],
        &[2, 3, 5, 7],
    );
    holds(&rt, near < far);
    same(&rt, &Box2::point(2, 3), &make_box(&rt, (2, 3, 2, 3)));
}

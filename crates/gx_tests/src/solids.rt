//! Boxes of space, and their class by its rows.
use crate::asserts::{got, holds, same};
use crate::classes::{Queries, check_queries, check_split};
use gx_class::{Box3Class, KeyClass};
use gx_geom::{Box3, Refusal};
use gx_machine::Query;
use std::process::Abort;

/// A box by its corners: x1, y1, z1, x2, y2, z2.
type Corners = [i32; 6];

const UNIT: Corners = [0, 0, 0, 1, 1, 1];

fn try_solid([x1, y1, z1, x2, y2, z2]: Corners) -> Result<Box3, Refusal> {
    Box3::new(x1, y1, z1, x2, y2, z2)
}

/// The box of these corners; fails if they are reversed.
fn make_solid(rt: &impl Abort, corners: Corners) -> Box3 {
    try_solid(corners).ok().expect(rt, "a box of space")
}

#[test]
fn the_greatest_box_has_a_volume_and_a_text(rt: HostRuntime) {
    let (low, high) = (i32::MIN, i32::MAX);
    let all = make_solid(&rt, [low, low, low, high, high, high]);
    same(&rt, &all.volume(), &79_228_162_458_924_105_385_300_197_375);
    let text = got(&rt, all.to_string(rt.alloc()));
    let wanted = "-2147483648 -2147483648 -2147483648 2147483647 2147483647 2147483647";
    same(&rt, &text.as_str(), &wanted);
}

#[test]
fn reversed_corners_are_no_box(rt: HostRuntime) {
    for corners in [[1, 0, 0, 0, 1, 1], [0, 1, 0, 1, 0, 1], [0, 0, 1, 1, 1, 0]] {
        same(&rt, &try_solid(corners), &Err(Refusal::BadBox));
    }
    holds(
        &rt,
        try_solid([3, 4, 5, 3, 4, 5]) == Ok(Box3::point(3, 4, 5)),
    );
}

// Boxes, and whether the unit box overlaps, lies in and covers each.
static RELATIONS: [(Corners, bool, bool, bool); 7] = [
    ([1, 1, 1, 2, 2, 2], true, false, false),
    ([2, 0, 0, 3, 1, 1], false, false, false),
    ([0, 2, 0, 1, 3, 1], false, false, false),
    ([0, 0, 2, 1, 1, 3], false, false, false),
    ([0, 0, 0, 1, 1, 1], true, true, true),
    ([-1, -1, -1, 1, 2, 3], true, true, false),
    ([0, 1, 1, 1, 1, 1], true, false, true),
];

#[test]
fn boxes_of_space_overlap_and_cover(rt: HostRuntime) {
    let unit = make_solid(&rt, UNIT);
    for (corners, overlaps, within, covers) in &RELATIONS {
        let other = make_solid(&rt, *corners);
        let found = (
            unit.overlaps(&other),
            unit.within(&other),
            unit.covers(&other),
        );
        same(&rt, &found, &(*overlaps, *within, *covers));
    }
}

#[test]
fn solids_by_their_bytes(rt: HostRuntime) {
    let mut out = [7; 24];
    Box3Class::encode(make_solid(&rt, [1, -2, 3, 256, 5, 6]), &mut out);
    let written = [
        0, 0, 0, 1, 255, 255, 255, 254, 0, 0, 0, 3, 0, 0, 1, 0, 0, 0, 0, 5, 0, 0, 0, 6,
    ];
    same(&rt, &out, &written);
    holds(
        &rt,
        Box3Class::decode(&out) == Some(make_solid(&rt, [1, -2, 3, 256, 5, 6])),
    );
    holds(&rt, Box3Class::decode(&[0; 23]).is_none());
    // the last corner's z is below the first one's
    out[23] = 2;
    holds(&rt, Box3Class::decode(&out).is_none());
}

#[test]
fn solid_calls(rt: HostRuntime) {
    let (bound, key) = (
        make_solid(&rt, [0, 0, 0, 2, 3, 4]),
        make_solid(&rt, [1, 1, 1, 4, 1, 5]),
    );
    same(&rt, &(Box3Class::CLASS, Box3Class::KEY), &(3, 24));
    holds(&rt, Box3Class::start() == Box3::point(0, 0, 0));
    holds(
        &rt,
        Box3Class::union(bound, key) == make_solid(&rt, [0, 0, 0, 4, 3, 5]),
    );
    same(&rt, &Box3Class::penalty(&bound, &key), &(36, 24));
}

#[test]
fn solid_queries(rt: HostRuntime) {
    let bound = make_solid(&rt, [0, 0, 0, 4, 4, 4]);
    let small = make_solid(&rt, [1, 1, 1, 2, 2, 2]);
    let large = make_solid(&rt, [-1, -1, -1, 9, 9, 9]);
    let above = make_solid(&rt, [0, 0, 5, 4, 4, 6]);
    let queries: Queries<Box3> = [
        (Query::Overlap(small), true, true),
        (Query::Overlap(above), false, false),
        (Query::Within(large), true, true),
        (Query::Within(small), true, false),
        (Query::Equal(bound), true, true),
        (Query::Equal(above), false, false),
        (Query::Covers(small), true, true),
        (Query::Covers(large), false, false),
    ];
    check_queries::<Box3Class>(&rt, &bound, &queries);
}

#[test]
fn solids_are_split(rt: HostRuntime) {
    let high = [
        [100, 4, 0, 101, 5, 1],
        UNIT,
        [100, 2, 0, 101, 3, 1],
        [100, 0, 0, 101, 1, 1],
    ];
    let mut keys = [Box3::point(0, 0, 0); 4];
    for k in 0..4 {
        keys[k] = make_solid(&rt, high[k]);
    }
    check_split::<Box3Class>(&rt, &keys, 2, b"1212");
    check_split::<Box3Class>(&rt, &[make_solid(&rt, UNIT); 4], 2, b"1212");
}

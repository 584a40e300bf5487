//! The class of boxes by its rows, and code that knows only the trait, at two classes.
ghost use Rattle.std.specs.Prelude.{◌≡◌, length};

use crate::asserts::{holds, same};
use crate::boxes::{Rectangle, make_box};
use crate::reaches::{Reach, ReachClass};
use gx_class::{Box2Class, KeyClass};
use gx_geom::Box2;
use gx_machine::Query;
use std::process::Abort;

/// Fails unless the class splits these keys into these groups, written as `1` and `2`.
pub fn check_split<K: KeyClass>(rt: &impl Abort, keys: &[K::Key], least: usize, groups: &[u8]) {
    let n = keys.len();
    assert!(rt; n <= 16 && 1 <= least && least <= n / 2);
    let mut sides = [true; 16];
    K::pick_split(keys, least, &mut sides[..n]);
    are_sides(rt, &sides[..n], groups);
}

/// Fails unless these groups, written as `1` and `2`, are the sides.
fn are_sides(rt: &impl Abort, sides: &[bool], groups: &[u8]) {
    assert!(rt; sides.len() == groups.len());
    for k in 0..sides.len() {
        same(rt, &(k, sides[k]), &(k, groups[k] == b'2'));
    }
}

/// Fails unless `consistent` and `matches` return this for the query at the bound.
fn check_query<K: KeyClass>(
    rt: &impl Abort,
    bound: &K::Key,
    query: &Query<K::Key>,
    answers: (bool, bool),
) {
    same(
        rt,
        &(K::consistent(query, bound), K::matches(query, bound)),
        &answers,
    );
}

/// Queries at a bound, and what `consistent` and `matches` return.
pub type Queries<K> = [(Query<K>, bool, bool); 8];

/// Fails unless each query is answered so at the bound.
pub fn check_queries<K: KeyClass>(rt: &impl Abort, bound: &K::Key, queries: &Queries<K::Key>) {
    for (query, may, does) in queries {
        check_query::<K>(rt, bound, query, (*may, *does));
    }
}

/// Fails unless the key is written in these bytes and read from them alone, and nothing is read from the others.
pub fn check_bytes<K: KeyClass>(
    rt: &impl Abort,
    key: K::Key,
    written: &[u8; 16],
    others: &[&[u8]],
) {
    assert!(rt; K::KEY == 16);
    let mut out = [7; 16];
    K::encode(key, &mut out);
    same(rt, &out, written);
    holds(rt, K::decode(written) == Some(key));
    for bytes in others {
        holds(rt, K::decode(bytes).is_none());
    }
}

/// Fails unless the class has this number and keys of 16 bytes that start with this one, and a bound has that penalty
/// for a key, and this union.
pub fn check_calls<K: KeyClass>(
    rt: &impl Abort,
    (class, start): (u16, K::Key),
    (bound, key): (K::Key, K::Key),
    (penalty, union): ((u128, u128), K::Key),
) {
    same(rt, &(K::CLASS, K::KEY), &(class, 16));
    same(rt, &K::penalty(&bound, &key), &penalty);
    holds(rt, K::start() == start);
    holds(rt, K::union(bound, key) == union);
}

fn check_boxes(rt: &impl Abort, boxes: &[Rectangle], least: usize, groups: &[u8]) {
    let n = boxes.len();
    assert!(rt; n <= 16);
    let mut keys = [Box2::point(0, 0); 16];
    for k in 0..n {
        keys[k] = make_box(rt, boxes[k]);
    }
    check_split::<Box2Class>(rt, &keys[..n], least, groups);
}

#[test]
fn splits(rt: HostRuntime) {
    let unit = (0, 0, 1, 1);
    check_boxes(&rt, &[unit, unit, unit, unit], 2, b"1212");
    check_boxes(
        &rt,
        &[(100, 4, 101, 5), unit, (100, 2, 101, 3), (100, 0, 101, 1)],
        2,
        b"1212",
    );
    check_boxes(
        &rt,
        &[
            unit,
            (0, 2, 1, 3),
            (10, 0, 11, 1),
            (10, 2, 11, 3),
            (0, 4, 1, 5),
        ],
        2,
        b"22112",
    );
    check_boxes(&rt, &[(-5, -5, -5, -5), (7, 7, 7, 7)], 1, b"12");
}

// Each of these turns on one rule: the seeds' tie, the next key's, the smaller area, the fewer keys, the first
// group, and a group that needs all that are left.
#[test]
fn ties(rt: HostRuntime) {
    check_boxes(
        &rt,
        &[(0, 0, 1, 1), (1, -2, 1, -1), (0, 0, 2, 1), (0, -2, 0, -2)],
        1,
        b"2121",
    );
    check_boxes(
        &rt,
        &[(0, 0, 0, 2), (0, 0, 2, 0), (1, 2, 2, 3), (1, 1, 1, 1)],
        1,
        b"1121",
    );
    check_boxes(
        &rt,
        &[
            (-2, 0, -1, 2),
            (-2, -3, 1, -2),
            (-2, 0, -1, 2),
            (2, -1, 4, 2),
        ],
        1,
        b"1112",
    );
    check_boxes(
        &rt,
        &[
            (2, -1, 3, -1),
            (-1, -1, -1, 1),
            (-1, 1, -1, 2),
            (0, -1, 0, 0),
        ],
        1,
        b"1221",
    );
    check_boxes(
        &rt,
        &[(-3, 2, 1, 6), (-2, 4, 1, 7), (-2, 5, -2, 6), (-2, 4, 1, 4)],
        1,
        b"1112",
    );
    check_boxes(
        &rt,
        &[(-5, -5, -4, -5), (2, 2, 3, 4), (-5, 5, 0, 6), (0, 2, 1, 6)],
        2,
        b"1212",
    );
}

#[test]
fn larger_splits(rt: HostRuntime) {
    check_boxes(
        &rt,
        &[
            (-11, -10, -10, -5),
            (-7, 11, 5, 21),
            (-3, -4, 6, -1),
            (7, -11, 16, -1),
            (-7, 1, 3, 7),
            (11, 4, 16, 12),
            (2, 4, 6, 4),
            (-12, -1, -5, 4),
        ],
        3,
        b"11121221",
    );
    check_boxes(
        &rt,
        &[
            (-3, 3, 1, 4),
            (-1, 3, 2, 8),
            (3, -5, 7, -5),
            (1, -2, 5, -1),
            (-3, 5, 0, 9),
            (2, 1, 5, 6),
            (-4, -3, 1, -2),
            (2, 0, 7, 0),
            (4, 6, 4, 7),
        ],
        4,
        b"221122112",
    );
    check_boxes(
        &rt,
        &[
            (i32::MIN, i32::MIN, i32::MAX, i32::MAX),
            (0, 0, 0, 0),
            (i32::MIN, i32::MIN, i32::MIN, i32::MIN),
            (i32::MAX, i32::MAX, i32::MAX, i32::MAX),
            (-5, -5, 5, 5),
            (i32::MIN, 0, 0, i32::MAX),
        ],
        2,
        b"211222",
    );
}

#[test]
fn bytes(rt: HostRuntime) {
    let key = make_box(&rt, (-1, -2147483648, 5, 258));
    let written = [
        0xff, 0xff, 0xff, 0xff, 0x80, 0, 0, 0, 0, 0, 0, 5, 0, 0, 1, 2,
    ];
    let reversed = [0, 0, 0, 1, 0, 0, 0, 0, 0, 0, 0, 0, 0, 0, 0, 0];
    check_bytes::<Box2Class>(&rt, key, &written, &[&written[..15], &[0; 17], &reversed]);
}

#[test]
fn calls(rt: HostRuntime) {
    let bound = make_box(&rt, (0, 0, 10, 10));
    let key = make_box(&rt, (2, 2, 20, 3));
    let both = make_box(&rt, (0, 0, 20, 10));
    let start = Box2::point(0, 0);
    check_calls::<Box2Class>(&rt, (1, start), (bound, key), ((100, 100), both));
}

#[test]
fn queries(rt: HostRuntime) {
    let bound = make_box(&rt, (0, 0, 10, 10));
    let key = make_box(&rt, (2, 2, 20, 3));
    let around = make_box(&rt, (-1, -1, 11, 11));
    let beside = make_box(&rt, (11, 0, 12, 1));
    let queries = [
        (Query::Overlap(key), true, true),
        (Query::Within(key), true, false),
        (Query::Equal(key), false, false),
        (Query::Equal(bound), true, true),
        (Query::Within(around), true, true),
        (Query::Overlap(beside), false, false),
        (Query::Covers(make_box(&rt, (0, 1, 10, 9))), true, true),
        (Query::Covers(around), false, false),
    ];
    check_queries::<Box2Class>(&rt, &bound, &queries);
}

// What code that knows only the trait can do: the union of two keys is written, read again and looked for.
pub fn union_through_bytes<K: KeyClass>(first: K::Key, second: K::Key, out: &mut [u8]) -> bool
    requires { length out.old ≡ K.KEY }
{
    let union = K::union(first, second);
    K::encode(union, out);
    match K::decode(out) {
        Some(read) => {
            K::consistent(&Query::Equal(first), &read) && K::matches(&Query::Within(union), &second)
        }
        None => false,
    }
}

#[test]
fn classes_by_their_bound(rt: HostRuntime) {
    let a = make_box(&rt, (0, 0, 1, 1));
    let b = make_box(&rt, (5, -5, 6, 6));
    holds(&rt, union_through_bytes::<Box2Class>(a, b, &mut [0; 16]));
    let (nine, four) = (Reach(9), Reach(4));
    holds(
        &rt,
        union_through_bytes::<ReachClass>(nine, four, &mut [0; 1]),
    );
    same(&rt, &ReachClass::start(), &Reach(0));
    same(&rt, &ReachClass::penalty(&Reach(3), &Reach(9)), &(6, 3));
    let reaches = [Reach(1), Reach(2), Reach(3), Reach(4), Reach(5)];
    check_split::<ReachClass>(&rt, &reaches, 2, b"11122");
}

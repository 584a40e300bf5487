//! Intervals as keys: the class by its rows, and through its bound.

use crate::asserts::{got, holds, same};
use crate::classes::{check_bytes, check_calls, check_queries, check_split, union_through_bytes};
use gx_class::{IntervalClass, KeyClass};
use gx_geom::{Interval, Refusal};
use gx_machine::Query;
use std::process::Abort;

fn make(rt: &impl Abort, lo: i64, hi: i64) -> Interval {
    Interval::new(lo, hi).ok().expect(rt, "an interval")
}

fn check_intervals(rt: &impl Abort, ends: &[(i64, i64)], least: usize, groups: &[u8]) {
    let n = ends.len();
    assert!(rt; n <= 16);
    let mut keys = [Interval::point(0); 16];
    for k in 0..n {
        let (lo, hi) = ends[k];
        keys[k] = make(rt, lo, hi);
    }
    check_split::<IntervalClass>(rt, &keys[..n], least, groups);
}

#[test]
fn splits(rt: HostRuntime) {
    check_intervals(&rt, &[(5, 9), (0, 3), (0, 1), (7, 7), (2, 2)], 2, b"21121");
    check_intervals(&rt, &[(3, 4), (3, 4), (3, 4), (3, 4)], 2, b"1122");
    check_intervals(&rt, &[(3, 5), (3, 4), (-1, 9), (3, 5)], 1, b"2112");
    check_intervals(&rt, &[(i64::MAX, i64::MAX), (i64::MIN, i64::MAX)], 1, b"21");
}

#[test]
fn bytes(rt: HostRuntime) {
    let key = make(&rt, -2, 258);
    let written = [
        0xff, 0xff, 0xff, 0xff, 0xff, 0xff, 0xff, 0xfe, 0, 0, 0, 0, 0, 0, 1, 2,
    ];
    let reversed = [0, 0, 0, 0, 0, 0, 0, 1, 0, 0, 0, 0, 0, 0, 0, 0];
    check_bytes::<IntervalClass>(&rt, key, &written, &[&written[..15], &[0; 17], &reversed]);
}

#[test]
fn calls(rt: HostRuntime) {
    let bound = make(&rt, 0, 10);
    let key = make(&rt, 10, 20);
    let start = Interval::point(0);
    let both = make(&rt, 0, 20);
    check_calls::<IntervalClass>(&rt, (2, start), (bound, key), ((10, 10), both));
}

#[test]
fn intervals_by_their_bound(rt: HostRuntime) {
    let first = make(&rt, 0, 10);
    let second = make(&rt, 10, 20);
    holds(
        &rt,
        union_through_bytes::<IntervalClass>(first, second, &mut [0; 16]),
    );
}

#[test]
fn reversed_ends_are_no_interval(rt: HostRuntime) {
    same(&rt, &Interval::new(1, 0), &Err(Refusal::BadBox));
}

#[test]
fn queries(rt: HostRuntime) {
    let bound = make(&rt, 0, 10);
    let key = make(&rt, 10, 20);
    let queries = [
        (Query::Overlap(key), true, true),
        (Query::Within(key), true, false),
        (Query::Equal(key), false, false),
        (Query::Equal(bound), true, true),
        (Query::Within(make(&rt, -1, 11)), true, true),
        (Query::Overlap(make(&rt, 11, 12)), false, false),
        (Query::Covers(make(&rt, 1, 10)), true, true),
        (Query::Covers(make(&rt, -1, 11)), false, false),
    ];
    check_queries::<IntervalClass>(&rt, &bound, &queries);
}

#[test]
fn the_longest_interval_has_a_size(rt: HostRuntime) {
    let all = make(&rt, i64::MIN, i64::MAX);
    let (growth, _size) = IntervalClass::penalty(&make(&rt, 10, 20), &all);
    same(&rt, &all.size(), &u64::MAX);
    same(&rt, &growth, &18_446_744_073_709_551_605);
}

#[test]
fn the_longest_interval_has_a_text(rt: HostRuntime) {
    let all = make(&rt, i64::MIN, i64::MAX);
    let text = got(&rt, all.to_string(rt.alloc()));
    let wanted = "-9223372036854775808 9223372036854775807";
    same(&rt, &text.as_str(), &wanted);
}

//! Random calls.
use crate::callers::{Caller, at, entry};
use gx_events::Events;
use gx_geom::Box2;
use gx_machine::{Call, Query};
use gx_shared::{NoBetween, Run, Shared};
use rand_core::utils::NextWord;
use rand_pcg::Pcg32;
use std::process::Abort;
use std::sync::Wait;

/// A small coordinate.
fn near(draw: &mut Pcg32) -> i32 {
    (draw.next_word() % 12) as i32
}

/// A call of any kind; entries and queries are few, so that sessions meet.
fn drawn(draw: &mut Pcg32) -> Call<Box2> {
    let kind = draw.next_word() % 16;
    let row = u64::from(draw.next_word() % 5);
    let (x, y) = (near(draw), near(draw));
    match kind {
        0 | 1 => Call::Begin,
        2..=6 => Call::Insert(entry(row, x, y)),
        7 | 8 => Call::Delete(entry(row, x, y)),
        9 | 10 => Call::Search(Query::Overlap(at(x, y))),
        11 => Call::Search(Query::Within(at(x, y))),
        12 => Call::Search(Query::Equal(at(x, y))),
        13 | 14 => Call::Commit,
        _ => Call::Abort,
    }
}

/// So many random calls, one after another.
pub(crate) fn draws<E: Events<Box2>, R: Run<Box2>, W: Wait + Abort>(
    rt: &W,
    shared: &Shared<Box2, E, R>,
    caller: Caller<R>,
    seed: u64,
    calls: u32,
) -> Caller<R> {
    let mut caller = caller;
    let mut draw = Pcg32::new(seed, 54);
    for _ in 0..calls {
        let call = drawn(&mut draw);
        caller.held(rt, shared, call, &NoBetween);
    }
    caller
}

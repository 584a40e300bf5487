//! The class of intervals of whole numbers.
ghost use Rattle.std.specs.Prelude.{◌≡◌, ◌+◌, ◌<◌, ◌≤◌, ◌/◌, ◌++◌, length, nat_le, IsTrue, ◌↔◌};
ghost use Rattle.gx_geom.specs.Spans.{IsInterval, span_of, span_cmp, hull, size};
ghost use Rattle.gx_class.specs.Halving.{comes_before, place_among};
ghost use Rattle.gx_class.specs.Intervals.{long_bytes, spelling, reading, may_match, cost};

use crate::KeyClass;
use gx_geom::{Interval, Shape};
use gx_machine::Query;

/// Intervals of whole numbers as keys: class 2, written in 16 bytes.
#[derive(Clone, Copy, Debug)]
pub struct IntervalClass;

/// The number of which these are the bytes.
fn number(bytes: &[u8]) -> i64
    requires { length bytes.now ≡ 8 }
    ensures { bytes.now ≡ long_bytes result }
{
    let bytes = [
        bytes[0], bytes[1], bytes[2], bytes[3], bytes[4], bytes[5], bytes[6], bytes[7],
    ];
    u64::from_be_bytes(bytes).cast_signed()
}

/// Whether a key comes before another: by itself, and of two alike the one in the lesser slot.
fn comes_before(slot: usize, key: &Interval, other_slot: usize, other: &Interval) -> bool
    ensures { result ≡ comes_before span_cmp (slot, key.now) (other_slot, other.now) }
{
    key.cmp(other).then(slot.cmp(&other_slot)).is_lt()
}

/// A key's place in the order of all keys: how many come before it.
fn place(keys: &[Interval], slot: usize, key: &Interval) -> usize
    ensures { result ≡ place_among span_cmp keys.now (slot, key.now) }
{
    let mut before = 0;
    for (other_slot, other) in keys.iter().enumerate() {
        if comes_before(other_slot, other, slot, key) {
            before += 1;
        }
    }
    before
}

/// Whether a place is past the first half.
fn is_past(place: usize, first: usize) -> bool
    ensures { result ≡ nat_le first place }
{
    place >= first
}

impl KeyClass for IntervalClass {
    ghost use Rattle.std.specs.Prelude.{pos};
    ghost use Rattle.std.proofs.Common.{arith};
    ghost use Rattle.gx_geom.specs.Spans.{lies_in};
    ghost use Rattle.gx_geom.specs.SpanLaws.{lies_in_itself, lies_in_through, hull_covers_first};
    ghost use Rattle.gx_geom.specs.SpanLaws.{hull_covers_second, hull_is_least, hull_is_interval};
    ghost use Rattle.gx_class.specs.Halving.{halves_by_order};
    ghost use Rattle.gx_class.specs.IntervalKeyLaws.{start_is_interval, match_is_consistent};
    ghost use Rattle.gx_class.specs.IntervalKeyLaws.{halves_leave_each, length-spelling};
    ghost use Rattle.gx_class.specs.IntervalReadings.{reading_back, reading_only};

    type Key = Interval;

    ghost CLASS = { 2 };

    const CLASS: u16 = 2;

    ghost KEY = { 16 };

    const KEY: usize = 16;

    ghost is_key = { IsInterval };

    ghost start_key = { span_of (pos 0) (pos 0) };

    ghost may_match = { may_match };

    ghost joined = { hull };

    ghost cost = { cost };

    ghost sides_of = { λ keys least. halves_by_order span_cmp keys };

    ghost spelling = { spelling };

    ghost reading = { reading };

    fn known(key: &Interval) {
        let _ = key.lo();
    }

    fn start() -> Interval {
        Interval::point(0)
    }

    fn consistent(query: &Query<Interval>, bound: &Interval) -> bool {
        match query {
            Query::Overlap(q) | Query::Within(q) => bound.overlaps(q),
            Query::Equal(q) | Query::Covers(q) => bound.covers(q),
        }
    }

    fn matches(query: &Query<Interval>, key: &Interval) -> bool {
        match query {
            Query::Overlap(q) => key.overlaps(q),
            Query::Within(q) => key.within(q),
            Query::Equal(q) => key == q,
            Query::Covers(q) => key.covers(q),
        }
    }

    fn union(first: Interval, second: Interval) -> Interval {
        first.union(&second)
    }

    fn penalty(bound: &Interval, key: &Interval) -> (u128, u128) {
        let size = u128::from(bound.size());
        (u128::from(bound.union(key).size()) - size, size)
    }

    /// The first half by order, with the odd one, goes to the first group. Each key's place is counted afresh, which
    /// takes `n * n` comparisons of `n` keys, 101 at most.
    fn pick_split(keys: &[Interval], _least: usize, sides: &mut [bool]) {
        let first = (keys.len() + 1) / 2;
        for (slot, key) in keys.iter().enumerate() {
            sides[slot] = is_past(place(keys, slot, key), first);
        }
    }

    fn encode(key: Interval, out: &mut [u8]) {
        let (lo, hi) = out.split_at_mut(8);
        lo.copy_from_slice(&key.lo().to_be_bytes());
        hi.copy_from_slice(&key.hi().to_be_bytes());
    }

    fn decode(bytes: &[u8]) -> Option<Interval> {
        if bytes.len() != Self::KEY {
            return None;
        }
        let (lo, hi) = bytes.split_at(8);
        Interval::new(number(lo), number(hi)).ok()
    }

    ghost start_is_key = { start_is_interval };

    ghost covers_itself = { λ a _. lies_in_itself a };

    ghost covers_through = { λ a b c _ _ _. lies_in_through a b c };

    ghost match_is_consistent = { λ q k b is _. match_is_consistent q k b is };

    ghost union_is_key = { hull_is_interval };

    ghost union_covers_first = { λ a b _ _. hull_covers_first a b };

    ghost union_covers_second = { λ a b _ _. hull_covers_second a b };

    ghost union_is_least = { λ a b c _ _. hull_is_least a b c };

    ghost split_leaves_each = { λ xs least one enough _. halves_leave_each xs least one enough };

    ghost key_is_short = { Prim.omega arith };

    ghost spelling_length = { λ k _. length-spelling k };

    ghost reading_back = { reading_back };

    ghost reading_only = { reading_only };
}

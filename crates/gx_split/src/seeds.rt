//! The pair of keys with which the two groups begin (Guttman 1984, PickSeeds).
ghost use Rattle.std.specs.Prelude.{◌≡◌, ◌≤◌, ◌<◌, ◌≤ℤ◌, ◌+◌, ◌-◌, ◌-ℤ◌, ◌^◌, pos, true};
ghost use Rattle.std.specs.Prelude.{All, List, length, slice_get, int_lt, if◌then◌else◌};
ghost use Rattle.gx_split.specs.Split.{measure, waste, waste_at, pair, worst_in_row, worst_in_rows, worst_pair};
ghost use Rattle.gx_split.specs.Sizes.{IsSizes};

use crate::Measure;
use arrayvec::ArrayVec;

/// Two slots, the lower first, and what their keys waste.
#[derive(Clone, Copy)]
pub struct Candidate {
    pub lower: usize,
    pub higher: usize,
    pub waste: i128,
}

/// The key at a slot.
pub fn key_at<M: Measure>(keys: &[M], slot: usize) -> M
    requires { slot < length keys.now }
    ensures { slice_get keys.now slot ≡ Some result }
{
    keys[slot]
}

/// The size of each key, in order.
fn sizes_of<M: Measure>(keys: &[M]) -> ArrayVec<u128, 101>
    requires { length keys.now ≤ 101 }
    ensures { IsSizes M.extent keys.now result.items }
{
    let mut sizes = ArrayVec::new();
    for key in keys {
        sizes.push(key.size());
    }
    sizes
}

/// By how much a union of this size is larger than two keys of these sizes together.
fn excess(union: u128, first: u128, second: u128) -> i128
    requires union { union < 2 ^ 126 }
    requires first { first < 2 ^ 126 }
    requires second { second < 2 ^ 126 }
    ensures { result ≡ (pos union -ℤ pos first) -ℤ pos second }
{
    union as i128 - first as i128 - second as i128
}

/// By how much the union of two keys, which have these sizes, is larger than both together.
fn waste<M: Measure>(a: &M, b: &M, a_size: u128, b_size: u128) -> i128
    requires first { a_size ≡ M.extent a.now }
    requires second { b_size ≡ M.extent b.now }
    requires first_small { a_size < 2 ^ 126 }
    requires second_small { b_size < 2 ^ 126 }
    ensures { result ≡ waste (measure M.joined M.extent) a.now b.now }
{
    excess(a.join(b).size(), a_size, b_size)
}

/// The pair of these two slots, with its waste.
fn pair_of<M: Measure>(keys: &[M], sizes: &[u128], lower: usize, higher: usize) -> Candidate
    requires in_order { lower < higher }
    requires within { higher < length keys.now }
    requires sizes { IsSizes M.extent keys.now sizes.now }
    ensures lower { result.lower ≡ lower }
    ensures higher { result.higher ≡ higher }
    ensures wastes { result.waste ≡ waste_at (measure M.joined M.extent) keys.now result.lower result.higher }
{
    let waste = waste(
        &key_at(keys, lower),
        &key_at(keys, higher),
        sizes[lower],
        sizes[higher],
    );
    Candidate {
        lower,
        higher,
        waste,
    }
}

/// The pair that wastes more, of two alike the first.
fn worse(first: Candidate, other: Candidate) -> Candidate
    ensures { result ≡ if int_lt first.waste other.waste then other else first }
{
    if other.waste > first.waste {
        other
    } else {
        first
    }
}

/// The first worst of a pair and of the pairs of one slot with each later one.
fn worst_in_row<M: Measure>(keys: &[M], sizes: &[u128], lower: usize, best: Candidate) -> Candidate
    requires within { lower < length keys.now }
    requires sizes { IsSizes M.extent keys.now sizes.now }
    requires best { best.higher < length keys.now }
    requires best_order { best.lower < best.higher }
    requires wasted { best.waste ≡ waste_at (measure M.joined M.extent) keys.now best.lower best.higher }
    ensures slots { pair result.lower result.higher
        ≡ worst_in_row (waste_at (measure M.joined M.extent) keys.now) (pair best.lower best.higher) lower
        (length keys.now - 1 - lower) }
    ensures wastes { result.waste ≡ waste_at (measure M.joined M.extent) keys.now result.lower result.higher }
    ensures in_order { result.lower < result.higher }
    ensures within { result.higher < length keys.now }
{
    let mut worst = best;
    for k in 0..keys.len() - 1 - lower {
        worst = worse(worst, pair_of(keys, sizes, lower, lower + 1 + k));
    }
    worst
}

/// Whether the unions of a key with those of a frame are too small for any to waste more than the worst so far.
fn is_spent<M: Measure>(key: &M, size: u128, frame: &M::Frame, worst: i128) -> bool
    requires size { size ≡ M.extent key.now }
    requires small { size < 2 ^ 126 }
    ensures { result ≡ true → (keys : List M) → M.frames frame.now keys
        → All (λ other. waste (measure M.joined M.extent) key.now other ≤ℤ worst) keys }
{
    excess(key.reach(frame), size, 0) <= worst
}

/// As `worst_in_row`, which it leaves out if no pair of the slot can waste more than the best.
fn worst_with_row<M: Measure>(
    keys: &[M],
    sizes: &[u128],
    frame: &M::Frame,
    lower: usize,
    best: Candidate,
) -> Candidate
    requires within { lower < length keys.now }
    requires sizes { IsSizes M.extent keys.now sizes.now }
    requires frame { M.frames frame.now keys.now }
    requires best { best.higher < length keys.now }
    requires best_order { best.lower < best.higher }
    requires wasted { best.waste ≡ waste_at (measure M.joined M.extent) keys.now best.lower best.higher }
    ensures slots { pair result.lower result.higher
        ≡ worst_in_row (waste_at (measure M.joined M.extent) keys.now) (pair best.lower best.higher) lower
        (length keys.now - 1 - lower) }
    ensures wastes { result.waste ≡ waste_at (measure M.joined M.extent) keys.now result.lower result.higher }
    ensures in_order { result.lower < result.higher }
    ensures within { result.higher < length keys.now }
{
    if is_spent(&key_at(keys, lower), sizes[lower], frame, best.waste) {
        best
    } else {
        worst_in_row(keys, sizes, lower, best)
    }
}

/// The first of the pairs that waste most.
pub fn worst_pair<M: Measure>(keys: &[M]) -> Candidate
    requires some { 2 ≤ length keys.now }
    requires few { length keys.now ≤ 101 }
    ensures slots { pair result.lower result.higher
        ≡ worst_pair (waste_at (measure M.joined M.extent) keys.now) (length keys.now) }
    ensures in_order { result.lower < result.higher }
    ensures within { result.higher < length keys.now }
{
    let sizes = sizes_of(keys);
    let frame = M::frame(keys);
    let mut worst = pair_of(keys, &sizes, 0, 1);
    for lower in 0..keys.len() - 1 {
        worst = worst_with_row(keys, &sizes, &frame, lower, worst);
    }
    worst
}

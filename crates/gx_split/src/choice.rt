//! Which key is placed next, and on which side (Guttman 1984, PickNext).
ghost use Rattle.std.specs.Prelude.{◌≡◌, ◌≤◌, ◌<◌, ◌+◌, ◌-◌, ◌^◌, ℕ, [], All, length, map};
ghost use Rattle.std.specs.Prelude.{nat_lt, nat_le, true, false, if◌then◌else◌, Some};
ghost use Rattle.gx_split.specs.Split.{measure, growth, second_less, first_greatest, goes_second};
ghost use Rattle.gx_split.specs.Waiting.{gap_of, groups_of, IsShort};

use crate::Measure;
use crate::narrow::{difference, is_less};
use crate::waiting::{Covers, Waiting};

/// How much a cover grows by a key.
pub fn growth<M: Measure>(cover: &M, key: &M) -> u128
    ensures value { result ≡ growth (measure M.joined M.extent) cover.now (Some key.now) }
    ensures short { M.SHORT ≡ true → result < 2 ^ 64 }
{
    difference::<M>(cover.join(key).size(), cover.size())
}

/// A place among the keys that wait, and how far apart the growths are there.
#[derive(Clone, Copy)]
struct Spread {
    place: usize,
    apart: u128,
}

/// The wider of two spreads, of two alike the first.
fn wider<M: Measure>(first: Spread, other: Spread) -> Spread
    requires first { M.SHORT ≡ true → first.apart < 2 ^ 64 }
    requires other { M.SHORT ≡ true → other.apart < 2 ^ 64 }
    ensures { result ≡ if nat_lt first.apart other.apart then other else first }
{
    if is_less::<M>(first.apart, other.apart) {
        other
    } else {
        first
    }
}

/// The place of the first key at which the growths are farthest apart.
pub fn farthest<M: Measure>(waiting: &[Waiting<'_, M>]) -> usize
    requires some { 0 < length waiting.now }
    requires short { All (IsShort M.SHORT) waiting.now }
    ensures place { result ≡ first_greatest (map gap_of waiting.now) }
    ensures within { result < length waiting.now }
{
    let mut widest = Spread {
        place: 0,
        apart: waiting[0].apart,
    };
    for (place, other) in waiting.iter().enumerate() {
        let apart = other.apart;
        widest = wider::<M>(widest, Spread { place, apart });
    }
    widest.place
}

/// A group as the next key finds it: how much its cover grows by the key, its cover's size, and how many keys it has.
#[derive(Clone, Copy)]
struct Offer {
    grows: u128,
    size: u128,
    keys: usize,
}

/// Whether a key goes to the second group by growth, then by size, then by number.
fn prefers_second(first: Offer, second: Offer) -> bool
    ensures { result ≡ second_less first.grows second.grows
        (second_less first.size second.size (nat_lt second.keys first.keys)) }
{
    (second.grows, second.size, second.keys) < (first.grows, first.size, first.keys)
}

/// Whether a key goes to the second group. A group that needs all that wait gets them.
fn takes_second(first: Offer, second: Offer, waiting: usize, least: usize) -> bool
    requires first { first.keys + waiting < 2 ^ 64 }
    requires second { second.keys + waiting < 2 ^ 64 }
    ensures { result ≡ if nat_le (first.keys + waiting)
        least then false else (if nat_le (second.keys + waiting) least then true
        else second_less first.grows second.grows (second_less first.size second.size
        (nat_lt second.keys first.keys))) }
{
    if first.keys + waiting <= least {
        false
    } else if second.keys + waiting <= least {
        true
    } else {
        prefers_second(first, second)
    }
}

/// Whether the next key goes to the second group.
pub fn goes_second<M: Measure>(
    covers: &Covers<M>,
    waiting: &[Waiting<'_, M>],
    least: usize,
    next: &Waiting<'_, M>,
) -> bool
    requires first { covers.now.in_first + length waiting.now < 2 ^ 64 }
    requires second { covers.now.in_second + length waiting.now < 2 ^ 64 }
    ensures { result ≡ goes_second (measure M.joined M.extent) (groups_of covers.now waiting.now []) least
        next.now.first next.now.second }
{
    let first = Offer {
        grows: next.first,
        size: covers.first.size(),
        keys: covers.in_first,
    };
    let second = Offer {
        grows: next.second,
        size: covers.second.size(),
        keys: covers.in_second,
    };
    takes_second(first, second, waiting.len(), least)
}

//! The split of a list of keys (Guttman 1984, the quadratic split).
ghost use Rattle.std.specs.Prelude.{◌≡◌, ◌≤◌, ◌<◌, ◌+◌, ◌-◌, ◌*◌, ◌||◌, nat_eq, All};
ghost use Rattle.std.specs.Prelude.{length, map, replicate, slice_set, false, true};
ghost use Rattle.gx_split.specs.Split.{measure, pair, others, placed, seeds, split_sides, waste_at};
ghost use Rattle.gx_split.specs.Fair.{IsFairSplit, IsFirstWorst};
ghost use Rattle.gx_split.specs.Waiting.{slot_of, groups_of, HasGrowths, IsFresh, IsShort, IsKept};

use crate::Measure;
use crate::choice::growth;
use crate::narrow::distance;
use crate::place::place_next;
use crate::seeds::{Candidate, key_at, worst_pair};
use crate::waiting::{Covers, Waiting, WaitingList};

/// Whether a slot is one of the seeds'.
fn is_seed(seeds: &Candidate, slot: usize) -> bool
    ensures { result ≡ (nat_eq slot seeds.now.lower || nat_eq slot seeds.now.higher) }
{
    slot == seeds.lower || slot == seeds.higher
}

/// A key that waits, with its growths.
fn waiting_key<'a, M: Measure>(slot: usize, key: &'a M, covers: &Covers<M>) -> Waiting<'a, M>
    ensures slot { result.slot ≡ slot }
    ensures key { result.key.now ≡ key.now }
    ensures grown { HasGrowths (measure M.joined M.extent) covers.now result }
    ensures short { IsShort M.SHORT result }
{
    let first = growth(&covers.first, key);
    let second = growth(&covers.second, key);
    Waiting {
        slot,
        key,
        first,
        second,
        apart: distance::<M>(first, second),
    }
}

/// The keys beside the seeds, in order, with their growths.
fn waiting_beside<'a, M: Measure>(
    keys: &'a [M],
    seeds: &Candidate,
    covers: &Covers<M>,
) -> WaitingList<'a, M>
    requires some { 1 ≤ length keys.now }
    requires few { length keys.now ≤ 101 }
    ensures slots { map slot_of result.items ≡ others (pair seeds.now.lower seeds.now.higher) (length keys.now) }
    ensures fresh { All (IsFresh (measure M.joined M.extent) keys.now covers.now) result.items }
    ensures short { All (IsShort M.SHORT) result.items }
{
    let mut waiting = WaitingList::new_in(&keys[0]);
    for (slot, key) in keys.iter().enumerate() {
        if !is_seed(seeds, slot) {
            waiting.push(waiting_key(slot, key, covers));
        }
    }
    waiting
}

/// All keys are in the first group but one seed.
fn begin_sides(second: usize, sides: &mut [bool])
    requires { second < length sides.old }
    ensures { sides.new ≡ slice_set (replicate (length sides.old) false) second true }
{
    sides.fill(false);
    sides[second] = true;
}

/// Places the keys that wait: all but the two seeds.
fn place_all<M: Measure>(
    keys: &[M],
    least: usize,
    covers: &mut Covers<M>,
    waiting: &mut WaitingList<'_, M>,
    sides: &mut [bool],
)
    requires few { length keys.now ≤ 101 }
    requires as_many { length sides.old ≡ length keys.now }
    requires kept { IsKept (measure M.joined M.extent) keys.now covers.old waiting.old.items }
    requires short { All (IsShort M.SHORT) waiting.old.items }
    requires left { length waiting.old.items + 2 ≡ length keys.now }
    ensures { groups_of covers.new waiting.new.items sides.new
        ≡ placed (measure M.joined M.extent) keys.now least
        (groups_of covers.old waiting.old.items sides.old) (length keys.now - 2) }
{
    for _placed in 0..keys.len() - 2 {
        place_next(least, covers, waiting, sides);
    }
}

/// Splits 2 to 101 keys in two groups with at least `least` keys each. In `sides`, which has a place for each key,
/// `true` means the second group.
///
/// The groups begin with the two keys whose union wastes most, the lower slot in the first. Then the key at which
/// the growths of the two covers are farthest apart goes to the group that grows less, until a group needs all that
/// are left.
pub fn split<M: Measure>(keys: &[M], least: usize, sides: &mut [bool])
    requires some { 1 ≤ least }
    requires enough { 2 * least ≤ length keys.now }
    requires few { length keys.now ≤ 101 }
    requires as_many { length sides.old ≡ length keys.now }
    ensures sides { sides.new ≡ split_sides (measure M.joined M.extent) keys.now least }
    ensures fair { IsFairSplit (length keys.now) least (seeds (measure M.joined M.extent) keys.now) sides.new }
    ensures seeds { IsFirstWorst (waste_at (measure M.joined M.extent) keys.now) (length keys.now)
        (seeds (measure M.joined M.extent) keys.now) }
{
    let seeds = worst_pair(keys);
    let mut covers = Covers {
        first: key_at(keys, seeds.lower),
        second: key_at(keys, seeds.higher),
        in_first: 1,
        in_second: 1,
    };
    let mut waiting = waiting_beside(keys, &seeds, &covers);
    begin_sides(seeds.higher, sides);
    place_all(keys, least, &mut covers, &mut waiting, sides);
}

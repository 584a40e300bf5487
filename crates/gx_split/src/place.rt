//! Placing one key more.
ghost use Rattle.std.specs.Prelude.{◌≡◌, ◌≤◌, ◌<◌, ◌+◌, ◌*◌, ◌^◌, true, All, List, length, map};
ghost use Rattle.gx_split.specs.Split.{measure, place_one};
ghost use Rattle.gx_split.specs.Waiting.{cover_of, groups_of, covers_with, with_growth};
ghost use Rattle.gx_split.specs.Waiting.{sides_with, HasGrowths, IsShort, IsKept};

use crate::Measure;
use crate::choice::{farthest, goes_second, growth};
use crate::narrow::distance;
use crate::waiting::{Covers, Waiting, WaitingList};

/// A key is joined to a group, to the second if `second` says so.
fn join_group<M: Measure>(second: bool, key: &M, covers: &mut Covers<M>)
    requires first { covers.old.in_first + 1 < 2 ^ 64 }
    requires second { covers.old.in_second + 1 < 2 ^ 64 }
    ensures { covers.new ≡ covers_with (measure M.joined M.extent) second covers.old key.now }
{
    if second {
        covers.second = covers.second.join(key);
        covers.in_second += 1;
    } else {
        covers.first = covers.first.join(key);
        covers.in_first += 1;
    }
}

/// Whether the cover of a group covers a key, so that the key doesn't change it.
fn is_covered<M: Measure>(second: bool, key: &M, covers: &Covers<M>) -> bool
    ensures { result ≡ true → M.joined (cover_of second covers.now) key.now ≡ cover_of second covers.now }
{
    if second {
        covers.second.covers(key)
    } else {
        covers.first.covers(key)
    }
}

/// A waiting key's growth beside a group's new cover.
fn refresh<M: Measure>(second: bool, covers: &Covers<M>, waiting: &mut Waiting<'_, M>)
    requires { IsShort M.SHORT waiting.old }
    ensures grown { waiting.new ≡ with_growth (measure M.joined M.extent) second covers.now waiting.old }
    ensures short { IsShort M.SHORT waiting.new }
{
    if second {
        waiting.second = growth(&covers.second, waiting.key);
        waiting.apart = distance::<M>(waiting.first, waiting.second);
    } else {
        waiting.first = growth(&covers.first, waiting.key);
        waiting.apart = distance::<M>(waiting.first, waiting.second);
    }
}

/// Each waiting key's growth beside a group's new cover.
fn refresh_all<M: Measure>(second: bool, covers: &Covers<M>, waiting: &mut [Waiting<'_, M>])
    requires { All (IsShort M.SHORT) waiting.old }
    ensures grown { waiting.new ≡ map (with_growth (measure M.joined M.extent) second covers.now) waiting.old }
    ensures short { All (IsShort M.SHORT) waiting.new }
{
    for other in waiting.iter_mut() {
        refresh(second, covers, other);
    }
}

/// A key goes to a group, and the others' growths are those beside its new cover: unchanged, if it covered the key.
fn assign_key<M: Measure>(
    second: bool,
    key: &M,
    covers: &mut Covers<M>,
    waiting: &mut WaitingList<'_, M>,
)
    requires first { covers.old.in_first + 1 < 2 ^ 64 }
    requires second { covers.old.in_second + 1 < 2 ^ 64 }
    requires grown { All (HasGrowths (measure M.joined M.extent) covers.old) waiting.old.items }
    requires short { All (IsShort M.SHORT) waiting.old.items }
    ensures covers { covers.new ≡ covers_with (measure M.joined M.extent) second covers.old key.now }
    ensures waiting { waiting.new.items
        ≡ map (with_growth (measure M.joined M.extent) second covers.new) waiting.old.items }
    ensures short { All (IsShort M.SHORT) waiting.new.items }
{
    let is_covered = is_covered(second, key, covers);
    join_group(second, key, covers);
    if !is_covered {
        refresh_all(second, covers, waiting);
    }
}

/// A key's side is kept. All sides are the first group's at the beginning.
fn mark(second: bool, slot: usize, sides: &mut [bool])
    requires { slot < length sides.old }
    ensures { sides.new ≡ sides_with second sides.old slot }
{
    if second {
        sides[slot] = true;
    }
}

/// The next key goes to its group.
pub fn place_next<M: Measure>(
    least: usize,
    covers: &mut Covers<M>,
    waiting: &mut WaitingList<'_, M>,
    sides: &mut [bool],
)
    requires some { 0 < length waiting.old.items }
    requires slots { All (λ w. w.slot < length sides.old) waiting.old.items }
    requires few { covers.old.in_first + covers.old.in_second + length waiting.old.items < 2 ^ 63 }
    requires grown { All (HasGrowths (measure M.joined M.extent) covers.old) waiting.old.items }
    requires short { All (IsShort M.SHORT) waiting.old.items }
    ensures placed { (keys : List M) → IsKept (measure M.joined M.extent) keys covers.old waiting.old.items
        → groups_of covers.new waiting.new.items sides.new
        ≡ place_one (measure M.joined M.extent) keys least (groups_of covers.old waiting.old.items sides.old) }
    ensures kept { (keys : List M) → IsKept (measure M.joined M.extent) keys covers.old waiting.old.items
        → IsKept (measure M.joined M.extent) keys covers.new waiting.new.items }
    ensures short { All (IsShort M.SHORT) waiting.new.items }
    ensures one_less { length waiting.new.items + 1 ≡ length waiting.old.items }
{
    let all = waiting.as_slice();
    let place = farthest(all);
    let next = all[place];
    let second = goes_second(covers, all, least, &next);
    waiting.remove(place);
    assign_key(second, next.key, covers, waiting);
    mark(second, next.slot, sides);
}

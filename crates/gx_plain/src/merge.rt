//! Sets merged in one pass, in place.
ghost use Rattle.std.specs.Prelude.{◌≡◌, ◌+◌, ◌<◌, ◌≤◌, ◌∷◌, ◌++◌, false, Some};
ghost use Rattle.std.specs.Prelude.{slice_get, length, take, drop, vec_len, vec_capacity};
ghost use Rattle.std.specs.List.{list_any};
ghost use Rattle.gx_machine.specs.Keys.{keys_of};
ghost use Rattle.gx_machine.specs.Sets.{has, including_all, Before, InOrder};
ghost use Rattle.gx_machine.specs.Orders.{Below};

use gx_geom::Shape;
use gx_machine::Entry;

/// The place for an entry that a set in order doesn't have, searched by halves.
fn gap<B: Shape>(e: &Entry<B>, set: &[Entry<B>]) -> usize
    requires in_order { InOrder (keys_of B.Shape) set.now }
    requires lacks { has (keys_of B.Shape) e.now set.now ≡ false }
    ensures bound { result ≤ length set.now }
    ensures below { Below (keys_of B.Shape) e.now (take result set.now) }
    ensures before { Before (keys_of B.Shape) e.now (drop result set.now) }
{
    match gx_machine::find(e, set) {
        Ok(at) | Err(at) => at,
    }
}

/// Puts an entry after so many places that are still free from `at` on, and moves what was from there up to `end` after
/// it.
#[tactic(auto, using(crate::proofs::merge::Merging::moved_front, crate::proofs::merge::Merging::moved_tail))]
fn put_behind<B: Shape>(set: &mut [Entry<B>], at: usize, end: usize, free: usize, e: Entry<B>)
    requires order { at ≤ end }
    requires room { end + free < length set.old }
    ensures front { take at set.new ≡ take at set.old }
    ensures tail { drop (at + free) set.new ≡ e ∷ (drop at (take end set.old) ++ drop (end + free + 1) set.old) }
{
    set.copy_within(at..end, at + free + 1);
    set[at + free] = e;
}

/// Puts an entry, the last of those up to `left`, in its place among the first `end`, with `left` free places before
/// what was put in already. Returns its place.
fn put_last<B: Shape>(
    more: &[Entry<B>],
    e: Entry<B>,
    set: &mut [Entry<B>],
    end: usize,
    left: usize,
) -> usize
    requires more { InOrder (keys_of B.Shape) more.now }
    requires entry { slice_get more.now left ≡ Some e }
    requires room { end + left < length set.old }
    requires in_order { InOrder (keys_of B.Shape) (take end set.old) }
    requires lacks { has (keys_of B.Shape) e (take end set.old) ≡ false }
    ensures bound { result ≤ end }
    ensures front { take result set.new ≡ take result set.old }
    ensures put { including_all (keys_of B.Shape) (take left more.now) (take result set.old)
        ++ drop (result + left) set.new
        ≡ including_all (keys_of B.Shape) (take (left + 1) more.now) (take end set.old)
        ++ drop (end + left + 1) set.old }
{
    let at = gap(&e, &set[..end]);
    put_behind(set, at, end, left, e);
    at
}

/// Merges these entries into the set of the first `count`, which has none of them. There is a place for each after it.
fn merge_down<B: Shape>(more: &[Entry<B>], set: &mut [Entry<B>], count: usize)
    requires more_in_order { InOrder (keys_of B.Shape) more.now }
    requires in_order { InOrder (keys_of B.Shape) (take count set.old) }
    requires lacks { list_any (λ e. has (keys_of B.Shape) e (take count set.old)) more.now ≡ false }
    requires room { count + length more.now ≡ length set.old }
    ensures { set.new ≡ including_all (keys_of B.Shape) more.now (take count set.old) }
{
    let mut end = count;
    let mut left = more.len();
    while left > 0 {
        left -= 1;
        let e = more[left];
        let at = put_last(more, e, set, end, left);
        end = at;
    }
}

/// Puts each of these entries in its place, in one pass if the set has none of them. There is room for them all.
pub fn merge<B: Shape>(more: &[Entry<B>], set: &mut Vec<Entry<B>>)
    requires more { InOrder (keys_of B.Shape) more.now }
    requires in_order { InOrder (keys_of B.Shape) set.old.items }
    requires room { vec_len set.old + length more.now ≤ vec_capacity set.old }
    ensures items { set.new.items ≡ including_all (keys_of B.Shape) more.now set.old.items }
    ensures capacity { vec_capacity set.old ≤ vec_capacity set.new }
    ensures grown { vec_len set.new ≤ vec_len set.old + length more.now }
{
    if has_any(more, set) {
        gx_machine::include_all(more, set);
        return;
    }
    let count = set.len();
    let _ = set.extend_from_slice(more);
    merge_down(more, set, count);
}

/// Whether a set in order has one of these entries.
fn has_any<B: Shape>(more: &[Entry<B>], set: &[Entry<B>]) -> bool
    requires { InOrder (keys_of B.Shape) set.now }
    ensures { result ≡ list_any (λ e. has (keys_of B.Shape) e set.now) more.now }
{
    more.iter().any(|e| gx_machine::has_in_order(e, set))
}

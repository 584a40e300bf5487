//! The scan of a page's keys, and the choice among bounds.
ghost use Rattle.std.specs.Prelude.{◌≡◌, ◌<◌, ◌≤◌, ◌-◌, [], true, map, length, min, slice_index_or};
ghost use Rattle.std.specs.List.{IsFirstBest};
ghost use Rattle.gx_node.specs.Hits.{IsNextHit, hits_among, costs_less};
ghost use Rattle.gx_node.specs.Reading.{format_of, has_key, key_of, AreKeyed};

use crate::passing::{BLOCK, Passing, offer};
use gx_class::{KeyClass, Probing};
use gx_page::Page;

/// Whether an item's key passes.
fn item_passes<K: Probing>(item: &[u8], probe: &K::Probe) -> bool
    requires long { K.KEY ≤ length item.now }
    requires key { has_key (format_of K.KeyClass) item.now ≡ true }
    ensures { result ≡ K.passes probe.now (key_of (format_of K.KeyClass) item.now) }
{
    K::test(probe, item.split_at(K::KEY).0)
}

/// A slot's item, on a page whose items begin with a key and are `size` bytes each:
/// by its place in the heap, so that the directory isn't read.
pub(crate) fn item_in<K: KeyClass>(page: &Page, size: usize, slot: usize) -> &[u8]
    requires slot { slot < length page.now.items }
    requires keyed { AreKeyed (format_of K.KeyClass) size page.now.items }
    ensures item { result.now ≡ slice_index_or page.now.items slot [] }
    ensures long { length result.now ≡ size }
{
    let heap = page.heap();
    let front = heap.split_at(heap.len() - slot * size).0;
    front.split_at(front.len() - size).1
}

/// The first slot from a slot on whose key passes, on a page whose items begin with a key and are `size` bytes each.
/// The items are taken from the end of the page's heap, slot by slot.
pub(crate) fn next_passing<K: Probing>(
    page: &Page,
    size: usize,
    probe: &K::Probe,
    from: usize,
) -> Option<usize>
    requires from { from ≤ length page.now.items }
    requires long { K.KEY ≤ size }
    requires keyed { AreKeyed (format_of K.KeyClass) size page.now.items }
    ensures { IsNextHit (map (λ item. K.passes probe.now (key_of (format_of K.KeyClass) item)) page.now.items) from
        result }
{
    let count = page.count();
    let heap = page.heap();
    let mut rest = heap.split_at(heap.len() - from * size).0;
    for slot in from..count {
        let (front, item) = rest.split_at(rest.len() - size);
        if item_passes::<K>(item, probe) {
            return Some(slot);
        }
        rest = front;
    }
    None
}

/// The slots of a block whose keys pass: of the 64 from a slot on, or of as many as there are.
/// For the rest as `next_passing`.
pub(crate) fn passing<K: Probing>(
    page: &Page,
    size: usize,
    probe: &K::Probe,
    from: usize,
) -> Passing
    requires from { from ≤ length page.now.items }
    requires long { K.KEY ≤ size }
    requires keyed { AreKeyed (format_of K.KeyClass) size page.now.items }
    ensures { result ≡ hits_among (map (λ item. K.passes probe.now (key_of (format_of K.KeyClass) item)) page.now.items)
        from (min BLOCK (length page.now.items - from)) }
{
    let count = (page.count() - from).min(BLOCK);
    let heap = page.heap();
    let mut rest = heap.split_at(heap.len() - from * size).0;
    let mut slots = [0; BLOCK];
    let mut found = 0;
    for place in 0..count {
        let (front, item) = rest.split_at(rest.len() - size);
        let passes = item_passes::<K>(item, probe);
        found = offer(&mut slots, found, (from + place) as u16, passes);
        rest = front;
    }
    Passing::of(slots, found)
}

/// Whether a penalty is less than another: the bound grows less, or it grows the same and is smaller.
pub(crate) fn costs_less(a: (u128, u128), b: (u128, u128)) -> bool
    ensures { result ≡ costs_less a b }
{
    a.0 < b.0 || (a.0 == b.0 && a.1 < b.1)
}

/// The penalty of a key for an item's bound.
fn item_penalty<K: KeyClass>(item: &[u8], key: &K::Key) -> (u128, u128)
    requires long { K.KEY ≤ length item.now }
    requires bound { has_key (format_of K.KeyClass) item.now ≡ true }
    ensures { result ≡ K.cost (key_of (format_of K.KeyClass) item.now) key.now }
{
    K::penalty_in(item.split_at(K::KEY).0, key)
}

/// The slot of the bound for which the penalty of a key is least, and of such bounds the first, on a page whose items
/// begin with a bound and are `size` bytes each. The items are taken from the end of the page's heap, slot by slot.
pub(crate) fn least_penalty<K: KeyClass>(page: &Page, size: usize, key: &K::Key) -> usize
    requires some { 1 ≤ length page.now.items }
    requires long { K.KEY ≤ size }
    requires keyed { AreKeyed (format_of K.KeyClass) size page.now.items }
    ensures { IsFirstBest costs_less (map (λ item. K.cost (key_of (format_of K.KeyClass) item) key.now) page.now.items)
        (length page.now.items) result }
{
    let heap = page.heap();
    let (mut rest, first) = heap.split_at(heap.len() - size);
    let mut best = 0;
    let mut least = item_penalty::<K>(first, key);
    for slot in 1..page.count() {
        let (front, item) = rest.split_at(rest.len() - size);
        rest = front;
        let penalty = item_penalty::<K>(item, key);
        if !costs_less(penalty, least) {
            continue;
        }
        best = slot;
        least = penalty;
    }
    best
}

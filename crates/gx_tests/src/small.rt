//! Small changes of a page, byte for byte: one of each kind, and each page or key that it is refused for.
ghost use Rattle.std.specs.Prelude.{◌≤◌};

use crate::asserts::same;
use crate::nodes::Item::{Child, Other, Pair};
use crate::nodes::Key::{Of, Reversed};
use crate::nodes::{Key, Node, Numbered, is_alike, put_node};
use crate::pages::fresh;
use Change::{Add, Mark, Remove, Set};
use gx_class::{Box2Class, IntervalClass};
use gx_node::MAX_ENTRIES;
use gx_node::small::{add_pair, mark_pair, remove_slots, set_key};
use gx_page::Page;
use std::process::Abort;

/// How many of a key's 16 bytes are given: all, or all but the last.
#[derive(Clone, Copy)]
enum Given {
    Whole,
    Cut,
}

impl Given {
    fn length(self) -> usize
        ensures { result ≤ 16 }
    {
        match self {
            Given::Whole => 16,
            Given::Cut => 15,
        }
    }
}

/// A small change, by a key's bytes or by slots of two bytes each.
#[derive(Clone, Copy)]
enum Change {
    /// A row gets this mark.
    Mark(u64, Key, bool),
    /// A row comes to a leaf that has at most so many.
    Add(usize, u64, Key),
    /// A slot gets another key.
    Set(usize, Key),
    /// Slots leave.
    Remove(&'static [u8]),
}

/// Whether a change is made.
fn is_made<K: Numbered>(page: &mut Page, change: Change, given: Given) -> bool {
    let length = given.length();
    match change {
        Mark(row, key, mark) => mark_pair::<K>(page, row, &key.bytes::<K>()[..length], mark),
        Add(most, row, key) => {
            add_pair::<K>(
                page,
                most.min(MAX_ENTRIES),
                row,
                &key.bytes::<K>()[..length],
            )
        }
        Set(slot, key) => set_key::<K>(page, slot, &key.bytes::<K>()[..length]),
        Remove(slots) => remove_slots::<K>(page, slots),
    }
}

/// A page, changes with whether each is made, and the page then.
type Case = (Node, &'static [(Change, Given, bool)], Node);

/// Fails unless the changes are made or not, and leave that page.
fn changes<K: Numbered>(rt: &impl Abort, page: &mut Page, wanted: &mut Page, case: &Case) {
    let (before, changes, after) = case;
    put_node::<K>(rt, page, before);
    for (change, given, is_wanted) in *changes {
        same(rt, &is_made::<K>(page, *change, *given), is_wanted);
    }
    put_node::<K>(rt, wanted, after);
    is_alike(rt, page, wanted, 0);
}

fn all_change<K: Numbered>(rt: &(impl Abort + AllocGlobal), cases: &[Case]) {
    let mut page = fresh(rt, 0, 2);
    let mut wanted = fresh(rt, 0, 9);
    for case in cases {
        changes::<K>(rt, &mut page, &mut wanted, case);
    }
}

/// Leaves of three pairs, of which the second or the third is marked.
const SECOND: Node = (
    0,
    &[Pair(Of(0), 10, 0), Pair(Of(1), 11, 1), Pair(Of(2), 12, 0)],
);

const THIRD: Node = (
    0,
    &[Pair(Of(0), 10, 0), Pair(Of(1), 11, 0), Pair(Of(2), 12, 1)],
);

/// Of two items that are one pair's, the first gets the mark.
static MARKS: [Case; 3] = [
    (
        SECOND,
        &[
            (Mark(12, Of(2), true), Given::Whole, true),
            (Mark(11, Of(1), false), Given::Whole, true),
        ],
        THIRD,
    ),
    (
        THIRD,
        &[
            (Mark(11, Of(2), false), Given::Whole, false),
            (Mark(12, Of(3), false), Given::Whole, false),
            (Mark(12, Reversed, false), Given::Whole, false),
            (Mark(12, Of(2), false), Given::Cut, false),
        ],
        THIRD,
    ),
    (
        (0, &[Pair(Of(5), 7, 0), Pair(Of(5), 7, 0)]),
        &[(Mark(7, Of(5), true), Given::Whole, true)],
        (0, &[Pair(Of(5), 7, 1), Pair(Of(5), 7, 0)]),
    ),
];

static PAIRS: [Case; 2] = [
    (
        (0, &[Pair(Of(0), 10, 0), Pair(Of(1), 11, 1)]),
        &[(Add(3, 12, Of(2)), Given::Whole, true)],
        SECOND,
    ),
    (
        SECOND,
        &[
            (Add(4, 10, Of(0)), Given::Whole, false),
            (Add(4, 11, Of(1)), Given::Whole, false),
            (Add(4, 13, Reversed), Given::Whole, false),
            (Add(4, 13, Of(3)), Given::Cut, false),
            (Add(3, 13, Of(3)), Given::Whole, false),
        ],
        SECOND,
    ),
];

const KEYS_BEFORE: Node = (3, &[Child(Of(4), 21), Child(Of(5), 22), Child(Of(6), 23)]);

const KEYS_AFTER: Node = (3, &[Child(Of(4), 21), Child(Of(90), 22), Child(Of(6), 23)]);

static KEYS: [Case; 2] = [
    (
        KEYS_BEFORE,
        &[(Set(1, Of(90)), Given::Whole, true)],
        KEYS_AFTER,
    ),
    (
        KEYS_AFTER,
        &[
            (Set(3, Of(7)), Given::Whole, false),
            (Set(2, Reversed), Given::Whole, false),
            (Set(2, Of(7)), Given::Cut, false),
        ],
        KEYS_AFTER,
    ),
];

const FIVE: Node = (
    0,
    &[
        Pair(Of(0), 10, 0),
        Pair(Of(1), 11, 0),
        Pair(Of(2), 12, 1),
        Pair(Of(3), 13, 0),
        Pair(Of(4), 14, 1),
    ],
);

static SLOTS: [Case; 2] = [
    (
        FIVE,
        &[
            (Remove(&[0, 2, 0, 3]), Given::Whole, false),
            (Remove(&[0, 2, 0, 5]), Given::Whole, false),
            (Remove(&[1, 2]), Given::Whole, false),
        ],
        FIVE,
    ),
    (
        FIVE,
        &[(Remove(&[0, 2, 0, 4]), Given::Whole, true)],
        (
            0,
            &[Pair(Of(0), 10, 0), Pair(Of(1), 11, 0), Pair(Of(3), 13, 0)],
        ),
    ),
];

/// Changes of a leaf, none of which is made.
const OF_A_LEAF: &[(Change, Given, bool)] = &[
    (Mark(11, Of(1), false), Given::Whole, false),
    (Add(100, 19, Of(9)), Given::Whole, false),
    (Remove(&[0, 1]), Given::Whole, false),
];

/// A change of an inner node that isn't made.
const OF_AN_INNER_NODE: &[(Change, Given, bool)] = &[(Set(0, Of(7)), Given::Whole, false)];

/// A leaf takes no bound, an inner node no pair, and a page with an item that is no entry takes nothing.
const LEAF: Node = (0, &[Pair(Of(0), 10, 1), Pair(Of(1), 11, 1)]);

const NO_LEAF: Node = (
    0,
    &[Pair(Of(0), 10, 1), Pair(Of(1), 11, 1), Pair(Of(2), 12, 2)],
);

const INNER: Node = (3, &[Child(Of(1), 21), Child(Of(1), 22)]);

const NO_INNER: Node = (3, &[Child(Of(1), 21), Child(Of(1), 22), Other(&[0; 21])]);

const NO_KEY: Node = (3, &[Child(Of(1), 21), Child(Reversed, 22)]);

const PAIR_ABOVE: Node = (1, &[Pair(Of(1), 11, 1)]);

static OTHERS: [Case; 6] = [
    (LEAF, OF_AN_INNER_NODE, LEAF),
    (NO_LEAF, OF_A_LEAF, NO_LEAF),
    (INNER, OF_A_LEAF, INNER),
    (NO_INNER, OF_AN_INNER_NODE, NO_INNER),
    (NO_KEY, OF_AN_INNER_NODE, NO_KEY),
    (PAIR_ABOVE, OF_A_LEAF, PAIR_ABOVE),
];

#[test]
fn marks_of_pairs(rt: HostRuntime) {
    all_change::<Box2Class>(&rt, &MARKS);
    all_change::<IntervalClass>(&rt, &MARKS);
}

#[test]
fn pairs_added(rt: HostRuntime) {
    all_change::<Box2Class>(&rt, &PAIRS);
    all_change::<IntervalClass>(&rt, &PAIRS);
}

#[test]
fn keys_of_bounds(rt: HostRuntime) {
    all_change::<Box2Class>(&rt, &KEYS);
    all_change::<IntervalClass>(&rt, &KEYS);
}

#[test]
fn slots_removed(rt: HostRuntime) {
    all_change::<Box2Class>(&rt, &SLOTS);
    all_change::<IntervalClass>(&rt, &SLOTS);
}

#[test]
fn pages_that_fit_nothing(rt: HostRuntime) {
    all_change::<Box2Class>(&rt, &OTHERS);
    all_change::<IntervalClass>(&rt, &OTHERS);
}

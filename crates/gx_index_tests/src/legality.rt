//! Rows of trees, and what is returned of each: that it is legal, or the rule that is broken and the page.
mod built;
mod told;

use crate::asserts::holds;
use built::{Node, in_memory, on_device};
use gx_legality::Rule;
use std::process::Abort;
use std::test::Fail;
use told::Told::{Broken, Legal};
use told::{Told, told_of, told_of_note};

/// How many splits were made, the pages, and what is returned.
type Row = (u64, &'static [Node<'static>], Told);

/// Two leaves of two rows each, below the root.
const TWO_LEAVES: [Node<'static>; 3] = [
    ((1, 0, 0), &[(2, (1, 0, 2, 1)), (3, (3, 0, 4, 1))]),
    ((0, 1, 3), &[(1, (1, 0, 1, 1)), (2, (2, 0, 2, 1))]),
    ((0, 0, 0), &[(3, (3, 0, 3, 1)), (4, (4, 0, 4, 1))]),
];

const ROWS: [Row; 20] = [
    // a fresh tree; one whose leaves are as full as they may be; one of three levels
    (
        0,
        &[((1, 0, 0), &[(2, (0, 0, 0, 0))]), ((0, 0, 0), &[])],
        Legal,
    ),
    (1, &TWO_LEAVES, Legal),
    (
        0,
        &[
            ((1, 0, 0), &[(2, (1, 0, 4, 1))]),
            (
                (0, 0, 0),
                &[
                    (1, (1, 0, 1, 1)),
                    (2, (2, 0, 2, 1)),
                    (3, (3, 0, 3, 1)),
                    (4, (4, 0, 4, 1)),
                ],
            ),
        ],
        Legal,
    ),
    (
        2,
        &[
            ((2, 0, 0), &[(4, (1, 0, 2, 1)), (5, (3, 0, 4, 1))]),
            ((0, 1, 3), &[(1, (1, 0, 2, 1))]),
            ((0, 0, 0), &[(2, (3, 0, 4, 1))]),
            ((1, 2, 5), &[(2, (1, 0, 2, 1))]),
            ((1, 0, 0), &[(3, (3, 0, 4, 1))]),
        ],
        Legal,
    ),
    // more splits than pages
    (2, &TWO_LEAVES, Broken(1, Rule::SplitsOutnumberPages)),
    // the root is a leaf
    (
        0,
        &[((0, 0, 0), &[]), ((0, 0, 0), &[])],
        Broken(1, Rule::RootIsLeaf),
    ),
    // five rows on a leaf
    (
        0,
        &[
            ((1, 0, 0), &[(2, (1, 0, 5, 1))]),
            (
                (0, 0, 0),
                &[
                    (1, (1, 0, 1, 1)),
                    (2, (2, 0, 2, 1)),
                    (3, (3, 0, 3, 1)),
                    (4, (4, 0, 4, 1)),
                    (5, (5, 0, 5, 1)),
                ],
            ),
        ],
        Broken(2, Rule::TooManyEntries),
    ),
    // a root without a child
    (
        0,
        &[((1, 0, 0), &[]), ((0, 0, 0), &[])],
        Broken(1, Rule::NoChild),
    ),
    // a sequence number above the counter
    (
        0,
        &[((1, 0, 0), &[(2, (0, 0, 0, 0))]), ((0, 1, 0), &[])],
        Broken(2, Rule::SequenceNumber),
    ),
    // the root as a child, and a page that isn't taken
    (
        0,
        &[((1, 0, 0), &[(1, (0, 0, 0, 0))]), ((0, 0, 0), &[])],
        Broken(1, Rule::ChildPage(0)),
    ),
    (
        0,
        &[
            ((1, 0, 0), &[(2, (0, 0, 0, 0)), (3, (0, 0, 0, 0))]),
            ((0, 0, 0), &[]),
        ],
        Broken(1, Rule::ChildPage(1)),
    ),
    // a leaf two levels lower
    (
        0,
        &[((2, 0, 0), &[(2, (0, 0, 0, 0))]), ((0, 0, 0), &[])],
        Broken(1, Rule::ChildLevel(0)),
    ),
    // a bound that a row's box overlaps, and doesn't lie in
    (
        0,
        &[
            ((1, 0, 0), &[(2, (1, 0, 2, 1))]),
            ((0, 0, 0), &[(1, (2, 0, 3, 1))]),
        ],
        Broken(1, Rule::Bound(0)),
    ),
    // a page that is named twice, and one that isn't named
    (
        0,
        &[
            ((1, 0, 0), &[(2, (0, 0, 0, 0)), (2, (0, 0, 0, 0))]),
            ((0, 0, 0), &[]),
        ],
        Broken(2, Rule::NamedTwice),
    ),
    (
        1,
        &[
            ((1, 0, 0), &[(2, (0, 0, 0, 0))]),
            ((0, 0, 3), &[]),
            ((0, 0, 0), &[]),
        ],
        Broken(3, Rule::NotNamed),
    ),
    // rightlinks to the leaf itself, to the root, and to a page that isn't taken
    (
        0,
        &[((1, 0, 0), &[(2, (0, 0, 0, 0))]), ((0, 0, 2), &[])],
        Broken(2, Rule::Chain),
    ),
    (
        0,
        &[((1, 0, 0), &[(2, (0, 0, 0, 0))]), ((0, 0, 1), &[])],
        Broken(1, Rule::Chain),
    ),
    (
        0,
        &[((1, 0, 0), &[(2, (0, 0, 0, 0))]), ((0, 0, 3), &[])],
        Broken(3, Rule::Chain),
    ),
    // a leaf that no rightlink leads to
    (
        1,
        &[
            ((1, 0, 0), &[(2, (0, 0, 0, 0)), (3, (0, 0, 0, 0))]),
            ((0, 0, 0), &[]),
            ((0, 0, 0), &[]),
        ],
        Broken(3, Rule::OffTheChain),
    ),
    // one pair on both leaves
    (
        1,
        &[
            ((1, 0, 0), &[(2, (1, 0, 2, 1)), (3, (1, 0, 4, 1))]),
            ((0, 1, 3), &[(1, (1, 0, 1, 1)), (2, (2, 0, 2, 1))]),
            ((0, 0, 0), &[(3, (3, 0, 3, 1)), (1, (1, 0, 1, 1))]),
        ],
        Broken(2, Rule::PairTwice),
    ),
];

/// Notes of pairs of the two leaves, and what is returned of each.
const NOTES: [((u64, (i32, i32, i32, i32), u32), Told); 5] = [
    ((1, (1, 0, 1, 1), 2), Legal),
    ((3, (3, 0, 3, 1), 3), Legal),
    // a split has moved it to the right
    ((4, (4, 0, 4, 1), 2), Legal),
    // left of its leaf, and nowhere
    ((2, (2, 0, 2, 1), 3), Broken(3, Rule::PairOutOfPlace)),
    ((5, (3, 0, 3, 1), 2), Broken(2, Rule::PairOutOfPlace)),
];

/// Fails unless this is returned of a tree in memory and of the same on a device.
fn check_row<R: Abort + AllocGlobal>(rt: &R, row: &Row) -> Result<(), Fail> {
    let (counter, nodes, wanted) = row;
    let in_memory = told_of(rt, &mut in_memory(rt, *counter, nodes)?);
    let on_device = told_of(rt, &mut on_device(rt, *counter, nodes)?);
    holds(rt, in_memory == *wanted && on_device == *wanted);
    Ok(())
}

#[test]
fn each_rule_is_told_of_its_page(rt: HostRuntime) -> Result<(), Fail> {
    for row in &ROWS {
        check_row(&rt, row)?;
    }
    Ok(())
}

#[test]
fn an_open_pair_is_told_of_its_leaf(rt: HostRuntime) -> Result<(), Fail> {
    for (note, wanted) in &NOTES {
        let in_memory = told_of_note(&rt, &mut in_memory(&rt, 1, &TWO_LEAVES)?, *note);
        let on_device = told_of_note(&rt, &mut on_device(&rt, 1, &TWO_LEAVES)?, *note);
        holds(&rt, in_memory == *wanted && on_device == *wanted);
    }
    Ok(())
}

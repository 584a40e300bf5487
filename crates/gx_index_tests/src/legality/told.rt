//! What a test of legality returns, over any store of pages.
use crate::legality::built::{Corners, a_box};
use gx_class::Box2Class;
use gx_legality::{LegalityFault, NotedPair, Rule, are_in_order, test_tree};
use gx_machine::Entry;
use gx_tree::Pages;
use std::process::Abort;

/// What a test returns.
#[derive(Clone, Copy, PartialEq, Eq)]
pub(crate) enum Told {
    Legal,
    Broken(u32, Rule),
    /// Memory, a page that can't be brought, or pages that aren't steady.
    Other,
}

fn answer_of<F: Drop>(tested: Result<(), LegalityFault<F>>) -> Told {
    match tested {
        Ok(()) => Told::Legal,
        Err(LegalityFault::Broken(page, rule)) => Told::Broken(page, rule),
        Err(_) => Told::Other,
    }
}

/// What the whole test returns of a tree whose nodes have four entries at most, with a buffer for four pairs.
pub(crate) fn told_of<R: AllocGlobal, P: Pages<Box2Class>>(rt: &R, pages: &mut P) -> Told
where
    P::Fault: Drop,
{
    answer_of(test_tree(rt.alloc(), pages, 4, 2, &[]))
}

/// What is returned of one note: a row's box, and the leaf that it was left on.
pub(crate) fn told_of_note<R: Abort + AllocGlobal, P: Pages<Box2Class>>(
    rt: &R,
    pages: &mut P,
    note: (u64, Corners, u32),
) -> Told
where
    P::Fault: Drop,
{
    let (row, corners, leaf) = note;
    let key = a_box(rt, corners);
    let notes = [NotedPair {
        entry: Entry { row, key },
        leaf,
    }];
    assert!(rt; are_in_order(&notes));
    answer_of(test_tree(rt.alloc(), pages, 4, 2, &notes))
}

//! The whole test.
ghost use Rattle.std.specs.Prelude.{◌≡◌, ◌↔◌, ℕ, suc, ◌+◌, ◌^◌, ◌<◌, ◌≤◌, None};
ghost use Rattle.std.specs.Prelude.{length, slice_index_or, OnOk, IfOk, IfErr, IsTrue};
ghost use Rattle.gx_node.specs.Legal.{Legal, NodeFits};
ghost use Rattle.gx_node.specs.Trees.{Tree, Rules, Used, parents};
ghost use Rattle.gx_node.specs.Keyed.{rules_of};
ghost use Rattle.gx_node.specs.Owner.{CountsFaults, IsWhyLater};
ghost use Rattle.gx_node.specs.Store.{node_at, tree_of};
ghost use Rattle.gx_machine.specs.Keys.{keys_of, entry_cmp};
ghost use Rattle.gx_node.specs.Lists.{Each};
ghost use Rattle.gx_legality.specs.Breaks.{Breaks};
ghost use Rattle.gx_legality.specs.Gathered.{Ascends, gathered_above};
ghost use Rattle.gx_legality.specs.Placing.{BreaksOrLeavesOut, IsPlaced, noted, stage_at};
ghost use Rattle.gx_legality.specs.declared.notes.NoteStage.TheVariants.{Ahead};
ghost use Rattle.gx_legality.specs.Marks.{AreLinks, HasShape, IsLegalButPairs, marked};
ghost use Rattle.gx_legality.specs.Owner.{OnlyReads, IsWhy, IsWhyBehind, IsFound, TellsBreak, WereHeld, test_fails};

use crate::chain::test_chain;
use crate::fault::{LegalityFault, Rule};
use crate::gather::Gather;
use crate::named::test_named;
use crate::node::bring_pages;
use crate::nodes::test_nodes;
use crate::notes::{NoteStage, NotedPair, blank_stages, test_found};
use crate::pairs::test_pairs;
use gx_class::KeyClass;
use gx_machine::Entry;
use gx_node::Pages;
use std::alloc::{AllocError, Global};

/// Marks for each page and for page 0, none of them set.
fn blank_marks(alloc: Global, used: u32) -> Result<Vec<bool>, AllocError>
    ensures len { IfOk result (λ marks. length marks.items ≡ suc used) }
    ensures none { IfOk result (λ marks. (q : ℕ) → marked marks.items q ≡ 0) }
{
    vec![in alloc; false; used as usize + 1]
}

/// Rightlinks for each page and for page 0, none of them known.
fn blank_links(alloc: Global, used: u32) -> Result<Vec<Option<u32>>, AllocError>
    ensures len { IfOk result (λ links. length links.items ≡ suc used) }
    ensures none { IfOk result (λ links. slice_index_or links.items 0 None ≡ None) }
{
    vec![in alloc; None; used as usize + 1]
}

/// Tests that each page but the root is named just once, and that the leaves are on their chain, each once.
fn test_links<K: KeyClass>(
    marks: &[bool],
    links: &[Option<u32>],
    passed: &mut [bool],
) -> Result<(), (u32, Rule)>
    requires few { length links.now ≤ 2 ^ 32 }
    requires marks { length marks.now ≡ length links.now }
    requires as_many { length passed.old ≡ length links.now }
    requires none { (q : ℕ) → marked passed.old q ≡ 0 }
    ensures shape { (t : Tree K.Key) → AreLinks t links.now
        → ((q : ℕ) → q < length marks.now → marked marks.now q ≡ parents t q)
        → OnOk result (HasShape t) }
    ensures breaks { (r : Rules K.Key) (t : Tree K.Key) → AreLinks t links.now
        → ((q : ℕ) → q < length marks.now → marked marks.now q ≡ parents t q)
        → IfErr result (λ why. Breaks r t why.0 why.1) }
{
    if let Err(page) = test_named(marks) {
        return Err((page as u32, Rule::NotNamed));
    }
    test_chain::<K>(links, passed)
}

/// Whether there is a page for each split, beside the two that were there before the first.
fn is_counted(used: u32, counter: u64) -> bool
    ensures { IsTrue result ↔ (counter + 2 ≤ used) }
{
    let used = u64::from(used);
    2 <= used && counter <= used - 2
}

/// Tests that there were two pages before the first split, and that the root isn't a leaf.
fn test_root<K: KeyClass, P: Pages<K>>(
    pages: &mut P,
    _most: u16,
) -> Result<(), LegalityFault<P::Fault>>
    ensures reads { OnlyReads P.steady P.store P.since pages.old pages.new }
    ensures why { IfErr result (IsWhy (P.why pages.old pages.new)) }
    ensures told { CountsFaults (test_fails P.fails) (P.faults pages.old) (P.faults pages.new) result }
    ensures later { OnOk result (IsWhyLater P.why pages.old pages.new) }
    ensures counter { OnOk result ((P.store pages.old).counter + 2 ≤ length (P.store pages.old).nodes) }
    ensures root { P.steady pages.old → OnOk result (0 < (node_at (P.store pages.old).nodes 1).level) }
    ensures found { P.steady pages.old → TellsBreak (rules_of K.Key.Shape _most) (tree_of (P.store pages.old)) result }
{
    if !is_counted(pages.used(), pages.counter()) {
        return Err(LegalityFault::Broken(1, Rule::SplitsOutnumberPages));
    }
    bring_pages(pages, &[1])?;
    if pages.page(1).level() == 0 {
        return Err(LegalityFault::Broken(1, Rule::RootIsLeaf));
    }
    Ok(())
}

/// Tests all but that no pair is in two places. There are two marks and a rightlink for each page and for page 0, none
/// of them set.
fn test_shape<K: KeyClass, P: Pages<K>>(
    pages: &mut P,
    most: u16,
    marks: &mut [bool],
    links: &mut [Option<u32>],
    passed: &mut [bool],
) -> Result<(), LegalityFault<P::Fault>>
    requires few { length links.old ≤ 2 ^ 32 }
    requires marks { length marks.old ≡ suc (length (P.store pages.old).nodes) }
    requires unmarked { (q : ℕ) → marked marks.old q ≡ 0 }
    requires links { length links.old ≡ suc (length (P.store pages.old).nodes) }
    requires unlinked { slice_index_or links.old 0 None ≡ None }
    requires passed { length passed.old ≡ suc (length (P.store pages.old).nodes) }
    requires unpassed { (q : ℕ) → marked passed.old q ≡ 0 }
    ensures reads { OnlyReads P.steady P.store P.since pages.old pages.new }
    ensures why { IfErr result (IsWhy (P.why pages.old pages.new)) }
    ensures told { CountsFaults (test_fails P.fails) (P.faults pages.old) (P.faults pages.new) result }
    ensures later { OnOk result (IsWhyLater P.why pages.old pages.new) }
    ensures counter { OnOk result ((P.store pages.old).counter + 2 ≤ length (P.store pages.old).nodes) }
    ensures root { P.steady pages.old → OnOk result (0 < (node_at (P.store pages.old).nodes 1).level) }
    ensures held { OnOk result (WereHeld P.steady P.store P.since P.held pages.old) }
    ensures fits { P.steady pages.old → OnOk result ((p : ℕ) → Used (tree_of (P.store pages.old)) p
        → NodeFits (rules_of K.Key.Shape most) (tree_of (P.store pages.old)) (node_at (P.store pages.old).nodes p)) }
    ensures shape { P.steady pages.old → OnOk result (HasShape (tree_of (P.store pages.old))) }
    ensures found { P.steady pages.old → TellsBreak (rules_of K.Key.Shape most) (tree_of (P.store pages.old)) result }
{
    test_root(pages, most)?;
    test_nodes(pages, most, marks, links)?;
    match test_links::<K>(marks, links, passed) {
        Ok(()) => Ok(()),
        Err((page, rule)) => Err(LegalityFault::Broken(page, rule)),
    }
}

/// Tests that no pair is in two places, and that each note's pair is in its place, in a tree that is legal otherwise.
/// No note's leaf was reached before.
fn test_leaves<K: KeyClass, P: Pages<K>>(
    pages: &mut P,
    most: u16,
    gather: &mut Gather<Entry<K::Key>>,
    notes: &[NotedPair<Entry<K::Key>>],
    stages: &mut [NoteStage],
) -> Result<(), LegalityFault<P::Fault>>
    requires fresh { gather.old ≡ gathered_above gather.old.half None }
    requires as_many { length stages.old ≡ length notes.now }
    requires ahead { (i : ℕ) → stage_at stages.old i ≡ Ahead }
    requires in_order { Ascends (entry_cmp (keys_of K.Key.Shape)) (noted notes.now) }
    ensures reads { OnlyReads P.steady P.store P.since pages.old pages.new }
    ensures why { IfErr result (IsWhy (P.why pages.old pages.new)) }
    ensures told { CountsFaults (test_fails P.fails) (P.faults pages.old) (P.faults pages.new) result }
    ensures later { OnOk result (IsWhyLater P.why pages.old pages.new) }
    ensures legal { P.steady pages.old → IsLegalButPairs (rules_of K.Key.Shape most) (tree_of (P.store pages.old))
        → OnOk result (Legal (rules_of K.Key.Shape most) (tree_of (P.store pages.old))) }
    ensures placed { P.steady pages.old → IsLegalButPairs (rules_of K.Key.Shape most) (tree_of (P.store pages.old))
        → OnOk result (Each (IsPlaced (rules_of K.Key.Shape most) (tree_of (P.store pages.old))) notes.now) }
    ensures found { P.steady pages.old → IsLegalButPairs (rules_of K.Key.Shape most) (tree_of (P.store pages.old))
        → IfErr result (IsFound (BreaksOrLeavesOut (rules_of K.Key.Shape most)
        (tree_of (P.store pages.old)) notes.now)) }
{
    test_pairs(pages, most, gather, notes, stages)?;
    match test_found(notes, stages) {
        Ok(()) => Ok(()),
        Err(leaf) => Err(LegalityFault::Broken(leaf, Rule::PairOutOfPlace)),
    }
}

/// Tests that the tree is legal, where a node has at most `most` entries: the number of splits and the root, then
/// `test_nodes`, `test_named`, `test_chain` and `test_pairs`, whose buffer has room for twice `half` pairs. And tests
/// that the pair of each note is in the note's leaf or to the right of it on the chain: the first pass over the leaves
/// also looks each pair up among the notes, by binary search. Notes are of pairs that open transactions touched, in
/// order by row and key, and no pair has two (`are_in_order`). Two pages at most are held at a time, and each page was
/// held once.
///
/// Refused with `Memory` before any page is brought, with `Pages`, and with `Broken`: with `PairOutOfPlace` only in a
/// legal tree, at the leaf of a note whose pair is elsewhere or nowhere. With `Unsteady` only on a device that isn't
/// honest.
pub fn test_tree<K: KeyClass, P: Pages<K>>(
    alloc: Global,
    pages: &mut P,
    most: u16,
    half: usize,
    notes: &[NotedPair<Entry<K::Key>>],
) -> Result<(), LegalityFault<P::Fault>>
    requires some { 0 < half }
    requires few { half < 2 ^ 40 }
    requires in_order { Ascends (entry_cmp (keys_of K.Key.Shape)) (noted notes.now) }
    ensures reads { OnlyReads P.steady P.store P.since pages.old pages.new }
    ensures why { IfErr result (IsWhyBehind pages.old pages.new (P.why pages.old pages.new)) }
    ensures told { CountsFaults (test_fails P.fails) (P.faults pages.old) (P.faults pages.new) result }
    ensures later { OnOk result (IsWhyLater P.why pages.old pages.new) }
    ensures held { OnOk result (WereHeld P.steady P.store P.since P.held pages.old) }
    ensures legal { P.steady pages.old → OnOk result (Legal (rules_of K.Key.Shape most) (tree_of (P.store pages.old))) }
    ensures placed { P.steady pages.old
        → OnOk result (Each (IsPlaced (rules_of K.Key.Shape most) (tree_of (P.store pages.old))) notes.now) }
    ensures found { P.steady pages.old
        → IfErr result (IsFound (BreaksOrLeavesOut (rules_of K.Key.Shape most)
        (tree_of (P.store pages.old)) notes.now)) }
{
    let used = pages.used();
    let Ok(mut marks) = blank_marks(alloc, used) else {
        return Err(LegalityFault::Memory);
    };
    let Ok(mut passed) = blank_marks(alloc, used) else {
        return Err(LegalityFault::Memory);
    };
    let Ok(mut links) = blank_links(alloc, used) else {
        return Err(LegalityFault::Memory);
    };
    let Ok(mut gather) = Gather::new(alloc, half) else {
        return Err(LegalityFault::Memory);
    };
    let Ok(mut stages) = blank_stages(alloc, notes.len()) else {
        return Err(LegalityFault::Memory);
    };
    test_shape(
        pages,
        most,
        marks.as_mut_slice(),
        links.as_mut_slice(),
        passed.as_mut_slice(),
    )?;
    test_leaves(pages, most, &mut gather, notes, stages.as_mut_slice())
}

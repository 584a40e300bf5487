//! Tests a node together with each of its children.
ghost use Rattle.std.specs.Prelude.{◌≡◌, ◌<◌, ◌≤◌, [], length, slice_get, Some, OnOk, IfOk, IfErr};
ghost use Rattle.gx_node.specs.Legal.{ChildFits, NodeFits};
ghost use Rattle.gx_node.specs.Lists.{Each};
ghost use Rattle.gx_node.specs.Trees.{Child, Used, size};
ghost use Rattle.gx_node.specs.Keyed.{rules_of};
ghost use Rattle.gx_node.specs.Owner.{CountsFaults, IsWhyLater};
ghost use Rattle.gx_node.specs.Store.{node_at, tree_of};
ghost use Rattle.gx_legality.specs.Nodes.{FitsAlone};
ghost use Rattle.gx_legality.specs.Owner.{OnlyReads, IsWhy, IsFound, TellsBreak, test_fails};

use crate::bounds::{child_at, test_alone, test_below};
use crate::fault::{LegalityFault, Rule};
use gx_class::KeyClass;
use gx_node::Pages;

/// Brings pages in use, four at most. Refused with `Pages`.
pub(crate) fn bring_pages<K: KeyClass, P: Pages<K>>(
    pages: &mut P,
    these: &[u32],
) -> Result<(), LegalityFault<P::Fault>>
    requires few { length these.now ≤ 4 }
    requires used { Each (Used (tree_of (P.store pages.old))) these.now }
    ensures held { OnOk result (Each (P.held pages.new) these.now) }
    ensures reads { OnlyReads P.steady P.store P.since pages.old pages.new }
    ensures why { IfErr result (IsWhy (P.why pages.old pages.new)) }
    ensures told { CountsFaults (test_fails P.fails) (P.faults pages.old) (P.faults pages.new) result }
    ensures later { OnOk result (IsWhyLater P.why pages.old pages.new) }
    ensures found { IfErr result (IsFound (λ p rule. ⊥)) }
{
    match pages.bring(these) {
        Ok(()) => Ok(()),
        Err(fault) => Err(LegalityFault::Pages(fault)),
    }
}

/// Tests a slot's child below a page that is held. A slot after the last passes.
fn test_child<K: KeyClass, P: Pages<K>>(
    pages: &mut P,
    page: u32,
    slot: usize,
    _most: u16,
) -> Result<(), LegalityFault<P::Fault>>
    requires held { P.held pages.old page }
    requires used { Used (tree_of (P.store pages.old)) page }
    ensures held { OnOk result (P.held pages.new page) }
    ensures reads { OnlyReads P.steady P.store P.since pages.old pages.new }
    ensures why { IfErr result (IsWhy (P.why pages.old pages.new)) }
    ensures told { CountsFaults (test_fails P.fails) (P.faults pages.old) (P.faults pages.new) result }
    ensures later { OnOk result (IsWhyLater P.why pages.old pages.new) }
    ensures fits { P.steady pages.old → OnOk result ((c : Child K.Key)
        → slice_get (node_at (P.store pages.old).nodes page).children slot ≡ Some c
        → ChildFits (rules_of K.Key.Shape _most) (tree_of (P.store pages.old))
        (node_at (P.store pages.old).nodes page).level c) }
    ensures found { P.steady pages.old → TellsBreak (rules_of K.Key.Shape _most) (tree_of (P.store pages.old)) result }
{
    let room = pages.room();
    let node = pages.page(page);
    let level = node.level();
    let Some(entry) = child_at::<K>(node, room, slot) else {
        return Ok(());
    };
    let child = entry.1;
    if child < 2 || pages.used() < child {
        return Err(LegalityFault::Broken(page, Rule::ChildPage(slot)));
    }
    bring_pages(pages, &[page, child])?;
    match test_below::<K>(pages.page(child), room, level, slot, &entry.0) {
        Ok(()) => Ok(()),
        Err(rule) => Err(LegalityFault::Broken(page, rule)),
    }
}

/// Brings a page in use, and tests it by itself. It is held then.
fn test_first<K: KeyClass, P: Pages<K>>(
    pages: &mut P,
    page: u32,
    most: u16,
) -> Result<usize, LegalityFault<P::Fault>>
    requires used { Used (tree_of (P.store pages.old)) page }
    ensures held { OnOk result (P.held pages.new page) }
    ensures reads { OnlyReads P.steady P.store P.since pages.old pages.new }
    ensures why { IfErr result (IsWhy (P.why pages.old pages.new)) }
    ensures told { CountsFaults (test_fails P.fails) (P.faults pages.old) (P.faults pages.new) result }
    ensures later { OnOk result (IsWhyLater P.why pages.old pages.new) }
    ensures count { P.steady pages.old → IfOk result (λ count. count ≡ size (node_at (P.store pages.old).nodes page)) }
    ensures leaf { P.steady pages.old → OnOk result ((node_at (P.store pages.old).nodes page).level ≡ 0
        → (node_at (P.store pages.old).nodes page).children ≡ []) }
    ensures inner { P.steady pages.old → OnOk result (0 < (node_at (P.store pages.old).nodes page).level
        → (node_at (P.store pages.old).nodes page).pairs ≡ []) }
    ensures fits { P.steady pages.old
        → OnOk result (FitsAlone most (P.store pages.old).counter (node_at (P.store pages.old).nodes page)) }
    ensures found { P.steady pages.old → TellsBreak (rules_of K.Key.Shape most) (tree_of (P.store pages.old)) result }
{
    bring_pages(pages, &[page])?;
    let node = pages.page(page);
    match test_alone::<K>(node, pages.counter(), most) {
        Ok(()) => Ok(node.count()),
        Err(rule) => Err(LegalityFault::Broken(page, rule)),
    }
}

/// Tests a page in use as a node of the tree, where a node has at most `most` entries: its entries, its sequence
/// number, and each of its children beside it, so that two pages are held at a time. The page is held then.
///
/// Refused with `Pages` if a page could not be brought, and with `Broken` if the page doesn't keep a rule, which is one
/// of those from `TooManyEntries` to `Bound`.
pub fn test_node<K: KeyClass, P: Pages<K>>(
    pages: &mut P,
    page: u32,
    most: u16,
) -> Result<(), LegalityFault<P::Fault>>
    requires used { Used (tree_of (P.store pages.old)) page }
    ensures held { OnOk result (P.held pages.new page) }
    ensures reads { OnlyReads P.steady P.store P.since pages.old pages.new }
    ensures why { IfErr result (IsWhy (P.why pages.old pages.new)) }
    ensures told { CountsFaults (test_fails P.fails) (P.faults pages.old) (P.faults pages.new) result }
    ensures later { OnOk result (IsWhyLater P.why pages.old pages.new) }
    ensures fits { P.steady pages.old
        → OnOk result (NodeFits (rules_of K.Key.Shape most) (tree_of (P.store pages.old))
        (node_at (P.store pages.old).nodes page)) }
    ensures found { P.steady pages.old → TellsBreak (rules_of K.Key.Shape most) (tree_of (P.store pages.old)) result }
{
    let count = test_first(pages, page, most)?;
    for slot in 0..count {
        test_child(pages, page, slot, most)?;
    }
    Ok(())
}

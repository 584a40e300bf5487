//! The test of every page, in the order of their numbers.
ghost use Rattle.std.specs.Prelude.{◌≡◌, ℕ, suc, ◌+◌, ◌<◌, ◌⊎◌, None, length};
ghost use Rattle.std.specs.Prelude.{slice_index_or, slice_set, OnOk, IfErr};
ghost use Rattle.gx_node.specs.Legal.{NodeFits};
ghost use Rattle.gx_node.specs.Trees.{Used, times, child_pages, parents};
ghost use Rattle.gx_node.specs.Keyed.{rules_of};
ghost use Rattle.gx_node.specs.Owner.{CountsFaults, IsWhyLater};
ghost use Rattle.gx_node.specs.Store.{node_at, node_of, tree_of};
ghost use Rattle.gx_node.specs.Reading.{format_of};
ghost use Rattle.gx_legality.specs.Breaks.{Breaks};
ghost use Rattle.gx_legality.specs.Marks.{AreLinks, IsTwice, link_of, marked};
ghost use Rattle.gx_legality.specs.Owner.{OnlyReads, IsWhy, IsFound, TellsBreak, WereHeld, test_fails};

use crate::fault::{LegalityFault, Rule};
use crate::named::mark_children;
use crate::node::test_node;
use gx_class::KeyClass;
use gx_node::Pages;
use gx_page::Page;

/// A leaf's rightlink. `None` for a page that isn't a leaf.
fn link_of<K: KeyClass>(page: &Page) -> Option<u32>
    ensures { result ≡ link_of (node_of (format_of K.KeyClass) page.now) }
{
    if page.level() == 0 {
        Some(page.right())
    } else {
        None
    }
}

/// Tests a page, marks its children, and keeps its rightlink.
fn test_page<K: KeyClass, P: Pages<K>>(
    pages: &mut P,
    page: u32,
    most: u16,
    marks: &mut [bool],
    links: &mut [Option<u32>],
) -> Result<(), LegalityFault<P::Fault>>
    requires used { Used (tree_of (P.store pages.old)) page }
    requires marks { length marks.old ≡ suc (length (P.store pages.old).nodes) }
    requires links { length links.old ≡ suc (length (P.store pages.old).nodes) }
    ensures held { OnOk result (P.held pages.new page) }
    ensures reads { OnlyReads P.steady P.store P.since pages.old pages.new }
    ensures why { IfErr result (IsWhy (P.why pages.old pages.new)) }
    ensures told { CountsFaults (test_fails P.fails) (P.faults pages.old) (P.faults pages.new) result }
    ensures later { OnOk result (IsWhyLater P.why pages.old pages.new) }
    ensures fits { P.steady pages.old
        → OnOk result (NodeFits (rules_of K.Key.Shape most) (tree_of (P.store pages.old))
        (node_at (P.store pages.old).nodes page)) }
    ensures marked { P.steady pages.old → OnOk result ((q : ℕ) → q < length marks.old
        → marked marks.new q ≡ marked marks.old q + times q (child_pages (node_at (P.store pages.old).nodes page))) }
    ensures linked { P.steady pages.old
        → OnOk result (links.new ≡ slice_set links.old page (link_of (node_at (P.store pages.old).nodes page))) }
    ensures found { P.steady pages.old
        → IfErr result (IsFound (λ p rule. Breaks (rules_of K.Key.Shape most) (tree_of (P.store pages.old)) p rule
        ⊎ IsTwice (tree_of (P.store pages.old)) marks.old (node_at (P.store pages.old).nodes page) p rule)) }
{
    test_node(pages, page, most)?;
    let node = pages.page(page);
    links[page as usize] = link_of::<K>(node);
    match mark_children::<K>(node, pages.room(), marks) {
        Ok(()) => Ok(()),
        Err(twice) => Err(LegalityFault::Broken(twice, Rule::NamedTwice)),
    }
}

/// Tests all pages in use, in the order of their numbers, each as `test_node` does: a page is brought beside its parent
/// too. Marks each page that an entry names, by page, and keeps each leaf's rightlink. There is a mark and a rightlink
/// for each page and for page 0, none of them set.
///
/// Refused with `Pages`, and with `Broken` by a rule from `TooManyEntries` to `NamedTwice`.
pub fn test_nodes<K: KeyClass, P: Pages<K>>(
    pages: &mut P,
    most: u16,
    marks: &mut [bool],
    links: &mut [Option<u32>],
) -> Result<(), LegalityFault<P::Fault>>
    requires marks { length marks.old ≡ suc (length (P.store pages.old).nodes) }
    requires unmarked { (q : ℕ) → marked marks.old q ≡ 0 }
    requires links { length links.old ≡ suc (length (P.store pages.old).nodes) }
    requires unlinked { slice_index_or links.old 0 None ≡ None }
    ensures reads { OnlyReads P.steady P.store P.since pages.old pages.new }
    ensures why { IfErr result (IsWhy (P.why pages.old pages.new)) }
    ensures told { CountsFaults (test_fails P.fails) (P.faults pages.old) (P.faults pages.new) result }
    ensures later { OnOk result (IsWhyLater P.why pages.old pages.new) }
    ensures held { OnOk result (WereHeld P.steady P.store P.since P.held pages.old) }
    ensures fits { P.steady pages.old → OnOk result ((p : ℕ) → Used (tree_of (P.store pages.old)) p
        → NodeFits (rules_of K.Key.Shape most) (tree_of (P.store pages.old)) (node_at (P.store pages.old).nodes p)) }
    ensures parents { P.steady pages.old → OnOk result ((q : ℕ) → q < length marks.old
        → marked marks.new q ≡ parents (tree_of (P.store pages.old)) q) }
    ensures linked { P.steady pages.old → OnOk result (AreLinks (tree_of (P.store pages.old)) links.new) }
    ensures found { P.steady pages.old → TellsBreak (rules_of K.Key.Shape most) (tree_of (P.store pages.old)) result }
{
    for before in 0..pages.used() {
        test_page(pages, before + 1, most, marks, links)?;
    }
    Ok(())
}

//! A pass over the leaves, along the chain.
ghost use Rattle.std.specs.Prelude.{◌≡◌, List, [], ◌++◌, length, map, true, None, Some, slice_get};
ghost use Rattle.std.specs.Prelude.{OnOk, IfOk, IfErr, MatchBool, MatchOption, MatchResult};
ghost use Rattle.gx_machine.specs.Keys.{keys_of, entry_cmp};
ghost use Rattle.gx_machine.specs.declared.entry.Entry.{Entry};
ghost use Rattle.gx_node.specs.Edits.{entry_of};
ghost use Rattle.gx_node.specs.Reading.{format_of, is_node};
ghost use Rattle.gx_node.specs.Legal.{Linked};
ghost use Rattle.gx_node.specs.Trees.{Pair, Used, leaves};
ghost use Rattle.gx_node.specs.Owner.{CountsFaults, IsWhyLater};
ghost use Rattle.gx_node.specs.Store.{node_at, node_of, tree_of};
ghost use Rattle.gx_legality.specs.Entries.{IsPairTwice, entries_on};
ghost use Rattle.gx_legality.specs.Gathered.{Ascends, Gathers, StandsTwice};
ghost use Rattle.gx_legality.specs.Owner.{OnlyReads, IsWhy, IsFound, test_fails};
ghost use Rattle.gx_legality.specs.Placing.{Moves, come_to, is_noted, met, noted, passed};

use crate::fault::{LegalityFault, Rule};
use crate::gather::Gather;
use crate::node::bring_pages;
use crate::notes::{NoteStage, NotedPair, come_to_page, meet_entry};
use gx_class::KeyClass;
use gx_machine::Entry;
use gx_node::{Leaf, Pages};
use gx_page::Page;

/// A slot's row and key. `None` for a slot after the last, and on a page that isn't a leaf.
fn entry_at<K: KeyClass>(page: &Page, room: u32, slot: usize) -> Option<Entry<K::Key>>
    requires { is_node (format_of K.KeyClass) room page.now ≡ true }
    ensures { MatchOption result (slice_get (node_of (format_of K.KeyClass) page.now).pairs slot ≡ None)
        (λ e. (pair : Pair K.Key) × (slice_get (node_of (format_of K.KeyClass) page.now).pairs slot ≡ Some pair)
        × (entry_of pair ≡ e)) }
{
    if page.level() != 0 {
        return None;
    }
    let leaf = Leaf::<K>::of(page);
    if slot < leaf.len() {
        Some(leaf.entry(slot).0)
    } else {
        None
    }
}

/// Takes the pairs of a leaf. Returns `false` if a pair came twice.
fn gather_page<K: KeyClass>(page: &Page, room: u32, gather: &mut Gather<Entry<K::Key>>) -> bool
    requires { is_node (format_of K.KeyClass) room page.now ≡ true }
    ensures above { gather.new.above ≡ gather.old.above }
    ensures gathers { (all rest : List (Entry K.Key))
        → Gathers (entry_cmp (keys_of K.Key.Shape)) gather.old all
        (map entry_of (node_of (format_of K.KeyClass) page.now).pairs ++ rest)
        → MatchBool result (Gathers (entry_cmp (keys_of K.Key.Shape)) gather.new all rest)
        (StandsTwice (entry_cmp (keys_of K.Key.Shape)) all) }
{
    for slot in 0..page.count() {
        let Some(entry) = entry_at::<K>(page, room, slot) else {
            return true;
        };
        if !gather.offer(entry) {
            return false;
        }
    }
    true
}

/// Looks the pairs of a leaf up among the notes, one after another.
fn meet_page<K: KeyClass>(
    page: &Page,
    room: u32,
    notes: &[NotedPair<Entry<K::Key>>],
    stages: &mut [NoteStage],
)
    requires node { is_node (format_of K.KeyClass) room page.now ≡ true }
    requires as_many { length stages.old ≡ length notes.now }
    requires in_order { Ascends (entry_cmp (keys_of K.Key.Shape)) (noted notes.now) }
    ensures { Moves (λ n s. met (is_noted (entry_cmp (keys_of K.Key.Shape)) n)
        (map entry_of (node_of (format_of K.KeyClass) page.now).pairs) s)
        notes.now stages.old stages.new }
{
    for slot in 0..page.count() {
        let Some(entry) = entry_at::<K>(page, room, slot) else {
            return;
        };
        meet_entry(notes, stages, &entry);
    }
}

/// Brings a leaf of the chain, takes its pairs, looks them up among the notes, and returns its rightlink.
fn take_leaf<K: KeyClass, P: Pages<K>>(
    pages: &mut P,
    page: u32,
    gather: &mut Gather<Entry<K::Key>>,
    notes: &[NotedPair<Entry<K::Key>>],
    stages: &mut [NoteStage],
) -> Result<u32, LegalityFault<P::Fault>>
    requires as_many { length stages.old ≡ length notes.now }
    requires in_order { Ascends (entry_cmp (keys_of K.Key.Shape)) (noted notes.now) }
    ensures reads { OnlyReads P.steady P.store P.since pages.old pages.new }
    ensures why { IfErr result (IsWhy (P.why pages.old pages.new)) }
    ensures told { CountsFaults (test_fails P.fails) (P.faults pages.old) (P.faults pages.new) result }
    ensures later { OnOk result (IsWhyLater P.why pages.old pages.new) }
    ensures above { gather.new.above ≡ gather.old.above }
    ensures right { P.steady pages.old → IfOk result (λ right. right ≡ (node_at (P.store pages.old).nodes page).right) }
    ensures gathers { P.steady pages.old → Used (tree_of (P.store pages.old)) page → (all rest : List (Entry K.Key))
        → Gathers (entry_cmp (keys_of K.Key.Shape)) gather.old all
        (map entry_of (node_at (P.store pages.old).nodes page).pairs ++ rest)
        → MatchResult result (λ _. Gathers (entry_cmp (keys_of K.Key.Shape)) gather.new all rest)
        (IsFound (IsPairTwice (entry_cmp (keys_of K.Key.Shape)) all)) }
    ensures moves { P.steady pages.old → OnOk result (Moves (λ n s. met (is_noted (entry_cmp (keys_of K.Key.Shape)) n)
        (map entry_of (node_at (P.store pages.old).nodes page).pairs) (come_to page n.leaf s))
        notes.now stages.old stages.new) }
{
    if page == 0 || pages.used() < page {
        return Err(LegalityFault::Unsteady);
    }
    bring_pages(pages, &[page])?;
    let node = pages.page(page);
    if !gather_page::<K>(node, pages.room(), gather) {
        return Err(LegalityFault::Broken(2, Rule::PairTwice));
    }
    come_to_page(notes, stages, page);
    meet_page::<K>(node, pages.room(), notes, stages);
    Ok(node.right())
}

/// Makes a pass over all leaves, along the chain: takes their pairs, and looks them up among the notes.
pub(crate) fn take_leaves<K: KeyClass, P: Pages<K>>(
    pages: &mut P,
    gather: &mut Gather<Entry<K::Key>>,
    notes: &[NotedPair<Entry<K::Key>>],
    stages: &mut [NoteStage],
) -> Result<(), LegalityFault<P::Fault>>
    requires as_many { length stages.old ≡ length notes.now }
    requires in_order { Ascends (entry_cmp (keys_of K.Key.Shape)) (noted notes.now) }
    ensures reads { OnlyReads P.steady P.store P.since pages.old pages.new }
    ensures why { IfErr result (IsWhy (P.why pages.old pages.new)) }
    ensures told { CountsFaults (test_fails P.fails) (P.faults pages.old) (P.faults pages.new) result }
    ensures later { OnOk result (IsWhyLater P.why pages.old pages.new) }
    ensures above { gather.new.above ≡ gather.old.above }
    ensures gathers { P.steady pages.old → Linked (tree_of (P.store pages.old)) 2 (leaves (tree_of (P.store pages.old)))
        → (all : List (Entry K.Key))
        → Gathers (entry_cmp (keys_of K.Key.Shape)) gather.old all
        (entries_on (tree_of (P.store pages.old)) (leaves (tree_of (P.store pages.old))))
        → MatchResult result (λ done. Gathers (entry_cmp (keys_of K.Key.Shape)) gather.new all [])
        (IsFound (IsPairTwice (entry_cmp (keys_of K.Key.Shape)) all)) }
    ensures moves { P.steady pages.old → Linked (tree_of (P.store pages.old)) 2 (leaves (tree_of (P.store pages.old)))
        → OnOk result (Moves (λ n s. passed (tree_of (P.store pages.old))
        (is_noted (entry_cmp (keys_of K.Key.Shape)) n) n.leaf
        (leaves (tree_of (P.store pages.old))) s) notes.now stages.old stages.new) }
{
    let mut page = 2;
    for _step in 0..pages.used() {
        if page == 0 {
            return Ok(());
        }
        let right = take_leaf(pages, page, gather, notes, stages)?;
        page = right;
    }
    Ok(())
}

//! Tests that no pair is in two places.
ghost use Rattle.std.specs.Prelude.{◌≡◌, ℕ, ◌*◌, ◌^◌, ◌<◌, ◌≤◌, [], length, None, OnOk, IfErr};
ghost use Rattle.gx_machine.specs.Keys.{keys_of, entry_cmp};
ghost use Rattle.gx_node.specs.Legal.{Linked};
ghost use Rattle.gx_node.specs.Trees.{Used, leaves, size, standing, is_entry};
ghost use Rattle.gx_node.specs.Keyed.{rules_of};
ghost use Rattle.gx_node.specs.Owner.{CountsFaults, IsWhyLater};
ghost use Rattle.gx_node.specs.Store.{node_at, tree_of};
ghost use Rattle.gx_legality.specs.Entries.{entries_on};
ghost use Rattle.gx_legality.specs.Gathered.{Ascends, Gathers, gathered_above};
ghost use Rattle.gx_legality.specs.Owner.{OnlyReads, IsWhy, TellsBreak, test_fails};
ghost use Rattle.gx_legality.specs.Placing.{Moves, is_noted, noted, passed};

use crate::fault::{LegalityFault, Rule};
use crate::gather::{Gather, Pass};
use crate::leaves::take_leaves;
use crate::notes::{NoteStage, NotedPair};
use gx_class::KeyClass;
use gx_machine::Entry;
use gx_node::Pages;

/// How many pairs there may be, where a node has at most `most`. So many passes are enough.
fn most_pairs<K: KeyClass, P: Pages<K>>(pages: &P, most: u16) -> u64
    ensures product { result ≡ length (P.store pages.now).nodes * most }
    ensures small { result < 2 ^ 48 }
{
    u64::from(pages.used()) * u64::from(most)
}

/// Ends the first pass over the leaves, and makes further ones, until none is left to make.
fn finish_passes<K: KeyClass, P: Pages<K>>(
    pages: &mut P,
    most: u16,
    gather: &mut Gather<Entry<K::Key>>,
) -> Result<(), LegalityFault<P::Fault>>
    requires first { gather.old.above ≡ None }
    ensures reads { OnlyReads P.steady P.store P.since pages.old pages.new }
    ensures why { IfErr result (IsWhy (P.why pages.old pages.new)) }
    ensures told { CountsFaults (test_fails P.fails) (P.faults pages.old) (P.faults pages.new) result }
    ensures later { OnOk result (IsWhyLater P.why pages.old pages.new) }
    ensures single { P.steady pages.old → Linked (tree_of (P.store pages.old)) 2 (leaves (tree_of (P.store pages.old)))
        → ((p : ℕ) → Used (tree_of (P.store pages.old)) p → size (node_at (P.store pages.old).nodes p) ≤ most)
        → Gathers (entry_cmp (keys_of K.Key.Shape)) gather.old
        (entries_on (tree_of (P.store pages.old)) (leaves (tree_of (P.store pages.old)))) []
        → OnOk result ((row : ℕ) (key : K.Key)
        → standing (is_entry (rules_of K.Key.Shape most) row key) (tree_of (P.store pages.old)) ≤ 1) }
    ensures found { P.steady pages.old → Linked (tree_of (P.store pages.old)) 2 (leaves (tree_of (P.store pages.old)))
        → ((p : ℕ) → Used (tree_of (P.store pages.old)) p → size (node_at (P.store pages.old).nodes p) ≤ most)
        → Gathers (entry_cmp (keys_of K.Key.Shape)) gather.old
        (entries_on (tree_of (P.store pages.old)) (leaves (tree_of (P.store pages.old)))) []
        → TellsBreak (rules_of K.Key.Shape most) (tree_of (P.store pages.old)) result }
{
    let no_notes: [NotedPair<Entry<K::Key>>; 0] = [];
    let mut no_stages: [NoteStage; 0] = [];
    let passes = most_pairs::<K, P>(pages, most);
    for _pass in 0..passes + 1 {
        match gather.finish() {
            Pass::Twice => return Err(LegalityFault::Broken(2, Rule::PairTwice)),
            Pass::Done => return Ok(()),
            Pass::Again => take_leaves(pages, gather, &no_notes, &mut no_stages)?,
        }
    }
    Err(LegalityFault::Unsteady)
}

/// Tests that no pair is in two places on the chain of leaves from page 2, if a node has at most `most` entries and the
/// chain is sound. It goes over the leaves in passes, a page at a time: each pass gathers the least pairs above those
/// of the pass before, in a buffer which it sorts when it is full. The first pass also looks for the notes in each
/// leaf.
///
/// Refused with `Pages`, and with `Broken` by `PairTwice`, at page 2, where the chain begins.
pub(crate) fn test_pairs<K: KeyClass, P: Pages<K>>(
    pages: &mut P,
    most: u16,
    gather: &mut Gather<Entry<K::Key>>,
    notes: &[NotedPair<Entry<K::Key>>],
    stages: &mut [NoteStage],
) -> Result<(), LegalityFault<P::Fault>>
    requires fresh { gather.old ≡ gathered_above gather.old.half None }
    requires as_many { length stages.old ≡ length notes.now }
    requires in_order { Ascends (entry_cmp (keys_of K.Key.Shape)) (noted notes.now) }
    ensures reads { OnlyReads P.steady P.store P.since pages.old pages.new }
    ensures why { IfErr result (IsWhy (P.why pages.old pages.new)) }
    ensures told { CountsFaults (test_fails P.fails) (P.faults pages.old) (P.faults pages.new) result }
    ensures later { OnOk result (IsWhyLater P.why pages.old pages.new) }
    ensures single { P.steady pages.old → Linked (tree_of (P.store pages.old)) 2 (leaves (tree_of (P.store pages.old)))
        → ((p : ℕ) → Used (tree_of (P.store pages.old)) p → size (node_at (P.store pages.old).nodes p) ≤ most)
        → OnOk result ((row : ℕ) (key : K.Key)
        → standing (is_entry (rules_of K.Key.Shape most) row key) (tree_of (P.store pages.old)) ≤ 1) }
    ensures found { P.steady pages.old → Linked (tree_of (P.store pages.old)) 2 (leaves (tree_of (P.store pages.old)))
        → ((p : ℕ) → Used (tree_of (P.store pages.old)) p → size (node_at (P.store pages.old).nodes p) ≤ most)
        → TellsBreak (rules_of K.Key.Shape most) (tree_of (P.store pages.old)) result }
    ensures moves { P.steady pages.old → Linked (tree_of (P.store pages.old)) 2 (leaves (tree_of (P.store pages.old)))
        → OnOk result (Moves (λ n s. passed (tree_of (P.store pages.old))
        (is_noted (entry_cmp (keys_of K.Key.Shape)) n) n.leaf
        (leaves (tree_of (P.store pages.old))) s) notes.now stages.old stages.new) }
{
    take_leaves(pages, gather, notes, stages)?;
    finish_passes(pages, most, gather)
}

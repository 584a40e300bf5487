//! The split of the root.
ghost use Rattle.std.specs.Prelude.{true, ◌≡◌, ◌≢◌, ◌<◌, ◌≤◌, ◌+◌, ◌^◌, ◌⊎◌, ℕ, suc, length, Err, IfOk, IfErr, OnOk};
ghost use Rattle.std.specs.Prelude.{OnErr, [], ◌∷◌};
ghost use Rattle.gx_node.specs.declared.items.TheConstants.{MAX_ENTRIES};
ghost use Rattle.gx_node.specs.Trees.{Used, size};
ghost use Rattle.gx_node.specs.Keyed.{rules_of};
ghost use Rattle.gx_node.specs.Owner.{CountsFaults, split_fails, KeepsSince, IsWhyOfSplit, AsksToWrite, Asks, to_write};
ghost use Rattle.gx_tree.specs.Calls.{TellsRootSplit};
ghost use Rattle.gx_tree.specs.Splitting.{CanSplitRoot, DidSplitRoot};
ghost use Rattle.gx_node.specs.Store.{node_at, tree_of};

use crate::bring::bring_page;
use crate::edits::{AppendChild, Link, RaiseRoot};
use crate::halves::{Halves, halve};
use crate::moving::{take_side, turn};
use gx_class::KeyClass;
use gx_node::{MAX_ENTRIES, PagesMut, SplitFault, StepFault};

/// What a split of the root did.
#[derive(Clone, Copy, Debug)]
pub struct RootSplit<B> {
    /// The page of the entries that stay on the left.
    pub first: u32,
    /// The page of those on the right.
    pub second: u32,
    /// The first page's bound.
    pub left: B,
    /// The second's.
    pub right: B,
}

/// How the root, which is held, can be split.
///
/// Refused with `PagesFull` if fewer than two pages are left, and with `Damaged` if the root is a leaf, isn't full, or
/// has the greatest level. The root's keys are written over the first of `keys`.
fn plan_root<K: KeyClass, P: PagesMut<K>>(
    pages: &P,
    most: usize,
    keys: &mut [K::Key],
) -> Result<Halves<K::Key>, SplitFault<P::Fault>>
    requires most { (4 ≤ most) × (most ≤ MAX_ENTRIES) }
    requires space { MAX_ENTRIES ≤ length keys.old }
    requires held { P.held pages.now 1 }
    ensures some { IfOk result (λ h. CanSplitRoot (rules_of K.Key.Shape most) K.sides_of (P.store pages.now) h.sides
        h.left h.right) }
    ensures why { IfErr result (IsWhyOfSplit (λ _. ⊥)) }
    ensures only_full { OnOk result (most ≤ size (node_at (P.store pages.now).nodes 1)) }
    ensures full { result ≡ Err SplitFault.PagesFull → (P.store pages.now).room < length (P.store pages.now).nodes + 2 }
    ensures damaged { result ≡ Err (SplitFault.Step StepFault.Damaged)
        → 0 < (node_at (P.store pages.now).nodes 1).level
        → (node_at (P.store pages.now).nodes 1).level + 1 < 2 ^ 16
        → (size (node_at (P.store pages.now).nodes 1) < most)
        ⊎ (MAX_ENTRIES < size (node_at (P.store pages.now).nodes 1)) }
{
    let room = pages.room();
    let used = pages.used();
    let root = pages.page(1);
    if root.level() == 0 || root.level() == u16::MAX {
        return Err(SplitFault::Step(StepFault::Damaged));
    }
    if used >= room || used + 1 >= room {
        return Err(SplitFault::PagesFull);
    }
    match halve::<K>(root, room, most, keys) {
        Some(halves) => Ok(halves),
        None => Err(SplitFault::Step(StepFault::Damaged)),
    }
}

/// Makes a split of the root that is prepared. `_most` isn't read: it says which nodes are full.
fn make_root_split<K: KeyClass, P: PagesMut<K>>(
    pages: &mut P,
    halves: &Halves<K::Key>,
    _most: usize,
) -> RootSplit<K::Key>
    requires held { P.held pages.old 1 }
    requires changing { P.changing pages.old 1 }
    requires used { Used (tree_of (P.store pages.old)) 1 }
    requires ready { 2 ≤ P.ready pages.old }
    requires can { CanSplitRoot (rules_of K.Key.Shape _most) K.sides_of (P.store pages.old) halves.now.sides
        halves.now.left halves.now.right }
    ensures split { DidSplitRoot (rules_of K.Key.Shape _most) K.sides_of (P.store pages.old) (P.store pages.new)
        result }
    ensures steady { P.steady pages.old → P.steady pages.new }
    ensures since { (was : P) (q : ℕ) → q ≢ 1 → q ≢ suc (length (P.store pages.old).nodes)
        → q ≢ suc (suc (length (P.store pages.old).nodes)) → P.since was pages.old q → P.since was pages.new q }
    ensures held { P.held pages.new 1 × P.held pages.new result.first × P.held pages.new result.second }
    ensures changing { P.changing pages.new 1 × P.changing pages.new result.first × P.changing pages.new result.second }
    ensures asked { Asks P.asked [] pages.old pages.new }
    ensures told { P.faults pages.new ≡ P.faults pages.old }
    ensures places { (result.first ≡ suc (length (P.store pages.old).nodes))
        × (result.second ≡ suc (suc (length (P.store pages.old).nodes))) }
    ensures keys { K.is_key result.left × K.is_key result.right }
{
    let sides = halves.sides();
    let (left, right) = (halves.left(), halves.right());
    K::known(&left);
    K::known(&right);
    let mut others = [false; MAX_ENTRIES];
    let others = &mut others[..sides.len()];
    turn(sides, others);
    let first = take_side(pages, 1, sides);
    let second = take_side(pages, 1, others);
    let link = Link {
        nsn: 0,
        right: second,
    };
    pages.change(first, link);
    let end = Link { nsn: 0, right: 0 };
    pages.change(second, end);
    let raised = RaiseRoot {
        first: AppendChild {
            bound: left,
            page: first,
        },
        second: AppendChild {
            bound: right,
            page: second,
        },
    };
    pages.change(1, raised);
    RootSplit {
        first,
        second,
        left,
        right,
    }
}

/// Splits the root, which is full. Its entries move to two new pages of its level, with the sequence number 0, of which
/// the first has the second as its rightlink; the root, a level higher, holds an entry for each. So the root stays on
/// page 1, and the counter of splits doesn't change: no search moves right from the root.
///
/// Refused with `PagesFull` only if fewer than two pages are left; with `Pages` if the root could not be brought, or
/// what the changes need could not be had; and with `Damaged` if page 1 isn't a full inner node, or has the level
/// 65535. Nothing has changed then. The root's keys are written over the first of `keys`.
#[tactic(auto, using(crate::proofs::Owner::why_any, crate::proofs::Owner::fails_none))]
pub fn split_root_step<K: KeyClass, P: PagesMut<K>>(
    pages: &mut P,
    most: usize,
    keys: &mut [K::Key],
) -> Result<RootSplit<K::Key>, SplitFault<P::Fault>>
    requires most { (4 ≤ most) × (most ≤ MAX_ENTRIES) }
    requires space { MAX_ENTRIES ≤ length keys.old }
    ensures tells { TellsRootSplit (rules_of K.Key.Shape most) K.sides_of K.is_key result (P.steady pages.old)
        (P.store pages.old) (P.store pages.new) }
    ensures steady { P.steady pages.old → P.steady pages.new }
    ensures since { (was : P) (q : ℕ) → q ≢ 1 → q ≢ suc (length (P.store pages.old).nodes)
        → q ≢ suc (suc (length (P.store pages.old).nodes)) → P.since was pages.old q → P.since was pages.new q }
    ensures kept { OnErr result (KeepsSince P.since pages.old pages.new) }
    ensures asked { OnOk result (Asks P.asked (to_write true (1 ∷ []) 2) pages.old pages.new) }
    ensures tried { OnErr result (AsksToWrite P.asked (1 ∷ []) 2 pages.old pages.new) }
    ensures why { IfErr result (IsWhyOfSplit (P.why pages.old pages.new)) }
    ensures told { CountsFaults (split_fails P.fails) (P.faults pages.old) (P.faults pages.new) result }
    ensures held { IfOk result (λ did. P.held pages.new 1 × P.held pages.new did.first × P.held pages.new did.second) }
    ensures changing { IfOk result (λ did. P.changing pages.new 1 × P.changing pages.new did.first
        × P.changing pages.new did.second) }
    ensures places { IfOk result (λ did. (did.first ≡ suc (length (P.store pages.old).nodes))
        × (did.second ≡ suc (suc (length (P.store pages.old).nodes)))) }
    ensures full { P.steady pages.old → result ≡ Err SplitFault.PagesFull
        → (P.store pages.old).room < length (P.store pages.old).nodes + 2 }
{
    bring_page(pages, 1)?;
    let halves = plan_root(pages, most, keys)?;
    pages.prepare(&[1], 2)?;
    Ok(make_root_split(pages, &halves, most))
}

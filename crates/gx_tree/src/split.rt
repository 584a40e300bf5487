//! The split of a node.
ghost use Rattle.std.specs.Prelude.{◌≡◌, ◌≢◌, ◌<◌, ◌≤◌, ◌+◌, ◌^◌, ◌⊎◌, ℕ, suc, true, false, length, map};
ghost use Rattle.std.specs.Prelude.{slice_index_or, ◌==◌, Err, IfOk, IfErr, IfSome, IfNone, OnOk, OnErr, [], ◌∷◌};
ghost use Rattle.gx_node.specs.Hits.{IsNextHit};
ghost use Rattle.gx_node.specs.Reading.{format_of, is_node};
ghost use Rattle.gx_node.specs.declared.items.TheConstants.{MAX_ENTRIES};
ghost use Rattle.gx_node.specs.Trees.{Used, size, times, child_pages};
ghost use Rattle.gx_node.specs.Keyed.{rules_of};
ghost use Rattle.gx_node.specs.Owner.{CountsFaults, split_fails, KeepsSince, KeepsSinceBut, AsksToWrite, Asks};
ghost use Rattle.gx_node.specs.Owner.{IsWhyOfSplit, to_write};
ghost use Rattle.gx_tree.specs.Calls.{ReadsPages, TellsSplit};
ghost use Rattle.gx_tree.specs.Splitting.{NamesOnce, CanSplit, DidSplit, HasNoPlace, parent_of, has_split};
ghost use Rattle.gx_node.specs.Store.{node_of, node_at, tree_of, Stays, with_node};

use crate::edits::{AppendChild, Link, SetBound};
use crate::halves::{Halves, halve};
use crate::moving::{keep_side, take_side, turn};
use gx_class::KeyClass;
use gx_node::{Inner, MAX_ENTRIES, Pages, PagesMut, SplitFault, StepFault};
use gx_page::Page;

/// What a split did.
#[derive(Clone, Copy, Debug)]
pub struct Split<B> {
    /// The new sibling's page.
    pub sibling: u32,
    /// The node's slot in its parent.
    pub slot: usize,
    /// The node's bound.
    pub left: B,
    /// The sibling's.
    pub right: B,
}

/// Whether a slot's child is on this page.
fn is_named<K: KeyClass>(inner: &Inner<K>, page: u32, slot: usize) -> bool
    requires { slot < length inner.now.children }
    ensures { slice_index_or (map (λ c. c.page == page) inner.now.children) slot false ≡ result }
{
    inner.page_of(slot) == page
}

/// The first slot from a slot on whose child is on this page.
fn next_named<K: KeyClass>(inner: &Inner<K>, page: u32, from: usize) -> Option<usize>
    requires { from ≤ length inner.now.children }
    ensures { IsNextHit (map (λ c. c.page == page) inner.now.children) from result }
{
    for slot in from..inner.len() {
        if is_named(inner, page, slot) {
            return Some(slot);
        }
    }
    None
}

/// The slot of the one child on this page. `None` if none is, or more than one.
fn slot_of<K: KeyClass>(inner: &Inner<K>, page: u32) -> Option<usize>
    ensures once { IfSome result (NamesOnce inner.now.children page) }
    ensures none { IfNone result (times page (child_pages inner.now) ≢ 1) }
{
    let count = inner.len();
    let Some(slot) = next_named(inner, page, 0) else {
        return None;
    };
    if slot + 1 == count {
        return Some(slot);
    }
    match next_named(inner, page, slot + 1) {
        Some(_) => None,
        None => Some(slot),
    }
}

/// The slot of the one child on a page, in a parent that isn't full. `None` if there is no such place.
fn place_of<K: KeyClass>(above: &Page, room: u32, page: u32, most: usize) -> Option<usize>
    requires node { is_node (format_of K.KeyClass) room above.now ≡ true }
    requires inner { 0 < (node_of (format_of K.KeyClass) above.now).level }
    ensures once { IfSome result (NamesOnce (node_of (format_of K.KeyClass) above.now).children page) }
    ensures few { IfSome result (λ _. size (node_of (format_of K.KeyClass) above.now) < most) }
    ensures none { IfNone result ((times page (child_pages (node_of (format_of K.KeyClass) above.now)) ≢ 1)
        ⊎ (most ≤ size (node_of (format_of K.KeyClass) above.now))) }
{
    if above.count() >= most {
        return None;
    }
    slot_of(&Inner::<K>::of(above, room), page)
}

/// Holds a node and its parent.
fn bring_both<K: KeyClass, P: Pages<K>>(
    pages: &mut P,
    page: u32,
    parent: u32,
) -> Result<(), StepFault<P::Fault>>
    ensures held { OnOk result (P.held pages.new page × P.held pages.new parent) }
    ensures used { OnOk result (Used (tree_of (P.store pages.new)) page × Used (tree_of (P.store pages.new)) parent
        × (page ≢ parent)) }
    ensures stays { Stays (P.steady pages.old) (P.store pages.old) (P.store pages.new) }
    ensures reads { ReadsPages P.Pages (page ∷ parent ∷ []) pages.old pages.new result }
    ensures damaged { result ≡ Err StepFault.Damaged → Used (tree_of (P.store pages.new)) page
        → Used (tree_of (P.store pages.new)) parent → page ≡ parent }
{
    let used = pages.used();
    if page == 0 || used < page || parent == 0 || used < parent || page == parent {
        return Err(StepFault::Damaged);
    }
    pages.bring(&[page, parent])?;
    Ok(())
}

/// Where and how a node that is held can be split. `None` if its parent has no place for that.
///
/// Refused with `PagesFull` if no page is left, and with `Damaged` if the parent is a leaf, the node isn't full, or the
/// counter of splits is at its end. The node's keys are written over the first of `keys`.
fn plan_split<K: KeyClass, P: PagesMut<K>>(
    pages: &P,
    page: u32,
    parent: u32,
    most: usize,
    keys: &mut [K::Key],
) -> Result<Option<(usize, Halves<K::Key>)>, SplitFault<P::Fault>>
    requires most { (4 ≤ most) × (most ≤ MAX_ENTRIES) }
    requires space { MAX_ENTRIES ≤ length keys.old }
    requires held { P.held pages.now page × P.held pages.now parent }
    ensures some { IfOk result (λ plan. IfSome plan (λ p. CanSplit (rules_of K.Key.Shape most) K.sides_of
        (P.store pages.now) page parent p.0 p.1.sides p.1.left p.1.right)) }
    ensures none { IfOk result (λ plan. IfNone plan (HasNoPlace (rules_of K.Key.Shape most)
        (tree_of (P.store pages.now)) page parent)) }
    ensures full { result ≡ Err SplitFault.PagesFull → (P.store pages.now).room ≤ length (P.store pages.now).nodes }
    ensures why { IfErr result (IsWhyOfSplit (λ _. ⊥)) }
    ensures placed { result ≡ Err SplitFault.PagesFull
        → ¬ HasNoPlace (rules_of K.Key.Shape most) (tree_of (P.store pages.now)) page parent }
    ensures only_full { IfOk result (λ plan. IfSome plan (λ _. most ≤ size (node_at (P.store pages.now).nodes page))) }
    ensures damaged { result ≡ Err (SplitFault.Step StepFault.Damaged)
        → 0 < (node_at (P.store pages.now).nodes parent).level
        → (P.store pages.now).counter + 1 < 2 ^ 64
        → (size (node_at (P.store pages.now).nodes page) < most)
        ⊎ (MAX_ENTRIES < size (node_at (P.store pages.now).nodes page)) }
{
    let room = pages.room();
    let above = pages.page(parent);
    if above.level() == 0 || pages.counter() == u64::MAX {
        return Err(SplitFault::Step(StepFault::Damaged));
    }
    let Some(slot) = place_of::<K>(above, room, page, most) else {
        return Ok(None);
    };
    if pages.used() >= room {
        return Err(SplitFault::PagesFull);
    }
    match halve::<K>(pages.page(page), room, most, keys) {
        Some(halves) => Ok(Some((slot, halves))),
        None => Err(SplitFault::Step(StepFault::Damaged)),
    }
}

/// Writes a node's bound to its slot in the parent, and appends the sibling's entry.
fn name_halves<K: KeyClass, P: PagesMut<K>>(
    pages: &mut P,
    parent: u32,
    _page: u32,
    bound: SetBound<K::Key>,
    sibling: AppendChild<K::Key>,
)
    requires held { P.held pages.old parent }
    requires changing { P.changing pages.old parent }
    requires inner { 0 < (node_at (P.store pages.old).nodes parent).level }
    requires names { NamesOnce (node_at (P.store pages.old).nodes parent).children _page bound.slot }
    requires few { length (node_at (P.store pages.old).nodes parent).children < MAX_ENTRIES }
    requires sibling { (1 ≤ sibling.page) × (sibling.page ≤ (P.store pages.old).room) }
    ensures named { P.store pages.new ≡ with_node (P.store pages.old) parent
        (parent_of (node_at (P.store pages.old).nodes parent) _page bound.bound sibling.page sibling.bound) }
    ensures held { (q : ℕ) → P.held pages.old q → P.held pages.new q }
    ensures changing { (q : ℕ) → P.changing pages.old q → P.changing pages.new q }
    ensures steady { P.steady pages.old → P.steady pages.new }
    ensures since { KeepsSinceBut P.since parent pages.old pages.new }
    ensures asked { Asks P.asked [] pages.old pages.new }
    ensures told { P.faults pages.new ≡ P.faults pages.old }
{
    pages.change(parent, bound);
    pages.change(parent, sibling);
}

/// Makes a split that is prepared. `_most` isn't read: it says which nodes are full.
fn make_split<K: KeyClass, P: PagesMut<K>>(
    pages: &mut P,
    page: u32,
    parent: u32,
    slot: usize,
    halves: &Halves<K::Key>,
    _most: usize,
) -> Split<K::Key>
    requires held { P.held pages.old page × P.held pages.old parent }
    requires changing { P.changing pages.old page × P.changing pages.old parent }
    requires used { Used (tree_of (P.store pages.old)) page × Used (tree_of (P.store pages.old)) parent
        × (page ≢ parent) }
    requires ready { 0 < P.ready pages.old }
    requires most { _most ≤ MAX_ENTRIES }
    requires can { CanSplit (rules_of K.Key.Shape _most) K.sides_of (P.store pages.old) page parent slot
        halves.now.sides halves.now.left halves.now.right }
    ensures split { DidSplit (rules_of K.Key.Shape _most) K.sides_of (P.store pages.old) (P.store pages.new) page parent
        result }
    ensures steady { P.steady pages.old → P.steady pages.new }
    ensures since { (was : P) (q : ℕ) → q ≢ page → q ≢ parent → q ≢ suc (length (P.store pages.old).nodes)
        → P.since was pages.old q → P.since was pages.new q }
    ensures held { P.held pages.new page × P.held pages.new parent × P.held pages.new result.sibling }
    ensures changing { P.changing pages.new page × P.changing pages.new parent × P.changing pages.new result.sibling }
    ensures sibling { result.sibling ≡ suc (length (P.store pages.old).nodes) }
    ensures asked { Asks P.asked [] pages.old pages.new }
    ensures told { P.faults pages.new ≡ P.faults pages.old }
    ensures keys { K.is_key result.left × K.is_key result.right }
{
    let sides = halves.sides();
    let (left, right) = (halves.left(), halves.right());
    K::known(&left);
    K::known(&right);
    let mut others = [false; MAX_ENTRIES];
    let others = &mut others[..sides.len()];
    turn(sides, others);
    let sibling = take_side(pages, page, others);
    let link = Link {
        nsn: pages.counter() + 1,
        right: sibling,
    };
    keep_side(pages, page, sides, link);
    let bound = SetBound { slot, bound: left };
    let child = AppendChild {
        bound: right,
        page: sibling,
    };
    name_halves(pages, parent, page, bound, child);
    pages.count_split();
    Split {
        sibling,
        slot,
        left,
        right,
    }
}

/// Splits the node on a page, which is full, below its parent. The counter of splits rises by one. The node gets its
/// new value as its sequence number, and a new sibling as its rightlink; the sibling gets the number and the rightlink
/// that the node had, so that a search that remembers an older number goes on to it (Kornacker, Mohan, Hellerstein
/// 1997). In the parent the node's entry gets the union of the keys that stay, and the sibling's entry is appended.
/// `None` if the parent doesn't name the page, names it twice, or is full: the descent begins again at the root.
///
/// Refused with `PagesFull` only if no page is left; with `Pages` if a page could not be brought, or what the changes
/// need could not be had; and with `Damaged` if the two aren't a full node and an inner node above it, or the counter
/// is at its end. Nothing has changed then. The node's keys are written over the first of `keys`.
#[tactic(auto, using(crate::proofs::Owner::why_any, crate::proofs::Owner::fails_none))]
pub fn split_step<K: KeyClass, P: PagesMut<K>>(
    pages: &mut P,
    page: u32,
    parent: u32,
    most: usize,
    keys: &mut [K::Key],
) -> Result<Option<Split<K::Key>>, SplitFault<P::Fault>>
    requires most { (4 ≤ most) × (most ≤ MAX_ENTRIES) }
    requires space { MAX_ENTRIES ≤ length keys.old }
    ensures tells { TellsSplit (rules_of K.Key.Shape most) K.sides_of K.is_key page parent result (P.steady pages.old)
        (P.store pages.old) (P.store pages.new) }
    ensures steady { P.steady pages.old → P.steady pages.new }
    ensures since { (was : P) (q : ℕ) → q ≢ page → q ≢ parent → q ≢ suc (length (P.store pages.old).nodes)
        → P.since was pages.old q → P.since was pages.new q }
    ensures kept { OnErr result (KeepsSince P.since pages.old pages.new) }
    ensures asked { IfOk result (λ did. Asks P.asked (to_write (has_split did) (page ∷ parent ∷ []) 1) pages.old
        pages.new) }
    ensures tried { OnErr result (AsksToWrite P.asked (page ∷ parent ∷ []) 1 pages.old pages.new) }
    ensures none { IfOk result (λ did. IfNone did (KeepsSince P.since pages.old pages.new)) }
    ensures why { IfErr result (IsWhyOfSplit (P.why pages.old pages.new)) }
    ensures told { CountsFaults (split_fails P.fails) (P.faults pages.old) (P.faults pages.new) result }
    ensures held { IfOk result (λ did. IfSome did (λ split.
        P.held pages.new page × P.held pages.new parent × P.held pages.new split.sibling)) }
    ensures changing { IfOk result (λ did. IfSome did (λ split.
        P.changing pages.new page × P.changing pages.new parent × P.changing pages.new split.sibling)) }
    ensures sibling { IfOk result (λ did. IfSome did (λ split.
        split.sibling ≡ suc (length (P.store pages.old).nodes))) }
    ensures full { P.steady pages.old → result ≡ Err SplitFault.PagesFull
        → (P.store pages.old).room ≤ length (P.store pages.old).nodes }
{
    bring_both(pages, page, parent)?;
    let Some((slot, halves)) = plan_split(pages, page, parent, most, keys)? else {
        return Ok(None);
    };
    pages.prepare(&[page, parent], 1)?;
    Ok(Some(make_split(pages, page, parent, slot, &halves, most)))
}

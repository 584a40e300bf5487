//! A whole insert by the steps of a descent.
ghost use Rattle.std.specs.Prelude.{◌≡◌, ◌<◌, ◌≤◌, ◌+◌, ◌^◌, Bool, length, Err, IfOk, IfErr, IfSome, IfNone, OnOk};
ghost use Rattle.std.specs.Prelude.{OnErr};
ghost use Rattle.gx_node.specs.declared.items.TheConstants.{MAX_ENTRIES};
ghost use Rattle.gx_node.specs.Legal.{Legal};
ghost use Rattle.gx_node.specs.Lists.{one_if};
ghost use Rattle.gx_node.specs.Trees.{Pair, standing, is_entry};
ghost use Rattle.gx_memory_tree.specs.Inserting.{GoesOn, HasAdded, IsFullAt, IsInsert, MakesRoom, MakesWay};
ghost use Rattle.gx_memory_tree.specs.Inserting.{SplitsOrNot, from_top, live_and};
ghost use Rattle.gx_node.specs.Keyed.{rules_of, AreKeys};
ghost use Rattle.gx_node.specs.Owner.{IsWhyOfSplit};
ghost use Rattle.gx_node.specs.Store.{node_at, tree_of};
ghost use Rattle.gx_tree.specs.Writing.{live};

use gx_class::KeyClass;
use gx_machine::Entry;
use gx_node::MAX_ENTRIES;
use gx_tree::{
    Descended, Pages, PagesMut, SplitFault, StepFault, TraversalItem, add_step, descend_step, laws,
    split_root_step, split_step, sweep_step,
};

/// Where an insert is: an item of its descent, and the page from which it came to it, 0 if it begins.
#[derive(Clone, Copy, Debug)]
pub struct DescentPlace {
    /// The item.
    pub item: TraversalItem,
    /// The page from which it came.
    pub parent: u32,
}

impl DescentPlace {
    /// Where an insert begins: at the root. The number of pages in use is read only for its range.
    pub fn top<K: KeyClass, P: Pages<K>>(pages: &P) -> DescentPlace
        ensures top { result ≡ from_top (tree_of (P.store pages.now)) }
        ensures few { length (P.store pages.now).nodes < 2 ^ 32 }
    {
        let _used = pages.used();
        DescentPlace {
            item: TraversalItem::new(1, pages.counter()),
            parent: 0,
        }
    }
}

/// Splits the full node of a place, below its parent or as the root. If its parent has no place for that, nothing has
/// changed.
///
/// Refused as the splits are; nothing has changed then. The node's keys are written over the first of `keys`.
fn split_place<K: KeyClass, P: PagesMut<K>>(
    pages: &mut P,
    place: DescentPlace,
    most: usize,
    keys: &mut [K::Key],
) -> Result<(), SplitFault<P::Fault>>
    requires most { (4 ≤ most) × (most ≤ MAX_ENTRIES) }
    requires space { MAX_ENTRIES ≤ length keys.old }
    ensures steady { P.steady pages.old → P.steady pages.new }
    ensures split { P.steady pages.old → IsFullAt (rules_of K.Key.Shape most) (tree_of (P.store pages.old)) place
        → OnOk result (SplitsOrNot (rules_of K.Key.Shape most) K.is_key (tree_of (P.store pages.old))
        (tree_of (P.store pages.new)) place) }
    ensures refused { P.steady pages.old → OnErr result (P.store pages.new ≡ P.store pages.old) }
    ensures full { P.steady pages.old → result ≡ Err SplitFault.PagesFull
        → (P.store pages.new).room < length (P.store pages.new).nodes + 2 }
    ensures damaged { P.steady pages.old → IsFullAt (rules_of K.Key.Shape most) (tree_of (P.store pages.old)) place
        → result ≡ Err (SplitFault.Step StepFault.Damaged)
        → 2 ^ 16 ≤ (node_at (P.store pages.new).nodes 1).level + 1 }
    ensures why { IfErr result (IsWhyOfSplit (λ fault. (was : P) × P.why was pages.new fault)) }
{
    let page = place.item.page();
    if page == 1 {
        split_root_step(pages, most, keys)?;
        return Ok(());
    }
    // read for its range: each split took a page, so the counter of splits isn't at its end
    let _used = pages.used();
    split_step(pages, page, place.parent, most, keys)?;
    Ok(())
}

/// Makes room at a full leaf: removes its marked pairs if it has some, else splits it. Returns where the insert goes
/// on.
///
/// Refused as the splits are; nothing has changed then.
fn make_room<K: KeyClass, P: PagesMut<K>>(
    pages: &mut P,
    place: DescentPlace,
    most: usize,
    keys: &mut [K::Key],
) -> Result<DescentPlace, SplitFault<P::Fault>>
    requires most { (4 ≤ most) × (most ≤ MAX_ENTRIES) }
    requires space { MAX_ENTRIES ≤ length keys.old }
    ensures steady { P.steady pages.old → P.steady pages.new }
    ensures room { P.steady pages.old → IsFullAt (rules_of K.Key.Shape most) (tree_of (P.store pages.old)) place
        → ((tree_of (P.store pages.old)).node place.item.page).level ≡ 0
        → IfOk result (MakesRoom (rules_of K.Key.Shape most) K.is_key (tree_of (P.store pages.old))
        (tree_of (P.store pages.new)) place) }
    ensures refused { P.steady pages.old → OnErr result (P.store pages.new ≡ P.store pages.old) }
    ensures full { P.steady pages.old → result ≡ Err SplitFault.PagesFull
        → (P.store pages.new).room < length (P.store pages.new).nodes + 2 }
    ensures damaged { P.steady pages.old → IsFullAt (rules_of K.Key.Shape most) (tree_of (P.store pages.old)) place
        → ((tree_of (P.store pages.old)).node place.item.page).level ≡ 0
        → result ≡ Err (SplitFault.Step StepFault.Damaged)
        → 2 ^ 16 ≤ (node_at (P.store pages.new).nodes 1).level + 1 }
    ensures why { IfErr result (IsWhyOfSplit (λ fault. (was : P) × P.why was pages.new fault)) }
{
    if sweep_step(pages, place.item.page(), |_| false)? {
        return Ok(place);
    }
    split_place(pages, place, most, keys)?;
    Ok(DescentPlace::top(pages))
}

/// Makes a step of an insert of a live pair that the tree doesn't have: goes down by the child of least penalty, whose
/// bound it widens first if that is needed; makes room if a node is full; adds the pair at a leaf that has room.
/// Returns the place where the insert goes on, or `None` once the pair was added.
///
/// Refused with `Pages` if a page could not be brought or prepared, with `PagesFull` only if fewer than two pages are
/// left, and with `Damaged` only if the root has the level 65535. Nothing has changed then. Keys of a node that is
/// split are written over the first of `keys`.
pub fn insert_step<K: KeyClass, P: PagesMut<K>>(
    pages: &mut P,
    place: DescentPlace,
    entry: &Entry<K::Key>,
    most: usize,
    keys: &mut [K::Key],
) -> Result<Option<DescentPlace>, SplitFault<P::Fault>>
    requires most { (4 ≤ most) × (most ≤ MAX_ENTRIES) }
    requires space { MAX_ENTRIES ≤ length keys.old }
    ensures steady { P.steady pages.old → P.steady pages.new }
    ensures goes_on { P.steady pages.old
        → IsInsert (rules_of K.Key.Shape most) K.is_key (tree_of (P.store pages.old)) entry.now place
        → IfOk result (λ next. IfSome next (GoesOn (rules_of K.Key.Shape most) K.is_key (tree_of (P.store pages.old))
        (tree_of (P.store pages.new)) entry.now place)) }
    ensures added { P.steady pages.old
        → IsInsert (rules_of K.Key.Shape most) K.is_key (tree_of (P.store pages.old)) entry.now place
        → IfOk result (λ next. IfNone next (HasAdded (rules_of K.Key.Shape most) K.is_key (tree_of (P.store pages.old))
        (tree_of (P.store pages.new)) entry.now)) }
    ensures refused { P.steady pages.old → OnErr result (P.store pages.new ≡ P.store pages.old) }
    ensures full { P.steady pages.old → result ≡ Err SplitFault.PagesFull
        → (P.store pages.new).room < length (P.store pages.new).nodes + 2 }
    ensures damaged { P.steady pages.old
        → IsInsert (rules_of K.Key.Shape most) K.is_key (tree_of (P.store pages.old)) entry.now place
        → result ≡ Err (SplitFault.Step StepFault.Damaged)
        → 2 ^ 16 ≤ (node_at (P.store pages.new).nodes 1).level + 1 }
    ensures why { IfErr result (IsWhyOfSplit (λ fault. (was : P) × P.why was pages.new fault)) }
{
    K::known(&entry.key);
    laws::keys_are_lawful::<K::Key>();
    let page = place.item.page();
    match descend_step(pages, &place.item, &entry.key, most)? {
        Descended::Again => Ok(Some(DescentPlace::top(pages))),
        Descended::Down(item) => Ok(Some(DescentPlace { item, parent: page })),
        Descended::Widened(item, _slot, _bound) => Ok(Some(DescentPlace { item, parent: page })),
        Descended::Leaf => {
            add_step(pages, page, entry, most)?;
            Ok(None)
        }
        Descended::FullLeaf => Ok(Some(make_room(pages, place, most, keys)?)),
        Descended::FullInner => {
            split_place(pages, place, most, keys)?;
            Ok(Some(DescentPlace::top(pages)))
        }
    }
}

/// Inserts a live pair that the tree doesn't have, marked or not, with no steps of others in between, where a node has
/// at most `most` entries: goes down to a leaf (Guttman 1984), and splits full nodes on the way (Kornacker, Mohan,
/// Hellerstein 1997). If a leaf is full its marked pairs are removed first, since no session claims them.
///
/// Refused with `Pages` if a page could not be brought or prepared, with `PagesFull` only if fewer than two pages are
/// left, and with `Damaged` only if the root has the level 65535. The tree doesn't have the pair then, and is as the
/// steps so far have left it: legal, with the live pairs that it had. Keys of nodes that are split are written over the
/// first of `keys`.
pub fn insert<K: KeyClass, P: PagesMut<K>>(
    pages: &mut P,
    entry: &Entry<K::Key>,
    most: usize,
    keys: &mut [K::Key],
) -> Result<(), SplitFault<P::Fault>>
    requires steady { P.steady pages.old }
    requires most { (4 ≤ most) × (most ≤ MAX_ENTRIES) }
    requires space { MAX_ENTRIES ≤ length keys.old }
    requires legal { Legal (rules_of K.Key.Shape most) (tree_of (P.store pages.old)) }
    requires keys { AreKeys K.is_key (tree_of (P.store pages.old)) }
    requires absent { standing (is_entry (rules_of K.Key.Shape most) entry.now.row entry.now.key)
        (tree_of (P.store pages.old)) ≡ 0 }
    ensures steady { P.steady pages.new }
    ensures legal { Legal (rules_of K.Key.Shape most) (tree_of (P.store pages.new)) }
    ensures keys { AreKeys K.is_key (tree_of (P.store pages.new)) }
    ensures added { OnOk result (HasAdded (rules_of K.Key.Shape most) K.is_key (tree_of (P.store pages.old))
        (tree_of (P.store pages.new)) entry.now) }
    ensures live { OnOk result ((test : Pair K.Key → Bool)
        → standing (live_and test) (tree_of (P.store pages.new))
        ≡ standing (live_and test) (tree_of (P.store pages.old)) + one_if (test (live entry.now))) }
    ensures once { OnOk result (standing (is_entry (rules_of K.Key.Shape most) entry.now.row entry.now.key)
        (tree_of (P.store pages.new)) ≡ 1) }
    ensures refused { OnErr result (MakesWay (rules_of K.Key.Shape most) (tree_of (P.store pages.old))
        (tree_of (P.store pages.new))) }
    ensures absent { OnErr result (standing (is_entry (rules_of K.Key.Shape most) entry.now.row entry.now.key)
        (tree_of (P.store pages.new)) ≡ 0) }
    ensures full { result ≡ Err SplitFault.PagesFull → (P.store pages.new).room < length (P.store pages.new).nodes + 2 }
    ensures damaged { result ≡ Err (SplitFault.Step StepFault.Damaged)
        → 2 ^ 16 ≤ (node_at (P.store pages.new).nodes 1).level + 1 }
    ensures why { IfErr result (IsWhyOfSplit (λ fault. (was : P) × P.why was pages.new fault)) }
{
    laws::keys_are_lawful::<K::Key>();
    let mut place = DescentPlace::top(pages);
    'steps: loop {
        match insert_step(pages, place, entry, most, keys)? {
            Some(next) => place = next,
            None => return Ok(()),
        }
    }
}

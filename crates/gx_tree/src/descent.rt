//! The way down to the leaf for a coming pair.
ghost use Rattle.std.specs.Prelude.{◌≡◌, ◌≢◌, ◌≤◌, ◌<◌, length, true, Err, IfSome, IfNone, IfOk, OnOk, ℕ, [], ◌∷◌};
ghost use Rattle.std.specs.Bool.{OnTrue, OnFalse};
ghost use Rattle.gx_node.specs.Reading.{format_of, is_node};
ghost use Rattle.gx_node.specs.Trees.{Used};
ghost use Rattle.gx_tree.specs.Calls.{ReadsPages, TellsDescend, WritesPage};
ghost use Rattle.gx_tree.specs.Descending.{Descends, SlotBelow, is_widened, next_of};
ghost use Rattle.gx_node.specs.Store.{node_of, tree_of, Stays};

use crate::bring::bring_page;
use crate::edits::SetBound;
use crate::item::TraversalItem;
use gx_class::KeyClass;
use gx_geom::Shape;
use gx_node::{Inner, Pages, PagesMut, StepFault};
use gx_page::Page;
use std::cmp::Ordering;

/// What a descent does at a page.
#[derive(Drop)]
pub enum Way<B> {
    /// The page was split since its number was read: the descent begins again at the root.
    Again,
    /// A leaf that has room: the pair is added.
    Add,
    /// A leaf that is full: it is swept, or else split.
    FullLeaf,
    /// An inner node that is full: it is split.
    FullInner,
    /// An inner node that has room: down to this slot's child, on this page, whose bound covers the coming key.
    Down(usize, u32),
    /// Down to this slot's child, once its bound is widened to this key.
    Widen(usize, u32, B),
}

/// What a step of a descent did.
#[derive(Drop)]
pub enum Descended<B> {
    /// The page was split since its number was read: the descent begins again at the root. Nothing has changed.
    Again,
    /// A leaf that has room: the pair can be added.
    Leaf,
    /// A leaf that is full: it is swept, or else split.
    FullLeaf,
    /// An inner node that is full: it is split.
    FullInner,
    /// Down to this item, whose bound covers the coming key.
    Down(TraversalItem),
    /// The same, once the bound in this slot was widened to this key: the page has changed.
    Widened(TraversalItem, usize, B),
}

impl<B: Shape> Descended<B> {
    /// The item to which it went down, if it did.
    pub fn next(&self) -> Option<TraversalItem>
        ensures { result ≡ next_of self.now }
    {
        match self {
            Descended::Down(next) | Descended::Widened(next, _, _) => Some(*next),
            _ => None,
        }
    }
}

/// Whether two keys are the same.
fn are_same<B: Shape>(first: &B, second: &B) -> bool
    ensures yes { OnTrue result (first.now ≡ second.now) }
    ensures no { OnFalse result (first.now ≢ second.now) }
{
    first.cmp(second) == Ordering::Equal
}

/// The way down from an inner node: the child of least penalty, and of such children the first (Guttman 1984). `None`
/// if it has no children.
fn way_down<K: KeyClass>(inner: &Inner<K>, coming: &K::Key, most: usize) -> Option<Way<K::Key>>
    requires { 0 < inner.now.level }
    ensures way { (seen : ℕ) → inner.now.nsn ≤ seen
        → IfSome result (Descends K.cost K.joined most inner.now seen coming.now) }
    ensures none { IfNone result (length inner.now.children ≡ 0) }
{
    if inner.len() == 0 {
        return None;
    }
    if inner.len() >= most {
        return Some(Way::FullInner);
    }
    let slot = inner.least_penalty(coming);
    let (bound, child) = inner.child(slot);
    let union = K::union(bound, *coming);
    if are_same(&union, &bound) {
        Some(Way::Down(slot, child))
    } else {
        Some(Way::Widen(slot, child, union))
    }
}

/// What a descent does at the node on a page.
fn way_at<K: KeyClass>(
    page: &Page,
    room: u32,
    item: &TraversalItem,
    coming: &K::Key,
    most: usize,
) -> Option<Way<K::Key>>
    requires { is_node (format_of K.KeyClass) room page.now ≡ true }
    ensures way { IfSome result (Descends K.cost K.joined most (node_of (format_of K.KeyClass) page.now) item.now.seen
        coming.now) }
    ensures none { IfNone result ((0 < (node_of (format_of K.KeyClass) page.now).level)
        × (length (node_of (format_of K.KeyClass) page.now).children ≡ 0)) }
{
    if item.was_split(page) {
        return Some(Way::Again);
    }
    if page.level() > 0 {
        return way_down(&Inner::<K>::of(page, room), coming, most);
    }
    if page.count() < most {
        Some(Way::Add)
    } else {
        Some(Way::FullLeaf)
    }
}

/// Reads the page of a descent for a coming key, and returns what the descent does there, if a node has at most `most`
/// entries. It begins again if the page was split since its number was read. At a full node it stops; at a leaf with
/// room the pair can be added. Else it goes down to the child whose bound has the least penalty for the key, and of
/// such children the first, once that bound covers the key too.
///
/// Refused with `Pages` if the page could not be brought, and with `Damaged` only if it isn't in use, or has a level
/// above 0 and no entries.
pub fn way_step<K: KeyClass, P: Pages<K>>(
    pages: &mut P,
    item: &TraversalItem,
    coming: &K::Key,
    most: usize,
) -> Result<Way<K::Key>, StepFault<P::Fault>>
    ensures stays { Stays (P.steady pages.old) (P.store pages.old) (P.store pages.new) }
    ensures reads { ReadsPages P.Pages (item.now.page ∷ []) pages.old pages.new result }
    ensures way { IfOk result (Descends K.cost K.joined most ((tree_of (P.store pages.new)).node item.now.page)
        item.now.seen coming.now) }
    ensures damaged { result ≡ Err StepFault.Damaged → Used (tree_of (P.store pages.new)) item.now.page
        → (0 < ((tree_of (P.store pages.new)).node item.now.page).level)
        × (length ((tree_of (P.store pages.new)).node item.now.page).children ≡ 0) }
    ensures held { OnOk result (P.held pages.new item.now.page × Used (tree_of (P.store pages.new)) item.now.page) }
{
    bring_page(pages, item.page())?;
    let room = pages.room();
    let page = pages.page(item.page());
    match way_at::<K>(page, room, item, coming, most) {
        Some(way) => Ok(way),
        None => Err(StepFault::Damaged),
    }
}

/// Makes a step of a descent for a coming key at the page of its item, as `way_step` says: it goes down, and if the
/// child's bound doesn't cover the key it widens it first, to the union of the two, in a slot below `most`.
///
/// Refused with `Pages` if the page could not be brought, or what the widening needs could not be had, and with
/// `Damaged` only if `way_step` is: nothing has changed then.
pub fn descend_step<K: KeyClass, P: PagesMut<K>>(
    pages: &mut P,
    item: &TraversalItem,
    coming: &K::Key,
    most: usize,
) -> Result<Descended<K::Key>, StepFault<P::Fault>>
    ensures tells { TellsDescend K.cost K.joined most item.now coming.now result (P.steady pages.old)
        (P.store pages.old) (P.store pages.new) }
    ensures writes { WritesPage P.Pages is_widened item.now.page pages.old pages.new result }
    ensures held { OnOk result (P.held pages.new item.now.page) }
    ensures changing { IfOk result (λ did. is_widened did ≡ true → P.changing pages.new item.now.page) }
    ensures slot { IfOk result (SlotBelow most) }
{
    match way_step(pages, item, coming, most)? {
        Way::Again => Ok(Descended::Again),
        Way::Add => Ok(Descended::Leaf),
        Way::FullLeaf => Ok(Descended::FullLeaf),
        Way::FullInner => Ok(Descended::FullInner),
        Way::Down(_, child) => Ok(Descended::Down(TraversalItem::new(child, pages.counter()))),
        Way::Widen(slot, child, bound) => {
            pages.prepare(&[item.page()], 0)?;
            pages.change(item.page(), SetBound { slot, bound });
            Ok(Descended::Widened(TraversalItem::new(child, pages.counter()), slot, bound))
        }
    }
}

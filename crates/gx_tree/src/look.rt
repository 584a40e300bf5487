//! A look, which reads one page a step.
ghost use Rattle.std.specs.Prelude.{◌≡◌, ◌<◌, ◌≤◌, ◌++◌, ◌∷◌, [], true, length, filter, map, List, ◌==◌};
ghost use Rattle.std.specs.Prelude.{slice_get, Some, IfOk, IfErr, OnOk, OnErr};
ghost use Rattle.gx_node.specs.Hits.{passing_of};
ghost use Rattle.gx_node.specs.Reading.{format_of, is_node};
ghost use Rattle.gx_node.specs.Trees.{Pair};
ghost use Rattle.gx_node.specs.Reach as reach;
ghost use Rattle.gx_tree.specs.Found.{found_at};
ghost use Rattle.gx_tree.specs.Calls.{TellsLook};
ghost use Rattle.gx_tree.specs.Looking.{below, item_of, Reads};
ghost use Rattle.gx_node.specs.Owner.{CountsFaults, look_fails};
ghost use Rattle.gx_node.specs.Owner.{AsksAtMost, KeepsSince, IsWhyOfLook, IsWhyLater, Brings, Asks};
ghost use Rattle.gx_node.specs.Store.{node_of};
ghost use Rattle.gx_tree.specs.Wants.{has_row, wants};

use crate::bring::bring_page;
use crate::found::Found;
use crate::item::TraversalItem;
use crate::stack::Stack;
use crate::wanted::Wanted;
use gx_class::{KeyClass, Probing};
use gx_geom::Shape;
use gx_node::{BLOCK, Inner, Leaf, LookFault, Pages, StepFault};
use gx_page::Page;
use std::alloc::{AllocError, Global};

/// A look at work: the items that are to be read, the next one last, and what is found.
#[derive(Drop)]
pub struct Look<B: Shape> {
    pub(crate) stack: Stack,
    pub(crate) found: Vec<Found<B>>,
}

/// Finds a leaf's pair, if it is wanted.
fn keep<K: Probing>(
    leaf: &Leaf<K>,
    slot: usize,
    page: u32,
    wanted: &Wanted<K>,
    found: &mut Vec<Found<K::Key>>,
) -> Result<(), AllocError>
    requires { slot < length leaf.now.pairs }
    ensures { (x : Pair K.Key) → slice_get leaf.now.pairs slot ≡ Some x
        → OnOk result (found.new.items ≡ found.old.items ++ map (found_at page)
        (filter (has_row wanted.now.row) (x ∷ []))) }
{
    let (entry, marked) = leaf.entry(slot);
    if wanted.takes(entry.row, marked) {
        found.push(Found {
            entry,
            marked,
            leaf: page,
        })?;
    }
    Ok(())
}

/// Finds what is wanted of a block of a leaf's slots.
fn gather_block<K: Probing>(
    leaf: &Leaf<K>,
    from: usize,
    page: u32,
    wanted: &Wanted<K>,
    found: &mut Vec<Found<K::Key>>,
) -> Result<(), AllocError>
    requires { from ≤ length leaf.now.pairs }
    ensures { OnOk result (found.new.items ≡ found.old.items ++ map (found_at page) (filter (has_row wanted.now.row)
        (passing_of (λ pair. K.passes wanted.now.keys pair.key) leaf.now.pairs from))) }
{
    let passing = leaf.passing(&wanted.keys, from);
    let slots = passing.as_slice();
    found.reserve(slots.len())?;
    for slot in slots {
        keep(leaf, usize::from(*slot), page, wanted, found)?;
    }
    Ok(())
}

/// Finds what is wanted of a leaf.
fn gather<K: Probing>(
    leaf: &Leaf<K>,
    page: u32,
    wanted: &Wanted<K>,
    found: &mut Vec<Found<K::Key>>,
) -> Result<(), AllocError>
    ensures { OnOk result (found.new.items ≡ found.old.items ++ map (found_at page)
        (filter (wants K.passes wanted.now.keys wanted.now.row) leaf.now.pairs)) }
{
    for block in 0..leaf.len().div_ceil(BLOCK) {
        gather_block(leaf, block * BLOCK, page, wanted, found)?;
    }
    Ok(())
}

/// Stacks those children of a block of an inner node's slots below which something wanted may be, with the counter of
/// now.
fn descend_block<K: Probing>(
    inner: &Inner<K>,
    from: usize,
    counter: u64,
    wanted: &Wanted<K>,
    stack: &mut Stack,
) -> Result<(), AllocError>
    requires { from ≤ length inner.now.children }
    ensures { OnOk result (stack.new.items ≡ stack.old.items ++ map (item_of counter)
        (passing_of (λ child. K.passes wanted.now.bounds child.key) inner.now.children from)) }
{
    let passing = inner.passing(&wanted.bounds, from);
    let slots = passing.as_slice();
    for slot in slots {
        stack.push(TraversalItem::new(inner.page_of(usize::from(*slot)), counter))?;
    }
    Ok(())
}

/// Stacks the children of an inner node below which something wanted may be, with the counter of now.
fn descend<K: Probing>(
    inner: &Inner<K>,
    counter: u64,
    wanted: &Wanted<K>,
    stack: &mut Stack,
) -> Result<(), AllocError>
    ensures { OnOk result (stack.new.items ≡ stack.old.items ++ below counter (K.passes wanted.now.bounds)
        inner.now.children) }
{
    for block in 0..inner.len().div_ceil(BLOCK) {
        descend_block(inner, block * BLOCK, counter, wanted, stack)?;
    }
    Ok(())
}

impl<B: Shape> Look<B> {
    /// A look that begins with an item.
    pub fn new(alloc: Global, item: TraversalItem) -> Result<Self, AllocError>
        ensures { IfOk result (λ look. (look.stack.items ≡ item ∷ []) × (look.found.items ≡ [])) }
    {
        Ok(Look {
            stack: Stack::of(alloc, item)?,
            found: Vec::new(alloc),
        })
    }

    /// Whether nothing is left to read.
    pub fn is_done(&self) -> bool
        ensures { result ≡ (length self.now.stack.items == 0) }
    {
        self.stack.is_empty()
    }

    /// What was found so far.
    pub fn found(&self) -> &[Found<B>]
        ensures { result.now ≡ self.now.found.items }
    {
        self.found.as_slice()
    }

    /// Returns what it found, and ends it.
    pub fn into_found(self) -> Vec<Found<B>>
        ensures { result ≡ self.found }
    {
        self.found
    }
}

/// Reads the node of the next item.
fn read<K: Probing>(
    look: &mut Look<K::Key>,
    wanted: &Wanted<K>,
    page: &Page,
    room: u32,
    counter: u64,
) -> Result<(), AllocError>
    requires some { 0 < length look.old.stack.items }
    requires node { is_node (format_of K.KeyClass) room page.now ≡ true }
    ensures { OnOk result ((rest : List reach.TraversalItem) (item : reach.TraversalItem)
        → look.old.stack.items ≡ rest ++ item ∷ []
        → Reads counter (wants K.passes wanted.now.keys wanted.now.row) (K.passes wanted.now.bounds)
        (node_of (format_of K.KeyClass) page.now) rest item look.new.stack.items
        look.old.found.items look.new.found.items) }
{
    let Some(item) = look.stack.pop() else {
        return Ok(());
    };
    if item.was_split(page) {
        look.stack
            .push(TraversalItem::new(page.right(), item.seen()))?;
    }
    if page.level() == 0 {
        gather(&Leaf::of(page), item.page(), wanted, &mut look.found)
    } else {
        descend(&Inner::of(page, room), counter, wanted, &mut look.stack)
    }
}

/// Reads the page of the look's next item. It finds the wanted pairs there. If the page was split since its number was
/// read, the look stacks its rightlink too, with the number that it remembers; and it stacks the children below which
/// something wanted may be, each with the present counter (Kornacker, Mohan, Hellerstein 1997).
///
/// Refused with `Pages` if the page could not be brought, and `Damaged` if the item names no page in use: the look is
/// then unchanged. Refused with `Memory` if memory is refused; the look can't be used then.
pub fn look_step<K: Probing, P: Pages<K>>(
    pages: &mut P,
    wanted: &Wanted<K>,
    look: &mut Look<K::Key>,
) -> Result<(), LookFault<P::Fault>>
    requires { 0 < length look.old.stack.items }
    ensures tells { TellsLook (wants K.passes wanted.now.keys wanted.now.row) (K.passes wanted.now.bounds) look.old
        look.new result (P.steady pages.old) (P.store pages.old) (P.store pages.new) }
    ensures steady { P.steady pages.old → P.steady pages.new }
    ensures since { KeepsSince P.since pages.old pages.new }
    ensures asked { OnOk result ((rest : List reach.TraversalItem) (item : reach.TraversalItem)
        → look.old.stack.items ≡ rest ++ item ∷ []
        → Asks P.asked (Brings (item.page ∷ []) ∷ []) pages.old pages.new) }
    ensures tried { OnErr result ((rest : List reach.TraversalItem) (item : reach.TraversalItem)
        → look.old.stack.items ≡ rest ++ item ∷ [] → AsksAtMost P.asked (item.page ∷ []) pages.old pages.new) }
    ensures why { IfErr result (IsWhyOfLook (P.why pages.old pages.new)) }
    ensures told { CountsFaults (look_fails P.fails) (P.faults pages.old) (P.faults pages.new) result }
    ensures later { OnOk result (IsWhyLater P.why pages.old pages.new) }
{
    let item = look.stack.last();
    bring_page(pages, item.page())?;
    let counter = pages.counter();
    let room = pages.room();
    read(look, wanted, pages.page(item.page()), room, counter)?;
    Ok(())
}

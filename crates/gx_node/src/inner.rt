//! Inner nodes in place.
ghost use Rattle.std.specs.Prelude.{◌≡◌, ◌↔◌, ℕ, ◌<◌, ◌≤◌, ◌-◌, true, map, min};
ghost use Rattle.std.specs.Prelude.{length, IsOk, IfOk, IfErr, Some, slice_get};
ghost use Rattle.std.specs.List.{IsFirstBest};
ghost use Rattle.gx_node.specs.Trees.{Child};
ghost use Rattle.gx_node.specs.declared.passing.TheConstants.{BLOCK};
ghost use Rattle.gx_node.specs.Entries.{HoldsChildren};
ghost use Rattle.gx_node.specs.Hits.{IsNextHit, costs_less, hits_among};
ghost use Rattle.gx_node.specs.Reading.{format_of, is_inner, inner_of};
ghost use Rattle.gx_node.specs.Seen.{child_seen};

use crate::check::are_children;
use crate::entry::{CHILD_TAIL, child_of, page_of};
use crate::passing::Passing;
use crate::scan::{item_in, least_penalty, next_passing, passing};
use gx_class::{KeyClass, Probing};
use gx_geom::Refusal;
use gx_page::Page;
use std::marker::{Model, PhantomData};

/// An inner node, read where it lies: children, each a page and the bound of what lies below it, by slot.
#[derive(Drop)]
pub struct Inner<'a, K: KeyClass> {
    page: &'a Page,
    class: PhantomData<K>,
}

impl<'a, K: KeyClass> Model for Inner<'a, K> {
    ghost use Rattle.gx_node.specs.Trees.{Node};
    ghost use Rattle.gx_node.specs.Reading.{format_of, inner_size, AreKeyed, inner_of};

    ghost Value = { Node K.Key };

    ghost view = { λ i. inner_of (format_of K.KeyClass) i.page.now };

    ghost invariant = { λ i. AreKeyed (format_of K.KeyClass) (inner_size (format_of K.KeyClass)) i.page.now.items };
}

impl<'a, K: KeyClass> Inner<'a, K> {
    /// The inner node on a page that is known to be one, where `used` is the greatest page in use. That number isn't
    /// read: it says which test the page passed.
    #[tactic(auto, using(crate::proofs::Slots::inner_is_keyed))]
    pub fn of(page: &'a Page, _used: u32) -> Self
        requires { is_inner (format_of K.KeyClass) _used page.now ≡ true }
        ensures { result ≡ inner_of (format_of K.KeyClass) page.now }
    {
        Inner {
            page,
            class: PhantomData,
        }
    }

    /// The inner node on a page, which is tested here, where `used` is the greatest page in use. `Damaged` if the page
    /// isn't one.
    pub fn read(page: &'a Page, used: u32) -> Result<Self, Refusal>
        ensures exact { IsOk result ↔ (is_inner (format_of K.KeyClass) used page.now ≡ true) }
        ensures inner { IfOk result (λ inner. inner ≡ inner_of (format_of K.KeyClass) page.now) }
        ensures held { IfOk result (λ inner. HoldsChildren K.is_key K.spelling used page.now inner.children) }
        ensures refused { IfErr result (λ why. why ≡ Refusal.Damaged) }
    {
        if page.level() != 0 && are_children::<K>(page, used) {
            Ok(Inner::of(page, used))
        } else {
            Err(Refusal::Damaged)
        }
    }

    /// The level: one more than that of the nodes below.
    pub fn level(&self) -> u16
        ensures { result ≡ self.now.level }
    {
        self.page.level()
    }

    /// The sequence number of the node's last split.
    pub fn nsn(&self) -> u64
        ensures { result ≡ self.now.nsn }
    {
        self.page.nsn()
    }

    /// The rightlink: the page of the node to the right, 0 for none.
    pub fn right(&self) -> u32
        ensures { result ≡ self.now.right }
    {
        self.page.right()
    }

    /// How many children the node has.
    pub fn len(&self) -> usize
        ensures { result ≡ length self.now.children }
    {
        self.page.count()
    }

    /// A slot's bound and page.
    #[tactic(auto, using(crate::proofs::Slots::slot_made))]
    pub fn child(&self, slot: usize) -> (K::Key, u32)
        requires { slot < length self.now.children }
        ensures { slice_get self.now.children slot ≡ Some (child_seen result) }
    {
        child_of::<K>(item_in::<K>(self.page, K::KEY + CHILD_TAIL, slot))
    }

    /// The page of a slot's child, whose bound isn't decoded.
    #[tactic(auto, using(crate::proofs::Slots::slot_get))]
    pub fn page_of(&self, slot: usize) -> u32
        requires { slot < length self.now.children }
        ensures { (child : Child K.Key) → slice_get self.now.children slot ≡ Some child → result ≡ child.page }
    {
        page_of::<K>(item_in::<K>(self.page, K::KEY + CHILD_TAIL, slot))
    }

    /// The slot of the bound for which the penalty of a key is least, and of such bounds the first.
    pub fn least_penalty(&self, key: &K::Key) -> usize
        requires { 1 ≤ length self.now.children }
        ensures { IsFirstBest costs_less (map (λ child. K.cost child.key key.now) self.now.children)
            (length self.now.children) result }
    {
        least_penalty::<K>(self.page, K::KEY + CHILD_TAIL, key)
    }
}

impl<'a, K: Probing> Inner<'a, K> {
    /// The slots of a block from a slot on whose bounds pass: of 64 slots, or of as many as there are.
    pub fn passing(&self, probe: &K::Probe, from: usize) -> Passing
        requires { from ≤ length self.now.children }
        ensures { result ≡ hits_among (map (λ child. K.passes probe.now child.key) self.now.children) from
            (min BLOCK (length self.now.children - from)) }
    {
        passing::<K>(self.page, K::KEY + CHILD_TAIL, probe, from)
    }

    /// The first slot from a slot on whose bound passes.
    pub fn next_hit(&self, probe: &K::Probe, from: usize) -> Option<usize>
        requires { from ≤ length self.now.children }
        ensures { IsNextHit (map (λ child. K.passes probe.now child.key) self.now.children) from result }
    {
        next_passing::<K>(self.page, K::KEY + CHILD_TAIL, probe, from)
    }
}

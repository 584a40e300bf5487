//! Leaves in place.
ghost use Rattle.std.specs.Prelude.{◌≡◌, ◌↔◌, ◌<◌, ◌≤◌, ◌-◌, true, map, min};
ghost use Rattle.std.specs.Prelude.{length, IsOk, IfOk, IfErr, Some, slice_get};
ghost use Rattle.gx_node.specs.Trees.{Pair};
ghost use Rattle.gx_node.specs.declared.passing.TheConstants.{BLOCK};
ghost use Rattle.gx_node.specs.Entries.{HoldsPairs};
ghost use Rattle.gx_node.specs.Hits.{IsNextHit, hits_among};
ghost use Rattle.gx_node.specs.Reading.{format_of, is_leaf, leaf_of};
ghost use Rattle.gx_node.specs.Seen.{pair_seen};

use crate::check::are_pairs;
use crate::entry::{PAIR_TAIL, mark_of, pair_of};
use crate::passing::Passing;
use crate::scan::{item_in, next_passing, passing};
use gx_class::{KeyClass, Probing};
use gx_geom::Refusal;
use gx_machine::Entry;
use gx_page::Page;
use std::marker::{Model, PhantomData};

/// A leaf, read where it lies: pairs of a row and a key, each live or marked as deleted, by slot.
#[derive(Drop)]
pub struct Leaf<'a, K: KeyClass> {
    page: &'a Page,
    class: PhantomData<K>,
}

impl<'a, K: KeyClass> Model for Leaf<'a, K> {
    ghost use Rattle.gx_node.specs.Trees.{Node};
    ghost use Rattle.gx_node.specs.Reading.{format_of, leaf_size, AreKeyed, leaf_of};

    ghost Value = { Node K.Key };

    ghost view = { λ l. leaf_of (format_of K.KeyClass) l.page.now };

    ghost invariant = { λ l. AreKeyed (format_of K.KeyClass) (leaf_size (format_of K.KeyClass)) l.page.now.items };
}

impl<'a, K: KeyClass> Leaf<'a, K> {
    /// The leaf on a page that is known to be one.
    #[tactic(auto, using(crate::proofs::Slots::leaf_is_keyed))]
    pub fn of(page: &'a Page) -> Self
        requires { is_leaf (format_of K.KeyClass) page.now ≡ true }
        ensures { result ≡ leaf_of (format_of K.KeyClass) page.now }
    {
        Leaf {
            page,
            class: PhantomData,
        }
    }

    /// The leaf on a page, which is tested here. `Damaged` if the page isn't one.
    pub fn read(page: &'a Page) -> Result<Self, Refusal>
        ensures exact { IsOk result ↔ (is_leaf (format_of K.KeyClass) page.now ≡ true) }
        ensures leaf { IfOk result (λ leaf. leaf ≡ leaf_of (format_of K.KeyClass) page.now) }
        ensures held { IfOk result (λ leaf. HoldsPairs K.is_key K.spelling page.now leaf.pairs) }
        ensures refused { IfErr result (λ why. why ≡ Refusal.Damaged) }
    {
        if page.level() == 0 && are_pairs::<K>(page) {
            Ok(Leaf::of(page))
        } else {
            Err(Refusal::Damaged)
        }
    }

    /// The sequence number of the node's last split.
    pub fn nsn(&self) -> u64
        ensures { result ≡ self.now.nsn }
    {
        self.page.nsn()
    }

    /// The rightlink: the page of the leaf to the right, 0 for none.
    pub fn right(&self) -> u32
        ensures { result ≡ self.now.right }
    {
        self.page.right()
    }

    /// How many pairs the leaf has.
    pub fn len(&self) -> usize
        ensures { result ≡ length self.now.pairs }
    {
        self.page.count()
    }

    /// A slot's pair, and whether it is marked as deleted.
    #[tactic(auto, using(crate::proofs::Slots::slot_made))]
    pub fn entry(&self, slot: usize) -> (Entry<K::Key>, bool)
        requires { slot < length self.now.pairs }
        ensures { slice_get self.now.pairs slot ≡ Some (pair_seen result) }
    {
        pair_of::<K>(item_in::<K>(self.page, K::KEY + PAIR_TAIL, slot))
    }

    /// Whether a slot's pair is marked as deleted.
    #[tactic(auto, using(crate::proofs::Slots::slot_get))]
    pub fn is_marked(&self, slot: usize) -> bool
        requires { slot < length self.now.pairs }
        ensures { (pair : Pair K.Key) → slice_get self.now.pairs slot ≡ Some pair → result ≡ pair.marked }
    {
        mark_of::<K>(item_in::<K>(self.page, K::KEY + PAIR_TAIL, slot))
    }
}

impl<'a, K: Probing> Leaf<'a, K> {
    /// The slots of a block from a slot on whose keys pass, be the pair live or marked:
    /// of 64 slots, or of as many as there are.
    pub fn passing(&self, probe: &K::Probe, from: usize) -> Passing
        requires { from ≤ length self.now.pairs }
        ensures { result ≡ hits_among (map (λ pair. K.passes probe.now pair.key) self.now.pairs) from
            (min BLOCK (length self.now.pairs - from)) }
    {
        passing::<K>(self.page, K::KEY + PAIR_TAIL, probe, from)
    }

    /// The first slot from a slot on whose key passes, be the pair live or marked.
    pub fn next_hit(&self, probe: &K::Probe, from: usize) -> Option<usize>
        requires { from ≤ length self.now.pairs }
        ensures { IsNextHit (map (λ pair. K.passes probe.now pair.key) self.now.pairs) from result }
    {
        next_passing::<K>(self.page, K::KEY + PAIR_TAIL, probe, from)
    }
}

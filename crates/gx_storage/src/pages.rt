//! A page that is brought and lent, and whether a sweep removes anything from it.
ghost use Rattle.std.specs.Prelude.{◌≡◌, ◌≢◌, ◌≤◌, ◌<◌, nat_lt, Bool, true, Some, Err, IfErr, OnOk, length, slice_get};
ghost use Rattle.gx_machine.specs.declared.entry.Entry.{Entry};
ghost use Rattle.gx_node.specs.Edits.{entry_of};
ghost use Rattle.gx_node.specs.Reading.{format_of, is_node};
ghost use Rattle.gx_store.specs.Standing.{standing};
ghost use Rattle.gx_store.specs.State.{IsHeld};
ghost use Rattle.gx_node.specs.Lists.{how_many};
ghost use Rattle.gx_node.specs.Trees.{Pair};
ghost use Rattle.gx_node.specs.Writes.{is_sweepable};
ghost use Rattle.gx_node.specs.Store.{node_of};
ghost use Rattle.gx_storage.specs.Bringing.{bringing, has_removable};
ghost use Rattle.gx_store.specs.Faults.{store_fails};
ghost use Rattle.gx_storage.specs.Setting.{FaultsAs, StaysAs, ToldAs, Unlogged, tree_at};

use crate::Storage;
use gx_class::{KeyClass, ReadKeys};
use gx_disk::SectorDisk;
use gx_machine::Entry;
use gx_node::Leaf;
use gx_page::Page;
use gx_store::StoreFault;
use gx_tree::Pages;

/// Whether a slot's pair is marked and no session claims it.
fn is_removable<K: KeyClass, F: Fn(Entry<K::Key>) -> bool>(
    leaf: &Leaf<K>,
    slot: usize,
    claimed: &F,
) -> bool
    requires slot { slot < length leaf.now.pairs }
    requires claimed { F.IsAlwaysCallable claimed.now }
    ensures { (test : Entry K.Key → Bool)
        → ((entry : Entry K.Key) (answer : Bool) → F.post claimed.now entry answer → answer ≡ test entry)
        → (x : Pair K.Key) → slice_get leaf.now.pairs slot ≡ Some x → result ≡ is_sweepable (λ x. test (entry_of x)) x }
{
    let (entry, marked) = leaf.entry(slot);
    marked && !claimed(entry)
}

/// Whether a leaf has a marked pair that no session claims.
fn any_removable<K: KeyClass, F: Fn(Entry<K::Key>) -> bool>(leaf: &Leaf<K>, claimed: &F) -> bool
    requires claimed { F.IsAlwaysCallable claimed.now }
    ensures { (test : Entry K.Key → Bool)
        → ((entry : Entry K.Key) (answer : Bool) → F.post claimed.now entry answer → answer ≡ test entry)
        → result ≡ nat_lt 0 (how_many (is_sweepable (λ x. test (entry_of x))) leaf.now.pairs) }
{
    for slot in 0..leaf.len() {
        if is_removable(leaf, slot, claimed) {
            return true;
        }
    }
    false
}

impl<D: SectorDisk, K: ReadKeys> Storage<D, K> {
    /// Brings a page in use into a frame, where it is held until pages are brought again. Nothing is logged, and
    /// whether it succeeds or not no node has changed.
    ///
    /// Refused with `TooFewFrames` if no frame is clean, with `Device` if the device failed, and with `Damaged` if what
    /// the device has there is no page of that number, or no node of the class.
    pub fn bring(&mut self, page: u32) -> Result<(), StoreFault>
        requires from { 1 ≤ page }
        requires to { page ≤ self.old.shelf.used }
        ensures unlogged { Unlogged K.Key.Shape K.ReadKeys D.state (bringing self.old) self.old self.new }
        ensures stays { StaysAs K.KeyClass D.state self.old.shelf self.new.shelf }
        ensures held { OnOk result (IsHeld self.new.shelf page) }
        ensures told { ToldAs D.state store_fails self.old.shelf self.new.shelf result }
        ensures why { IfErr result (FaultsAs K.KeyClass D.state (bringing self.old) self.new.shelf) }
        ensures room { result ≢ Err StoreFault.NoRoom }
    {
        self.journal.begin_reading(&mut self.store);
        self.store.bring(&[page])
    }

    /// A page that is held.
    pub fn held_page(&self, page: u32) -> &Page
        requires { IsHeld self.now.shelf page }
        ensures stands { result.now ≡ standing self.now.shelf.frames (D.state self.now.shelf.disk).seen page }
        ensures node { node_of (format_of K.KeyClass) result.now
            ≡ (tree_at K.KeyClass D.state self.now.shelf).node page }
        ensures number { result.now.number ≡ page }
        ensures passes { is_node (format_of K.KeyClass) self.now.shelf.pages result.now ≡ true }
    {
        self.store.in_order();
        self.store.held_page(page)
    }

    /// Whether a sweep removes anything from a page that is held: it is a leaf that has a marked pair that no session
    /// claims. Nothing changes.
    pub fn has_removable<F: Fn(Entry<K::Key>) -> bool>(&self, page: u32, claimed: F) -> bool
        requires held { IsHeld self.now.shelf page }
        requires claimed { F.IsAlwaysCallable claimed }
        ensures { (test : Entry K.Key → Bool)
            → ((entry : Entry K.Key) (answer : Bool) → F.post claimed entry answer → answer ≡ test entry)
            → result ≡ has_removable test ((tree_at K.KeyClass D.state self.now.shelf).node page) }
    {
        let held = self.held_page(page);
        held.level() == 0 && any_removable(&Leaf::<K>::of(held), &claimed)
    }
}

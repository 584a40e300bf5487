//! A step of a descent, which may widen a bound.
ghost use Rattle.std.specs.Prelude.{◌≡◌, ◌≢◌, ◌<◌, ℕ, true, length, Err, IfOk, OnErr, IfErr};
ghost use Rattle.gx_glog.specs.declared.stage.Turn.TheVariants.{Closed};
ghost use Rattle.gx_node.specs.Trees.{Used};
ghost use Rattle.gx_tree.specs.Calls.{TellsDescend};
ghost use Rattle.gx_tree.specs.Descending.{WayAt, is_widened};
ghost use Rattle.gx_node.specs.Owner.{step_fails};
ghost use Rattle.gx_store.specs.Faults.{store_fails};
ghost use Rattle.gx_storage.specs.Changes.{begun, begun_at, has_room};
ghost use Rattle.gx_storage.specs.Changing.{HasToWiden, unwidened};
ghost use Rattle.gx_storage.specs.Imaged.{is_imaged};
ghost use Rattle.gx_storage.specs.Setting.{IsSinceAs, IsSteadyAs, IsWhyAs, LogsDescent, OverPages, OwnNumberAs};
ghost use Rattle.gx_storage.specs.Setting.{ShowsTheSame, ToldAs, Unlogged, store_at, tree_at};
ghost use Rattle.gx_storage.specs.Small.{widen_room};

use crate::Storage;
use crate::journal::Journal;
use gx_class::ReadKeys;
use gx_disk::SectorDisk;
use gx_geom::Shape;
use gx_node::laws::inners;
use gx_store::{PageStore, StoreFault};
use gx_tree::{Descended, Pages, StepFault, TraversalItem, Way, descend_step, way_step};

/// What a step of a descent that went this way did, while the counter of splits is `seen`. `None` if it has to widen a
/// bound.
fn unwidened<B: Shape>(way: Way<B>, seen: u64) -> Option<Descended<B>>
    ensures { result ≡ unwidened way seen }
{
    match way {
        Way::Again => Some(Descended::Again),
        Way::Add => Some(Descended::Leaf),
        Way::FullLeaf => Some(Descended::FullLeaf),
        Way::FullInner => Some(Descended::FullInner),
        Way::Down(_, child) => Some(Descended::Down(TraversalItem::new(child, seen))),
        Way::Widen(..) => None,
    }
}

/// Returns what a descent does at the page of its item, as the tree's `way_step` does. It asks for no room in the log.
/// Then it begins the event whose record has so many bytes.
fn read_way<D: SectorDisk, K: ReadKeys>(
    journal: &Journal<K>,
    store: &mut PageStore<D, K>,
    item: &TraversalItem,
    coming: &K::Key,
    most: usize,
    size: usize,
) -> Result<Way<K::Key>, StepFault<StoreFault>>
    ensures since { (q : ℕ) → IsSinceAs K.KeyClass D.state (begun_at journal.now.log size store.old) store.new q }
    ensures same { IsSteadyAs D.state store.old → ShowsTheSame K.KeyClass D.state store.old store.new }
    ensures told { ToldAs D.state (step_fails store_fails) store.old store.new result }
    ensures why { IfErr result (IsWhyAs K.KeyClass D.state (begun_at journal.now.log size store.old) store.new) }
    ensures way { IfOk result (WayAt K.cost K.joined most (store_at K.KeyClass D.state store.new) item.now coming.now) }
    ensures damaged { result ≡ Err StepFault.Damaged → Used (tree_at K.KeyClass D.state store.new) item.now.page
        → (0 < ((tree_at K.KeyClass D.state store.new).node item.now.page).level)
        × (length ((tree_at K.KeyClass D.state store.new).node item.now.page).children ≡ 0) }
    ensures room { result ≢ Err (StepFault.Pages StoreFault.NoRoom) }
{
    journal.begin_reading(store);
    let way = way_step(store, item, coming, most);
    journal.begin_event(store, size);
    way
}

impl<D: SectorDisk, K: ReadKeys> Storage<D, K> {
    /// Makes a step of a descent for a coming key at the page of its item, as the tree's `descend_step` says. If a
    /// bound was widened its record is appended: small, with the slot and the slot's new key, if the log's extent has
    /// an image of the page, else with the image of the page. If none was widened, nothing has changed, nothing is
    /// logged, and no room is asked for.
    ///
    /// Refused with `Pages` if the page could not be brought, or if the bound has to be widened and the log has no room
    /// for the record (`NoRoom`); with `Damaged` only if the page isn't in use, or has a level above 0 and no entries.
    /// Nothing has changed then, and nothing is logged.
    pub fn descend(
        &mut self,
        item: &TraversalItem,
        coming: &K::Key,
    ) -> Result<Descended<K::Key>, StepFault<StoreFault>>
        requires still { self.old.log.turn ≡ Closed }
        ensures logged { IfOk result (LogsDescent K.Key.Shape K.ReadKeys D.state item.now.page self.old self.new) }
        ensures unlogged { OnErr result (Unlogged K.Key.Shape K.ReadKeys D.state
            (begun self.old (widen_room (is_imaged self.old.imaged item.now.page) K.KEY)) self.old self.new) }
        ensures tells { OverPages K.KeyClass D.state (TellsDescend K.cost K.joined self.old.most item.now coming.now
            result) self.old.shelf self.new.shelf }
        ensures own { IfOk result (λ did. is_widened did ≡ true → OwnNumberAs D.state self.new.shelf item.now.page) }
        ensures told { ToldAs D.state (step_fails store_fails) self.old.shelf self.new.shelf result }
        ensures why { IfErr result (IsWhyAs K.KeyClass D.state
            (begun self.old (widen_room (is_imaged self.old.imaged item.now.page) K.KEY)) self.new.shelf) }
        ensures room { result ≡ Err (StepFault.Pages StoreFault.NoRoom)
            → HasToWiden K.cost K.joined self.old.most (store_at K.KeyClass D.state self.new.shelf) item.now
            coming.now }
    {
        let page = item.page();
        let size = self.journal.widen_size(page);
        if !self.journal.has_room(size) {
            let way = read_way(
                &self.journal,
                &mut self.store,
                item,
                coming,
                self.most,
                size,
            )?;
            match unwidened(way, self.store.counter()) {
                Some(did) => return Ok(did),
                None => return Err(StepFault::Pages(StoreFault::NoRoom)),
            }
        }
        inners::<K>();
        self.store.in_order();
        self.journal.begin_event(&mut self.store, size);
        let did = descend_step(&mut self.store, item, coming, self.most)?;
        let Descended::Widened(_, slot, key) = &did else {
            return Ok(did);
        };
        self.store.in_order();
        self.journal.widen(&self.store, page, *slot, *key);
        Ok(did)
    }
}

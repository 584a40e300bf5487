//! The split of the root.
ghost use Rattle.std.specs.Prelude.{◌≡◌, ◌<◌, ◌≤◌, ◌+◌, suc, [], ◌∷◌, length, Err, IfOk, IfErr, OnOk, OnErr};
ghost use Rattle.gx_glog.specs.declared.stage.Turn.TheVariants.{Closed};
ghost use Rattle.gx_node.specs.declared.items.TheConstants.{MAX_ENTRIES};
ghost use Rattle.gx_store.specs.Since.{IsStamped};
ghost use Rattle.gx_node.specs.Keyed.{rules_of};
ghost use Rattle.gx_tree.specs.Calls.{TellsRootSplit};
ghost use Rattle.gx_record.specs.declared.sizes.TheConstants.{SPLIT_RECORD};
ghost use Rattle.gx_node.specs.Owner.{split_fails};
ghost use Rattle.gx_store.specs.Faults.{store_fails};
ghost use Rattle.gx_storage.specs.Changes.{begun};
ghost use Rattle.gx_node.specs.Lists.{Each};
ghost use Rattle.gx_storage.specs.Setting.{IsSteadyAs, IsWhyOfSplitAs, LogsAs, OverPages, OwnNumberAs, ToldAs};
ghost use Rattle.gx_storage.specs.Setting.{Unlogged, pages_given_at};

use crate::Storage;
use gx_class::ReadKeys;
use gx_disk::SectorDisk;
use gx_record::SPLIT_RECORD;
use gx_store::StoreFault;
use gx_tree::{Pages, RootSplit, SplitFault, StepFault, split_root_step};

impl<D: SectorDisk, K: ReadKeys> Storage<D, K> {
    /// Splits the root, which is full, as the tree's `split_root_step` says, and appends the record of the root and of
    /// its two new pages. The root's keys overwrite the first of `keys`.
    ///
    /// Refused with `PagesFull` only if fewer than two pages are left; with `Pages` if the log has no room for the
    /// record (`NoRoom`), fewer than two frames are clean (`TooFewFrames`), or the root could not be brought; and with
    /// `Damaged` if page 1 isn't a full inner node in use, or has the level 65535. Nothing has changed then, and
    /// nothing is logged.
    pub fn split_root(
        &mut self,
        keys: &mut [K::Key],
    ) -> Result<RootSplit<K::Key>, SplitFault<StoreFault>>
        requires still { self.old.log.turn ≡ Closed }
        requires most { 4 ≤ self.old.most }
        requires space { MAX_ENTRIES ≤ length keys.old }
        ensures logged { OnOk result (LogsAs K.Key.Shape K.ReadKeys D.state SPLIT_RECORD self.old
            self.new (pages_given_at D.state (1 ∷ suc self.old.shelf.used ∷ suc (suc self.old.shelf.used) ∷ [])
            self.new.shelf)) }
        ensures unlogged { OnErr result (Unlogged K.Key.Shape K.ReadKeys D.state
            (begun self.old SPLIT_RECORD) self.old self.new) }
        ensures tells { OverPages K.KeyClass D.state (TellsRootSplit (rules_of K.Key.Shape self.old.most) K.sides_of
            K.is_key result) self.old.shelf self.new.shelf }
        ensures stamped { IsSteadyAs D.state self.old.shelf
            → OnOk result (IsStamped self.old.log.used self.old.shelf.frames self.new.shelf.frames 1) }
        ensures own { OnOk result (Each (OwnNumberAs D.state self.new.shelf)
            (1 ∷ suc self.old.shelf.used ∷ suc (suc self.old.shelf.used) ∷ [])) }
        ensures places { IfOk result (λ did. (did.first ≡ suc self.old.shelf.used)
            × (did.second ≡ suc (suc self.old.shelf.used))) }
        ensures told { ToldAs D.state (split_fails store_fails) self.old.shelf self.new.shelf result }
        ensures why { IfErr result (IsWhyOfSplitAs K.KeyClass D.state (begun self.old SPLIT_RECORD) self.new.shelf) }
        ensures full { IsSteadyAs D.state self.old.shelf → result ≡ Err SplitFault.PagesFull
            → self.old.shelf.pages < self.old.shelf.used + 2 }
    {
        self.journal.begin_event(&mut self.store, SPLIT_RECORD);
        if self.store.used() == 0 {
            return Err(SplitFault::Step(StepFault::Damaged));
        }
        let split = split_root_step(&mut self.store, self.most, keys)?;
        self.store.in_order();
        self.journal
            .split(&self.store, 1, split.first, split.second);
        Ok(split)
    }
}

//! The split of a node.
ghost use Rattle.std.specs.Prelude.{◌≡◌, ◌≤◌, suc, length, Err, IfOk, IfErr, IfSome, OnErr};
ghost use Rattle.gx_glog.specs.declared.stage.Turn.TheVariants.{Closed};
ghost use Rattle.gx_node.specs.declared.items.TheConstants.{MAX_ENTRIES};
ghost use Rattle.gx_store.specs.Since.{IsStamped};
ghost use Rattle.gx_node.specs.Keyed.{rules_of};
ghost use Rattle.gx_tree.specs.Calls.{TellsSplit};
ghost use Rattle.gx_tree.specs.Splitting.{has_split};
ghost use Rattle.gx_record.specs.declared.sizes.TheConstants.{SPLIT_RECORD};
ghost use Rattle.gx_node.specs.Owner.{split_fails};
ghost use Rattle.gx_store.specs.Faults.{store_fails};
ghost use Rattle.gx_storage.specs.Changes.{begun};
ghost use Rattle.gx_storage.specs.Giving.{rising};
ghost use Rattle.gx_node.specs.Lists.{Each};
ghost use Rattle.gx_storage.specs.Setting.{IsSteadyAs, IsWhyOfSplitAs, LogsIf, OverPages, OwnNumberAs, ToldAs};
ghost use Rattle.gx_storage.specs.Setting.{Unlogged, pages_given_at};

use crate::Storage;
use crate::journal::in_rising_order;
use gx_class::ReadKeys;
use gx_disk::SectorDisk;
use gx_record::SPLIT_RECORD;
use gx_store::StoreFault;
use gx_tree::{Split, SplitFault, split_step};

impl<D: SectorDisk, K: ReadKeys> Storage<D, K> {
    /// Splits the node on a page, which is full, below its parent, as the tree's `split_step` says, and appends the
    /// record of the node, the parent and the new sibling, by rising page number. Returns `None` if the parent has no
    /// place for that: then nothing has changed, nothing is logged, and no room is asked for. The node's keys overwrite
    /// the first of `keys`.
    ///
    /// Refused with `PagesFull` only if no page is left; with `Pages` if the log has no room for the record (`NoRoom`),
    /// no frame is clean for the sibling (`TooFewFrames`), or a page could not be brought; and with `Damaged` if the
    /// two aren't a full node and an inner node above it, or the counter of splits is at its end. Nothing has changed
    /// then, and nothing is logged.
    pub fn split(
        &mut self,
        page: u32,
        parent: u32,
        keys: &mut [K::Key],
    ) -> Result<Option<Split<K::Key>>, SplitFault<StoreFault>>
        requires still { self.old.log.turn ≡ Closed }
        requires most { 4 ≤ self.old.most }
        requires space { MAX_ENTRIES ≤ length keys.old }
        ensures logged { IfOk result (λ did. LogsIf K.Key.Shape K.ReadKeys D.state SPLIT_RECORD
            self.old self.new (pages_given_at D.state (rising page parent (suc self.old.shelf.used)) self.new.shelf)
            (has_split did)) }
        ensures unlogged { OnErr result (Unlogged K.Key.Shape K.ReadKeys D.state
            (begun self.old SPLIT_RECORD) self.old self.new) }
        ensures tells { OverPages K.KeyClass D.state (TellsSplit (rules_of K.Key.Shape self.old.most) K.sides_of
            K.is_key page parent result) self.old.shelf self.new.shelf }
        ensures stamped { IsSteadyAs D.state self.old.shelf
            → IfOk result (λ did. IfSome did (λ _. IsStamped self.old.log.used self.old.shelf.frames
            self.new.shelf.frames page × IsStamped self.old.log.used self.old.shelf.frames self.new.shelf.frames
            parent)) }
        ensures own { IfOk result (λ did. IfSome did (λ _. Each (OwnNumberAs D.state self.new.shelf)
            (rising page parent (suc self.old.shelf.used)))) }
        ensures sibling { IfOk result (λ did. IfSome did (λ split. split.sibling ≡ suc self.old.shelf.used)) }
        ensures told { ToldAs D.state (split_fails store_fails) self.old.shelf self.new.shelf result }
        ensures why { IfErr result (IsWhyOfSplitAs K.KeyClass D.state (begun self.old SPLIT_RECORD) self.new.shelf) }
        ensures full { IsSteadyAs D.state self.old.shelf → result ≡ Err SplitFault.PagesFull
            → self.old.shelf.pages ≤ self.old.shelf.used }
    {
        self.journal.begin_event(&mut self.store, SPLIT_RECORD);
        let Some(split) = split_step(&mut self.store, page, parent, self.most, keys)? else {
            return Ok(None);
        };
        self.store.in_order();
        let (first, second, third) = in_rising_order(page, parent, split.sibling);
        self.journal.split(&self.store, first, second, third);
        Ok(Some(split))
    }
}

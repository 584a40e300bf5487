//! Adds a pair to a leaf.
ghost use Rattle.std.specs.Prelude.{◌≡◌, OnOk, OnErr, IfErr};
ghost use Rattle.gx_glog.specs.declared.stage.Turn.TheVariants.{Closed};
ghost use Rattle.gx_store.specs.Since.{IsStamped};
ghost use Rattle.gx_tree.specs.Calls.{TellsAdd};
ghost use Rattle.gx_node.specs.Owner.{step_fails};
ghost use Rattle.gx_store.specs.Faults.{store_fails};
ghost use Rattle.gx_storage.specs.Changes.{begun};
ghost use Rattle.gx_storage.specs.Imaged.{is_imaged};
ghost use Rattle.gx_storage.specs.Setting.{IsSteadyAs, IsWhyAs, LogsAs, OverPages, OwnNumberAs, ToldAs, Unlogged};
ghost use Rattle.gx_storage.specs.Small.{IsSpelled, add_room, add_said};

use crate::Storage;
use gx_class::ReadKeys;
use gx_disk::SectorDisk;
use gx_machine::Entry;
use gx_node::laws::leaves;
use gx_store::StoreFault;
use gx_tree::{StepFault, add_step};

impl<D: SectorDisk, K: ReadKeys> Storage<D, K> {
    /// Puts a live pair after the last one of the leaf on a page, and appends the transaction's record of it: a small
    /// one if the log's extent has an image of the leaf, otherwise its write with the image of the leaf. The entry was
    /// absent, which counts as a mark.
    ///
    /// Refused with `Pages` if the log has no room for the record (`NoRoom`), or the page could not be brought; with
    /// `Damaged` only if it isn't a leaf in use, or has no room. Nothing has changed then, and nothing is logged.
    pub fn add(
        &mut self,
        transaction: u64,
        page: u32,
        entry: &Entry<K::Key>,
    ) -> Result<(), StepFault<StoreFault>>
        requires still { self.old.log.turn ≡ Closed }
        ensures logged { OnOk result (LogsAs K.Key.Shape K.ReadKeys D.state
            (add_room (is_imaged self.old.imaged page) K.KEY) self.old self.new
            (add_said K.spelling (is_imaged self.old.imaged page) transaction entry.now.row entry.now.key page
            (D.state self.new.shelf.disk).seen self.new.shelf)) }
        ensures unlogged { OnErr result (Unlogged K.Key.Shape K.ReadKeys D.state
            (begun self.old (add_room (is_imaged self.old.imaged page) K.KEY)) self.old self.new) }
        ensures tells { OverPages K.KeyClass D.state (TellsAdd self.old.most page entry.now result) self.old.shelf
            self.new.shelf }
        ensures stamped { IsSteadyAs D.state self.old.shelf
            → OnOk result (IsStamped self.old.log.used self.old.shelf.frames self.new.shelf.frames page) }
        ensures own { OnOk result (OwnNumberAs D.state self.new.shelf page) }
        ensures entry { OnOk result (IsSpelled K.spelling entry.now.row entry.now.key) }
        ensures told { ToldAs D.state (step_fails store_fails) self.old.shelf self.new.shelf result }
        ensures why { IfErr result (IsWhyAs K.KeyClass D.state
            (begun self.old (add_room (is_imaged self.old.imaged page) K.KEY)) self.new.shelf) }
    {
        leaves::<K>();
        let size = self.journal.add_size(page);
        self.store.in_order();
        self.journal.begin_event(&mut self.store, size);
        add_step(&mut self.store, page, entry, self.most)?;
        self.store.in_order();
        self.journal.add(&self.store, transaction, *entry, page);
        Ok(())
    }
}

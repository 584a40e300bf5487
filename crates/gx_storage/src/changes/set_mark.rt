//! Sets or clears the mark of a pair.
ghost use Rattle.std.specs.Prelude.{◌≡◌, ◌≢◌, ◌+◌, ℕ, Err, IfOk, OnErr, IfErr};
ghost use Rattle.gx_glog.specs.declared.stage.Turn.TheVariants.{Closed};
ghost use Rattle.gx_node.specs.Trees.{Used};
ghost use Rattle.gx_tree.specs.Seeking.{Seeks};
ghost use Rattle.gx_tree.specs.Wants.{wants};
ghost use Rattle.gx_node.specs.Owner.{step_fails};
ghost use Rattle.gx_store.specs.Faults.{store_fails};
ghost use Rattle.gx_storage.specs.Changes.{begun, begun_at, has_room};
ghost use Rattle.gx_storage.specs.Imaged.{is_imaged};
ghost use Rattle.gx_storage.specs.Marks.{MarksEntry};
ghost use Rattle.gx_storage.specs.Numbers.{OwnWhereSet};
ghost use Rattle.gx_storage.specs.Setting.{HasEntryAs, IsSinceAs, IsSteadyAs, IsWhyAs, LogsMark, OverPages};
ghost use Rattle.gx_storage.specs.Setting.{ShowsTheSame, ToldAs, Unlogged, tree_at};
ghost use Rattle.gx_storage.specs.Small.{mark_room};

use crate::Storage;
use crate::journal::Journal;
use gx_class::{Probing, ReadKeys};
use gx_disk::SectorDisk;
use gx_machine::Entry;
use gx_node::laws::{leaves, small_marks};
use gx_store::{PageStore, StoreFault};
use gx_tree::{Sought, StepFault, Wanted, seek_step, set_mark_step};

/// Looks for a pair in the leaf on a page, as the tree's `seek_step` does. It asks for no room in the log. Then it
/// begins the event whose record has so many bytes.
fn read_leaf<D: SectorDisk, K: ReadKeys + Probing>(
    journal: &Journal<K>,
    store: &mut PageStore<D, K>,
    wanted: &Wanted<K>,
    page: u32,
    size: usize,
) -> Result<Sought, StepFault<StoreFault>>
    ensures since { (q : ℕ) → IsSinceAs K.KeyClass D.state (begun_at journal.now.log size store.old) store.new q }
    ensures same { IsSteadyAs D.state store.old → ShowsTheSame K.KeyClass D.state store.old store.new }
    ensures told { ToldAs D.state (step_fails store_fails) store.old store.new result }
    ensures why { IfErr result (IsWhyAs K.KeyClass D.state (begun_at journal.now.log size store.old) store.new) }
    ensures sought { IfOk result (Seeks (wants K.passes wanted.now.keys wanted.now.row)
        ((tree_at K.KeyClass D.state store.new).node page)) }
    ensures damaged { result ≡ Err StepFault.Damaged → Used (tree_at K.KeyClass D.state store.new) page
        → ((tree_at K.KeyClass D.state store.new).node page).level ≢ 0 }
    ensures room { result ≢ Err (StepFault.Pages StoreFault.NoRoom) }
{
    journal.begin_reading(store);
    let sought = seek_step(store, wanted, page);
    journal.begin_event(store, size);
    sought
}

impl<D: SectorDisk, K: ReadKeys + Probing> Storage<D, K> {
    /// Sets or clears the mark of an entry's pair in the leaf on a page, and appends the transaction's record of it,
    /// with the mark that was found: a small one if the log's extent has an image of the leaf, otherwise its write with
    /// the image of the leaf. If the pair isn't in this leaf, it returns the next leaf, as `seek_step` does, and logs
    /// nothing.
    ///
    /// Refused with `Pages` if the pair is in this leaf and the log has no room for the record (`NoRoom`), or if the
    /// page could not be brought; with `Damaged` only if it isn't a leaf in use. Nothing has changed then, and nothing
    /// is logged.
    pub fn set_mark(
        &mut self,
        transaction: u64,
        page: u32,
        entry: &Entry<K::Key>,
        marked: bool,
    ) -> Result<Sought, StepFault<StoreFault>>
        requires still { self.old.log.turn ≡ Closed }
        ensures logged { IfOk result (LogsMark K.Key.Shape K.ReadKeys D.state transaction entry.now
            page marked self.old self.new) }
        ensures unlogged { OnErr result (Unlogged K.Key.Shape K.ReadKeys D.state
            (begun self.old (mark_room (is_imaged self.old.imaged page) K.KEY)) self.old self.new) }
        ensures tells { OverPages K.KeyClass D.state (MarksEntry K.is_key K.Key.Shape entry.now page marked result)
            self.old.shelf self.new.shelf }
        ensures own { IfOk result (λ did. OwnWhereSet (D.state self.new.shelf.disk).seen self.new.shelf page did) }
        ensures told { ToldAs D.state (step_fails store_fails) self.old.shelf self.new.shelf result }
        ensures why { IfErr result (IsWhyAs K.KeyClass D.state
            (begun self.old (mark_room (is_imaged self.old.imaged page) K.KEY)) self.new.shelf) }
        ensures room { result ≡ Err (StepFault.Pages StoreFault.NoRoom)
            → HasEntryAs K.Key.Shape K.KeyClass D.state self.new entry.now page }
    {
        let wanted = Wanted::<K>::entry(entry);
        let size = self.journal.mark_size(page);
        if !self.journal.has_room(size) {
            let sought = read_leaf(&self.journal, &mut self.store, &wanted, page, size)?;
            match sought {
                Sought::Here(..) => return Err(StepFault::Pages(StoreFault::NoRoom)),
                Sought::Right(next) => return Ok(Sought::Right(next)),
            }
        }
        leaves::<K>();
        small_marks::<K>(self.most);
        K::known(&entry.key);
        self.store.in_order();
        self.journal.begin_event(&mut self.store, size);
        match set_mark_step(&mut self.store, &wanted, page, marked)? {
            Sought::Here(slot, before) => {
                self.store.in_order();
                self.journal
                    .mark(&self.store, transaction, *entry, before, marked, page);
                Ok(Sought::Here(slot, before))
            }
            Sought::Right(next) => Ok(Sought::Right(next)),
        }
    }
}

//! The sweep of a leaf.
ghost use Rattle.std.specs.Prelude.{◌≡◌, ◌≢◌, ◌<◌, ◌≤◌, ℕ, Bool, true, length, Err, IfOk, OnOk, IfErr};
ghost use Rattle.gx_glog.specs.declared.stage.Turn.TheVariants.{Closed};
ghost use Rattle.gx_machine.specs.declared.entry.Entry.{Entry};
ghost use Rattle.gx_node.specs.declared.items.TheConstants.{MAX_ENTRIES};
ghost use Rattle.gx_store.specs.Since.{IsStamped};
ghost use Rattle.gx_store.specs.State.{IsHeld};
ghost use Rattle.gx_node.specs.Trees.{Used};
ghost use Rattle.gx_tree.specs.Calls.{TellsSweep};
ghost use Rattle.gx_tree.specs.Sweeping.{Answers, FitsLeaf, PlansSweep};
ghost use Rattle.gx_record.specs.declared.sizes.TheConstants.{MOST_SLOTS};
ghost use Rattle.gx_node.specs.Owner.{step_fails};
ghost use Rattle.gx_store.specs.Faults.{store_fails};
ghost use Rattle.gx_storage.specs.Bringing.{has_removable};
ghost use Rattle.gx_storage.specs.Setting.{IsSinceAs, IsSteadyAs, IsWhyAs, LogsSweep, OverPages, OwnNumberAs};
ghost use Rattle.gx_storage.specs.Setting.{RefusesSweep, ShowsTheSame, ToldAs, tree_at};
ghost use Rattle.gx_storage.specs.Sweeping.{begun_sweep, slots_planned};

use crate::Storage;
use crate::journal::Journal;
use gx_class::ReadKeys;
use gx_disk::SectorDisk;
use gx_machine::Entry;
use gx_node::laws::leaves;
use gx_record::MOST_SLOTS;
use gx_store::{PageStore, StoreFault};
use gx_tree::{Pages, StepFault, Sweep, make_sweep, plan_sweep};

/// How many slots a plan removes; none if no plan was made.
fn slot_count(plan: &Result<Sweep, StepFault<StoreFault>>) -> usize
    ensures count { result ≡ length (slots_planned plan.now) }
    ensures few { result ≤ MOST_SLOTS }
{
    match plan {
        Ok(sweep) => sweep.slots().len(),
        Err(_) => 0,
    }
}

/// Returns which pairs of the leaf on a page a sweep removes, as the tree's `plan_sweep` does. It asks for no room in
/// the log. Then it begins the event whose record has these slots, or the page's image.
fn plan<D: SectorDisk, K: ReadKeys, F: Fn(Entry<K::Key>) -> bool>(
    journal: &Journal<K>,
    store: &mut PageStore<D, K>,
    page: u32,
    claimed: F,
) -> Result<Sweep, StepFault<StoreFault>>
    requires claimed { F.IsAlwaysCallable claimed }
    ensures since { (q : ℕ) → IsSinceAs K.KeyClass D.state
        (begun_sweep journal.now page (slots_planned result) store.old) store.new q }
    ensures same { IsSteadyAs D.state store.old → ShowsTheSame K.KeyClass D.state store.old store.new }
    ensures told { ToldAs D.state (step_fails store_fails) store.old store.new result }
    ensures why { IfErr result (IsWhyAs K.KeyClass D.state
        (begun_sweep journal.now page (slots_planned result) store.old) store.new) }
    ensures few { length (slots_planned result) ≤ MOST_SLOTS }
    ensures held { OnOk result (IsHeld store.new page × Used (tree_at K.KeyClass D.state store.new) page) }
    ensures page { IfOk result (λ sweep. sweep.page ≡ page) }
    ensures fits { IfOk result (λ sweep. FitsLeaf sweep ((tree_at K.KeyClass D.state store.new).node page)) }
    ensures plans { (test : Entry K.Key → Bool) → Answers F.post claimed test
        → IfOk result (PlansSweep test ((tree_at K.KeyClass D.state store.new).node page)) }
    ensures damaged { result ≡ Err StepFault.Damaged → Used (tree_at K.KeyClass D.state store.new) page
        → ((tree_at K.KeyClass D.state store.new).node page).level ≡ 0
        → MAX_ENTRIES < length ((tree_at K.KeyClass D.state store.new).node page).pairs }
    ensures room { result ≢ Err (StepFault.Pages StoreFault.NoRoom) }
{
    journal.begin_reading(store);
    let plan = plan_sweep(store, page, claimed);
    journal.begin_event(store, journal.sweep_size(page, slot_count(&plan)));
    plan
}

impl<D: SectorDisk, K: ReadKeys> Storage<D, K> {
    /// Removes the marked pairs that no session claims from the leaf on a page, and appends the record of it: a small
    /// one if the log's extent has an image of the leaf, otherwise one with the image of the leaf. Returns whether
    /// there were any such pairs; if not, nothing has changed, nothing is logged, and no room is asked for.
    ///
    /// Refused with `Pages` if the page could not be brought, or if a pair has to be removed and the log has no room
    /// for the record (`NoRoom`); with `Damaged` only if it isn't a leaf in use, or has more than `MAX_ENTRIES` pairs.
    /// Nothing has changed then, and nothing is logged.
    pub fn sweep<F: Fn(Entry<K::Key>) -> bool>(
        &mut self,
        page: u32,
        claimed: F,
    ) -> Result<bool, StepFault<StoreFault>>
        requires still { self.old.log.turn ≡ Closed }
        requires claimed { F.IsAlwaysCallable claimed }
        ensures logged { IfOk result (LogsSweep K.Key.Shape K.ReadKeys D.state
            (Answers F.post claimed) self.old self.new page) }
        ensures unlogged { IfErr result (RefusesSweep K.Key.Shape K.ReadKeys D.state
            (Answers F.post claimed) self.old self.new page) }
        ensures tells { OverPages K.KeyClass D.state (TellsSweep (Answers F.post claimed) page result) self.old.shelf
            self.new.shelf }
        ensures stamped { IsSteadyAs D.state self.old.shelf
            → IfOk result (λ any. any ≡ true
            → IsStamped self.old.log.used self.old.shelf.frames self.new.shelf.frames page) }
        ensures own { IfOk result (λ any. any ≡ true → OwnNumberAs D.state self.new.shelf page) }
        ensures told { ToldAs D.state (step_fails store_fails) self.old.shelf self.new.shelf result }
        ensures room { result ≡ Err (StepFault.Pages StoreFault.NoRoom) → (test : Entry K.Key → Bool)
            → Answers F.post claimed test
            → has_removable test ((tree_at K.KeyClass D.state self.new.shelf).node page) ≡ true }
    {
        leaves::<K>();
        self.store.in_order();
        let plan = plan(&self.journal, &mut self.store, page, claimed)?;
        if plan.is_empty() {
            return Ok(false);
        }
        make_sweep(&mut self.store, &plan)?;
        self.store.in_order();
        self.journal.sweep(&self.store, &plan);
        Ok(true)
    }
}

//! The sweep of a leaf.
ghost use Rattle.std.specs.Prelude.{◌≡◌, ◌≤◌, ◌<◌, true, false};
ghost use Rattle.gx_store.specs.State.{IsHeld};
ghost use Rattle.gx_storage.specs.Bringing.{has_removable};
ghost use Rattle.gx_engine.specs.Calls.{IsRead, TellsAs};
ghost use Rattle.gx_engine.specs.States.{is_due};
ghost use Rattle.gx_engine.specs.Sweeping.{is_page, sweep_events};
ghost use Rattle.gx_engine.specs.Setting.{LeadsAs, SweepComesAs, SweepsPageAs, may_sweep};

use crate::Engine;
use crate::laws::a_class_is_lawful;
use gx_class::ReadKeys;
use gx_disk::SectorDisk;
use gx_events::{Need, Outcome};
use gx_geom::Refusal;
use gx_node::laws::small_removals;
use gx_tree::StepFault;

impl<D: SectorDisk, K: ReadKeys> Engine<D, K> {
    // Whether a page that is held is a leaf that has a marked pair that no session claims.
    fn has_removable(&self, page: u32) -> bool
        requires held { IsHeld self.now.volume.shelf page }
        ensures { result ≡ may_sweep K.Key.Shape K.KeyClass D.state page self.now }
    {
        let sessions = &self.sessions;
        self.storage
            .has_removable(page, |entry| sessions.is_claimed(&entry))
    }

    // Whether a page is in use.
    fn is_page(&self, page: u32) -> bool
        ensures { result ≡ is_page page self.now }
    {
        0 < page && page <= self.storage.used()
    }

    // Removes from a leaf the marked pairs that no session claims, if no checkpoint is due.
    fn take_out(&mut self, page: u32) -> Outcome<K::Key>
        requires from { 1 ≤ page }
        requires to { page ≤ self.old.volume.shelf.used }
        requires some { may_sweep K.Key.Shape K.KeyClass D.state page self.old ≡ true }
        requires early { is_due self.old ≡ false }
        requires works { self.old.sessions.failed ≡ false }
        ensures sweeps { SweepsPageAs K.Key.Shape K.ReadKeys D.state page self.old self.new result }
        ensures leads { LeadsAs K.Key.Shape K.ReadKeys D.state self.old self.new (sweep_events result) }
        ensures device { IsRead D.state self.old self.new }
        ensures told { TellsAs D.state self.old self.new result }
    {
        a_class_is_lawful::<K>();
        small_removals::<K>();
        self.sessions.stands();
        self.storage.most();
        self.storage.in_order();
        let sessions = &self.sessions;
        match self
            .storage
            .sweep(page, |entry| sessions.is_claimed(&entry))
        {
            Ok(true) => Outcome::More,
            Ok(false) => Outcome::Nothing,
            Err(StepFault::Pages(fault)) => self.turn_away(fault),
            Err(StepFault::Damaged) => self.fail_event(Refusal::Damaged),
        }
    }

    // Sweeps a held page, if it has anything to remove.
    fn sweep_held(&mut self, page: u32) -> Outcome<K::Key>
        requires held { IsHeld self.old.volume.shelf page }
        requires works { self.old.sessions.failed ≡ false }
        ensures sweeps { SweepsPageAs K.Key.Shape K.ReadKeys D.state page self.old self.new result }
        ensures leads { LeadsAs K.Key.Shape K.ReadKeys D.state self.old self.new (sweep_events result) }
        ensures device { IsRead D.state self.old self.new }
        ensures told { TellsAs D.state self.old self.new result }
    {
        if !self.has_removable(page) {
            return Outcome::Nothing;
        }
        if self.is_due() {
            return Outcome::Help(Need::Checkpoint);
        }
        self.take_out(page)
    }

    /// Removes the marked pairs that no session claims from the leaf on a page, logs that, and returns `More`. Returns
    /// `Nothing` if no such page is in use, before any is brought; or if it isn't a leaf, or has no such pair.
    ///
    /// Returns `Help` with the event that has to come first, if the page couldn't be brought, if a pair is to be
    /// removed and a checkpoint is due, or if the log has no room for the record. Refused with `Failed` by an engine
    /// that has failed, with `Device` if the device failed, and with `Damaged` if the page that was read doesn't pass
    /// its test; the engine has failed then. With every other outcome but `More`, pages may have been brought and
    /// nothing else has changed. It takes no memory.
    pub(crate) fn sweep(&mut self, page: u32) -> Outcome<K::Key>
        ensures sweeps { SweepComesAs K.Key.Shape K.ReadKeys D.state page self.old self.new
            self.old.sessions.failed result }
        ensures leads { LeadsAs K.Key.Shape K.ReadKeys D.state self.old self.new (sweep_events result) }
        ensures device { IsRead D.state self.old self.new }
        ensures told { TellsAs D.state self.old self.new result }
    {
        if self.sessions.has_failed() {
            return Outcome::Refused(Refusal::Failed);
        }
        if !self.is_page(page) {
            return Outcome::Nothing;
        }
        match self.bring(page) {
            Ok(()) => self.sweep_held(page),
            Err(outcome) => outcome,
        }
    }
}

//! Pages that are brought in an event of no session, and lent for reading.
ghost use Rattle.std.specs.Borrow.{sem};
ghost use Rattle.std.specs.Prelude.{◌≡◌, ◌≤◌, false, OnOk};
ghost use Rattle.gx_store.specs.State.{IsHeld};
ghost use Rattle.gx_storage.specs.Bringing.{bringing};
ghost use Rattle.gx_engine.specs.Calls.{IsRead, TellsWhere};
ghost use Rattle.gx_engine.specs.States.{IsOrderly};
ghost use Rattle.gx_engine.specs.Sweeping.{bring_events};
ghost use Rattle.gx_engine.specs.Viewing.{lends_page};
ghost use Rattle.gx_storage.specs.Setting.{StaysAs, Unlogged};
ghost use Rattle.gx_engine.specs.Setting.{BringComesAs, BringPageComesAs, IsLent, LeadsAs};

use crate::Engine;
use crate::laws::a_class_is_lawful;
use gx_class::ReadKeys;
use gx_disk::SectorDisk;
use gx_events::{Need, Outcome};
use gx_geom::Refusal;
use gx_page::Page;

/// Why a page isn't lent, in terms of an event's outcome.
#[derive(Clone, Copy, Debug, PartialEq, Eq)]
pub enum NotLent {
    /// No frame is clean; this event has to come first.
    Help(Need),
    /// Refused.
    Refused(Refusal),
}

impl<D: SectorDisk, K: ReadKeys> Engine<D, K> {
    // Brings a page in use into a frame, which holds it until pages are brought again. If that is refused, returns the
    // outcome. No node has changed, and nothing is logged.
    pub(crate) fn bring(&mut self, page: u32) -> Result<(), Outcome<K::Key>>
        requires from { 1 ≤ page }
        requires to { page ≤ self.old.volume.shelf.used }
        requires works { self.old.sessions.failed ≡ false }
        ensures unlogged { Unlogged K.Key.Shape K.ReadKeys D.state (bringing self.old.volume)
            self.old.volume self.new.volume }
        ensures stays { StaysAs K.KeyClass D.state self.old.volume.shelf self.new.volume.shelf }
        ensures held { OnOk result (IsHeld self.new.volume.shelf page) }
        ensures comes { BringComesAs K.KeyClass D.state self.old self.new result }
        ensures leads { LeadsAs K.Key.Shape K.ReadKeys D.state self.old self.new (bring_events result) }
        ensures device { IsRead D.state self.old self.new }
        ensures told { TellsWhere D.state self.old self.new result }
    {
        a_class_is_lawful::<K>();
        match self.storage.bring(page) {
            Ok(()) => Ok(()),
            Err(fault) => Err(self.turn_away(fault)),
        }
    }

    /// Brings a page in use into a frame, which holds it until pages are brought again, so that `held_page` lends it.
    /// No node has changed, and nothing is logged.
    ///
    /// Returns `Help` with the event that frees a frame, if no frame is clean. Refused with `Failed` by an engine that
    /// has failed, with `Device` if the device failed, and with `Damaged` if the page that was read doesn't pass its
    /// test; the engine has failed then. It makes no write and no sync of the device, and takes no memory.
    pub fn bring_page(&mut self, page: u32) -> Result<(), Outcome<K::Key>>
        requires from { 1 ≤ page }
        requires to { page ≤ self.old.volume.shelf.used }
        ensures stays { StaysAs K.KeyClass D.state self.old.volume.shelf self.new.volume.shelf }
        ensures held { OnOk result (IsHeld self.new.volume.shelf page) }
        ensures comes { BringPageComesAs K.KeyClass D.state self.old self.new self.old.sessions.failed result }
        ensures leads { LeadsAs K.Key.Shape K.ReadKeys D.state self.old self.new (bring_events result) }
        ensures order { IsOrderly self.old × IsOrderly self.new }
        ensures device { IsRead D.state self.old self.new }
        ensures told { TellsWhere D.state self.old self.new result }
    {
        self.in_order();
        if self.sessions.has_failed() {
            return Err(Outcome::Refused(Refusal::Failed));
        }
        let brought = self.bring(page);
        self.in_order();
        brought
    }

    /// Lends a held page.
    pub fn held_page(&self, page: u32) -> &Page
        requires held { IsHeld self.now.volume.shelf page }
        ensures { IsLent K.KeyClass D.state page self.now result.now }
    {
        self.storage.held_page(page)
    }

    /// Lends a page in use. Brings it first, as `bring_page` does, and returns what that returns if the page isn't
    /// brought.
    pub fn page(&mut self, page: u32) -> Result<&Page, NotLent>
        requires from { 1 ≤ page }
        requires to { page ≤ self.old.volume.shelf.used }
        ensures* lends { sem 𝓛 (lends_page D.row K.row K.Key.row D.SectorDisk K.KeyClass K.said K.is_proper K.Key.Shape
            self.entry page result) }
    {
        match self.bring_page(page) {
            Ok(()) => Ok(self.held_page(page)),
            Err(Outcome::Help(need)) => Err(NotLent::Help(need)),
            Err(Outcome::Refused(why)) => Err(NotLent::Refused(why)),
            Err(Outcome::Replied(_) | Outcome::More | Outcome::Nothing) => unreachable!(),
        }
    }
}

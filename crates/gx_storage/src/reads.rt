//! The tree's steps that read, over pages with their log.
ghost use Rattle.std.specs.Prelude.{◌≢◌, ◌<◌, length, Err, IfErr, OnOk};
ghost use Rattle.gx_store.specs.State.{IsHeld};
ghost use Rattle.gx_tree.specs.Calls.{TellsLook, TellsSeek};
ghost use Rattle.gx_tree.specs.Wants.{wants};
ghost use Rattle.gx_node.specs.Owner.{look_fails, step_fails};
ghost use Rattle.gx_store.specs.Faults.{store_fails};
ghost use Rattle.gx_storage.specs.Bringing.{bringing};
ghost use Rattle.gx_storage.specs.Setting.{IsWhyAs, IsWhyOfLookAs, OverPages, ToldAs, Unlogged};

use crate::Storage;
use gx_class::{Probing, ReadKeys};
use gx_disk::SectorDisk;
use gx_store::StoreFault;
use gx_tree::{Look, LookFault, Sought, StepFault, Wanted};

impl<D: SectorDisk, K: ReadKeys + Probing> Storage<D, K> {
    /// Reads the page of a look's next item, as the tree's `look_step` says. It logs nothing and asks for no room in
    /// the log, and whether it succeeds or not it changes no node.
    ///
    /// Refused with `Pages` if the page could not be brought, with `Damaged` if the item names no page in use: the look
    /// is then unchanged. Refused with `Memory` if memory is refused; the look can't be used then.
    pub fn look_step(
        &mut self,
        wanted: &Wanted<K>,
        look: &mut Look<K::Key>,
    ) -> Result<(), LookFault<StoreFault>>
        requires { 0 < length look.old.stack.items }
        ensures unlogged { Unlogged K.Key.Shape K.ReadKeys D.state (bringing self.old) self.old self.new }
        ensures tells { OverPages K.KeyClass D.state (TellsLook (wants K.passes wanted.now.keys wanted.now.row)
            (K.passes wanted.now.bounds) look.old look.new result) self.old.shelf self.new.shelf }
        ensures told { ToldAs D.state (look_fails store_fails) self.old.shelf self.new.shelf result }
        ensures why { IfErr result (IsWhyOfLookAs K.KeyClass D.state (bringing self.old) self.new.shelf) }
        ensures room { result ≢ Err (LookFault.Step (StepFault.Pages StoreFault.NoRoom)) }
    {
        self.journal.begin_reading(&mut self.store);
        gx_tree::look_step(&mut self.store, wanted, look)
    }

    /// Looks for a pair in the leaf on a page, as the tree's `seek_step` says. It logs nothing and asks for no room in
    /// the log, and whether it succeeds or not it changes no node.
    ///
    /// Refused with `Pages` if the page could not be brought, and with `Damaged` only if it isn't a leaf in use.
    pub fn seek_step(
        &mut self,
        wanted: &Wanted<K>,
        page: u32,
    ) -> Result<Sought, StepFault<StoreFault>>
        ensures unlogged { Unlogged K.Key.Shape K.ReadKeys D.state (bringing self.old) self.old self.new }
        ensures tells { OverPages K.KeyClass D.state (TellsSeek (wants K.passes wanted.now.keys wanted.now.row) page
            result) self.old.shelf self.new.shelf }
        ensures held { OnOk result (IsHeld self.new.shelf page) }
        ensures told { ToldAs D.state (step_fails store_fails) self.old.shelf self.new.shelf result }
        ensures why { IfErr result (IsWhyAs K.KeyClass D.state (bringing self.old) self.new.shelf) }
        ensures room { result ≢ Err (StepFault.Pages StoreFault.NoRoom) }
    {
        self.journal.begin_reading(&mut self.store);
        gx_tree::seek_step(&mut self.store, wanted, page)
    }
}

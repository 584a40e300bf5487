//! The parts of a checkpoint, each with at most one device call: the sync of the pages, the head of the renewed log,
//! and the turn to the other extent.
ghost use Rattle.std.specs.Prelude.{◌≡◌, ◌↔◌, ◌⊎◌, ◌≤◌, [], length, true, IfErr, OnOk};
ghost use Rattle.std.specs.Bool.{OnTrue, OnFalse};
ghost use Rattle.gx_disk.specs.Device.{Counts, IsSettled};
ghost use Rattle.gx_glog.specs.State.{in_flight, Turns};
ghost use Rattle.gx_node.specs.Reading.{format_of};
ghost use Rattle.gx_pool.specs.State.{IsSound, NoneDirty, dirty_count};
ghost use Rattle.gx_pool.specs.declared.frames.TheConstants.{FRAMES};
ghost use Rattle.gx_record.specs.Format.{IsInRange};
ghost use Rattle.gx_record.specs.Rec.{Note};
ghost use Rattle.gx_record.specs.Seen.{rec_of};
ghost use Rattle.gx_recovery.specs.Records as records;
ghost use Rattle.gx_durable.specs.Turns.{HeadGrows, told_result};
ghost use Rattle.gx_durable.specs.Classes.{reading_of};
ghost use Rattle.gx_storage.specs.Flushing.{HeadHas, PutInHead, ReadyToTurn};
ghost use Rattle.gx_storage.specs.Imaged.{imaged_after};
ghost use Rattle.gx_storage.specs.Setting.{KeepsOnAs, MayTurnAs, TurnsOnAs};

use crate::Storage;
use gx_class::ReadKeys;
use gx_disk::SectorDisk;
use gx_durable::OfClass;
use gx_durable::calls::put_first;
use gx_geom::Refusal;
use gx_glog::{Appended, Stage, Turn};
use gx_record::Record;
use gx_store::StoreFault;

impl<D: SectorDisk, K: ReadKeys> Storage<D, K> {
    /// How many frames have a page with changes that aren't on the device: at most 4,096. Frames and the table of
    /// pages name each other, and the event holds at most four pages.
    pub fn dirty_frames(&self) -> usize
        ensures count { result ≡ dirty_count self.now.shelf.frames }
        ensures few { result ≤ FRAMES }
        ensures zero { (result ≡ 0) ↔ NoneDirty self.now.shelf.frames }
        ensures sound { IsSound self.now.shelf.frames }
        ensures held { length self.now.shelf.frames.held ≤ 4 }
    {
        self.store.dirty_frames()
    }

    /// Whether nothing is in flight, and nothing waits for the next batch.
    pub fn is_idle(&self) -> bool
        ensures yes { OnTrue result ((self.now.log.stage ≡ Stage.Idle) × (self.now.log.filling ≡ [])) }
        ensures no { OnFalse result ((in_flight self.now.log.stage ≡ 1) ⊎ (1 ≤ length self.now.log.filling)) }
    {
        self.journal.log.is_idle()
    }

    /// Whether a turn's next call may be made: nothing is in flight or fills, a head was put, and no page is dirty.
    pub fn may_turn(&self) -> bool
        ensures yes { OnTrue result (ReadyToTurn self.now) }
        ensures no { OnFalse result (ReadyToTurn self.now → ⊥) }
    {
        let journal = &self.journal;
        journal.log.is_idle() && journal.log.has_head() && self.store.dirty_frames() == 0
    }

    /// Makes all writes durable, in one device call. Pages and log don't change. Refused with `Device` exactly if the
    /// device failed.
    ///
    /// Of an honest device, whether it succeeds or not: the same state is kept, and at each moment what a crash may
    /// leave stands for a kept set.
    pub fn sync(&mut self) -> Result<(), Refusal>
        ensures counts { Counts 1 (D.state self.old.shelf.disk) (D.state self.new.shelf.disk) result }
        ensures only { self.new ≡ record self.old { shelf = record self.old.shelf { disk = self.new.shelf.disk } } }
        ensures settled { (D.state self.old.shelf.disk).honest ≡ true
            → OnOk result (IsSettled (D.state self.new.shelf.disk)) }
        ensures refusal { IfErr result (λ refusal. refusal ≡ Refusal.Device) }
        ensures keeps { KeepsOnAs K.Key.Shape K.ReadKeys D.state self.old self.new }
    {
        self.store.sync::<OfClass<K>>()
    }

    /// Appends a record to the head, which a turn makes the other extent's first batch: the counters first, and then a
    /// note for each entry that an open transaction wrote, by transaction, row and key. Nothing is written to the
    /// device. `NoRoom` exactly if the body has no room for it, or a turn is under way; nothing changes then. The start
    /// of a batch drops the head.
    pub fn put_head(&mut self, logged: &Record<'_>) -> Result<(), StoreFault>
        requires in_range { IsInRange (rec_of logged.now) }
        requires idle { self.old.log.stage ≡ Stage.Idle }
        ensures puts { PutInHead (rec_of logged.now) self.old self.new result }
        ensures head { OnOk result (HeadGrows (reading_of K.said (format_of K.KeyClass)) (rec_of logged.now)
            self.old.log self.new.log (Appended.At 0)) }
        ensures keeps { KeepsOnAs K.Key.Shape K.ReadKeys D.state self.old self.new }
    {
        let journal = &mut self.journal;
        match put_first::<OfClass<K>>(&mut journal.log, logged) {
            Appended::At(_) => Ok(()),
            Appended::NoRoom => Err(StoreFault::NoRoom),
        }
    }

    /// Appends to the head the note of an entry that an open transaction wrote, with its mark from before and the leaf
    /// on which it was last written. Nothing is written to the device. `NoRoom` exactly as `put_head`; nothing changes
    /// then.
    pub fn put_note(
        &mut self,
        transaction: u64,
        row: u64,
        key: K::Key,
        before: bool,
        leaf: u32,
    ) -> Result<(), StoreFault>
        requires idle { self.old.log.stage ≡ Stage.Idle }
        ensures puts { PutInHead (Note transaction row (K.spelling key) before leaf) self.old self.new result }
        ensures head { OnOk result (HeadHas (reading_of K.said (format_of K.KeyClass))
            (records.Note transaction (record { row = row; key = key }) before leaf) self.old.log self.new.log) }
        ensures keeps { KeepsOnAs K.Key.Shape K.ReadKeys D.state self.old self.new }
    {
        K::known(&key);
        match self.journal.put_note(transaction, row, key, before, leaf) {
            Appended::At(_) => Ok(()),
            Appended::NoRoom => Err(StoreFault::NoRoom),
        }
    }

    /// Makes the next device call of the turn to the other extent, exactly one, in this order: the other extent's gates
    /// closed, its first body, sync, its gate, sync, the selector, sync. Returns which call it was. With `Done` the log
    /// goes on in the other extent after the head, where no page has an image yet, and the frames count batches from 0
    /// again. Pages don't change. Refused with `Device` exactly if the device failed; the call is then still due.
    ///
    /// Of an honest device whose pages are synced, if the head restates the log: the same state is kept until the last
    /// call, and after it the one with the renewed log alone. Whether it succeeds or not, no set changes, and at each
    /// moment what a crash may leave stands for a kept set of the state before. The contract says that the turn may
    /// begin in a kept state if pages are synced and the head restates the log; while it is under way it may go on.
    pub fn turn_step(&mut self) -> Result<Turn, Refusal>
        requires { ReadyToTurn self.old }
        ensures counts { Counts 1 (D.state self.old.shelf.disk) (D.state self.new.shelf.disk) result }
        ensures turns { Turns self.old.log self.new.log result }
        ensures only { self.new ≡ record self.old {
          log = self.new.log;
          shelf = record self.old.shelf {
            disk = self.new.shelf.disk;
            frames = told_result result self.old.shelf.frames;
          };
          imaged = imaged_after result self.old.imaged;
        } }
        ensures refusal { IfErr result (λ refusal. refusal ≡ Refusal.Device) }
        ensures begins { MayTurnAs K.Key.Shape K.ReadKeys D.state self.old }
        ensures keeps { TurnsOnAs K.Key.Shape K.ReadKeys D.state self.old self.new result }
    {
        let journal = &mut self.journal;
        let told = self.store.turn_step::<OfClass<K>>(&mut journal.log);
        journal.imaged.forget_after(&told);
        told
    }
}

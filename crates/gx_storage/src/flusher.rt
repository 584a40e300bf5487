//! What a flusher does: the log's next device call and a page's write. Also which of these helps an event that was
//! refused.
ghost use Rattle.std.specs.Prelude.{◌≡◌, ◌+◌, ◌<◌, true, false, Some, Ok, IfErr, IfOk, OnOk, MatchResult};
ghost use Rattle.gx_disk.specs.Device.{Counts};
ghost use Rattle.gx_glog.specs.State.{calls_of, Goes};
ghost use Rattle.gx_glog.specs.declared.extent.TheConstants.{PLACES};
ghost use Rattle.gx_pool.specs.Marks.{is_gated};
ghost use Rattle.gx_pool.specs.State.{Kept, kept, stamp_of};
ghost use Rattle.gx_pool.specs.Writing.{WritesPage, WritesAtMost};
ghost use Rattle.gx_record.specs.Format.{IsInRange};
ghost use Rattle.gx_record.specs.Rec as rec;
ghost use Rattle.gx_record.specs.Seen.{rec_of};
ghost use Rattle.gx_durable.specs.Steps.{told_frames};
ghost use Rattle.gx_storage.specs.Flushing.{GivesNoPage, Helps, HelpsFrames, IsLeastWritable, Recorded};
ghost use Rattle.gx_storage.specs.Setting.{KeepsRecordAs, StepsLogAs, WritesGatedAs};

use crate::Storage;
use gx_class::ReadKeys;
use gx_disk::SectorDisk;
use gx_durable::OfClass;
use gx_durable::calls::append;
use gx_events::Need;
use gx_geom::Refusal;
use gx_glog::{Appended, Stage};
use gx_record::Record;
use gx_store::StoreFault;

impl<D: SectorDisk, K: ReadKeys> Storage<D, K> {
    /// The least page that has changes, all of them in gated batches: `write_page` writes it.
    pub fn dirty(&self) -> Option<u32>
        ensures { IsLeastWritable self.now.shelf.frames result }
    {
        self.store.dirty()
    }

    // The event that frees a frame, if fewer are clean than are needed.
    fn frame_help(&self, wanted: usize) -> Option<Need>
        ensures { HelpsFrames self.now.shelf.frames wanted result }
    {
        if self.store.clean_frames() >= wanted {
            return None;
        }
        match self.store.dirty() {
            Some(page) => Some(Need::Write(page)),
            None => Some(Need::Log),
        }
    }

    /// The event that helps one that was refused so. If the log had no room: the log's next call, since its filling
    /// buffer is emptied when a batch begins. If too few frames were clean, and still are: the write of the least page
    /// whose changes are all in gated batches, or if there is no such page, the log's next call, which gates more.
    /// `None` if as many frames are clean by now, and for a device that fails or isn't honest, since nothing helps
    /// then. It is never a checkpoint.
    pub fn help(&self, fault: StoreFault) -> Option<Need>
        ensures { Helps self.now.shelf fault result }
    {
        match fault {
            StoreFault::NoRoom => Some(Need::Log),
            StoreFault::TooFewFrames(wanted) => self.frame_help(wanted as usize),
            StoreFault::Device | StoreFault::Damaged => None,
        }
    }

    /// How many places of the selected extent are taken, including the one in flight. A record goes into the next one,
    /// so one has to be left.
    pub fn places(&self) -> u8
        ensures { result ≡ self.now.log.used }
    {
        self.journal.log.used()
    }

    /// Makes the log's next device call, at most one; once a gate is synced the frames learn of its batch. Returns
    /// which call it was, or `Idle` if nothing is logged and none was made. Pages don't change. Refused with `Device`
    /// exactly if the device failed; the call is then still due.
    ///
    /// Of an honest device: the batch that filled is in flight from its first call on, and its commits are durable from
    /// its gate's sync on, and not before. Whether it succeeds or not, no set changes, and at each moment what a crash
    /// may leave stands for a kept set of the state before.
    pub fn log_step(&mut self) -> Result<Stage, Refusal>
        ensures counts { Counts (calls_of result) (D.state self.old.shelf.disk) (D.state self.new.shelf.disk) result }
        ensures goes { Goes self.old.log self.new.log result }
        ensures only { self.new ≡ record self.old {
          log = self.new.log;
          shelf = record self.old.shelf {
            disk = self.new.shelf.disk;
            frames = told_frames result self.new.log self.old.shelf.frames;
          };
        } }
        ensures refusal { IfErr result (λ refusal. refusal ≡ Refusal.Device) }
        ensures keeps { StepsLogAs K.Key.Shape K.ReadKeys D.state self.old self.new result }
    {
        let journal = &mut self.journal;
        self.store.log_step::<OfClass<K>>(&mut journal.log)
    }

    /// Writes a page to its sectors if it has changes and all of them are in gated batches, and returns whether it did;
    /// else does nothing. A page that was written is clean. Refused with `Device` exactly if the device failed; the
    /// page is then kept unchanged, with its changes.
    ///
    /// Of an honest device, while no turn is under way: whether it succeeds or not, the records are the same, over the
    /// new page area, no set changes, and at each moment what a crash may leave stands for a kept set of the state
    /// before.
    pub fn write_page(&mut self, page: u32) -> Result<bool, Refusal>
        ensures answer { IfOk result (λ written. written ≡ is_gated self.old.shelf.frames.gated
            (stamp_of (kept self.old.shelf.frames page))) }
        ensures idle { is_gated self.old.shelf.frames.gated (stamp_of (kept self.old.shelf.frames page)) ≡ false
            → (result ≡ Ok false) × (self.new ≡ self.old) }
        ensures written { (k : Kept) → kept self.old.shelf.frames page ≡ Some k
            → is_gated self.old.shelf.frames.gated k.stamp ≡ true
            → WritesPage (D.state self.old.shelf.disk) (D.state self.new.shelf.disk) self.old.shelf.frames
            self.new.shelf.frames page k result }
        ensures at_most { WritesAtMost (D.state self.old.shelf.disk) (D.state self.new.shelf.disk) self.old.shelf.frames
            self.new.shelf.frames page }
        ensures only { self.new ≡ record self.old
            { shelf = record self.old.shelf { disk = self.new.shelf.disk; frames = self.new.shelf.frames } } }
        ensures faults { MatchResult result (λ _. (D.state self.new.shelf.disk).faults
            ≡ (D.state self.old.shelf.disk).faults) (λ _. (D.state self.new.shelf.disk).faults
            ≡ (D.state self.old.shelf.disk).faults + 1) }
        ensures refusal { IfErr result (λ refusal. refusal ≡ Refusal.Device) }
        ensures keeps { is_gated self.old.shelf.frames.gated (stamp_of (kept self.old.shelf.frames page)) ≡ true
            → WritesGatedAs K.Key.Shape K.ReadKeys D.state self.old self.new }
    {
        self.store.write_page::<OfClass<K>>(page)
    }

    // Appends a record without a page image.
    fn append(&mut self, logged: &Record<'_>) -> Result<(), StoreFault>
        requires in_range { IsInRange (rec_of logged.now) }
        requires place { self.old.log.used < PLACES }
        ensures recorded { Recorded (rec_of logged.now) self.old self.new result }
        ensures keeps { GivesNoPage (rec_of logged.now)
            → OnOk result (KeepsRecordAs K.Key.Shape K.ReadKeys D.state self.old self.new (rec_of logged.now)) }
    {
        let journal = &mut self.journal;
        match append::<OfClass<K>>(&mut journal.log, logged) {
            Appended::At(_) => Ok(()),
            Appended::NoRoom => Err(StoreFault::NoRoom),
        }
    }

    /// Appends the record that a transaction commits, as the commit of that number. Nothing is written to the device,
    /// and no page changes. `NoRoom` exactly if the log has no room for it; nothing changes then.
    pub fn append_commit(&mut self, transaction: u64, number: u64) -> Result<(), StoreFault>
        requires place { self.old.log.used < PLACES }
        ensures recorded { Recorded (rec.Commit transaction number) self.old self.new result }
        ensures keeps { OnOk result (KeepsRecordAs K.Key.Shape K.ReadKeys D.state self.old self.new
            (rec.Commit transaction number)) }
    {
        self.append(&Record::Commit {
            tx: transaction,
            n: number,
        })
    }

    /// Appends the record that a transaction's undo is done. Nothing is written to the device, and no page changes.
    /// `NoRoom` exactly if the log has no room for it; nothing changes then.
    pub fn append_end(&mut self, transaction: u64) -> Result<(), StoreFault>
        requires place { self.old.log.used < PLACES }
        ensures recorded { Recorded (rec.End transaction) self.old self.new result }
        ensures keeps { OnOk result (KeepsRecordAs K.Key.Shape K.ReadKeys D.state self.old self.new
            (rec.End transaction)) }
    {
        self.append(&Record::End { tx: transaction })
    }
}

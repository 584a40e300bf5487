//! The calls that the log's owner makes of the store's frames and device, each with its effect on the state that the
//! device carries.
ghost use Rattle.std.specs.Prelude.{◌≡◌, ◌↔◌, ◌≤◌, ℕ, [], true, false, Ok};
ghost use Rattle.std.specs.Prelude.{IfSome, IfNone, IfOk, IfErr, OnOk, length};
ghost use Rattle.gx_disk.specs.Device.{Counts, IsSettled, CountsFault};
ghost use Rattle.gx_glog.specs.Standing.{On};
ghost use Rattle.gx_glog.specs.State.{calls_of, Goes, Turns};
ghost use Rattle.gx_node.specs.Reading.{format_of, is_node};
ghost use Rattle.gx_pool.specs.declared.frames.TheConstants.{FRAMES};
ghost use Rattle.gx_pool.specs.Elsewhere.{LeavesPages};
ghost use Rattle.gx_pool.specs.State.{IsSound, IsWritable, NoneDirty, clean_count, dirty_count};
ghost use Rattle.gx_pool.specs.Writing.{WritesAtMost, may_be_written, WritesGated, StaysShown};
ghost use Rattle.gx_recovery.specs.Known.{Limits};
ghost use Rattle.gx_durable.specs.Calls.{StepKeepsRunning};
ghost use Rattle.gx_durable.specs.Opening.{FirstTurnKeeps};
ghost use Rattle.gx_durable.specs.Pages.{PageKeepsRunning};
ghost use Rattle.gx_durable.specs.PoolLaws.{StaysUp};
ghost use Rattle.gx_durable.specs.Steps.{told, told_frames};
ghost use Rattle.gx_durable.specs.Turns.{TurnKeepsRunning, told_result, told_turn};
ghost use Rattle.gx_store.specs.Faults.{CanBeRead};

use crate::store::PageStore;
use gx_class::KeyClass;
use gx_disk::SectorDisk;
use gx_durable::Spelled;
use gx_geom::Refusal;
use gx_glog::{Glog, Stage, Turn};
use gx_pool::{PageTest, Pool};

// Notes the last batch in the pool, if its gate was synced.
fn tell_pool<T: PageTest>(pool: &mut Pool<T>, stage: Stage, used: u8)
    ensures frames { pool.new.frames ≡ told stage used pool.old.frames }
    ensures test { pool.new.test ≡ pool.old.test }
{
    match stage {
        Stage::GateSync => pool.gated(u64::from(used).saturating_sub(1)),
        Stage::Body | Stage::BodySync | Stage::Gate | Stage::Idle => {}
    }
}

// Notes in the pool that a turn has ended.
fn tell_turned<T: PageTest>(pool: &mut Pool<T>, call: Turn)
    requires { NoneDirty pool.old.frames }
    ensures frames { pool.new.frames ≡ told_turn call pool.old.frames }
    ensures test { pool.new.test ≡ pool.old.test }
{
    match call {
        Turn::Done => pool.turned(),
        Turn::Closed | Turn::Body | Turn::BodySync | Turn::Gate | Turn::GateSync | Turn::Selector =>
            {}
    }
}

impl<D: SectorDisk, K: KeyClass> PageStore<D, K> {
    /// How many frames are clean: empty, or with a clean page that the event doesn't hold.
    pub fn clean_frames(&self) -> usize
        ensures { result ≡ clean_count self.now.frames }
    {
        self.pool.clean_frames()
    }

    /// How many frames have a page with changes that aren't on the device: at most 4,096. Frames and the table of pages
    /// name each other, and the event holds at most four pages.
    pub fn dirty_frames(&self) -> usize
        ensures count { result ≡ dirty_count self.now.frames }
        ensures few { result ≤ FRAMES }
        ensures zero { (result ≡ 0) ↔ NoneDirty self.now.frames }
        ensures sound { IsSound self.now.frames }
        ensures held { length self.now.frames.held ≤ 4 }
    {
        self.pool.dirty_frames()
    }

    /// The least page that has changes, all of them in gated batches: `write_page` writes it.
    pub fn dirty(&self) -> Option<u32>
        ensures found { IfSome result (λ page. IsWritable self.now.frames page
            × ((q : ℕ) → IsWritable self.now.frames q → page ≤ q)) }
        ensures none { IfNone result ((q : ℕ) → IsWritable self.now.frames q → ⊥) }
    {
        self.pool.dirty()
    }

    /// Makes the next device call of a log on the store's device; once a gate is synced the frames learn of its batch.
    /// No page changes, in frames or on the device.
    ///
    /// Of an honest device: the batch that filled is in flight from its first call on, and its commits are durable from
    /// its gate's sync on, and not before. Whether it succeeds or not, no set changes, and at each moment what a crash
    /// may leave stands for a kept set of the state before.
    ///
    /// Refused as the log's own step is.
    pub fn log_step<M: Spelled>(&mut self, log: &mut Glog) -> Result<Stage, Refusal>
        ensures counts { Counts (calls_of result) (D.state self.old.disk) (D.state self.new.disk) result }
        ensures goes { Goes log.old log.new result }
        ensures only { self.new ≡ record self.old {
          disk = self.new.disk;
          frames = told_frames result log.new self.old.frames;
        } }
        ensures pages { (D.state self.old.disk).honest ≡ true
            → On log.old (D.state self.old.disk).seen (D.state self.old.disk).pending
            → LeavesPages (D.state self.old.disk) (D.state self.new.disk) }
        ensures runs { (l : Limits) → StepKeepsRunning (M.known l) M.reading log.old log.new self.old.frames
            self.new.frames (D.state self.old.disk) (D.state self.new.disk) result }
    {
        let stage = log.log_step(&mut self.disk)?;
        tell_pool(&mut self.pool, stage, log.used());
        Ok(stage)
    }

    /// Writes a page to its sectors if it has changes and all of them are in gated batches, and returns whether it did;
    /// otherwise does nothing. Once it is written it is clean. No page changes.
    ///
    /// Of an honest device, while no turn is under way: whether it succeeds or not, the log stays up over the page area
    /// that is read now, no set changes, and at each moment what a crash may leave stands for a kept set. Where each
    /// page was stored as all records leave it, it still is.
    ///
    /// Refused with `Device` if the device failed. The page is then kept unchanged, with its changes.
    pub fn write_page<M: Spelled>(&mut self, page: u32) -> Result<bool, Refusal>
        ensures answer { IfOk result (λ written. written ≡ may_be_written self.old.frames page) }
        ensures idle { may_be_written self.old.frames page ≡ false → (result ≡ Ok false) × (self.new ≡ self.old) }
        ensures written { WritesGated (D.state self.old.disk) (D.state self.new.disk)
            self.old.frames self.new.frames page result }
        ensures at_most { WritesAtMost (D.state self.old.disk) (D.state self.new.disk)
            self.old.frames self.new.frames page }
        ensures only { self.new ≡ record self.old { disk = self.new.disk; frames = self.new.frames } }
        ensures honest { (D.state self.new.disk).honest ≡ (D.state self.old.disk).honest }
        ensures shown { StaysShown (D.state self.old.disk) (D.state self.new.disk) self.old.frames self.new.frames }
        ensures readable { (D.state self.old.disk).honest ≡ true
            → CanBeRead (is_node (format_of K.KeyClass)) (D.state self.old.disk) self.old
            → CanBeRead (is_node (format_of K.KeyClass)) (D.state self.new.disk) self.new }
        ensures faults { CountsFault (D.state self.old.disk) (D.state self.new.disk) result }
        ensures runs { may_be_written self.old.frames page ≡ true → (l : Limits)
            → PageKeepsRunning (M.known l) M.reading self.old.frames self.new.frames
            (D.state self.old.disk) (D.state self.new.disk) }
        ensures refusal { IfErr result (λ refusal. refusal ≡ Refusal.Device) }
    {
        let _ = self.pool.dirty_frames();
        if page == 0 || page > self.used {
            return Ok(false);
        }
        self.pool.write_page(&mut self.disk, page)
    }

    /// Makes all writes of the store's device durable. No page changes. Whether it succeeds or not, the log stays up,
    /// and at each moment what a crash may leave stands for a kept set.
    ///
    /// Refused with `Device` if the device failed.
    pub fn sync<M: Spelled>(&mut self) -> Result<(), Refusal>
        ensures counts { Counts 1 (D.state self.old.disk) (D.state self.new.disk) result }
        ensures only { self.new ≡ record self.old { disk = self.new.disk } }
        ensures settled { (D.state self.old.disk).honest ≡ true → OnOk result (IsSettled (D.state self.new.disk)) }
        ensures pages { (D.state self.old.disk).honest ≡ true
            → LeavesPages (D.state self.old.disk) (D.state self.new.disk) }
        ensures up { (l : Limits) → StaysUp (M.known l) M.reading (D.state self.old.disk) (D.state self.new.disk) }
        ensures refusal { IfErr result (λ refusal. refusal ≡ Refusal.Device) }
    {
        self.disk.sync()?;
        Ok(())
    }

    /// Makes the next device call of a log's turn to the other extent; the frames learn of one that has ended. No page
    /// changes; none is dirty.
    ///
    /// Of an honest device, if the head is the renewed log and each page is written and synced: the log stays up, with
    /// the same records until the last call, and with the head alone after it. Whether it succeeds or not, no set
    /// changes, and at each moment what a crash may leave stands for a kept set. A log that was found, with later gates
    /// open, may turn as well.
    ///
    /// Refused as the log's own step of a turn is.
    pub fn turn_step<M: Spelled>(&mut self, log: &mut Glog) -> Result<Turn, Refusal>
        requires idle { log.old.stage ≡ Stage.Idle }
        requires quiet { log.old.filling ≡ [] }
        requires head { 1 ≤ length log.old.flight }
        requires clean { NoneDirty self.old.frames }
        ensures counts { Counts 1 (D.state self.old.disk) (D.state self.new.disk) result }
        ensures turns { Turns log.old log.new result }
        ensures only { self.new ≡ record self.old {
          disk = self.new.disk;
          frames = told_result result self.old.frames;
        } }
        ensures pages { (D.state self.old.disk).honest ≡ true
            → On log.old (D.state self.old.disk).seen (D.state self.old.disk).pending
            → LeavesPages (D.state self.old.disk) (D.state self.new.disk) }
        ensures found { (l : Limits) → FirstTurnKeeps (M.known l) M.reading log.old log.new
            (D.state self.old.disk) (D.state self.new.disk) result }
        ensures runs { (l : Limits) → TurnKeepsRunning (M.known l) M.reading log.old log.new self.old.frames
            self.new.frames (D.state self.old.disk) (D.state self.new.disk) result }
    {
        let call = log.turn_step(&mut self.disk)?;
        tell_turned(&mut self.pool, call);
        Ok(call)
    }
}

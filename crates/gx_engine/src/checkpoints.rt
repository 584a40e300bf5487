//! A checkpoint's events: it gates what is logged, writes and syncs the dirty pages, and turns the log to the other
//! extent.
ghost use Rattle.std.specs.Prelude.{◌≡◌, nat_le, false};
ghost use Rattle.gx_events.specs.Steps.{IsSync};
ghost use Rattle.gx_pool.specs.State.{NoneDirty};
ghost use Rattle.gx_index_laws.specs.declared.TheConstants.{CHECKPOINT_AT};
ghost use Rattle.gx_engine.specs.declared.checkpoint.Checkpoint.TheVariants.{Off, Running, Turning};
ghost use Rattle.gx_engine.specs.Checkpoints.{BeginsTurn, CheckpointSteps, GatesNext, IsQuiet, RunsOn, StepsOff};
ghost use Rattle.gx_engine.specs.Checkpoints.{TurnsNext, WritesDirty, after_call};
ghost use Rattle.gx_engine.specs.Setting.{Between, SparesSoAs};

use crate::Engine;
use crate::checkpoint::Checkpoint;
use crate::heads::put_head;
use crate::laws::a_class_is_lawful;
use gx_class::ReadKeys;
use gx_disk::SectorDisk;
use gx_events::Outcome;
use gx_geom::Refusal;
use gx_glog::Turn;
use gx_index_laws::CHECKPOINT_AT;

/// The stage of a checkpoint after this call of its turn: it is over after the last one.
fn after_call(call: Turn) -> Checkpoint
    ensures { result ≡ after_call call }
{
    match call {
        Turn::Done => Checkpoint::Off,
        Turn::Closed | Turn::Body | Turn::BodySync | Turn::Gate | Turn::GateSync | Turn::Selector =>
            Checkpoint::Turning,
    }
}

impl<D: SectorDisk, K: ReadKeys> Engine<D, K> {
    // Makes the log's next call, if a batch is in flight or fills.
    fn gate_next(&mut self) -> Outcome<K::Key>
        requires works { self.old.sessions.failed ≡ false }
        requires running { self.old.checkpoint ≡ Running }
        requires busy { IsQuiet self.old.volume → ⊥ }
        ensures gates { Between D.state GatesNext self.old self.new result }
        ensures leads { SparesSoAs K.Key.Shape K.ReadKeys D.state self.old self.new (IsSync false result) }
    {
        a_class_is_lawful::<K>();
        self.sessions.stands();
        match self.storage.log_step() {
            Ok(stage) => self.note(stage),
            Err(_) => self.fail(),
        }
    }

    // Writes the least page that may be written, if one is dirty.
    fn write_next(&mut self) -> Outcome<K::Key>
        requires works { self.old.sessions.failed ≡ false }
        requires quiet { IsQuiet self.old.volume }
        requires dirty { NoneDirty self.old.volume.shelf.frames → ⊥ }
        ensures writes { Between D.state WritesDirty self.old self.new result }
        ensures leads { SparesSoAs K.Key.Shape K.ReadKeys D.state self.old self.new (IsSync false result) }
    {
        match self.storage.dirty() {
            Some(page) => self.write_page(page),
            None => self.fail_event(Refusal::Damaged),
        }
    }

    // Makes the turn's next call.
    fn turn_next(&mut self) -> Outcome<K::Key>
        requires works { self.old.sessions.failed ≡ false }
        requires turning { self.old.checkpoint ≡ Turning }
        ensures turns { Between D.state TurnsNext self.old self.new result }
        ensures leads { SparesSoAs K.Key.Shape K.ReadKeys D.state self.old self.new (IsSync false result) }
    {
        a_class_is_lawful::<K>();
        match self.storage.turn_step() {
            Ok(call) => {
                self.checkpoint = after_call(call);
                Outcome::More
            }
            Err(_) => self.fail(),
        }
    }

    // Syncs the pages, and puts the head of the renewed log in memory: the log turns from then on.
    fn begin_turn(&mut self) -> Outcome<K::Key>
        requires works { self.old.sessions.failed ≡ false }
        requires running { self.old.checkpoint ≡ Running }
        requires quiet { IsQuiet self.old.volume }
        requires clean { NoneDirty self.old.volume.shelf.frames }
        ensures begins { Between D.state BeginsTurn self.old self.new result }
        ensures leads { SparesSoAs K.Key.Shape K.ReadKeys D.state self.old self.new (IsSync false result) }
    {
        a_class_is_lawful::<K>();
        self.sessions.stands();
        match self.storage.sync() {
            Ok(()) => match put_head(&mut self.storage, &self.sessions) {
                Ok(()) => {
                    self.checkpoint = Checkpoint::Turning;
                    Outcome::More
                }
                Err(_) => self.fail_event(Refusal::Damaged),
            },
            Err(_) => self.fail(),
        }
    }

    // Makes the next step of a checkpoint that runs.
    fn run_on(&mut self) -> Outcome<K::Key>
        requires works { self.old.sessions.failed ≡ false }
        requires running { self.old.checkpoint ≡ Running }
        ensures runs { Between D.state RunsOn self.old self.new result }
        ensures leads { SparesSoAs K.Key.Shape K.ReadKeys D.state self.old self.new (IsSync false result) }
    {
        if !self.storage.is_idle() {
            return self.gate_next();
        }
        if self.storage.dirty_frames() > 0 {
            return self.write_next();
        }
        self.begin_turn()
    }

    // Begins a checkpoint, once `CHECKPOINT_AT` places of the extent are taken, and makes its first step.
    fn begin_checkpoint(&mut self) -> Outcome<K::Key>
        requires works { self.old.sessions.failed ≡ false }
        requires off { self.old.checkpoint ≡ Off }
        ensures steps { Between D.state StepsOff self.old self.new (nat_le CHECKPOINT_AT self.old.volume.log.used)
            result }
        ensures leads { SparesSoAs K.Key.Shape K.ReadKeys D.state self.old self.new (IsSync false result) }
    {
        if self.storage.places() < CHECKPOINT_AT {
            return Outcome::Nothing;
        }
        self.checkpoint = Checkpoint::Running;
        self.run_on()
    }

    /// Makes the next step of a checkpoint, with at most one write or sync of the device. If none runs: returns
    /// `Nothing` while fewer than `CHECKPOINT_AT` places of the extent are taken; with as many it begins one, and makes
    /// its first step at once. While one runs, its steps are: the log's next call, until nothing is in flight or fills;
    /// then the write of the least page that may be written, until none is dirty; then a sync of the pages, after which
    /// the head of the renewed log is in memory; then each of the turn's calls, with the last of which the checkpoint
    /// is over. Each returns `More`.
    ///
    /// Refused with `Failed` by an engine that has failed, with `Device` exactly if the device failed, and with
    /// `Damaged` if no dirty page may be written or the head has no room, both only over a device that isn't honest;
    /// the engine has failed then. It takes no memory.
    pub fn checkpoint_step(&mut self) -> Outcome<K::Key>
        ensures steps { Between D.state CheckpointSteps self.old self.new self.old.sessions.failed result }
        ensures leads { SparesSoAs K.Key.Shape K.ReadKeys D.state self.old self.new
            (IsSync self.old.sessions.failed result) }
    {
        if self.sessions.has_failed() {
            return Outcome::Refused(Refusal::Failed);
        }
        match self.checkpoint {
            Checkpoint::Off => self.begin_checkpoint(),
            Checkpoint::Running => self.run_on(),
            Checkpoint::Turning => self.turn_next(),
        }
    }
}

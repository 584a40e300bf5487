//! The flusher's events.
ghost use Rattle.std.specs.Prelude.{◌≡◌, ◌≤◌};
ghost use Rattle.gx_engine.specs.Flushing.{LogSteps, PageIsWritten, log_events, log_outcome, page_events, noted};
ghost use Rattle.gx_engine.specs.States.{runs};
ghost use Rattle.gx_engine.specs.Setting.{Between, SparesAs};

use crate::Engine;
use crate::laws::a_class_is_lawful;
use gx_class::ReadKeys;
use gx_disk::SectorDisk;
use gx_events::Outcome;
use gx_geom::Refusal;
use gx_glog::Stage;

impl<D: SectorDisk, K: ReadKeys> Engine<D, K> {
    // Notes the log's last call: at a batch's first call, the last commit in the batch; at its gate's sync, that
    // commits are durable up to that one.
    pub(crate) fn note(&mut self, stage: Stage) -> Outcome<K::Key>
        requires { self.old.sessions.durable ≤ self.old.sessions.latest }
        ensures outcome { result ≡ log_outcome stage }
        ensures noted { self.new ≡ noted stage self.old }
    {
        match stage {
            Stage::Idle => Outcome::Nothing,
            Stage::Body => {
                self.in_flight = self.sessions.latest();
                Outcome::More
            }
            Stage::GateSync => {
                self.sessions.synced(self.in_flight);
                Outcome::More
            }
            Stage::BodySync | Stage::Gate => Outcome::More,
        }
    }

    /// Makes the log's next write or sync, and returns `More`. Returns `Nothing` exactly if nothing is logged or a
    /// checkpoint runs; no call was made then. Refused with `Failed` by an engine that has failed, and with `Device`
    /// exactly if the device failed; the engine has failed then.
    ///
    /// It takes no memory. The batch that filled is in flight from its first call on, and its commits are durable from
    /// its gate's sync on.
    pub fn log_step(&mut self) -> Outcome<K::Key>
        ensures steps { Between D.state LogSteps self.old self.new self.old.sessions.failed (runs self.old.checkpoint)
            result }
        ensures leads { SparesAs K.Key.Shape K.ReadKeys D.state self.old self.new
            (log_events self.old.volume.log.stage self.old.in_flight result) }
    {
        a_class_is_lawful::<K>();
        if self.sessions.has_failed() {
            return Outcome::Refused(Refusal::Failed);
        }
        if self.is_checkpointing() {
            return Outcome::Nothing;
        }
        match self.storage.log_step() {
            Ok(stage) => self.note(stage),
            Err(_) => self.fail(),
        }
    }

    /// Writes a page to its place if it has changes and all of them are in gated batches, and returns `More`; else
    /// returns `Nothing`, and no call was made. Refused with `Failed` by an engine that has failed, and with `Device`
    /// exactly if the device failed; the engine has failed then. It takes no memory.
    pub fn write_page(&mut self, page: u32) -> Outcome<K::Key>
        ensures writes { Between D.state (PageIsWritten page) self.old self.new self.old.sessions.failed result }
        ensures leads { SparesAs K.Key.Shape K.ReadKeys D.state self.old self.new (page_events result) }
    {
        a_class_is_lawful::<K>();
        if self.sessions.has_failed() {
            return Outcome::Refused(Refusal::Failed);
        }
        match self.storage.write_page(page) {
            Ok(true) => Outcome::More,
            Ok(false) => Outcome::Nothing,
            Err(_) => self.fail(),
        }
    }
}

//! A batch's four device calls, one a step.
ghost use Rattle.std.specs.Prelude.{◌≡◌, ◌≢◌, ◌+◌, ◌*◌, ◌≤◌, ◌<◌, ℕ, [], true, length};
ghost use Rattle.std.specs.Prelude.{take, slice_index, ◌↔◌, IsTrue, IfErr, IfOk};
ghost use Rattle.gx_disk.specs.declared.layout.TheConstants.{PAGES_AT};
ghost use Rattle.gx_disk.specs.Device.{Counts, Writes, Syncs};
ghost use Rattle.gx_glog.specs.declared.extent.TheConstants.{BODY_SIZE, PLACES};
ghost use Rattle.gx_glog.specs.Layout.{gates_of, bodies_of};
ghost use Rattle.gx_glog.specs.Bodies.{IsBody, IsOpenGate};
ghost use Rattle.gx_glog.specs.First.{open_gate_bytes};
ghost use Rattle.gx_glog.specs.State.{begun, done, in_flight, calls_of, Made, Goes};
ghost use Rattle.gx_glog.specs.Standing.{On};
ghost use Rattle.gx_glog.specs.Steps.{CallFor, CallOf, Calls, Keeps};

use crate::extent::{BODY_SECTORS, Extent, OPEN};
use crate::filling::Glog;
use crate::stage::{Stage, Turn};
use gx_disk::{SECTOR_SIZE, SectorDisk};
use gx_geom::Refusal;
use std::mem;

/// The sector of an open gate.
pub fn open_gate() -> [u8; SECTOR_SIZE]
    ensures gate { IsOpenGate result }
    ensures bytes { result ≡ open_gate_bytes }
{
    let mut bytes = [0; SECTOR_SIZE];
    bytes[0] = OPEN;
    bytes
}

// Writes the first so many sectors of the body of place k, and returns which call it was.
pub(crate) fn write_body<D: SectorDisk, S: Copy>(
    disk: &mut D,
    extent: Extent,
    k: u8,
    sectors: u8,
    body: &[u8],
    answer: S,
) -> Result<S, Refusal>
    requires place { k < PLACES }
    requires some { 1 ≤ sectors }
    requires bound { sectors ≤ BODY_SECTORS }
    requires whole { length body.now ≡ BODY_SIZE }
    requires device { PAGES_AT ≤ (D.state disk.old).sectors }
    ensures counts { Counts 1 (D.state disk.old) (D.state disk.new) result }
    ensures call { (D.state disk.old).honest ≡ true
        → Writes (bodies_of extent + BODY_SECTORS * k) sectors (take (512 * sectors) body.now)
        (D.state disk.old) (D.state disk.new) result }
    ensures stage { IfOk result (λ made. made ≡ answer) }
    ensures refusal { IfErr result (λ refusal. refusal ≡ Refusal.Device) }
{
    let size = SECTOR_SIZE * usize::from(sectors);
    disk.write(extent.bodies() + BODY_SECTORS * u64::from(k), &body[..size])?;
    Ok(answer)
}

// Writes the open gate of place k, and returns which call it was.
pub(crate) fn write_gate<D: SectorDisk, S: Copy>(
    disk: &mut D,
    extent: Extent,
    k: u8,
    answer: S,
) -> Result<S, Refusal>
    requires place { k < PLACES }
    requires device { PAGES_AT ≤ (D.state disk.old).sectors }
    ensures counts { Counts 1 (D.state disk.old) (D.state disk.new) result }
    ensures call { (D.state disk.old).honest ≡ true
        → Calls Stage.Gate extent k 0 [] (D.state disk.old) (D.state disk.new) result }
    ensures stage { IfOk result (λ made. made ≡ answer) }
    ensures refusal { IfErr result (λ refusal. refusal ≡ Refusal.Device) }
{
    let gate = open_gate();
    disk.write(extent.gates() + u64::from(k), &gate)?;
    Ok(answer)
}

// Makes the writes of a stage durable.
pub(crate) fn settle<D: SectorDisk, S: Copy>(disk: &mut D, stage: S) -> Result<S, Refusal>
    ensures counts { Counts 1 (D.state disk.old) (D.state disk.new) result }
    ensures call { (D.state disk.old).honest ≡ true → Syncs (D.state disk.old) (D.state disk.new) result }
    ensures stage { IfOk result (λ made. made ≡ stage) }
    ensures refusal { IfErr result (λ refusal. refusal ≡ Refusal.Device) }
{
    disk.sync()?;
    Ok(stage)
}

impl Glog {
    // Puts the filling batch in flight, at the next place, whose tail begins after it. Drops a head that was put there.
    fn begin_batch(&mut self)
        requires idle { self.old.stage ≡ Stage.Idle }
        requires some { 1 ≤ length self.old.filling }
        ensures { self.new ≡ begun self.old }
    {
        self.flight.clear();
        mem::swap(&mut self.filling, &mut self.flight);
        self.tails
            .widen(self.extent, self.gated, self.flight.sectors());
        self.used += 1;
        self.stage = Stage::Body;
        self.turn = Turn::Closed;
    }

    // Notes that the due call was made. Once the body is synced, its place's tail begins after its records.
    fn advance(&mut self)
        ensures { self.new ≡ done self.old }
    {
        match self.stage {
            Stage::Body => self.stage = Stage::BodySync,
            Stage::BodySync => {
                self.tails
                    .trim(self.extent, self.gated, self.flight.sectors());
                self.stage = Stage::Gate;
            }
            Stage::Gate => self.stage = Stage::GateSync,
            Stage::GateSync => {
                self.gated = self.used;
                self.flight.clear();
                self.stage = Stage::Idle;
            }
            Stage::Idle => {}
        }
    }

    // Makes the due device call, and returns which one it was. The body is written up to its place's tail.
    fn call<D: SectorDisk>(&self, disk: &mut D) -> Result<Stage, Refusal>
        requires flying { in_flight self.now.stage ≡ 1 }
        requires device { PAGES_AT ≤ (D.state disk.old).sectors }
        ensures counts { Counts 1 (D.state disk.old) (D.state disk.new) result }
        ensures call { (D.state disk.old).honest ≡ true
            → CallFor self.now.stage self.now (D.state disk.old) (D.state disk.new) result }
        ensures stage { IfOk result (λ stage. stage ≡ self.now.stage) }
        ensures refusal { IfErr result (λ refusal. refusal ≡ Refusal.Device) }
    {
        match self.stage {
            Stage::Body => write_body(
                disk,
                self.extent,
                self.gated,
                self.tails.of(self.extent, self.gated),
                self.flight.body(),
                Stage::Body,
            ),
            Stage::Gate => write_gate(disk, self.extent, self.gated, Stage::Gate),
            Stage::BodySync | Stage::GateSync | Stage::Idle => settle(disk, self.stage),
        }
    }

    // Makes the due device call. If it fails it is still due.
    fn make<D: SectorDisk>(&mut self, disk: &mut D) -> Result<Stage, Refusal>
        requires flying { in_flight self.old.stage ≡ 1 }
        requires device { PAGES_AT ≤ (D.state disk.old).sectors }
        ensures counts { Counts 1 (D.state disk.old) (D.state disk.new) result }
        ensures made { Made self.old self.new result }
        ensures call { (D.state disk.old).honest ≡ true → CallOf self.new (D.state disk.old) (D.state disk.new) result }
        ensures keeps { (D.state disk.old).honest ≡ true
            → On self.old (D.state disk.old).seen (D.state disk.old).pending
            → Keeps self.old self.new (D.state disk.old) (D.state disk.new) result }
    {
        let stage = self.call(disk)?;
        self.advance();
        Ok(stage)
    }

    /// Makes the next device call of the batch in flight, or of a new one with all that fills: body, sync, gate, sync.
    /// Of the body it writes as many sectors as its records take, or as may be other than zero there, if these are
    /// more; so the place reads as the whole body. Returns which call it was, and Idle if nothing is logged and none
    /// was made. Refused if the device call fails (`Device`); it is then still due.
    pub fn log_step<D: SectorDisk>(&mut self, disk: &mut D) -> Result<Stage, Refusal>
        requires { PAGES_AT ≤ (D.state disk.old).sectors }
        ensures counts { Counts (calls_of result) (D.state disk.old) (D.state disk.new) result }
        ensures goes { Goes self.old self.new result }
        // Which call of the device it was, with its bytes.
        ensures call { (D.state disk.old).honest ≡ true → CallOf self.new (D.state disk.old) (D.state disk.new) result }
        ensures idle { result ≡ Ok Stage.Idle → disk.new ≡ disk.old }
        // If the log was on the device it still is, and no image at any moment has another log.
        ensures keeps { (D.state disk.old).honest ≡ true
            → On self.old (D.state disk.old).seen (D.state disk.old).pending
            → Keeps self.old self.new (D.state disk.old) (D.state disk.new) result }
    {
        if self.stage.is_flying() {
            return self.make(disk);
        }
        if self.filling.is_empty() {
            return Ok(Stage::Idle);
        }
        self.begin_batch();
        self.make(disk)
    }
}

//! The turn to the other extent, one device call a step.
ghost use Rattle.std.specs.Prelude.{◌≡◌, ◌≤◌, ◌<◌, ℕ, List, Bool, [], true, length, replicate, IfErr, IfOk};
ghost use Rattle.gx_disk.specs.declared.layout.TheConstants.{PAGES_AT};
ghost use Rattle.gx_disk.specs.Device.{Counts, Writes};
ghost use Rattle.gx_record.specs.Format.{IsInRange, spelling};
ghost use Rattle.gx_record.specs.Seen.{rec_of};
ghost use Rattle.gx_glog.specs.Bodies.{IsZero};
ghost use Rattle.gx_glog.specs.First.{closed_gates_bytes, selector_bytes};
ghost use Rattle.gx_glog.specs.State.{turned, Turns};
ghost use Rattle.gx_glog.specs.Standing.{On, MayTurn};
ghost use Rattle.gx_glog.specs.Turning.{PutsFirst, AreClosedGates, IsSelector, TurnCallFor};
ghost use Rattle.gx_glog.specs.Turning.{TurnCalls, KeepsTurning, KeepsMayTurn};

use crate::batch::{settle, write_body, write_gate};
use crate::extent::{Extent, PLACES, SELECTOR};
use crate::filling::{Appended, Glog};
use crate::stage::{Stage, Turn};
use gx_disk::{SECTOR_SIZE, SectorDisk};
use gx_geom::Refusal;
use gx_record::Record;

/// How many bytes the gates of an extent have.
pub const GATES_SIZE: usize = SECTOR_SIZE * PLACES as usize;

// So many zeros.
fn zeroed<const N: usize>() -> [u8; N]
    ensures bytes { result ≡ replicate N 0 }
    ensures size { length result ≡ N }
    ensures zeros { IsZero result }
{
    [0; N]
}

/// The sectors of an extent's gates, all closed.
pub fn closed_gates() -> [u8; GATES_SIZE]
    ensures gates { AreClosedGates result }
    ensures bytes { result ≡ closed_gates_bytes }
{
    zeroed()
}

/// The selector's sector that selects an extent.
pub fn selecting(extent: Extent) -> [u8; SECTOR_SIZE]
    ensures selector { IsSelector extent result }
    ensures bytes { result ≡ selector_bytes extent }
{
    let mut bytes = [0; SECTOR_SIZE];
    bytes[0] = extent.selector();
    bytes
}

// Closes the gates of an extent.
fn write_closed<D: SectorDisk>(disk: &mut D, extent: Extent) -> Result<Turn, Refusal>
    requires device { PAGES_AT ≤ (D.state disk.old).sectors }
    ensures counts { Counts 1 (D.state disk.old) (D.state disk.new) result }
    ensures call { (D.state disk.old).honest ≡ true
        → TurnCalls Turn.Closed extent 0 [] (D.state disk.old) (D.state disk.new) result }
    ensures call_is { IfOk result (λ call. call ≡ Turn.Closed) }
    ensures refusal { IfErr result (λ refusal. refusal ≡ Refusal.Device) }
{
    let gates = closed_gates();
    disk.write(extent.gates(), &gates)?;
    Ok(Turn::Closed)
}

// Selects an extent.
fn write_selector<D: SectorDisk>(disk: &mut D, extent: Extent) -> Result<Turn, Refusal>
    requires device { PAGES_AT ≤ (D.state disk.old).sectors }
    ensures counts { Counts 1 (D.state disk.old) (D.state disk.new) result }
    ensures call { (D.state disk.old).honest ≡ true
        → TurnCalls Turn.Selector extent 0 [] (D.state disk.old) (D.state disk.new) result }
    ensures call_is { IfOk result (λ call. call ≡ Turn.Selector) }
    ensures refusal { IfErr result (λ refusal. refusal ≡ Refusal.Device) }
{
    let bytes = selecting(extent);
    disk.write(SELECTOR, &bytes)?;
    Ok(Turn::Selector)
}

impl Glog {
    /// Puts a record into body 0 of the other extent, after those that were put there before; the place is 0. A turn
    /// makes it the log's first batch there, and a batch that begins before drops it. `NoRoom` if it doesn't fit, and
    /// while a turn is under way. Nothing is written to the device.
    pub fn put_first(&mut self, logged: &Record<'_>) -> Appended
        requires in_range { IsInRange (rec_of logged.now) }
        requires idle { self.old.stage ≡ Stage.Idle }
        ensures puts { PutsFirst (spelling (rec_of logged.now)) self.old self.new result }
        // If the log was on a device it still is, and if it may turn it still may.
        ensures on { (seen : List ℕ) (pending : ℕ → Bool) → On self.old seen pending → On self.new seen pending }
        ensures may_turn { (seen : List ℕ) (pending : ℕ → Bool) → MayTurn self.old seen pending
            → MayTurn self.new seen pending }
    {
        if self.turn.is_under_way() {
            return Appended::NoRoom;
        }
        if self.flight.push(logged) {
            Appended::At(0)
        } else {
            Appended::NoRoom
        }
    }

    // Notes that the due call of the turn was made. The tail of the head's place moves as that of a batch.
    fn advance_turn(&mut self)
        requires idle { self.old.stage ≡ Stage.Idle }
        requires head { 1 ≤ length self.old.flight }
        ensures { self.new ≡ turned self.old }
    {
        let to = self.extent.other();
        match self.turn {
            Turn::Closed => {
                self.tails.widen(to, 0, self.flight.sectors());
                self.turn = Turn::Body;
            }
            Turn::Body => self.turn = Turn::BodySync,
            Turn::BodySync => {
                self.tails.trim(to, 0, self.flight.sectors());
                self.turn = Turn::Gate;
            }
            Turn::Gate => self.turn = Turn::GateSync,
            Turn::GateSync => self.turn = Turn::Selector,
            Turn::Selector => self.turn = Turn::Done,
            Turn::Done => {
                self.extent = to;
                self.used = 1;
                self.gated = 1;
                self.turn = Turn::Closed;
                self.flight.clear();
            }
        }
    }

    // Makes the due device call of the turn, and returns which one it was.
    fn call_turn<D: SectorDisk>(&self, disk: &mut D) -> Result<Turn, Refusal>
        requires device { PAGES_AT ≤ (D.state disk.old).sectors }
        ensures counts { Counts 1 (D.state disk.old) (D.state disk.new) result }
        ensures call { (D.state disk.old).honest ≡ true
            → TurnCallFor self.now.turn self.now (D.state disk.old) (D.state disk.new) result }
        ensures call_is { IfOk result (λ call. call ≡ self.now.turn) }
        ensures refusal { IfErr result (λ refusal. refusal ≡ Refusal.Device) }
    {
        let to = self.extent.other();
        match self.turn {
            Turn::Closed => write_closed(disk, to),
            Turn::Body => {
                let sectors = self.tails.of(to, 0);
                write_body(disk, to, 0, sectors, self.flight.body(), Turn::Body)
            }
            Turn::Gate => write_gate(disk, to, 0, Turn::Gate),
            Turn::Selector => write_selector(disk, to),
            Turn::BodySync | Turn::GateSync | Turn::Done => settle(disk, self.turn),
        }
    }

    /// Makes the next device call of the turn to the other extent, whose body 0 gets what was put first: its gates
    /// closed, its body, sync, its gate, sync, the selector, sync. Returns which call it was; after `Done` the other
    /// extent is selected, and one place of it is used. Refused if the device call fails (`Device`); it is then still
    /// due.
    pub fn turn_step<D: SectorDisk>(&mut self, disk: &mut D) -> Result<Turn, Refusal>
        requires idle { self.old.stage ≡ Stage.Idle }
        requires quiet { self.old.filling ≡ [] }
        requires head { 1 ≤ length self.old.flight }
        requires device { PAGES_AT ≤ (D.state disk.old).sectors }
        ensures counts { Counts 1 (D.state disk.old) (D.state disk.new) result }
        ensures turns { Turns self.old self.new result }
        // Which call of the device it was, with its bytes.
        ensures call { (D.state disk.old).honest ≡ true
            → TurnCallFor self.old.turn self.old (D.state disk.old) (D.state disk.new) result }
        // If the log was on the device it still is; no image at any moment has another log than the old one or, from
        // the selector's write on, the new one.
        ensures keeps { (D.state disk.old).honest ≡ true
            → On self.old (D.state disk.old).seen (D.state disk.old).pending
            → KeepsTurning self.old self.new (D.state disk.old) (D.state disk.new) result }
        // The same if later gates of the old extent may be open.
        ensures may_turn { (D.state disk.old).honest ≡ true
            → MayTurn self.old (D.state disk.old).seen (D.state disk.old).pending
            → KeepsMayTurn self.old self.new (D.state disk.old) (D.state disk.new) result }
    {
        let call = self.call_turn(disk)?;
        self.advance_turn();
        Ok(call)
    }
}

//! A running log, and the records that are put into it.
ghost use Rattle.std.specs.Prelude.{◌≡◌, ◌⊎◌, ◌+◌, ◌≤◌, ◌<◌, ℕ, List, Bool, [], length, IfOk, IfErr};
ghost use Rattle.std.specs.Bool.{OnTrue, OnFalse};
ghost use Rattle.gx_record.specs.Format.{IsInRange, spelling};
ghost use Rattle.gx_record.specs.Seen.{rec_of};
ghost use Rattle.gx_glog.specs.declared.extent.TheConstants.{BODY_ROOM, PLACES};
ghost use Rattle.gx_glog.specs.Appending.{Appends};
ghost use Rattle.gx_glog.specs.State.{begun, done, in_flight, starting};
ghost use Rattle.gx_glog.specs.Standing.{On, MayTurn};

use crate::buffer::Buffer;
use crate::extent::Extent;
use crate::stage::{Stage, Turn};
use crate::tail::Tails;
use gx_geom::Refusal;
use gx_record::Record;
use std::alloc::{AllocError, Global};
use std::marker::Model;

/// The result of an append.
#[derive(Clone, Copy, Debug, PartialEq, Eq)]
pub enum Appended {
    /// The place in the selected extent of the batch that the record goes with.
    At(u64),
    /// The buffer has no room for the record, or a turn is under way, and nothing changed.
    NoRoom,
}

/// A running log. Its two buffers are allocated at the start: records are put into one, while the other has the batch
/// that is being written, or the first records of the other extent, which `put_first` puts there. It keeps for each
/// place how far it wrote there, so that it writes no zeros over zeros.
#[derive(Drop)]
pub struct Glog {
    pub(crate) extent: Extent,
    pub(crate) used: u8,
    pub(crate) gated: u8,
    // the device call that the batch in flight waits for
    pub(crate) stage: Stage,
    // the device call that a turn waits for
    pub(crate) turn: Turn,
    // the batch in flight, or while there is none the head of the other extent
    pub(crate) flight: Buffer,
    pub(crate) filling: Buffer,
    // how far each place was written
    pub(crate) tails: Tails,
}

impl Model for Glog {
    ghost use Rattle.gx_glog.specs.State.{Log, IsSound};

    ghost Value = { Log };

    ghost view = { λ g.
        record {
          extent = g.extent;
          used = g.used;
          gated = g.gated;
          stage = g.stage;
          turn = g.turn;
          flight = g.flight;
          filling = g.filling;
          tails = g.tails;
        } };

    ghost invariant = { λ g.
        IsSound (record {
          extent = g.extent;
          used = g.used;
          gated = g.gated;
          stage = g.stage;
          turn = g.turn;
          flight = g.flight;
          filling = g.filling;
          tails = g.tails;
        }) };
}

// A log at rest with empty buffers.
fn at_rest(alloc: Global, extent: Extent, used: u8) -> Result<Glog, AllocError>
    requires { used ≤ PLACES }
    ensures { IfOk result (λ log. log ≡ starting extent used) }
{
    Ok(Glog {
        extent,
        used,
        gated: used,
        stage: Stage::Idle,
        turn: Turn::Closed,
        flight: Buffer::new(alloc)?,
        filling: Buffer::new(alloc)?,
        tails: Tails::unknown(),
    })
}

impl Glog {
    /// Makes a log that goes on in an extent of which so many places are taken, 128 at most, all of them by gated
    /// batches. If a later gate may be open, it may only turn to the other extent. Refused if there is no memory for
    /// its buffers.
    pub fn start(alloc: Global, extent: Extent, used: u8) -> Result<Glog, Refusal>
        requires { used ≤ PLACES }
        ensures log { IfOk result (λ log. log ≡ starting extent used) }
        ensures refusal { IfErr result (λ refusal. refusal ≡ Refusal.Memory) }
    {
        match at_rest(alloc, extent, used) {
            Ok(log) => Ok(log),
            Err(_) => Err(Refusal::Memory),
        }
    }

    /// How many places of the selected extent are taken, including the one in flight.
    pub fn used(&self) -> u8
        ensures used { result ≡ self.now.used }
        ensures bound { result ≤ PLACES }
    {
        self.used
    }

    /// Whether nothing is logged and nothing is in flight.
    pub fn is_idle(&self) -> bool
        ensures yes { OnTrue result ((self.now.stage ≡ Stage.Idle) × (self.now.filling ≡ [])) }
        ensures no { OnFalse result ((in_flight self.now.stage ≡ 1) ⊎ (1 ≤ length self.now.filling)) }
    {
        !self.stage.is_flying() && self.filling.is_empty()
    }

    /// Whether a batch is in flight, or a record was put first into the other extent.
    pub fn has_head(&self) -> bool
        ensures yes { OnTrue result (1 ≤ length self.now.flight) }
        ensures no { OnFalse result (self.now.flight ≡ []) }
    {
        !self.flight.is_empty()
    }

    /// How many bytes of records the filling buffer still has room for.
    pub fn free(&self) -> usize
        ensures { result + length self.now.filling ≡ BODY_ROOM }
    {
        self.filling.free()
    }

    /// Puts a record into the filling buffer, whose batch takes the next place; a place has to be left. `NoRoom` if it
    /// doesn't fit, and while a turn is under way. Nothing is written to the device.
    pub fn append(&mut self, logged: &Record<'_>) -> Appended
        requires in_range { IsInRange (rec_of logged.now) }
        requires place { self.old.used < PLACES }
        ensures appends { Appends (spelling (rec_of logged.now)) self.old self.new result }
        // If the log was on a device it still is, and if it may turn it still may.
        ensures on { (seen : List ℕ) (pending : ℕ → Bool) → On self.old seen pending → On self.new seen pending }
        ensures may_turn { (seen : List ℕ) (pending : ℕ → Bool) → MayTurn self.old seen pending
            → MayTurn self.new seen pending }
    {
        if self.turn.is_under_way() {
            return Appended::NoRoom;
        }
        if self.filling.push(logged) {
            Appended::At(u64::from(self.used))
        } else {
            Appended::NoRoom
        }
    }
}

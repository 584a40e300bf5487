//! A session's part in a run.
ghost use Rattle.std.specs.Prelude.{◌≡◌, ◌+◌, ◌<◌, ◌^◌, ◌∷◌, []};
ghost use Rattle.gx_shared.specs.Sharing.{hold_of};

use crate::hold::Hold;
use crate::trail::Trail;
use gx_events::{Event, Outcome};
use gx_geom::Shape;
use std::marker::Model;
use std::sync::ledger::{Book as Tally, Ledger, Share};

/// A session: its number, and how many of its calls are finished, which its part of the ledger counts too. Contracts
/// see it as both numbers, and as the holds of its calls, the last first.
#[derive(Drop)]
pub struct Session<B, R: Ledger> {
    number: u8,
    finished: u64,
    share: Share<R>,
    holds: Trail<Hold<B>>,
}

impl<B, R: Ledger> Model for Session<B, R> {
    ghost use Rattle.std.specs.Prelude.{List, ℕ, ◌≡◌};
    ghost use Rattle.gx_shared.specs.declared.hold.Hold.{Hold};

    ghost Value = { (ℕ × ℕ) × List (Hold B) };

    ghost view = { λ s. ((s.number, s.finished), s.holds.noted) };

    ghost invariant = { λ s. (s.share.parts ≡ 1) × (s.share.amount ≡ s.finished) };
}

impl<B, R: Ledger> Session<B, R> {
    /// The session of this number, with one part of the ledger.
    pub(crate) fn new(number: u8, share: Share<R>) -> Self
        requires { (share.parts ≡ 1) × (share.amount ≡ 0) }
        ensures { result ≡ ((number, 0), []) }
    {
        Session {
            number,
            finished: 0,
            share,
            holds: Trail::none(),
        }
    }

    /// The session's number.
    pub fn number(&self) -> u8
        ensures { result ≡ self.now.0.0 }
    {
        self.number
    }

    /// How many of its calls are finished. Takes no lock and no memory.
    pub fn share(&self) -> u64
        ensures { result ≡ self.now.0.1 }
    {
        self.finished
    }

    /// Its part of the ledger, with the calls that it has finished.
    pub(crate) fn into_share(self) -> Share<R>
        ensures parts { result.parts ≡ 1 }
        ensures amount { result.amount ≡ self.0.1 }
    {
        self.share
    }

    /// Counts one more call as finished.
    pub(crate) fn finish(&mut self, tally: &mut Tally<R>)
        requires { tally.old.total + 1 < 2 ^ 64 }
        ensures total { tally.new.total ≡ tally.old.total + 1 }
        ensures rises { self.new ≡ ((self.old.0.0, self.old.0.1 + 1), self.old.1) }
    {
        tally.audit(&mut self.share);
        tally.add(&mut self.share, 1);
        self.finished += 1;
    }
}

impl<B: Shape, R: Ledger> Session<B, R> {
    /// Notes a hold of the lock for a call, and returns its outcome.
    pub(crate) fn note(
        &mut self,
        _tally: &Tally<R>,
        event: Event<B>,
        outcome: Outcome<B>,
    ) -> Outcome<B>
        ensures same { result ≡ outcome }
        ensures noted { self.new ≡ (self.old.0, hold_of event result ∷ self.old.1) }
    {
        let hold = Hold { event, outcome };
        self.holds = self.holds.after(&hold);
        hold.outcome
    }
}

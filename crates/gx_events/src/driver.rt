//! Which event comes next in a call.
ghost use Rattle.std.specs.Prelude.{◌≡◌};
ghost use Rattle.gx_events.specs.Driven.{next_of};

use crate::{Event, Need, Outcome};
use gx_machine::Reply;
use std::marker::Model;

/// What follows an outcome.
#[derive(Debug, Drop)]
pub enum Next<B> {
    /// This event is run.
    Run(Event<B>),
    /// The call ends with this reply.
    Done(Reply<B>),
}

/// Drives one session's call, from its ask to its reply. Contracts see it as the session's number.
#[derive(Debug, Drop)]
pub struct Driver {
    session: u8,
}

impl Model for Driver {
    ghost use Rattle.std.specs.Prelude.{ℕ};

    ghost Value = { ℕ };

    ghost view = { λ d. d.session };
}

impl Driver {
    /// A driver for the calls of this session.
    pub fn new(session: u8) -> Self
        ensures { result ≡ session }
    {
        Driver { session }
    }

    /// What comes after the last outcome. If that is a reply or a refusal, the call ends with exactly that; if it asks
    /// for help, the event that it names comes next; else a move of the session's call. Takes no memory.
    pub fn next<B>(&mut self, last: Outcome<B>) -> Next<B>
        ensures next { result ≡ next_of self.old last }
        ensures same { self.new ≡ self.old }
    {
        match last {
            Outcome::Replied(reply) => Next::Done(reply),
            Outcome::Refused(why) => Next::Done(Reply::Refused(why)),
            Outcome::Help(Need::Log) => Next::Run(Event::LogStep),
            Outcome::Help(Need::Write(page)) => Next::Run(Event::WritePage(page)),
            Outcome::Help(Need::Checkpoint) => Next::Run(Event::CheckpointStep),
            Outcome::More => Next::Run(Event::Move(self.session)),
            Outcome::Nothing => Next::Run(Event::Move(self.session)),
        }
    }
}

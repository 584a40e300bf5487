//! What follows if a move is refused: the call is closed, the engine fails, or another event has to come first.
ghost use Rattle.std.specs.Prelude.{◌≡◌, ◌-◌, true};
ghost use Rattle.gx_machine.specs.Machine.{is_session};
ghost use Rattle.gx_phases.specs.Moves.{answered_state, failed_state, is_open};
ghost use Rattle.gx_store.specs.Faults.{store_fails};
ghost use Rattle.gx_engine.specs.Calls.{IsRead, outcome_fails};
ghost use Rattle.gx_engine.specs.Refusals.{IsRefused, IsTurnedAway, log_need, need_of};
ghost use Rattle.gx_engine.specs.Setting.{phase_in};

use crate::Engine;
use gx_class::ReadKeys;
use gx_disk::SectorDisk;
use gx_events::{Need, Outcome};
use gx_geom::Refusal;
use gx_machine::Reply;
use gx_store::StoreFault;

/// The event that makes the log's next call: its own step, or that of a checkpoint that runs.
pub(crate) fn log_need(running: bool) -> Need
    ensures { result ≡ log_need running }
{
    if running { Need::Checkpoint } else { Need::Log }
}

/// The event that helps, by whether a checkpoint runs; the log's next call if storage names none.
fn need_of(running: bool, help: Option<Need>) -> Need
    ensures { result ≡ need_of running help }
{
    match help {
        Some(Need::Write(page)) => Need::Write(page),
        Some(Need::Log | Need::Checkpoint) | None => log_need(running),
    }
}

impl<D: SectorDisk, K: ReadKeys> Engine<D, K> {
    // Closes a session's call because memory is refused or no page is free.
    pub(crate) fn close(&mut self, session: u8, why: Refusal) -> Outcome<K::Key>
        requires session { is_session session ≡ true }
        requires open { is_open (phase_in session self.old) ≡ true }
        ensures outcome { result ≡ Outcome.Replied (Reply.Refused why) }
        ensures closed { self.new ≡ record self.old { sessions = answered_state session self.old.sessions } }
        ensures device { IsRead D.state self.old self.new }
    {
        self.sessions.answer(session);
        Outcome::Replied(Reply::Refused(why))
    }

    // Refuses a session's call, and marks the engine as failed.
    pub(crate) fn break_off(&mut self, why: Refusal) -> Outcome<K::Key>
        ensures outcome { result ≡ Outcome.Replied (Reply.Refused why) }
        ensures failed { self.new ≡ record self.old { sessions = failed_state self.old.sessions } }
        ensures device { IsRead D.state self.old self.new }
    {
        self.sessions.fail();
        Outcome::Replied(Reply::Refused(why))
    }

    // Pages were refused to a session's call: returns the event that helps, or marks the engine as failed.
    pub(crate) fn refuse(&mut self, fault: StoreFault) -> Outcome<K::Key>
        ensures refused { IsRefused fault self.old self.new result }
        ensures volume { self.new.volume ≡ self.old.volume }
        ensures told { outcome_fails result ≡ store_fails fault }
        ensures device { IsRead D.state self.old self.new }
    {
        match fault {
            StoreFault::NoRoom | StoreFault::TooFewFrames(_) => Outcome::Help(need_of(
                self.is_checkpointing(),
                self.storage.help(fault),
            )),
            StoreFault::Device => self.break_off(Refusal::Device),
            StoreFault::Damaged => self.break_off(Refusal::Damaged),
        }
    }

    // Refuses an event of no session, and marks the engine as failed.
    pub(crate) fn fail_event(&mut self, why: Refusal) -> Outcome<K::Key>
        ensures outcome { result ≡ Outcome.Refused why }
        ensures failed { self.new ≡ record self.old { sessions = failed_state self.old.sessions } }
        ensures device { IsRead D.state self.old self.new }
    {
        self.sessions.fail();
        Outcome::Refused(why)
    }

    // Pages were refused in an event of no session: returns the event that helps, or marks the engine as failed.
    pub(crate) fn turn_away(&mut self, fault: StoreFault) -> Outcome<K::Key>
        ensures refused { IsTurnedAway fault self.old self.new result }
        ensures volume { self.new.volume ≡ self.old.volume }
        ensures told { outcome_fails result ≡ store_fails fault }
        ensures device { IsRead D.state self.old self.new }
    {
        match fault {
            StoreFault::NoRoom | StoreFault::TooFewFrames(_) => Outcome::Help(need_of(
                self.is_checkpointing(),
                self.storage.help(fault),
            )),
            StoreFault::Device => self.fail_event(Refusal::Device),
            StoreFault::Damaged => self.fail_event(Refusal::Damaged),
        }
    }
}

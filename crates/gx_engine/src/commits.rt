//! A commit's moves: it is sealed, and acknowledged once it is durable.
ghost use Rattle.std.specs.Prelude.{◌≡◌, ◌-◌, ◌+◌, ℕ, true, false};
ghost use Rattle.gx_machine.specs.Machine.{is_session};
ghost use Rattle.gx_phases.specs.declared.phase.Phase.TheVariants.{Waiting};
ghost use Rattle.gx_phases.specs.Moves.{asks_commit};
ghost use Rattle.gx_engine.specs.Commits.{AcknowledgeComes, SealComes, acknowledge_events, AreSealing, commit_outcome};
ghost use Rattle.gx_engine.specs.Setting.{LeadsAs, LeadsSoAs, phase_in};

use crate::Engine;
use crate::laws::a_class_is_lawful;
use crate::refusals::log_need;
use gx_class::ReadKeys;
use gx_disk::SectorDisk;
use gx_events::{Need, Outcome};
use gx_machine::Reply;

/// The reply to a commit whose number is durable; any other commit waits for the log, or for a checkpoint if one runs.
fn commit_outcome<B>(running: bool, number: Option<u64>) -> Outcome<B>
    ensures { result ≡ commit_outcome running number }
{
    match number {
        Some(number) => Outcome::Replied(Reply::Committed(number)),
        None => Outcome::Help(log_need(running)),
    }
}

impl<D: SectorDisk, K: ReadKeys> Engine<D, K> {
    /// Seals the commit that a session has asked: appends its record to the batch that fills, and gives it the next
    /// number. The session then waits until that number is durable; its claims and predicates are free. Returns `More`.
    /// It makes no call of the device and takes no memory.
    ///
    /// Returns `Help(Checkpoint)` exactly if a checkpoint runs or `CHECKPOINT_AT` places of the extent are taken,
    /// `Help(Log)` if the record doesn't fit the batch that fills; nothing has changed then.
    pub(crate) fn seal(&mut self, session: u8) -> Outcome<K::Key>
        requires session { is_session session ≡ true }
        requires commit { asks_commit (phase_in session self.old) ≡ true }
        requires works { self.old.sessions.failed ≡ false }
        ensures comes { SealComes session self.old self.new result }
        ensures leads { LeadsSoAs K.Key.Shape K.ReadKeys D.state self.old self.new
            (AreSealing session (self.old.sessions.latest + 1) result) }
    {
        a_class_is_lawful::<K>();
        self.sessions.stands();
        if self.is_due() {
            return Outcome::Help(Need::Checkpoint);
        }
        let transaction = self.sessions.transaction(session);
        let number = self.sessions.latest() + 1;
        match self.storage.append_commit(transaction, number) {
            Ok(()) => {
                self.sessions.seal(session);
                Outcome::More
            }
            Err(_) => Outcome::Help(Need::Log),
        }
    }

    /// Acknowledges a session's commit if its number is durable: returns `Replied` with `Committed` and that number,
    /// and the session is free. Else returns `Help(Log)`, or `Help(Checkpoint)` while a checkpoint runs, and nothing
    /// has changed. It makes no call of the device and takes no memory.
    pub(crate) fn acknowledge(&mut self, session: u8) -> Outcome<K::Key>
        requires session { is_session session ≡ true }
        requires works { self.old.sessions.failed ≡ false }
        ensures comes { (number : ℕ) → phase_in session self.old ≡ Waiting number
            → AcknowledgeComes session number self.old self.new result }
        ensures leads { (number : ℕ) → phase_in session self.old ≡ Waiting number
            → LeadsAs K.Key.Shape K.ReadKeys D.state self.old self.new (acknowledge_events session result) }
    {
        a_class_is_lawful::<K>();
        self.sessions.stands();
        let running = self.is_checkpointing();
        commit_outcome(running, self.sessions.acknowledge(session))
    }
}

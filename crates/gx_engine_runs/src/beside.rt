//! An engine beside the plain index: each reply is compared.
use crate::counts::Counts;
use crate::fault::RunFault;
use crate::keys::Drawn;
use crate::replies::are_same;
use crate::sets::Sets;
use gx_disk::{FuseDisk, MemDisk};
use gx_engine::Engine;
use gx_events::{Event, Events, Need, Outcome};
use gx_geom::Refusal;
use gx_machine::{Asked, Call, Entry, Reply, SESSIONS};
use gx_plain::PlainIndex;
use gx_plain_reader::Entry as PlainEntry;
use std::alloc::Global;

/// What a session's call is at.
#[derive(Clone, Copy)]
pub(crate) enum At<B> {
    /// No call is open, and no transaction.
    Idle,
    /// No call is open.
    Working,
    /// This call is open.
    Open(Call<B>),
    /// Its commit is sealed under this number.
    Waiting(u64),
}

/// How a run goes on after an event.
#[derive(Clone, Copy)]
pub(crate) enum Went {
    /// It did its work, or was answered.
    On,
    /// Another event has to come first.
    Waits(Need),
    /// There was nothing to do.
    Nothing,
    /// A call of the device has failed.
    Failed,
}

/// An engine, the index that it is compared with, and what is to be committed.
#[derive(Drop)]
pub(crate) struct Beside<K: Drawn> {
    pub(crate) engine: Engine<FuseDisk<MemDisk>, K>,
    plain: PlainIndex<K::Key>,
    sets: Sets,
    sessions: [At<K::Key>; SESSIONS],
    /// The number of the last commit that was acknowledged.
    acknowledged: u64,
    counts: Counts,
}

/// What is left of a run: the device, what is to be committed, and the numbers of the last commits that were sealed and
/// acknowledged.
#[derive(Drop)]
pub(crate) struct Ended {
    pub(crate) disk: MemDisk,
    pub(crate) sets: Sets,
    pub(crate) sealed: u64,
    pub(crate) acknowledged: u64,
    pub(crate) counts: Counts,
}

/// Whether an outcome says that the device failed.
fn is_fault<B>(outcome: &Outcome<B>) -> bool {
    matches!(
        outcome,
        Outcome::Refused(Refusal::Device) | Outcome::Replied(Reply::Refused(Refusal::Device))
    )
}

/// An entry, as the plain reader has it.
fn plain_entry<K: Drawn>(entry: &Entry<K::Key>) -> PlainEntry {
    PlainEntry {
        row: entry.row,
        key: K::plain_key(&entry.key),
    }
}

impl<K: Drawn> Beside<K> {
    /// An engine with nothing committed.
    pub(crate) fn new(
        alloc: Global,
        engine: Engine<FuseDisk<MemDisk>, K>,
    ) -> Result<Self, RunFault> {
        Ok(Beside {
            engine,
            plain: PlainIndex::new(alloc)?,
            sets: Sets::new(alloc)?,
            sessions: [At::Idle; SESSIONS],
            acknowledged: 0,
            counts: Counts::default(),
        })
    }

    /// Gives the engine up for its device.
    pub(crate) fn into_ended(self) -> Ended {
        let Beside {
            engine,
            plain: _,
            sets,
            sessions: _,
            acknowledged,
            counts,
        } = self;
        let sealed = engine.commits();
        Ended {
            disk: engine.into_disk().into_inner(),
            sets,
            sealed,
            acknowledged,
            counts,
        }
    }

    /// What a session's call is at.
    pub(crate) fn at(&self, session: u8) -> At<K::Key> {
        match self.sessions.get(usize::from(session).wrapping_sub(1)) {
            Some(at) => *at,
            None => At::Idle,
        }
    }

    fn set_at(&mut self, session: u8, at: At<K::Key>) {
        if let Some(place) = self.sessions.get_mut(usize::from(session).wrapping_sub(1)) {
            *place = at;
        }
    }

    // A call that was answered at once.
    fn answered_at_once(
        &mut self,
        session: u8,
        reply: &Reply<K::Key>,
        plain: &Reply<K::Key>,
    ) -> Result<(), RunFault> {
        if !are_same(reply, plain) {
            return Err(RunFault::Reply(session));
        }
        if let Reply::Ok = reply {
            self.set_at(session, At::Working);
        }
        Ok(())
    }

    // A session asked a call.
    fn asked(
        &mut self,
        session: u8,
        call: Call<K::Key>,
        outcome: &Outcome<K::Key>,
    ) -> Result<(), RunFault> {
        match (outcome, &self.plain.ask(session, call)) {
            (Outcome::More, Asked::Open) => {
                self.set_at(session, At::Open(call));
                Ok(())
            }
            (Outcome::Replied(reply), Asked::Now(plain)) => {
                self.answered_at_once(session, reply, plain)
            }
            _ => Err(RunFault::Reply(session)),
        }
    }

    // A session's commit was sealed, under the engine's last number.
    fn sealed(&mut self, session: u8) -> Result<(), RunFault> {
        let number = self.engine.commits();
        if !are_same(&self.plain.answer(session), &Reply::Committed(number)) {
            return Err(RunFault::Reply(session));
        }
        self.sets.seal(session)?;
        self.counts.commits = number;
        self.set_at(session, At::Waiting(number));
        Ok(())
    }

    // A session's commit was acknowledged.
    fn acknowledged(
        &mut self,
        session: u8,
        number: u64,
        reply: &Reply<K::Key>,
    ) -> Result<(), RunFault> {
        if !are_same(reply, &Reply::Committed(number)) {
            return Err(RunFault::Reply(session));
        }
        self.acknowledged = self.acknowledged.max(number);
        self.set_at(session, At::Idle);
        Ok(())
    }

    // A session's call was answered, and the plain index answers it so.
    fn answered(
        &mut self,
        session: u8,
        call: Call<K::Key>,
        reply: &Reply<K::Key>,
    ) -> Result<(), RunFault> {
        if !are_same(reply, &self.plain.answer(session)) {
            return Err(RunFault::Reply(session));
        }
        match (call, reply) {
            (Call::Insert(entry), Reply::Inserted) => {
                self.sets.write(session, plain_entry::<K>(&entry), true)?;
            }
            (Call::Delete(entry), Reply::Deleted) => {
                self.sets.write(session, plain_entry::<K>(&entry), false)?;
            }
            (Call::Abort, Reply::Aborted) => {
                self.sets.drop_writes(session)?;
                self.set_at(session, At::Idle);
                return Ok(());
            }
            _ => {}
        }
        self.set_at(session, At::Working);
        Ok(())
    }

    // A session's call went on, from this number of commits.
    fn moved(
        &mut self,
        session: u8,
        before: u64,
        outcome: &Outcome<K::Key>,
    ) -> Result<Went, RunFault> {
        match (outcome, self.at(session)) {
            (Outcome::More, At::Open(_)) if self.engine.commits() == before => Ok(Went::On),
            (Outcome::More, At::Open(Call::Commit)) => {
                self.sealed(session)?;
                Ok(Went::On)
            }
            (Outcome::Help(need), At::Open(_) | At::Waiting(_)) => Ok(Went::Waits(*need)),
            (Outcome::Replied(reply), At::Open(call)) => {
                self.answered(session, call, reply)?;
                Ok(Went::On)
            }
            (Outcome::Replied(reply), At::Waiting(number)) => {
                self.acknowledged(session, number, reply)?;
                Ok(Went::On)
            }
            (Outcome::Refused(Refusal::NoCall), At::Idle | At::Working) => Ok(Went::Nothing),
            _ => Err(RunFault::Reply(session)),
        }
    }

    /// Makes an event, and compares what came of it.
    pub(crate) fn step(&mut self, event: Event<K::Key>) -> Result<Went, RunFault> {
        let before = self.engine.commits();
        let outcome = self.engine.step(event);
        self.counts.count(&event, &outcome);
        if is_fault(&outcome) {
            return Ok(Went::Failed);
        }
        match event {
            Event::Ask(session, call) => {
                self.asked(session, call, &outcome)?;
                Ok(Went::On)
            }
            Event::Move(session) => self.moved(session, before, &outcome),
            Event::LogStep | Event::WritePage(_) | Event::CheckpointStep | Event::Sweep(_) => {
                match outcome {
                    Outcome::More => Ok(Went::On),
                    Outcome::Nothing => Ok(Went::Nothing),
                    Outcome::Help(need) => Ok(Went::Waits(need)),
                    Outcome::Replied(_) | Outcome::Refused(_) => Err(RunFault::Event),
                }
            }
        }
    }
}

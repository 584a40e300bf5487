//! Group commit: sessions take turns to step the log for sealed commits, so that many commits share a batch.
//!
//! One session leads a round. It steps the log until its own commit is replied to; the commits that were sealed before
//! its batch was closed become durable with it. Every other session whose commit is sealed doesn't step the log. It
//! sleeps until the round ends and then makes a move, which either ends its commit or says that its batch is still to
//! come. Then it leads, or sleeps through one more round.
//!
//! This decides only when a session takes the lock, and whether a sealed commit makes the event that its last outcome
//! named or a move. Both are events of its call, so contracts say nothing about it.
//!
//! # Why no wake-up is lost
//!
//! `round` is odd while a session leads. A call reads it before each hold, and takes the lead only by a
//! compare-and-swap from the number that it read: so no round has ended between its hold and its lead. It sleeps only
//! if `round` shows, after the hold, that the same round is still led. Then the leader has yet to change the number,
//! and wakes all sleepers after that; the system compares the number once more before a thread sleeps. A round that
//! ended since the number was read may have made the commit durable: then the call doesn't sleep, but makes a move.
//!
//! A leader never sleeps, and it ends its round when its call ends, by a reply or given up. Only the lock and its own
//! `Between` can delay that. No session sleeps here while it holds the lock. So every sleeper is woken if every thread
//! that waits for the lock gets it.
//!
//! Each round gates one batch at least, since its leader's commit wasn't durable. At most two batches are under way,
//! one in flight and one that fills, and they are gated in order. So a sealed commit is durable after two rounds.

ghost use Rattle.std.specs.Prelude.{◌≡◌, ◌⊎◌};
ghost use Rattle.gx_events.specs.declared.event.Event.TheVariants.{Move};

use gx_events::Event;
use gx_geom::Shape;
use gx_machine::Call;
use std::sync::Wait;
use std::sync::atomic::{AtomicU64, Ordering};
use std::thread;

/// After so many looks in a row without a change a leader stops waiting for commits that others may seal.
const LOOKS: u32 = 400;

/// How often a leader looks at most.
const ALL_LOOKS: u32 = 16 * LOOKS;

/// What sessions share about their commits outside the lock. A set of sessions has a bit for each.
#[derive(Drop)]
pub(crate) struct Turns {
    /// The number of rounds begun plus the number of rounds ended: odd while a session leads.
    round: AtomicU64,
    /// The sessions that have asked a commit and not sealed it.
    asked: AtomicU64,
    /// The sessions that have sealed a commit since the last batch was closed.
    sealed: AtomicU64,
    /// The sessions with a commit in the last batch that was closed.
    last: AtomicU64,
    /// The sessions with a commit in the batch before that.
    former: AtomicU64,
    /// The sessions with a commit in the last batch and in one of the two before it.
    regular: AtomicU64,
}

/// What a session may do for its sealed commit.
#[derive(Clone, Copy, Debug, PartialEq, Eq)]
enum Turn {
    /// It leads.
    Lead,
    /// Another session leads this round.
    Follow(u64),
    /// A round has ended since it looked.
    Move,
}

impl Turns {
    /// The state in which no commit is asked.
    pub(crate) fn new() -> Self {
        Turns {
            round: AtomicU64::new(0),
            asked: AtomicU64::new(0),
            sealed: AtomicU64::new(0),
            last: AtomicU64::new(0),
            former: AtomicU64::new(0),
            regular: AtomicU64::new(0),
        }
    }

    /// Notes that sessions have sealed their commits.
    fn seal(&self, sessions: u64) {
        self.sealed.fetch_or(sessions, Ordering::SeqCst);
        self.forget(sessions);
    }

    /// Notes that sessions no longer have a commit that is asked and not sealed.
    fn forget(&self, sessions: u64) {
        self.asked.fetch_and(!sessions, Ordering::SeqCst);
    }

    /// Makes a session the leader, if no round is led and none has begun since this number was read.
    fn take(&self, seen: u64) -> Turn {
        let round = if seen % 2 == 0 {
            let led = seen.wrapping_add(1);
            match self
                .round
                .compare_exchange(seen, led, Ordering::SeqCst, Ordering::SeqCst)
            {
                Ok(_) => return Turn::Lead,
                Err(round) => round,
            }
        } else {
            self.round.load(Ordering::SeqCst)
        };
        if round / 2 == seen / 2 {
            Turn::Follow(round)
        } else {
            Turn::Move
        }
    }

    /// The sessions whose commits may soon be sealed: those that have asked one, and those that commit regularly.
    fn awaited(&self) -> u64 {
        let asked = self.asked.load(Ordering::SeqCst);
        let regular = self.regular.load(Ordering::SeqCst);
        (asked | regular) & !self.sealed.load(Ordering::SeqCst)
    }

    /// Looks for commits that may soon be sealed, with a yield between two looks. It stops if there are none, or after
    /// `LOOKS` looks without a change. Then the batch may be closed. Returns the sessions in it.
    fn gather(&self) -> u64 {
        let mut known = 0;
        let mut looks = 0;
        for _ in 0..ALL_LOOKS {
            let awaited = self.awaited();
            if awaited == 0 || looks >= LOOKS {
                break;
            }
            looks = if awaited == known { looks + 1 } else { 0 };
            known = awaited;
            thread::yield_now();
        }
        self.sealed.swap(0, Ordering::SeqCst)
    }

    /// Sleeps until the round ends.
    fn follow<W: Wait>(&self, rt: &W, round: u64) {
        for _ in rt.forever() {
            if self.round.load(Ordering::SeqCst) != round {
                return;
            }
            self.round.park(rt, (round % (1 << 32)) as u32);
        }
        unreachable!()
    }

    /// Ends the round of a batch with commits of these sessions, and wakes all that sleep.
    fn end_round(&self, batch: u64) {
        let last = self.last.swap(batch, Ordering::SeqCst);
        let former = self.former.swap(last, Ordering::SeqCst);
        let regular = batch & (last | former);
        self.regular.store(regular, Ordering::SeqCst);
        self.round.fetch_add(1, Ordering::SeqCst);
        self.round.wake_all();
    }
}

/// The stages of a call on its way to a durable commit.
#[derive(Clone, Copy, Debug, PartialEq, Eq)]
enum CommitStage {
    /// It isn't a commit.
    Other,
    /// It is a commit, and not sealed.
    Unsealed,
    /// It is sealed, and may not be durable.
    Sealed,
    /// It is sealed, and its session leads a round, whose batch has these sessions.
    Leads(u64),
}

/// A call under way.
#[derive(Drop)]
pub(crate) struct CallTurn {
    session: u8,
    stage: CommitStage,
    /// The number of the round before the last hold.
    seen: u64,
}

impl CallTurn {
    /// Starts a call of a session.
    pub(crate) fn begin_call<B>(session: u8, call: &Call<B>, turns: &Turns) -> Self {
        let mut turn = CallTurn {
            session,
            stage: CommitStage::Other,
            seen: 0,
        };
        if let Call::Commit = call {
            turn.stage = CommitStage::Unsealed;
            turns.asked.fetch_or(turn.bit(), Ordering::SeqCst);
        }
        turn
    }

    /// The set with this session alone.
    fn bit(&self) -> u64 {
        1 << (self.session % 32)
    }

    /// Reads the number of the round, before a hold.
    pub(crate) fn look(&mut self, turns: &Turns) {
        self.seen = turns.round.load(Ordering::SeqCst);
    }

    /// Notes that a move of the call succeeded and another one follows. The first such move of a commit seals it.
    pub(crate) fn moved(&mut self, turns: &Turns) {
        if self.stage == CommitStage::Unsealed {
            self.stage = CommitStage::Sealed;
            turns.seal(self.bit());
        }
    }

    /// The next event of the session's call, if the last outcome named this one. If its commit is sealed and the event
    /// is a step of the log or of a checkpoint or the write of a page, the session makes that event only as the leader:
    /// it takes the lead, or waits for the end of the round and makes a move.
    pub(crate) fn next<B: Shape, W: Wait>(
        &mut self,
        rt: &W,
        turns: &Turns,
        session: u8,
        named: Event<B>,
    ) -> Event<B>
        ensures { (result ≡ named) ⊎ (result ≡ Move session) }
    {
        if self.stage != CommitStage::Sealed || matches!(named, Event::Move(_)) {
            return named;
        }
        match turns.take(self.seen) {
            Turn::Lead => {
                self.stage = CommitStage::Leads(turns.gather());
                return named;
            }
            Turn::Follow(round) => turns.follow(rt, round),
            Turn::Move => {}
        }
        Event::Move(session)
    }

    /// Ends the call, with a reply or given up.
    pub(crate) fn end_call(&self, turns: &Turns) {
        match self.stage {
            CommitStage::Leads(batch) => turns.end_round(batch),
            CommitStage::Unsealed => turns.forget(self.bit()),
            CommitStage::Other | CommitStage::Sealed => {}
        }
    }
}

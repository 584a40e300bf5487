//! Calls of sessions and rounds of flushers. Each event takes one hold of the lock.
ghost use Rattle.gx_shared.specs.Sharing.{InCall, Follows};

use crate::flush::{Part, ROUND};
use crate::turns::CallTurn;
use crate::{Between, Run, Session, Shared};
use gx_events::{Driver, Event, Events, Next, Outcome};
use gx_geom::Shape;
use gx_machine::{Call, Reply};
use std::sync::Wait;
use std::sync::ledger::Ledger;

/// Makes one event of a session's call in one hold of the lock. After a step of the log or of a checkpoint it syncs the
/// file, once the lock is free.
#[tactic(auto, using(crate::proofs::Sharing::follows_next))]
fn hold<B: Shape, E: Events<B>, R: Run<B>, W: Wait>(
    rt: &W,
    shared: &Shared<B, E, R>,
    session: &mut Session<B, R>,
    event: Event<B>,
) -> Next<B>
    requires { InCall session.old.0.0 event }
    ensures { Follows session.old event result session.new }
{
    let mut driver = Driver::new(session.number());
    let logs = matches!(event, Event::LogStep | Event::CheckpointStep);
    let outcome = shared.book.lock(rt).run(session, event);
    if logs {
        shared.sync_ahead();
    }
    driver.next(outcome)
}

/// Makes the event of a flusher's part of a round in one hold of the lock, and syncs the file as after an event of a
/// call. Returns no outcome if the part has no event.
fn flush<B: Shape, E: Events<B>, R: Run<B>, W: Wait>(
    rt: &W,
    shared: &Shared<B, E, R>,
    part: Part,
    round: u64,
) -> Option<Outcome<B>> {
    let outcome = shared.book.lock(rt).flush(part, round);
    if matches!(part, Part::Checkpoint | Part::Log) {
        shared.sync_ahead();
    }
    outcome
}

impl<B: Shape, R: Ledger> Session<B, R> {
    ghost use Rattle.gx_shared.specs.Sharing.{IsCalled};

    /// Asks a call and runs its events to the end, one hold of the lock for each. Between two of them, while no lock is
    /// held, it calls `between`, and after a step of the log or of a checkpoint it makes an early sync, if the `Shared`
    /// has a handle for it. The session must be used with the `Shared` that made it.
    ///
    /// It waits for the lock, and with a sealed commit for the end of a round that another session leads; it never
    /// sleeps for a time. Before it steps the log for a sealed commit it lets other sessions seal theirs.
    ///
    /// The first hold asks the call, and each further one makes the event that the last outcome names, or a move. The
    /// reply is that of the last hold, which was recorded, and the session's share rises by one. Or the call is given
    /// up with the refusal of its last hold, and the session's share stays: with `Device`, `Failed` or `Damaged` if an
    /// event of the log or of a page met a fault, with `Failed` if the record is full of such refusals, with
    /// `HistoryFull` if the record has no room for the call.
    #[tactic(auto, using(crate::proofs::Sharing::done_of, crate::proofs::Sharing::run_of, crate::proofs::Sharing::call_of))]
    pub fn call<E: Events<B>, G: Between, W: Wait>(
        &mut self,
        rt: &W,
        shared: &Shared<B, E, R>,
        call: Call<B>,
        between: &G,
    ) -> Reply<B>
    where
        R: Run<B>,
        ensures { IsCalled self.old call result self.new }
    {
        let number = self.number();
        let turns = &shared.turns;
        let mut turn = CallTurn::begin_call(number, &call, turns);
        let mut event = Event::Ask(number, call);
        let mut step: u64 = 0;
        for _ in rt.forever() {
            let moves = matches!(event, Event::Move(_));
            turn.look(turns);
            let next = match hold(rt, shared, self, event) {
                Next::Done(reply) => {
                    turn.end_call(turns);
                    return reply;
                }
                Next::Run(next) => next,
            };
            if moves && matches!(next, Event::Move(_)) {
                turn.moved(turns);
            }
            step = step.saturating_add(1);
            between.between(number, step);
            event = turn.next(rt, turns, number, next);
        }
        unreachable!()
    }
}

/// Runs so many rounds of a flusher: in each the next step of a checkpoint, the next step of the log, the write of a
/// page if one may be written, and the sweep of a page, each in a separate hold of the lock. It calls `between` after
/// each of them, while no lock is held. It stops early if one is refused.
pub fn flusher<B: Shape, E: Events<B>, R: Run<B>, G: Between, W: Wait>(
    rt: &W,
    shared: &Shared<B, E, R>,
    rounds: u64,
    between: &G,
) {
    let mut step: u64 = 0;
    for round in 0..rounds {
        for part in ROUND {
            match flush(rt, shared, part, round) {
                Some(Outcome::Refused(_)) => return,
                Some(_) => {
                    step = step.saturating_add(1);
                    between.between(0, step);
                }
                None => {}
            }
        }
    }
}

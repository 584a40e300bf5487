//! The threads of a storm.
ghost use Rattle.std.specs.Prelude.{◌≡◌, ◌+◌, ◌≤◌, IfOk, vec_len};
ghost use Rattle.gx_machine.specs.Keys.{keys_of};
ghost use Rattle.gx_machine.specs.declared.limits.TheConstants.{SESSIONS};
ghost use Rattle.gx_shared.specs.Books.{MayBeShared};
ghost use Rattle.gx_storm.specs.Verdicts.{EndsStorm};

use crate::draws::Draws;
use crate::refusals::{lesser, told_reply};
use crate::{Handed, Verdict, judge};
use gx_disk::SyncAhead;
use gx_events::Events;
use gx_geom::{Box2, Shape};
use gx_shared::{Book, NoBetween, Run, Session, Shared, flusher};
use std::alloc::{AllocError, Global};
use std::marker::Brand;
use std::sync::Wait;
use std::sync::ledger::{Blank, Ledger};
use std::thread::{Threads, join, map_vec};

/// A storm: the seed of the random calls, the number of sessions, 1 to 8, and the number of calls that each makes.
#[derive(Clone, Copy)]
pub struct Storm {
    /// Session s has this number plus s as its seed.
    pub seed: u32,
    /// How many sessions there are.
    pub sessions: u8,
    /// How many calls each makes.
    pub calls: u32,
}

/// A session at work, with the replies that it got.
#[derive(Drop)]
struct Worker<R: Ledger> {
    session: Session<Box2, R>,
    handed: Handed<Box2>,
    draws: Draws,
}

impl<R: Ledger> Worker<R> {
    /// A session without replies yet, with room for so many.
    fn new(alloc: Global, session: Session<Box2, R>, storm: &Storm) -> Result<Self, AllocError> {
        let seed = u64::from(storm.seed) + u64::from(session.number());
        Ok(Worker {
            session,
            handed: Handed {
                replies: Vec::with_capacity(alloc, storm.calls as usize)?,
                given_up: None,
            },
            draws: Draws::new(seed),
        })
    }

    /// Makes one call. Keeps its reply if the session's share rose; else the call was given up.
    fn call<E: Events<Box2>, W: Wait>(
        &mut self,
        rt: &W,
        shared: &Shared<Box2, E, R>,
    ) -> Result<(), AllocError>
    where
        R: Run<Box2>,
    {
        let finished = self.session.share();
        let call = self.draws.call();
        let reply = self.session.call(rt, shared, call, &NoBetween);
        self.draws.see(&reply);
        if self.session.share() > finished {
            self.handed.replies.push(reply)?;
        } else {
            self.handed.given_up = lesser(self.handed.given_up, told_reply(&reply));
        }
        Ok(())
    }

    /// Makes the session's calls, one after another.
    fn work<E: Events<Box2>, W: Wait>(
        self,
        rt: &W,
        shared: &Shared<Box2, E, R>,
        calls: u32,
    ) -> Result<Self, AllocError>
    where
        R: Run<Box2>,
    {
        let mut worker = self;
        for _ in 0..calls {
            worker.call(rt, shared)?;
        }
        Ok(worker)
    }
}

/// Gets the first sessions of all ready to work.
fn workers<R: Run<Box2>>(
    alloc: Global,
    sessions: &mut Vec<Session<Box2, R>>,
    storm: &Storm,
) -> Result<Vec<Worker<R>>, AllocError>
    requires { storm.now.sessions ≤ vec_len sessions.old }
    ensures { IfOk result (λ workers. vec_len workers ≡ storm.now.sessions) }
{
    let mut workers = Vec::new(alloc);
    for taken in 0..storm.sessions {
        workers.push(Worker::new(alloc, sessions.remove(0), storm)?)?;
    }
    Ok(workers)
}

/// Puts all workers' sessions back among the others, and returns the replies that they got.
fn all_back<R: Run<Box2>>(
    alloc: Global,
    sessions: &mut Vec<Session<Box2, R>>,
    workers: Vec<Result<Worker<R>, AllocError>>,
) -> Result<Vec<Handed<Box2>>, AllocError>
    ensures { IfOk result (λ all. vec_len all ≡ vec_len workers) }
{
    let mut all = Vec::new(alloc);
    let count = workers.len();
    let mut rest = workers;
    for place in 0..count {
        let Worker {
            session,
            handed,
            ..
        } = rest.remove(0)?;
        all.push(handed)?;
        sessions.push(session)?;
    }
    Ok(all)
}

/// Runs all workers, each in a separate thread.
fn all_work<E: Events<Box2> + Send, R: Run<Box2> + Send + Sync, W: Threads + Wait + Sync>(
    rt: &W,
    shared: &Shared<Box2, E, R>,
    workers: Vec<Worker<R>>,
    calls: u32,
) -> Result<Vec<Result<Worker<R>, AllocError>>, AllocError>
    ensures { IfOk result (λ done. vec_len done ≡ vec_len workers) }
{
    map_vec(rt, workers, &|worker| worker.work(rt, shared, calls))
}

/// Runs sessions in threads over an engine, with random calls, beside a flusher in a separate thread, which runs as
/// many rounds as there are calls. Over a file `ahead` may be a handle of it for early syncs. Returns the book once it
/// is closed, and the replies that each session got, from number 1 on.
pub fn run_storm<
    E: Events<Box2> + Drop + Send,
    R: Run<Box2> + Send + Sync,
    W: Threads + Wait + Sync,
>(
    rt: &W,
    alloc: Global,
    blank: Blank,
    engine: E,
    ahead: Option<SyncAhead>,
    storm: &Storm,
) -> Result<(Book<Box2, E, R>, Vec<Handed<Box2>>), AllocError>
    requires name { blank.name ≡ R.name }
    requires parts { (blank.parts ≡ R.parts) × (R.parts ≡ SESSIONS) }
    requires starts { E.granted → MayBeShared E.sees R.starts engine }
    requires sessions { storm.now.sessions ≤ SESSIONS }
    ensures { IfOk result (λ over. vec_len over.1 ≡ storm.now.sessions) }
{
    let Ok((shared, mut sessions)) = Shared::<Box2, E, R>::new(alloc, blank, engine) else {
        return Err(AllocError);
    };
    let shared = shared.with_sync_ahead(ahead);
    let workers = workers(alloc, &mut sessions, storm)?;
    let rounds = u64::from(storm.sessions) * u64::from(storm.calls);
    let (done, ()) = join(
        rt,
        || all_work(rt, &shared, workers, storm.calls),
        || flusher(rt, &shared, rounds, &NoBetween),
    );
    let all = all_back(alloc, &mut sessions, done?)?;
    Ok((shared.close(sessions), all))
}

/// Runs the sessions so, and judges the storm.
fn judged<E: Events<Box2> + Drop + Send, R: Run<Box2> + Send + Sync, W: Threads + Wait + Sync>(
    rt: &W,
    alloc: Global,
    blank: Blank,
    engine: E,
    ahead: Option<SyncAhead>,
    storm: &Storm,
) -> Result<(Verdict, E), AllocError>
    requires name { blank.name ≡ R.name }
    requires parts { (blank.parts ≡ R.parts) × (R.parts ≡ SESSIONS) }
    requires starts { E.granted → MayBeShared E.sees R.starts engine }
    requires sessions { storm.now.sessions ≤ SESSIONS }
    ensures { IfOk result (λ over.
        EndsStorm (keys_of ⟦<Box2 as Shape>⟧) E.Events R.starts storm.now over.0 over.1) }
{
    let (book, all) = run_storm::<E, R, W>(rt, alloc, blank, engine, ahead, storm)?;
    book.stands();
    let verdict = judge(alloc, &book, storm.calls, all.as_slice());
    Ok((verdict, book.into_engine()))
}

/// Runs a storm over an engine in which no call is open. Returns the verdict, and the engine as the storm left it. The
/// plain index that replays the record begins with nothing committed, so an engine that has commits gives a verdict
/// that differs. Over a file `ahead` may be a handle of it for early syncs.
///
/// The verdict is `Refused(Memory)` if there is no memory for the sessions, the record or a reply.
pub fn storm_over<E: Events<Box2> + Drop + Send, W: Threads + Wait + Sync>(
    rt: &W,
    alloc: Global,
    engine: E,
    ahead: Option<SyncAhead>,
    storm: &Storm,
) -> Result<(Verdict, E), AllocError>
    requires starts { E.granted → MayBeShared E.sees (E.sees engine) engine }
    requires sessions { storm.now.sessions ≤ SESSIONS }
    ensures { IfOk result (λ over.
        EndsStorm (keys_of ⟦<Box2 as Shape>⟧) E.Events (E.sees engine) storm.now over.0 over.1) }
{
    judged::<E, Brand, W>(rt, alloc, Blank::new(8), engine, ahead, storm)
}

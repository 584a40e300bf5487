//! Threads at different work over one index, timed: commits beside commits at a pause, and reads beside commits.
ghost use Rattle.std.specs.Prelude.{◌≡◌};
ghost use Rattle.gx_machine.specs.declared.limits.TheConstants.{SESSIONS};
ghost use Rattle.gx_shared.specs.Books.{MayBeShared};

use crate::share::workers;
use crate::trouble::Trouble;
use crate::work::{Kind, Worker};
use gx_disk::SyncAhead;
use gx_events::Events;
use gx_geom::Box2;
use gx_machine::Call;
use gx_shared::{Run, Session, Shared};
use std::alloc::Global;
use std::marker::Brand;
use std::rt::Clock;
use std::sync::Wait;
use std::sync::atomic::{AtomicU64, Ordering};
use std::sync::ledger::{Blank, Ledger};
use std::thread::{self, Threads, map_vec};
use std::time::{Duration, Instant};

/// What the first thread does, and the others beside it.
#[derive(Clone, Copy)]
pub(crate) enum Beside {
    /// It commits so often without pause; each of the others commits and pauses for a millisecond, until it is done.
    Paced,
    /// It commits without pause until the others are done, of which each reads so often in one transaction.
    Reads,
}

/// How many milliseconds a pause is.
const PAUSE: u64 = 1;

/// What a thread did.
#[derive(Drop)]
struct Done<R: Ledger> {
    session: Session<Box2, R>,
    /// How many transactions it committed.
    commits: u64,
    /// The nanoseconds that each of its reads took.
    reads: Vec<u64>,
}

/// What every thread gets: which work runs beside which, and how often the threads that end the run do theirs.
#[derive(Clone, Copy)]
struct Plan {
    alloc: Global,
    what: Beside,
    each: u16,
}

/// Commits one insert after another: so many at most, or until nobody is left that has to end. With a pause after each
/// if one is wanted. Returns how many.
fn commit<E: Events<Box2>, R: Run<Box2>, W: Wait + Clock>(
    rt: &W,
    shared: &Shared<Box2, E, R>,
    worker: &mut Worker<R>,
    left: &AtomicU64,
    most: u64,
    pause: bool,
) -> Result<u64, Trouble> {
    let mut turn: u16 = 0;
    for done in 0..most {
        if left.load(Ordering::SeqCst) == 0 {
            return Ok(done);
        }
        worker.transact(rt, shared, turn, Kind::Single)?;
        turn = turn.wrapping_add(1) % 8191;
        if pause {
            thread::sleep(rt, Duration::from_millis(PAUSE));
        }
    }
    Ok(most)
}

/// Reads so often in one transaction, and returns the nanoseconds that each read took.
fn read<E: Events<Box2>, R: Run<Box2>, W: Wait + Clock>(
    rt: &W,
    shared: &Shared<Box2, E, R>,
    worker: &mut Worker<R>,
    plan: Plan,
) -> Result<Vec<u64>, Trouble> {
    let mut took = Vec::new(plan.alloc);
    worker.call(rt, shared, Call::Begin)?;
    for _ in 0..plan.each {
        let began = Instant::now(rt)?;
        worker.search(rt, shared)?;
        let nanos = began.elapsed(rt)?.as_nanos();
        took.push(u64::try_from(nanos).unwrap_or(u64::MAX))?;
    }
    worker.call(rt, shared, Call::Abort)?;
    Ok(took)
}

/// What one thread does. Those that have to end count themselves as ended.
fn work<E: Events<Box2>, R: Run<Box2>, W: Wait + Clock>(
    rt: &W,
    shared: &Shared<Box2, E, R>,
    worker: Worker<R>,
    left: &AtomicU64,
    plan: Plan,
) -> Result<Done<R>, Trouble> {
    let mut worker = worker;
    let mut commits = 0;
    let mut reads = Vec::new(plan.alloc);
    match (plan.what, worker.session.number()) {
        (Beside::Paced, 1) => {
            let most = u64::from(plan.each);
            let done = commit(rt, shared, &mut worker, left, most, false);
            left.fetch_sub(1, Ordering::SeqCst);
            commits = done?;
        }
        (Beside::Paced, _) => commits = commit(rt, shared, &mut worker, left, u64::MAX, true)?,
        (Beside::Reads, 1) => commits = commit(rt, shared, &mut worker, left, u64::MAX, false)?,
        (Beside::Reads, _) => {
            let done = read(rt, shared, &mut worker, plan);
            left.fetch_sub(1, Ordering::SeqCst);
            reads = done?;
        }
    }
    Ok(Done {
        session: worker.session,
        commits,
        reads,
    })
}

/// All that the threads did, put together.
#[derive(Drop)]
struct Sums {
    /// The commits of the first thread.
    commits: u64,
    /// Those of the others.
    others: u64,
    reads: Vec<u64>,
}

/// What all threads did; their sessions go back among the others.
fn summed<R: Run<Box2>>(
    alloc: Global,
    sessions: &mut Vec<Session<Box2, R>>,
    all: Vec<Result<Done<R>, Trouble>>,
) -> Result<Sums, Trouble> {
    let mut sums = Sums {
        commits: 0,
        others: 0,
        reads: Vec::new(alloc),
    };
    for done in all {
        let Done {
            session,
            commits,
            reads,
        } = done?;
        if session.number() == 1 {
            sums.commits = commits;
        } else {
            sums.others = sums.others.saturating_add(commits);
        }
        sums.reads.extend_from_slice(reads.as_slice())?;
        sessions.push(session)?;
    }
    Ok(sums)
}

/// The least of the slowest hundredth.
fn slowest(reads: &mut Vec<u64>) -> u64 {
    reads.sort_unstable();
    let place = reads.len() - reads.len() / 100;
    match reads.get(place.saturating_sub(1)) {
        Some(nanoseconds) => *nanoseconds,
        None => 0,
    }
}

/// Prints what was done in this time.
fn print_sums<W: Print>(rt: &W, sums: Sums, took: Duration) -> Result<(), Trouble> {
    let Sums {
        commits,
        others,
        mut reads,
    } = sums;
    let (count, slow) = (reads.len(), slowest(&mut reads));
    let micros = took.as_micros();
    println!(rt; "{commits} commits, {others} beside, {count} reads in {micros} microseconds")?;
    println!(rt; "the slowest hundredth of the reads from {slow} nanoseconds on")?;
    Ok(())
}

/// Shares an engine among so many threads, and gives it back once they are joined.
fn run<
    E: Events<Box2> + Drop + Send,
    R: Run<Box2> + Send + Sync,
    W: Threads + Wait + Clock + Sync + Print,
>(
    rt: &W,
    blank: Blank,
    engine: E,
    ahead: Option<SyncAhead>,
    threads: u8,
    plan: Plan,
) -> Result<E, Trouble>
    requires name { blank.name ≡ R.name }
    requires parts { (blank.parts ≡ R.parts) × (R.parts ≡ SESSIONS) }
    requires starts { E.granted → MayBeShared E.sees R.starts engine }
{
    let alloc = plan.alloc;
    let Ok((shared, mut sessions)) = Shared::<Box2, E, R>::new(alloc, blank, engine) else {
        return Err(Trouble::Memory);
    };
    let shared = shared.with_sync_ahead(ahead);
    let workers = workers(alloc, &mut sessions, threads)?;
    let left = AtomicU64::new(match plan.what {
        Beside::Paced => 1,
        Beside::Reads => u64::from(threads).saturating_sub(1),
    });
    let began = Instant::now(rt)?;
    let done = map_vec(
        rt,
        workers,
        &|worker| work(rt, &shared, worker, &left, plan),
    )?;
    let took = began.elapsed(rt)?;
    let sums = summed(alloc, &mut sessions, done)?;
    print_sums(rt, sums, took)?;
    Ok(shared.close(sessions).into_engine())
}

/// The same, in a run that starts at whatever the engine is seen as.
pub(crate) fn work_beside<E: Events<Box2> + Drop + Send, W: Threads + Wait + Clock + Sync + Print>(
    rt: &W,
    alloc: Global,
    engine: E,
    ahead: Option<SyncAhead>,
    threads: u8,
    each: u16,
    what: Beside,
) -> Result<E, Trouble>
    requires { E.granted → MayBeShared E.sees (E.sees engine) engine }
{
    let plan = Plan { alloc, what, each };
    run::<E, Brand, W>(rt, Blank::new(8), engine, ahead, threads, plan)
}

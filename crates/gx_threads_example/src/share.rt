//! Threads over an index that is open, and what the record says of them.
ghost use Rattle.std.specs.Prelude.{◌≡◌};
ghost use Rattle.gx_machine.specs.declared.limits.TheConstants.{SESSIONS};
ghost use Rattle.gx_shared.specs.Books.{MayBeShared};

use crate::trouble::Trouble;
use crate::work::{Kind, Worker};
use gx_disk::SyncAhead;
use gx_events::Events;
use gx_geom::{Box2, Refusal};
use gx_machine::{Item, Reply};
use gx_shared::{Book, Run, Session, Shared};
use std::alloc::Global;
use std::marker::Brand;
use std::sync::Wait;
use std::sync::ledger::Blank;
use std::thread::{Threads, map_vec};

/// So many workers, by the first sessions.
pub(crate) fn workers<R: Run<Box2>>(
    alloc: Global,
    sessions: &mut Vec<Session<Box2, R>>,
    threads: u8,
) -> Result<Vec<Worker<R>>, Trouble> {
    let mut workers = Vec::new(alloc);
    for _ in 0..threads {
        if sessions.is_empty() {
            return Err(Trouble::BadLine);
        }
        workers.push(Worker::new(alloc, sessions.remove(0)))?;
    }
    Ok(workers)
}

/// What a worker's session got: its number, the replies, and the first fault.
#[derive(Drop)]
struct Handed {
    session: u8,
    replies: Vec<Reply<Box2>>,
    fault: Option<Refusal>,
}

/// Puts all workers' sessions back among the others, and returns what they got.
fn all_back<R: Run<Box2>>(
    alloc: Global,
    sessions: &mut Vec<Session<Box2, R>>,
    workers: Vec<Result<Worker<R>, Trouble>>,
) -> Result<Vec<Handed>, Trouble> {
    let mut handed = Vec::new(alloc);
    for worker in workers {
        let Worker {
            session,
            replies,
            fault,
        } = worker?;
        handed.push(Handed {
            session: session.number(),
            replies,
            fault,
        })?;
        sessions.push(session)?;
    }
    Ok(handed)
}

/// Prints what the record says of all.
fn print_record<E: Events<Box2>, R: Run<Box2>, W: Print>(
    rt: &W,
    book: &Book<Box2, E, R>,
    all: &[Handed],
) -> Result<(), Trouble> {
    for handed in all {
        let session = handed.session;
        let calls = handed.replies.len();
        let agrees = book.agrees(session, handed.replies.as_slice());
        println!(rt; "session {session}: {calls} calls finished, the record agrees: {agrees}")?;
        if let Some(why) = handed.fault {
            println!(rt; "session {session} was refused: {}", why.text())?;
        }
    }
    let calls = book
        .calls()
        .iter()
        .filter(|item| matches!(item, Item::Replied(..)))
        .count();
    let commits = book
        .calls()
        .iter()
        .filter(|item| matches!(item, Item::Replied(_, Reply::Committed(_))))
        .count();
    println!(rt; "{calls} calls finished in all, {commits} commits")?;
    Ok(())
}

/// Shares an engine among so many threads, each of which makes so many transactions, and gives it back once they are
/// joined.
fn run<E: Events<Box2> + Drop + Send, R: Run<Box2> + Send + Sync, W: Threads + Wait + Sync + Print>(
    rt: &W,
    alloc: Global,
    blank: Blank,
    engine: E,
    ahead: Option<SyncAhead>,
    threads: u8,
    transactions: u16,
    kind: Kind,
) -> Result<E, Trouble>
    requires name { blank.name ≡ R.name }
    requires parts { (blank.parts ≡ R.parts) × (R.parts ≡ SESSIONS) }
    requires starts { E.granted → MayBeShared E.sees R.starts engine }
{
    let Ok((shared, mut sessions)) = Shared::<Box2, E, R>::new(alloc, blank, engine) else {
        return Err(Trouble::Memory);
    };
    let shared = shared.with_sync_ahead(ahead);
    let workers = workers(alloc, &mut sessions, threads)?;
    let done = map_vec(
        rt,
        workers,
        &|worker| worker.work(rt, &shared, transactions, kind),
    )?;
    let handed = all_back(alloc, &mut sessions, done)?;
    let book = shared.close(sessions);
    print_record(rt, &book, handed.as_slice())?;
    Ok(book.into_engine())
}

/// The same, in a run that starts at whatever the engine is seen as.
pub(crate) fn share<E: Events<Box2> + Drop + Send, W: Threads + Wait + Sync + Print>(
    rt: &W,
    alloc: Global,
    engine: E,
    ahead: Option<SyncAhead>,
    threads: u8,
    transactions: u16,
    kind: Kind,
) -> Result<E, Trouble>
    requires { E.granted → MayBeShared E.sees (E.sees engine) engine }
{
    run::<E, Brand, W>(
        rt,
        alloc,
        Blank::new(8),
        engine,
        ahead,
        threads,
        transactions,
        kind,
    )
}

//! Storms over an engine, and what is said of them.
ghost use Rattle.std.specs.Prelude.{◌≡◌, ◌≤◌, length};
ghost use Rattle.gx_machine.specs.declared.limits.TheConstants.{SESSIONS};
ghost use Rattle.gx_shared.specs.Books.{MayBeShared};

use crate::asserts::{got, holds};
use crate::known::{FIRST_CALLS, begins_as_known};
use crate::records::overlaps;
use crate::watched::Watched;
use gx_disk::SyncAhead;
use gx_events::Events;
use gx_geom::{Box2, Refusal};
use gx_shared::{Book, Run};
use gx_storm::{Handed, Storm, Verdict, judge, run_storm};
use std::alloc::Global;
use std::process::Abort;
use std::sync::Wait;
use std::sync::ledger::Blank;
use std::thread::Threads;

/// Four sessions, of which each makes 500 calls: so many that they meet on two slow processors too, as a hold takes
/// long until they have.
const STORM: Storm = Storm {
    seed: 11,
    sessions: 4,
    calls: 500,
};

/// One session, whose calls are known.
const ALONE: Storm = Storm {
    seed: 1,
    sessions: 1,
    calls: FIRST_CALLS,
};

/// Says of the session at a place that a call of it was given up so.
fn give_up(all: &mut [Handed<Box2>], place: usize, why: Refusal) {
    if let Some(handed) = all.get_mut(place) {
        handed.given_up = Some(why);
    }
}

/// Takes the last reply of the session at a place away.
fn lose_reply(all: &mut [Handed<Box2>], place: usize) {
    if let Some(handed) = all.get_mut(place) {
        let _ = handed.replies.pop();
    }
}

/// What is changed of the replies that the sessions of a storm got, before it is judged.
#[derive(Clone, Copy)]
enum Change {
    Nothing,
    /// A call of the session at a place was given up so.
    GiveUp(usize, Refusal),
    /// The session at a place hasn't its last reply.
    Lose(usize),
}

/// Changes, one after another, and what is said then; none if the record ends with a mismatch.
static CHANGES: [(Change, Option<Verdict>); 4] = [
    (Change::Nothing, Some(Verdict::Sound)),
    (
        Change::GiveUp(1, Refusal::Damaged),
        Some(Verdict::Refused(Refusal::Damaged)),
    ),
    (
        Change::GiveUp(2, Refusal::Device),
        Some(Verdict::Refused(Refusal::Device)),
    ),
    (Change::Lose(3), None),
];

/// Fails unless this is said of a storm after each of the changes.
fn judged<E: Events<Box2>, R: Run<Box2>>(
    rt: &impl Abort,
    alloc: Global,
    book: &Book<Box2, E, R>,
    all: &mut [Handed<Box2>],
)
    requires { length all.old ≤ SESSIONS }
{
    let end = Verdict::Mismatch(book.calls().len() as u64);
    for (change, wanted) in &CHANGES {
        match *change {
            Change::Nothing => {}
            Change::GiveUp(place, why) => give_up(all, place, why),
            Change::Lose(place) => lose_reply(all, place),
        }
        let told = judge(alloc, book, STORM.calls, all);
        holds(
            rt,
            told == wanted.unwrap_or(end),
            "another thing is said of a storm",
        );
    }
}

/// The plain index replays a storm. Its sessions' calls overlap, the flusher works amid them, and transactions are
/// committed. Of two calls that are marked as given up the lesser refusal is reported, and a reply that a session
/// doesn't have is missed.
pub(crate) fn stormed<
    E: Events<Box2> + Drop + Send,
    R: Run<Box2> + Send + Sync,
    W: Threads + Wait + Abort + Sync,
>(rt: &W, alloc: Global, blank: Blank, engine: E, ahead: Option<SyncAhead>)
    requires name { blank.name ≡ R.name }
    requires parts { (blank.parts ≡ R.parts) × (R.parts ≡ SESSIONS) }
    requires starts { E.granted → MayBeShared E.sees R.starts engine }
{
    let run = run_storm::<Watched<E>, R, W>(rt, alloc, blank, Watched::new(engine), ahead, &STORM);
    let (book, mut all) = got(rt, run, "no memory for a storm");
    judged(rt, alloc, &book, all.as_mut_slice());
    holds(rt, overlaps(book.calls()) > 0, "no two calls overlap");
    holds(rt, book.engine().commits() > 0, "nothing was committed");
    holds(
        rt,
        book.engine().was_flushed(),
        "the flusher doesn't work amid the calls",
    );
}

/// A storm of one session makes the calls that are known of its seed.
pub(crate) fn alone<
    E: Events<Box2> + Drop + Send,
    R: Run<Box2> + Send + Sync,
    W: Threads + Wait + Abort + Sync,
>(rt: &W, alloc: Global, blank: Blank, engine: E)
    requires name { blank.name ≡ R.name }
    requires parts { (blank.parts ≡ R.parts) × (R.parts ≡ SESSIONS) }
    requires starts { E.granted → MayBeShared E.sees R.starts engine }
{
    let run = run_storm::<E, R, W>(rt, alloc, blank, engine, None, &ALONE);
    let (book, _all) = got(rt, run, "no memory for a storm");
    begins_as_known(rt, book.calls());
}
